// Bringing expressions to the width and the sign of their contexts.

ghost use Rattle.std.specs.Prelude.{◌≡◌, ◌==◌, ◌&&◌, not, cond, IfOk};
ghost use Rattle.bit_exprs.specs.declared.forms.Expr.{Unary, Binary, Choose};
ghost use Rattle.bit_exprs.specs.declared.forms.UnaryOp.TheVariants.{Extend};
ghost use Rattle.expr_elab.specs.Contexts.{unary_passing, binary_passing, pushed, brought};

use crate::built::{BinaryPassing, Built, UnaryPassing};
use bit_exprs::forms::{BinaryOp, Expr, UnaryOp};
use sqlite_items::Boxed;
use std::alloc::{AllocError, Global};

/// An operator on one operand.
pub fn one(alloc: Global, op: UnaryOp, value: Expr) -> Result<Expr, AllocError>
    ensures { IfOk result (λ e. e ≡ Unary op value) }
{
    Ok(Expr::Unary {
        op,
        value: Boxed::new(alloc, value)?,
    })
}

/// An operator on two operands.
pub fn two(alloc: Global, op: BinaryOp, left: Expr, right: Expr) -> Result<Expr, AllocError>
    ensures { IfOk result (λ e. e ≡ Binary op left right) }
{
    Ok(Expr::Binary {
        op,
        left: Boxed::new(alloc, left)?,
        right: Boxed::new(alloc, right)?,
    })
}

/// `cond ? yes : no`
pub fn choose(alloc: Global, cond: Expr, yes: Expr, no: Expr) -> Result<Expr, AllocError>
    ensures { IfOk result (λ e. e ≡ Choose cond yes no) }
{
    Ok(Expr::Choose {
        cond: Boxed::new(alloc, cond)?,
        yes: Boxed::new(alloc, yes)?,
        no: Boxed::new(alloc, no)?,
    })
}

fn extended(alloc: Global, expr: Expr, width: u8, signed: bool) -> Result<Expr, AllocError>
    ensures { IfOk result (λ e. e ≡ Unary (Extend width signed) expr) }
{
    one(alloc, UnaryOp::Extend { width, signed }, expr)
}

fn unary_passing(op: UnaryOp) -> UnaryPassing
    ensures { result ≡ unary_passing op }
{
    match op {
        UnaryOp::Not | UnaryOp::Neg => UnaryPassing::On,
        UnaryOp::Extend { .. } => UnaryPassing::Anew,
        _ => UnaryPassing::Ends,
    }
}

fn binary_passing(op: BinaryOp) -> BinaryPassing
    ensures { result ≡ binary_passing op }
{
    match op {
        BinaryOp::Add | BinaryOp::Sub | BinaryOp::Mul => BinaryPassing::Both,
        BinaryOp::And | BinaryOp::Or | BinaryOp::Xor | BinaryOp::Xnor => BinaryPassing::Both,
        BinaryOp::Shl | BinaryOp::Shr => BinaryPassing::Left,
        _ => BinaryPassing::Ends,
    }
}

// An expression in a context. The time is linear in the expression.
fn pushed(alloc: Global, expr: Expr, width: u8, signed: bool) -> Result<Expr, AllocError>
    ensures { IfOk result (λ e. e ≡ pushed width signed expr) }
{
    match expr {
        Expr::Const { word, signed: own } => {
            extended(alloc, Expr::Const { word, signed: own }, width, signed)
        }
        Expr::Read(bits) => extended(alloc, Expr::Read(bits), width, signed),
        Expr::Select {
            vector,
            window,
            index,
        } => {
            let whole = Expr::Select {
                vector,
                window,
                index,
            };
            extended(alloc, whole, width, signed)
        }
        Expr::Unary { op, value } => match unary_passing(op) {
            UnaryPassing::On => {
                let value = pushed(alloc, value.into_inner(), width, signed)?;
                let all = one(alloc, op, value)?;
                Ok(all)
            }
            UnaryPassing::Anew => {
                let all = extended(alloc, value.into_inner(), width, signed)?;
                Ok(all)
            }
            UnaryPassing::Ends => {
                let all = extended(alloc, Expr::Unary { op, value }, width, signed)?;
                Ok(all)
            }
        },
        Expr::Binary { op, left, right } => match binary_passing(op) {
            BinaryPassing::Both => {
                let left = pushed(alloc, left.into_inner(), width, signed)?;
                let right = pushed(alloc, right.into_inner(), width, signed)?;
                let all = two(alloc, op, left, right)?;
                Ok(all)
            }
            BinaryPassing::Left => {
                let left = pushed(alloc, left.into_inner(), width, signed)?;
                let all = two(alloc, op, left, right.into_inner())?;
                Ok(all)
            }
            BinaryPassing::Ends => {
                let all = extended(alloc, Expr::Binary { op, left, right }, width, signed)?;
                Ok(all)
            }
        },
        Expr::Choose { cond, yes, no } => {
            let yes = pushed(alloc, yes.into_inner(), width, signed)?;
            let no = pushed(alloc, no.into_inner(), width, signed)?;
            let all = choose(alloc, cond.into_inner(), yes, no)?;
            Ok(all)
        }
        Expr::Logical {
            and,
            chain,
            operands,
        } => {
            let whole = Expr::Logical {
                and,
                chain,
                operands,
            };
            extended(alloc, whole, width, signed)
        }
    }
}

// Whether it has this width and this sign by itself.
fn fits(built: &Built, width: u8, signed: bool) -> bool
    ensures { result ≡ (built.now.width == width && cond built.now.signed signed (not signed)) }
{
    let same = if built.signed { signed } else { !signed };
    built.width == width && same
}

/// An expression in a context, as it is where it has that width and sign by itself. The error is that memory ran out.
pub fn brought(alloc: Global, built: Built, width: u8, signed: bool) -> Result<Expr, AllocError>
    ensures { IfOk result (λ e. e ≡ brought width signed built) }
{
    if fits(&built, width, signed) {
        return Ok(built.expr);
    }
    pushed(alloc, built.expr, width, signed)
}
