// Operators, and the contexts of their operands.

ghost use Rattle.std.specs.Prelude.{◌≡◌, ◌&&◌, max, [], ◌∷◌, IfOk};
ghost use Rattle.bit_exprs.specs.declared.forms.Expr.{Choose};
ghost use Rattle.expr_elab.specs.declared.built.Row.TheVariants.{One, Logical as LogicalRow};
ghost use Rattle.expr_elab.specs.Contexts.{brought};
ghost use Rattle.expr_elab.specs.Operators.{unary_built, kept, reduced, row_op, common_width, common_sign, joined_in_context, in_context, compared, shifted, goes_on, one_more, row_built, chosen, alone, joined, beside, repeated};

use crate::built::{Built, Row, RowOp};
use crate::contexts::{brought, choose, one, two};
use bit_exprs::forms::{BinaryOp, Expr, UnaryOp};
use sqlite_items::Items;
use std::alloc::{AllocError, Global};
use vlog_syntax as syntax;

// ---- on one operand

fn kept(alloc: Global, op: UnaryOp, x: Built) -> Result<Built, AllocError>
    ensures { IfOk result (λ b. b ≡ kept op x) }
{
    Ok(Built {
        expr: one(alloc, op, x.expr)?,
        width: x.width,
        signed: x.signed,
        constant: x.constant,
    })
}

fn reduced(alloc: Global, op: UnaryOp, x: Built) -> Result<Built, AllocError>
    ensures { IfOk result (λ b. b ≡ reduced op x) }
{
    Ok(Built {
        expr: one(alloc, op, x.expr)?,
        width: 1,
        signed: false,
        constant: x.constant,
    })
}

/// An operator on one operand.
pub fn unary(alloc: Global, op: syntax::UnaryOp, x: Built) -> Result<Built, AllocError>
    ensures { IfOk result (λ b. b ≡ unary_built op x) }
{
    match op {
        syntax::UnaryOp::Plus => Ok(x),
        syntax::UnaryOp::Minus => kept(alloc, UnaryOp::Neg, x),
        syntax::UnaryOp::Not => kept(alloc, UnaryOp::Not, x),
        syntax::UnaryOp::LogicalNot => reduced(alloc, UnaryOp::NotAny, x),
        syntax::UnaryOp::And => reduced(alloc, UnaryOp::All, x),
        syntax::UnaryOp::Nand => reduced(alloc, UnaryOp::NotAll, x),
        syntax::UnaryOp::Or => reduced(alloc, UnaryOp::Any, x),
        syntax::UnaryOp::Nor => reduced(alloc, UnaryOp::NotAny, x),
        syntax::UnaryOp::Xor => reduced(alloc, UnaryOp::Odd, x),
        syntax::UnaryOp::TildeXor => reduced(alloc, UnaryOp::NotOdd, x),
        syntax::UnaryOp::XorTilde => reduced(alloc, UnaryOp::NotOdd, x),
    }
}

// ---- on two operands

fn wider(a: u8, b: u8) -> u8
    ensures { result ≡ max a b }
{
    if a < b { b } else { a }
}

fn common_width(x: &Built, y: &Built) -> u8
    ensures { result ≡ common_width x.now y.now }
{
    wider(x.width, y.width)
}

fn common_sign(x: &Built, y: &Built) -> bool
    ensures { result ≡ common_sign x.now y.now }
{
    x.signed && y.signed
}

fn are_constant(x: &Built, y: &Built) -> bool
    ensures { result ≡ (x.now.constant && y.now.constant) }
{
    x.constant && y.constant
}

// Two operands in their common context.
fn joined_in_context(alloc: Global, op: BinaryOp, x: Built, y: Built) -> Result<Expr, AllocError>
    ensures { IfOk result (λ e. e ≡ joined_in_context op x y) }
{
    let width = common_width(&x, &y);
    let signed = common_sign(&x, &y);
    let left = brought(alloc, x, width, signed)?;
    let right = brought(alloc, y, width, signed)?;
    two(alloc, op, left, right)
}

fn in_context(alloc: Global, op: BinaryOp, x: Built, y: Built) -> Result<Built, AllocError>
    ensures { IfOk result (λ b. b ≡ in_context op x y) }
{
    let width = common_width(&x, &y);
    let signed = common_sign(&x, &y);
    let constant = are_constant(&x, &y);
    let expr = joined_in_context(alloc, op, x, y)?;
    Ok(Built {
        expr,
        width,
        signed,
        constant,
    })
}

fn compared(alloc: Global, op: BinaryOp, x: Built, y: Built) -> Result<Built, AllocError>
    ensures { IfOk result (λ b. b ≡ compared op x y) }
{
    let constant = are_constant(&x, &y);
    let expr = joined_in_context(alloc, op, x, y)?;
    Ok(Built {
        expr,
        width: 1,
        signed: false,
        constant,
    })
}

fn shifted(alloc: Global, op: BinaryOp, x: Built, y: Built) -> Result<Built, AllocError>
    ensures { IfOk result (λ b. b ≡ shifted op x y) }
{
    let constant = are_constant(&x, &y);
    let width = x.width;
    let signed = x.signed;
    let expr = two(alloc, op, x.expr, y.expr)?;
    Ok(Built {
        expr,
        width,
        signed,
        constant,
    })
}

/// What an operator between operands makes of their contexts.
pub fn row_op(op: syntax::BinaryOp) -> RowOp
    ensures { result ≡ row_op op }
{
    match op {
        syntax::BinaryOp::Times => RowOp::InContext(BinaryOp::Mul),
        syntax::BinaryOp::Divide | syntax::BinaryOp::Remainder => RowOp::Divides,
        syntax::BinaryOp::Plus => RowOp::InContext(BinaryOp::Add),
        syntax::BinaryOp::Minus => RowOp::InContext(BinaryOp::Sub),
        syntax::BinaryOp::ShiftLeft => RowOp::Shifts(BinaryOp::Shl),
        syntax::BinaryOp::ShiftRight => RowOp::Shifts(BinaryOp::Shr),
        syntax::BinaryOp::Less => RowOp::Compares(BinaryOp::Less),
        syntax::BinaryOp::AtMost => RowOp::Compares(BinaryOp::LessEqual),
        syntax::BinaryOp::Greater => RowOp::Compares(BinaryOp::Greater),
        syntax::BinaryOp::AtLeast => RowOp::Compares(BinaryOp::GreaterEqual),
        syntax::BinaryOp::Equal => RowOp::Compares(BinaryOp::Equal),
        syntax::BinaryOp::NotEqual => RowOp::Compares(BinaryOp::NotEqual),
        syntax::BinaryOp::And => RowOp::InContext(BinaryOp::And),
        syntax::BinaryOp::Xor => RowOp::InContext(BinaryOp::Xor),
        syntax::BinaryOp::XorTilde | syntax::BinaryOp::TildeXor => RowOp::InContext(BinaryOp::Xnor),
        syntax::BinaryOp::Or => RowOp::InContext(BinaryOp::Or),
        syntax::BinaryOp::LogicalAnd => RowOp::Logical { and: true },
        syntax::BinaryOp::LogicalOr => RowOp::Logical { and: false },
    }
}

// ---- rows

fn two_operands(alloc: Global, x: Expr, y: Expr) -> Result<Items<Expr>, AllocError>
    ensures { IfOk result (λ operands. operands ≡ x ∷ y ∷ []) }
{
    let mut operands = Items::new(alloc);
    operands.push(x)?;
    operands.push(y)?;
    Ok(operands)
}

fn logical(alloc: Global, and: bool, x: Built, y: Built) -> Result<Row, AllocError>
    ensures { IfOk result (λ r. r ≡ LogicalRow and (x.expr ∷ y.expr ∷ []) (x.constant && y.constant)) }
{
    let constant = are_constant(&x, &y);
    let operands = two_operands(alloc, x.expr, y.expr)?;
    Ok(Row::Logical {
        and,
        operands,
        constant,
    })
}

fn second(alloc: Global, x: Built, op: RowOp, y: Built) -> Result<Option<Row>, AllocError>
    ensures { IfOk result (λ r. r ≡ one_more (One x) op y) }
{
    match op {
        RowOp::InContext(op) => Ok(Some(Row::One(in_context(alloc, op, x, y)?))),
        RowOp::Compares(op) => Ok(Some(Row::One(compared(alloc, op, x, y)?))),
        RowOp::Shifts(op) => Ok(Some(Row::One(shifted(alloc, op, x, y)?))),
        RowOp::Logical { and } => Ok(Some(logical(alloc, and, x, y)?)),
        RowOp::Divides => Ok(None),
    }
}

// Whether it is `&&` once more, or `||`.
fn goes_on(and: bool, op: RowOp) -> bool
    ensures { result ≡ goes_on and op }
{
    match op {
        RowOp::Logical { and: also } => { if and { also } else { !also } }
        _ => false,
    }
}

/// A row with an operand more. None where it isn't built.
pub fn one_more(alloc: Global, row: Row, op: RowOp, y: Built) -> Result<Option<Row>, AllocError>
    ensures { IfOk result (λ r. r ≡ one_more row op y) }
{
    match row {
        Row::One(x) => second(alloc, x, op, y),
        Row::Logical {
            and,
            mut operands,
            constant,
        } => {
            if !goes_on(and, op) {
                return Ok(None);
            }
            let constant = constant && y.constant;
            operands.push(y.expr)?;
            Ok(Some(Row::Logical {
                and,
                operands,
                constant,
            }))
        }
    }
}

/// A row as an expression.
pub fn row_built(row: Row) -> Built
    ensures { result ≡ row_built row }
{
    match row {
        Row::One(x) => x,
        Row::Logical {
            and,
            operands,
            constant,
        } => Built {
            expr: Expr::Logical {
                and,
                chain: None,
                operands,
            },
            width: 1,
            signed: false,
            constant,
        },
    }
}

// ---- `?:`

fn chosen_expr(alloc: Global, test: Expr, x: Built, y: Built) -> Result<Expr, AllocError>
    ensures { IfOk result (λ e. e ≡ Choose test (brought (common_width x y) (common_sign x y) x) (brought (common_width x y) (common_sign x y) y)) }
{
    let width = common_width(&x, &y);
    let signed = common_sign(&x, &y);
    let yes = brought(alloc, x, width, signed)?;
    let no = brought(alloc, y, width, signed)?;
    choose(alloc, test, yes, no)
}

/// `test ? x : y`
pub fn chosen(alloc: Global, test: Built, x: Built, y: Built) -> Result<Built, AllocError>
    ensures { IfOk result (λ b. b ≡ chosen test x y) }
{
    let width = common_width(&x, &y);
    let signed = common_sign(&x, &y);
    let constant = test.constant && are_constant(&x, &y);
    let expr = chosen_expr(alloc, test.expr, x, y)?;
    Ok(Built {
        expr,
        width,
        signed,
        constant,
    })
}

// ---- concatenations

fn alone(alloc: Global, x: Built) -> Result<Built, AllocError>
    ensures { IfOk result (λ b. b ≡ alone x) }
{
    Ok(Built {
        expr: one(alloc, UnaryOp::Repeat { count: 1 }, x.expr)?,
        width: x.width,
        signed: false,
        constant: x.constant,
    })
}

fn joined(alloc: Global, x: Built, y: Built, width: u8) -> Result<Built, AllocError>
    ensures { IfOk result (λ b. b ≡ joined width x y) }
{
    let constant = are_constant(&x, &y);
    let expr = two(alloc, BinaryOp::Join, x.expr, y.expr)?;
    Ok(Built {
        expr,
        width,
        signed: false,
        constant,
    })
}

/// A value behind those of a concatenation. None where there are more than 128 bits.
pub fn beside(alloc: Global, left: Option<Built>, y: Built) -> Result<Option<Built>, AllocError>
    ensures { IfOk result (λ b. b ≡ beside left y) }
{
    match left {
        None => Ok(Some(alone(alloc, y)?)),
        Some(x) => {
            let width = x.width as u16 + y.width as u16;
            if width <= 128 {
                Ok(Some(joined(alloc, x, y, width as u8)?))
            } else {
                Ok(None)
            }
        }
    }
}

/// A value so many times side by side. None where there are more than 128 bits.
pub fn repeated(alloc: Global, count: u8, x: Built) -> Result<Option<Built>, AllocError>
    ensures { IfOk result (λ b. b ≡ repeated count x) }
{
    let width = count as u16 * x.width as u16;
    if width > 128 {
        return Ok(None);
    }
    Ok(Some(Built {
        expr: one(alloc, UnaryOp::Repeat { count }, x.expr)?,
        width: width as u8,
        signed: false,
        constant: x.constant,
    }))
}
