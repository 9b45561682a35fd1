//! Whether expressions are signed.

ghost use Rattle.std.specs.Prelude.{◌≡◌, ◌&&◌};
ghost use Rattle.bit_exprs.specs.Values.{sign_of};
ghost use Rattle.bit_exprs.specs.Operators.{unary_sign, binary_sign};

use crate::forms::{BinaryOp, Expr, UnaryOp};

/// Whether both are signed.
pub fn both(a: bool, b: bool) -> bool
    ensures { result ≡ (a && b) }
{
    a && b
}

fn unary_sign(op: UnaryOp, signed: bool) -> bool
    ensures { result ≡ unary_sign op signed }
{
    match op {
        UnaryOp::Not | UnaryOp::Neg => signed,
        UnaryOp::Extend { width: _, signed } => signed,
        _ => false,
    }
}

fn binary_sign(op: BinaryOp, left: bool, right: bool) -> bool
    ensures { result ≡ binary_sign op left right }
{
    match op {
        BinaryOp::Add | BinaryOp::Sub | BinaryOp::Mul => left && right,
        BinaryOp::And | BinaryOp::Or | BinaryOp::Xor | BinaryOp::Xnor => left && right,
        BinaryOp::Shl | BinaryOp::Shr => left,
        _ => false,
    }
}

/// Whether an expression is signed. It takes no memory.
pub fn is_signed(expr: &Expr) -> bool
    ensures { result ≡ sign_of expr.now }
{
    match expr {
        Expr::Const { word: _, signed } => *signed,
        Expr::Read(_) => false,
        Expr::Select { .. } => false,
        Expr::Unary { op, value } => unary_sign(*op, is_signed(value.get())),
        Expr::Binary { op, left, right } => {
            let l = is_signed(left.get());
            let r = is_signed(right.get());
            binary_sign(*op, l, r)
        }
        Expr::Choose { cond: _, yes, no } => {
            let y = is_signed(yes.get());
            let n = is_signed(no.get());
            both(y, n)
        }
        Expr::Logical { .. } => false,
    }
}
