// The operators on words.

ghost use Rattle.std.specs.Prelude.{◌≡◌, ◌≤◌, ◌*◌, ◌+◌, ◌-◌, Bool};
ghost use Rattle.word_core.specs.Words.{bit};
ghost use Rattle.bit_exprs.specs.Operators.{unary_width, unary_value, binary_width, binary_value, repeated};
ghost use Rattle.bit_exprs.specs.Formed.{Takes, TakesBoth};

use bit_exprs::forms::{BinaryOp, UnaryOp};
use word_core::Word;

/// A word of one bit.
pub fn flag(on: bool) -> Word
    ensures width { result.width ≡ 1 }
    ensures bits { result.bits ≡ bit on }
{
    if on {
        return Word::make(1, 1);
    }
    Word::make(1, 0)
}

/// The word so many times side by side. They have at most 128 bits.
fn repeat(count: u8, a: Word) -> Word
    requires some { 1 ≤ count }
    requires room { count * a.width ≤ 128 }
    ensures width { result.width ≡ count * a.width }
    ensures bits { result.bits ≡ repeated count a.width a.bits }
{
    let mut all = a;
    for _ in 1..count {
        all = all.join(a);
    }
    all
}

/// An operator on one word. It takes no memory.
pub fn unary(op: UnaryOp, a: Word) -> Word
    requires { Takes op a.width }
    ensures width { result.width ≡ unary_width op a.width }
    ensures bits { result.bits ≡ unary_value op a.width a.bits }
{
    match op {
        UnaryOp::Not => a.not(),
        UnaryOp::Neg => a.neg(),
        UnaryOp::Extend { width, signed } => a.extend(width, signed),
        UnaryOp::Repeat { count } => repeat(count, a),
        UnaryOp::All => flag(a.all()),
        UnaryOp::NotAll => flag(!a.all()),
        UnaryOp::Any => flag(a.any()),
        UnaryOp::NotAny => flag(!a.any()),
        UnaryOp::Odd => flag(a.odd()),
        UnaryOp::NotOdd => flag(!a.odd()),
    }
}

/// An operator on two words, whose order is that of signed values where `signed` says so. It takes no memory.
pub fn binary(op: BinaryOp, signed: bool, a: Word, b: Word) -> Word
    requires { TakesBoth op a.width b.width }
    ensures width { result.width ≡ binary_width op a.width b.width }
    ensures bits { result.bits ≡ binary_value op signed a.width b.width a.bits b.bits }
{
    match op {
        BinaryOp::Add => a.add(b),
        BinaryOp::Sub => a.sub(b),
        BinaryOp::Mul => a.mul(b),
        BinaryOp::And => a.and(b),
        BinaryOp::Or => a.or(b),
        BinaryOp::Xor => a.xor(b),
        BinaryOp::Xnor => a.xnor(b),
        BinaryOp::Equal => flag(a.equal(b)),
        BinaryOp::NotEqual => flag(!a.equal(b)),
        BinaryOp::Less => flag(a.less(b, signed)),
        BinaryOp::LessEqual => flag(!b.less(a, signed)),
        BinaryOp::Greater => flag(b.less(a, signed)),
        BinaryOp::GreaterEqual => flag(!a.less(b, signed)),
        BinaryOp::Shl => a.shl(b),
        BinaryOp::Shr => a.shr(b),
        BinaryOp::Join => a.join(b),
    }
}
