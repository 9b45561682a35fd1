// What operators cost, and how wide their words are.

ghost use Rattle.std.specs.Prelude.{◌≡◌, ◌+◌, ◌-◌, ◌*◌};
ghost use Rattle.bit_exprs.specs.Cost.{capped, unary_cost, binary_cost, stages};
ghost use Rattle.bit_exprs.specs.Operators.{unary_width, binary_width};

use crate::sums::{plus, times};
use bit_exprs::forms::{BinaryOp, UnaryOp};

/// The width of an operator's word, from its operand's.
pub fn unary_width(op: UnaryOp, width: u64) -> u64
    ensures { result ≡ capped (unary_width op width) }
{
    match op {
        UnaryOp::Not | UnaryOp::Neg => width,
        UnaryOp::Extend { width, signed: _ } => width as u64,
        UnaryOp::Repeat { count } => times(count as u64, width),
        _ => 1,
    }
}

/// What an operator on a word of this width costs.
pub fn unary_cost(op: UnaryOp, width: u64) -> u64
    ensures { result ≡ capped (unary_cost op width) }
{
    match op {
        UnaryOp::Not | UnaryOp::Extend { .. } | UnaryOp::Repeat { .. } => 0,
        UnaryOp::Neg => times(10, width),
        UnaryOp::All | UnaryOp::NotAll | UnaryOp::Any | UnaryOp::NotAny => width,
        UnaryOp::Odd | UnaryOp::NotOdd => times(3, width),
    }
}

/// The width of an operator's word, from its operands'.
pub fn binary_width(op: BinaryOp, left: u64, right: u64) -> u64
    ensures { result ≡ capped (binary_width op left right) }
{
    match op {
        BinaryOp::Equal | BinaryOp::NotEqual => 1,
        BinaryOp::Less | BinaryOp::LessEqual | BinaryOp::Greater | BinaryOp::GreaterEqual => 1,
        BinaryOp::Join => plus(left, right),
        _ => left,
    }
}

// How many of the bits of a distance move a word of this width by less than the width.
fn stages(width: u64, distance: u64) -> u64
    ensures { result ≡ stages 1 width distance }
{
    let mut places: u128 = 1;
    for stage in 0..distance {
        if places >= width as u128 {
            return stage;
        }
        places *= 2;
    }
    distance
}

#[tactic(auto, using(crate::proofs::CostLaws::product_is, crate::proofs::CostLaws::shift_is))]
fn shift_cost(width: u64, distance: u64) -> u64
    ensures { result ≡ capped (3 * width * stages 1 width distance + width + distance) }
{
    let choices = times(times(3, width), stages(width, distance));
    plus(plus(choices, width), distance)
}

/// What an operator on words of these widths costs.
#[tactic(auto, using(crate::proofs::CostLaws::product_is))]
pub fn binary_cost(op: BinaryOp, left: u64, right: u64) -> u64
    ensures { result ≡ capped (binary_cost op left right) }
{
    match op {
        BinaryOp::Add | BinaryOp::Sub => times(10, left),
        BinaryOp::Mul => times(times(11, left), left),
        BinaryOp::And | BinaryOp::Or => left,
        BinaryOp::Xor | BinaryOp::Xnor => times(3, left),
        BinaryOp::Equal | BinaryOp::NotEqual => times(4, left),
        BinaryOp::Less | BinaryOp::LessEqual => times(10, left),
        BinaryOp::Greater | BinaryOp::GreaterEqual => times(10, left),
        BinaryOp::Shl | BinaryOp::Shr => shift_cost(left, right),
        BinaryOp::Join => 0,
    }
}

#[cfg(test)]
mod tests {
    use super::*;

    // Words of 8 bits, and distances of 4.
    #[test]
    fn costs_two_words(rt: HostRuntime) {
        for (op, cost) in [
            (BinaryOp::Add, 80),
            (BinaryOp::Mul, 704),
            (BinaryOp::And, 8),
            (BinaryOp::Xor, 24),
            (BinaryOp::Equal, 32),
            (BinaryOp::Less, 80),
            (BinaryOp::Shl, 84),
            (BinaryOp::Join, 0),
        ] {
            assert_eq!(rt; binary_cost(op, 8, 4), cost);
        }
    }

    #[test]
    fn costs_one_word(rt: HostRuntime) {
        for (op, cost) in [
            (UnaryOp::Not, 0),
            (UnaryOp::Neg, 80),
            (UnaryOp::Any, 8),
            (UnaryOp::Odd, 24),
        ] {
            assert_eq!(rt; unary_cost(op, 8), cost);
        }
    }
}
