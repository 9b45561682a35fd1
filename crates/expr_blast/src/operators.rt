// The operators on words.

ghost use Rattle.std.specs.Prelude.{◌≡◌, ◌≤◌, ◌*◌, ◌+◌, length, All, IfOk, OnOk};
ghost use Rattle.aig_core.specs.Graph.{IsLiteral, IsWellFormed, Extends};
ghost use Rattle.word_blast.specs.Words.{circuit_any};
ghost use Rattle.bit_exprs.specs.Operators.{unary_width, binary_width};
ghost use Rattle.bit_exprs.specs.Formed.{IsWidth, Takes, TakesBoth};
ghost use Rattle.expr_blast.specs.Circuits.{operand_step, unary_of, binary_of};

use crate::literals::{copies, extended, joined};
use aig_core::{Aig, Memory};
use bit_exprs::forms::{BinaryOp, UnaryOp};
use word_blast::{
    bits, blast_add, blast_all, blast_and, blast_any, blast_equal, blast_less, blast_mul,
    blast_neg, blast_not, blast_odd, blast_or, blast_shl, blast_shr, blast_sub, blast_xnor,
    blast_xor,
};

/// Whether a word isn't 0.
#[tactic(auto, using(aig_core::proofs::Values::keeping))]
pub fn any(aig: &mut Aig, word: &[u32]) -> Result<u32, Memory>
    requires { All (IsLiteral aig.old) word.now }
    ensures exact { IfOk result (λ r. (aig.new, r) ≡ circuit_any aig.old word.now) }
    ensures exists { IfOk result (IsLiteral aig.new) }
    ensures kept { Extends aig.old aig.new }
{
    let literals = blast_any(aig, word)?;
    Ok(literals[0])
}

/// One operand more of a row of `&&`, where `and` is true, or of `||`.
#[tactic(auto, using(aig_core::proofs::Values::keeping))]
pub fn with_operand(aig: &mut Aig, and: bool, so_far: u32, word: &[u32]) -> Result<u32, Memory>
    requires so_far_exists { IsLiteral aig.old so_far }
    requires word_exists { All (IsLiteral aig.old) word.now }
    ensures exact { IfOk result (λ r. (aig.new, r) ≡ operand_step and so_far aig.old word.now) }
    ensures exists { IfOk result (IsLiteral aig.new) }
    ensures kept { Extends aig.old aig.new }
{
    let next = any(aig, word)?;
    if and {
        return bits::and(aig, so_far, next);
    }
    bits::or(aig, so_far, next)
}

/// The gates of an operator on one word.
#[tactic(auto, using(aig_core::proofs::Values::keeping))]
pub fn unary(aig: &mut Aig, op: UnaryOp, word: &[u32]) -> Result<Vec<u32>, Memory>
    requires some { 1 ≤ length word.now }
    requires takes { Takes op (length word.now) }
    requires exists { All (IsLiteral aig.old) word.now }
    ensures exact { IfOk result (λ r. (aig.new, r.items) ≡ unary_of op aig.old word.now) }
    ensures exist { IfOk result (λ r. All (IsLiteral aig.new) r.items) }
    ensures width { IfOk result (λ r. length r.items ≡ unary_width op (length word.now)) }
    ensures kept { Extends aig.old aig.new }
{
    let alloc = aig.allocator();
    match op {
        UnaryOp::Not => blast_not(aig, word),
        UnaryOp::Neg => blast_neg(aig, word),
        UnaryOp::Extend { width, signed } => {
            let longer = extended(alloc, word, width, signed)?;
            Ok(longer)
        }
        UnaryOp::Repeat { count } => {
            let all = copies(alloc, word, count)?;
            Ok(all)
        }
        UnaryOp::All => blast_all(aig, word),
        UnaryOp::NotAll => {
            let every = blast_all(aig, word)?;
            blast_not(aig, &every)
        }
        UnaryOp::Any => blast_any(aig, word),
        UnaryOp::NotAny => {
            let some = blast_any(aig, word)?;
            blast_not(aig, &some)
        }
        UnaryOp::Odd => blast_odd(aig, word),
        UnaryOp::NotOdd => {
            let odd = blast_odd(aig, word)?;
            blast_not(aig, &odd)
        }
    }
}

/// The gates of an operator on two words, whose order is that of signed values where `signed` says so.
#[tactic(auto, using(aig_core::proofs::Values::keeping))]
pub fn binary(
    aig: &mut Aig,
    op: BinaryOp,
    signed: bool,
    left: &[u32],
    right: &[u32],
) -> Result<Vec<u32>, Memory>
    requires wide { IsWidth (length left.now) }
    requires takes { TakesBoth op (length left.now) (length right.now) }
    requires left_exists { All (IsLiteral aig.old) left.now }
    requires right_exists { All (IsLiteral aig.old) right.now }
    ensures exact { IfOk result (λ r. (aig.new, r.items) ≡ binary_of op signed aig.old left.now right.now) }
    ensures exist { IfOk result (λ r. All (IsLiteral aig.new) r.items) }
    ensures width { IfOk result (λ r. length r.items ≡ binary_width op (length left.now) (length right.now)) }
    ensures kept { Extends aig.old aig.new }
{
    match op {
        BinaryOp::Add => blast_add(aig, left, right),
        BinaryOp::Sub => blast_sub(aig, left, right),
        BinaryOp::Mul => blast_mul(aig, left, right),
        BinaryOp::And => blast_and(aig, left, right),
        BinaryOp::Or => blast_or(aig, left, right),
        BinaryOp::Xor => blast_xor(aig, left, right),
        BinaryOp::Xnor => blast_xnor(aig, left, right),
        BinaryOp::Equal => blast_equal(aig, left, right),
        BinaryOp::NotEqual => {
            let equal = blast_equal(aig, left, right)?;
            blast_not(aig, &equal)
        }
        BinaryOp::Less => blast_less(aig, left, right, signed),
        BinaryOp::LessEqual => {
            let above = blast_less(aig, right, left, signed)?;
            blast_not(aig, &above)
        }
        BinaryOp::Greater => blast_less(aig, right, left, signed),
        BinaryOp::GreaterEqual => {
            let below = blast_less(aig, left, right, signed)?;
            blast_not(aig, &below)
        }
        BinaryOp::Shl => blast_shl(aig, left, right),
        BinaryOp::Shr => blast_shr(aig, left, right),
        BinaryOp::Join => joined(aig.allocator(), right, left),
    }
}
