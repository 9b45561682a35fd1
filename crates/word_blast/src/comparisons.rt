//! Circuits of reductions and comparisons, which answer one literal.

ghost use Rattle.std.specs.Prelude.{◌≡◌, ◌≤◌, length, All, IfOk, if◌then◌else◌};
ghost use Rattle.aig_core.specs.Graph.{IsLiteral, IsWellFormed, Extends, KeepsValues};
ghost use Rattle.word_core.specs.Words.{any, all, odd};
ghost use Rattle.word_blast.specs.Words.{circuit_any, circuit_all, circuit_odd, circuit_equal, circuit_less, not_below, top_negated, one_bit, reduced, equality, order, GivesWord};

use crate::loops::{Comparison, Op, compare, fold, repeated, top_negated_word};
use aig_core::{Aig, Memory, negated};

// The literal of `a` not below `b`.
fn not_below(aig: &mut Aig, a: &[u32], b: &[u32], signed: bool) -> Result<u32, Memory>
    requires widths { length b.now ≡ length a.now }
    requires a_exists { All (IsLiteral aig.old) a.now }
    requires b_exists { All (IsLiteral aig.old) b.now }
    ensures exact { IfOk result (λ r. (aig.new, r) ≡ (if signed then not_below aig.old (top_negated a.now) (top_negated b.now) else not_below aig.old a.now b.now)) }
    ensures exists { IfOk result (IsLiteral aig.new) }
    ensures kept { Extends aig.old aig.new }
    ensures was_well_formed { IsWellFormed aig.old }
{
    if signed {
        let turned_a = top_negated_word(aig, a)?;
        let turned_b = top_negated_word(aig, b)?;
        let literal = compare(aig, Comparison::NotBelow, &turned_a, &turned_b)?;
        return Ok(literal);
    }
    let literal = compare(aig, Comparison::NotBelow, a, b)?;
    Ok(literal)
}

/// Whether some bit is 1. The answer is one literal.
#[tactic(auto, using(aig_core::proofs::Values::keeping, crate::proofs::Combinators::lasting))]
pub fn blast_any(aig: &mut Aig, a: &[u32]) -> Result<Vec<u32>, Memory>
    requires { All (IsLiteral aig.old) a.now }
    ensures exact { IfOk result (λ r. (aig.new, r.items) ≡ one_bit (circuit_any aig.old a.now)) }
    ensures meaning { IfOk result (λ r. GivesWord aig.old aig.new r.items 1 (reduced any aig.old a.now)) }
    ensures exist { IfOk result (λ r. All (IsLiteral aig.new) r.items) }
    ensures width { IfOk result (λ r. length r.items ≡ 1) }
    ensures kept { Extends aig.old aig.new }
    ensures old_values { KeepsValues aig.old aig.new }
{
    let literal = fold(aig, Op::Or, 0, a)?;
    let bits = repeated(aig.allocator(), literal, 1)?;
    Ok(bits)
}

/// Whether each bit is 1. The answer is one literal.
#[tactic(auto, using(aig_core::proofs::Values::keeping, crate::proofs::Combinators::lasting))]
pub fn blast_all(aig: &mut Aig, a: &[u32]) -> Result<Vec<u32>, Memory>
    requires { All (IsLiteral aig.old) a.now }
    ensures exact { IfOk result (λ r. (aig.new, r.items) ≡ one_bit (circuit_all aig.old a.now)) }
    ensures meaning { IfOk result (λ r. GivesWord aig.old aig.new r.items 1 (reduced all aig.old a.now)) }
    ensures exist { IfOk result (λ r. All (IsLiteral aig.new) r.items) }
    ensures width { IfOk result (λ r. length r.items ≡ 1) }
    ensures kept { Extends aig.old aig.new }
    ensures old_values { KeepsValues aig.old aig.new }
{
    let literal = fold(aig, Op::And, 1, a)?;
    let bits = repeated(aig.allocator(), literal, 1)?;
    Ok(bits)
}

/// Whether an odd number of bits is 1. The answer is one literal.
#[tactic(auto, using(aig_core::proofs::Values::keeping, crate::proofs::Combinators::lasting))]
pub fn blast_odd(aig: &mut Aig, a: &[u32]) -> Result<Vec<u32>, Memory>
    requires { All (IsLiteral aig.old) a.now }
    ensures exact { IfOk result (λ r. (aig.new, r.items) ≡ one_bit (circuit_odd aig.old a.now)) }
    ensures meaning { IfOk result (λ r. GivesWord aig.old aig.new r.items 1 (reduced odd aig.old a.now)) }
    ensures exist { IfOk result (λ r. All (IsLiteral aig.new) r.items) }
    ensures width { IfOk result (λ r. length r.items ≡ 1) }
    ensures kept { Extends aig.old aig.new }
    ensures old_values { KeepsValues aig.old aig.new }
{
    let literal = fold(aig, Op::Xor, 0, a)?;
    let bits = repeated(aig.allocator(), literal, 1)?;
    Ok(bits)
}

/// Whether the words are equal. The widths are equal, and the answer is one literal.
#[tactic(auto, using(aig_core::proofs::Values::keeping, crate::proofs::Combinators::lasting))]
pub fn blast_equal(aig: &mut Aig, a: &[u32], b: &[u32]) -> Result<Vec<u32>, Memory>
    requires widths { length b.now ≡ length a.now }
    requires a_exists { All (IsLiteral aig.old) a.now }
    requires b_exists { All (IsLiteral aig.old) b.now }
    ensures exact { IfOk result (λ r. (aig.new, r.items) ≡ one_bit (circuit_equal aig.old a.now b.now)) }
    ensures meaning { IfOk result (λ r. GivesWord aig.old aig.new r.items 1 (equality aig.old a.now b.now)) }
    ensures exist { IfOk result (λ r. All (IsLiteral aig.new) r.items) }
    ensures width { IfOk result (λ r. length r.items ≡ 1) }
    ensures kept { Extends aig.old aig.new }
    ensures old_values { KeepsValues aig.old aig.new }
{
    let literal = compare(aig, Comparison::Equal, a, b)?;
    let bits = repeated(aig.allocator(), literal, 1)?;
    Ok(bits)
}

/// Whether `a` is below `b`, as signed values or as numbers. The widths are equal and at least 1, and the answer is one literal.
#[tactic(auto, using(aig_core::proofs::Values::keeping, crate::proofs::Combinators::lasting))]
pub fn blast_less(aig: &mut Aig, a: &[u32], b: &[u32], signed: bool) -> Result<Vec<u32>, Memory>
    requires some { 1 ≤ length a.now }
    requires widths { length b.now ≡ length a.now }
    requires a_exists { All (IsLiteral aig.old) a.now }
    requires b_exists { All (IsLiteral aig.old) b.now }
    ensures exact { IfOk result (λ r. (aig.new, r.items) ≡ one_bit (circuit_less aig.old signed a.now b.now)) }
    ensures meaning { IfOk result (λ r. GivesWord aig.old aig.new r.items 1 (order signed aig.old a.now b.now)) }
    ensures exist { IfOk result (λ r. All (IsLiteral aig.new) r.items) }
    ensures width { IfOk result (λ r. length r.items ≡ 1) }
    ensures kept { Extends aig.old aig.new }
    ensures old_values { KeepsValues aig.old aig.new }
{
    let literal = not_below(aig, a, b, signed)?;
    let bits = repeated(aig.allocator(), negated(literal), 1)?;
    Ok(bits)
}
