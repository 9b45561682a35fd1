//! Circuits that go bit by bit.

ghost use Rattle.std.specs.Prelude.{◌≡◌, ◌≤◌, length, All, IfOk};
ghost use Rattle.aig_core.specs.Graph.{IsLiteral, IsWellFormed, Extends, KeepsValues};
ghost use Rattle.word_core.specs.Words.{word_not, word_and, word_or, word_xor, word_xnor};
ghost use Rattle.word_blast.specs.Words.{circuit_not, circuit_and, circuit_or, circuit_xor, circuit_xnor, circuit_mux, value_1, value_2, choice_of_words, GivesWord};

use crate::loops::{Op, choose, each, negated_word};
use aig_core::{Aig, Memory};

/// Each bit negated. It makes no gate.
#[tactic(auto, using(aig_core::proofs::Values::keeping, crate::proofs::Combinators::lasting))]
pub fn blast_not(aig: &mut Aig, a: &[u32]) -> Result<Vec<u32>, Memory>
    requires { All (IsLiteral aig.old) a.now }
    ensures exact { IfOk result (λ r. (aig.new, r.items) ≡ circuit_not aig.old a.now) }
    ensures meaning { IfOk result (λ r. GivesWord aig.old aig.new r.items (length a.now) (value_1 word_not aig.old a.now)) }
    ensures exist { IfOk result (λ r. All (IsLiteral aig.new) r.items) }
    ensures width { IfOk result (λ r. length r.items ≡ length a.now) }
    ensures kept { Extends aig.old aig.new }
    ensures old_values { KeepsValues aig.old aig.new }
{
    let bits = negated_word(aig, a)?;
    Ok(bits)
}

/// The conjunction, bit by bit. The widths are equal.
#[tactic(auto, using(aig_core::proofs::Values::keeping, crate::proofs::Combinators::lasting))]
pub fn blast_and(aig: &mut Aig, a: &[u32], b: &[u32]) -> Result<Vec<u32>, Memory>
    requires widths { length b.now ≡ length a.now }
    requires a_exists { All (IsLiteral aig.old) a.now }
    requires b_exists { All (IsLiteral aig.old) b.now }
    ensures exact { IfOk result (λ r. (aig.new, r.items) ≡ circuit_and aig.old a.now b.now) }
    ensures meaning { IfOk result (λ r. GivesWord aig.old aig.new r.items (length a.now) (value_2 word_and aig.old a.now b.now)) }
    ensures exist { IfOk result (λ r. All (IsLiteral aig.new) r.items) }
    ensures width { IfOk result (λ r. length r.items ≡ length a.now) }
    ensures kept { Extends aig.old aig.new }
    ensures old_values { KeepsValues aig.old aig.new }
{
    let bits = each(aig, Op::And, a, b)?;
    Ok(bits)
}

/// The disjunction, bit by bit. The widths are equal.
#[tactic(auto, using(aig_core::proofs::Values::keeping, crate::proofs::Combinators::lasting))]
pub fn blast_or(aig: &mut Aig, a: &[u32], b: &[u32]) -> Result<Vec<u32>, Memory>
    requires widths { length b.now ≡ length a.now }
    requires a_exists { All (IsLiteral aig.old) a.now }
    requires b_exists { All (IsLiteral aig.old) b.now }
    ensures exact { IfOk result (λ r. (aig.new, r.items) ≡ circuit_or aig.old a.now b.now) }
    ensures meaning { IfOk result (λ r. GivesWord aig.old aig.new r.items (length a.now) (value_2 word_or aig.old a.now b.now)) }
    ensures exist { IfOk result (λ r. All (IsLiteral aig.new) r.items) }
    ensures width { IfOk result (λ r. length r.items ≡ length a.now) }
    ensures kept { Extends aig.old aig.new }
    ensures old_values { KeepsValues aig.old aig.new }
{
    let bits = each(aig, Op::Or, a, b)?;
    Ok(bits)
}

/// One of the two alone, bit by bit. The widths are equal.
#[tactic(auto, using(aig_core::proofs::Values::keeping, crate::proofs::Combinators::lasting))]
pub fn blast_xor(aig: &mut Aig, a: &[u32], b: &[u32]) -> Result<Vec<u32>, Memory>
    requires widths { length b.now ≡ length a.now }
    requires a_exists { All (IsLiteral aig.old) a.now }
    requires b_exists { All (IsLiteral aig.old) b.now }
    ensures exact { IfOk result (λ r. (aig.new, r.items) ≡ circuit_xor aig.old a.now b.now) }
    ensures meaning { IfOk result (λ r. GivesWord aig.old aig.new r.items (length a.now) (value_2 word_xor aig.old a.now b.now)) }
    ensures exist { IfOk result (λ r. All (IsLiteral aig.new) r.items) }
    ensures width { IfOk result (λ r. length r.items ≡ length a.now) }
    ensures kept { Extends aig.old aig.new }
    ensures old_values { KeepsValues aig.old aig.new }
{
    let bits = each(aig, Op::Xor, a, b)?;
    Ok(bits)
}

/// Both or none, bit by bit. The widths are equal.
#[tactic(auto, using(aig_core::proofs::Values::keeping, crate::proofs::Combinators::lasting))]
pub fn blast_xnor(aig: &mut Aig, a: &[u32], b: &[u32]) -> Result<Vec<u32>, Memory>
    requires widths { length b.now ≡ length a.now }
    requires a_exists { All (IsLiteral aig.old) a.now }
    requires b_exists { All (IsLiteral aig.old) b.now }
    ensures exact { IfOk result (λ r. (aig.new, r.items) ≡ circuit_xnor aig.old a.now b.now) }
    ensures meaning { IfOk result (λ r. GivesWord aig.old aig.new r.items (length a.now) (value_2 word_xnor aig.old a.now b.now)) }
    ensures exist { IfOk result (λ r. All (IsLiteral aig.new) r.items) }
    ensures width { IfOk result (λ r. length r.items ≡ length a.now) }
    ensures kept { Extends aig.old aig.new }
    ensures old_values { KeepsValues aig.old aig.new }
{
    let differing = each(aig, Op::Xor, a, b)?;
    let bits = negated_word(aig, &differing)?;
    Ok(bits)
}

/// The one word where `c` is 1, else the other. The widths are equal.
#[tactic(auto, using(aig_core::proofs::Values::keeping, crate::proofs::Combinators::lasting))]
pub fn blast_mux(aig: &mut Aig, c: u32, a: &[u32], b: &[u32]) -> Result<Vec<u32>, Memory>
    requires widths { length b.now ≡ length a.now }
    requires c_exists { IsLiteral aig.old c }
    requires a_exists { All (IsLiteral aig.old) a.now }
    requires b_exists { All (IsLiteral aig.old) b.now }
    ensures exact { IfOk result (λ r. (aig.new, r.items) ≡ circuit_mux aig.old c a.now b.now) }
    ensures meaning { IfOk result (λ r. GivesWord aig.old aig.new r.items (length a.now) (choice_of_words aig.old c a.now b.now)) }
    ensures exist { IfOk result (λ r. All (IsLiteral aig.new) r.items) }
    ensures width { IfOk result (λ r. length r.items ≡ length a.now) }
    ensures kept { Extends aig.old aig.new }
    ensures old_values { KeepsValues aig.old aig.new }
{
    let bits = choose(aig, c, a, b)?;
    Ok(bits)
}
