//! Circuits of arithmetic, by carries.

ghost use Rattle.std.specs.Prelude.{◌≡◌, ◌≤◌, length, All, IfOk, OnOk};
ghost use Rattle.aig_core.specs.Graph.{IsLiteral, IsWellFormed, Extends, KeepsValues};
ghost use Rattle.word_core.specs.Words.{word_add, word_sub, word_neg, word_mul};
ghost use Rattle.word_blast.specs.Words.{circuit_add, circuit_sub, circuit_neg, circuit_mul, moved_up, value_1, value_2, GivesWord};

use crate::loops::{Op, each, negated_word, repeated, sum};
use aig_core::{Aig, Memory};

// Moves the bits up by one place.
fn move_up(bits: &mut Vec<u32>) -> Result<(), Memory>
    ensures { OnOk result (bits.new.items ≡ moved_up 0 1 bits.old.items) }
{
    bits.insert(0, 0)?;
    bits.pop();
    Ok(())
}

/// The sum, modulo 2 to the width. The widths are equal.
#[tactic(auto, using(aig_core::proofs::Values::keeping, crate::proofs::Combinators::lasting))]
pub fn blast_add(aig: &mut Aig, a: &[u32], b: &[u32]) -> Result<Vec<u32>, Memory>
    requires widths { length b.now ≡ length a.now }
    requires a_exists { All (IsLiteral aig.old) a.now }
    requires b_exists { All (IsLiteral aig.old) b.now }
    ensures exact { IfOk result (λ r. (aig.new, r.items) ≡ circuit_add aig.old a.now b.now) }
    ensures meaning { IfOk result (λ r. GivesWord aig.old aig.new r.items (length a.now) (value_2 word_add aig.old a.now b.now)) }
    ensures exist { IfOk result (λ r. All (IsLiteral aig.new) r.items) }
    ensures width { IfOk result (λ r. length r.items ≡ length a.now) }
    ensures kept { Extends aig.old aig.new }
    ensures old_values { KeepsValues aig.old aig.new }
{
    let bits = sum(aig, a, b, 0)?;
    Ok(bits)
}

/// The difference, modulo 2 to the width. The widths are equal.
#[tactic(auto, using(aig_core::proofs::Values::keeping, crate::proofs::Combinators::lasting))]
pub fn blast_sub(aig: &mut Aig, a: &[u32], b: &[u32]) -> Result<Vec<u32>, Memory>
    requires widths { length b.now ≡ length a.now }
    requires a_exists { All (IsLiteral aig.old) a.now }
    requires b_exists { All (IsLiteral aig.old) b.now }
    ensures exact { IfOk result (λ r. (aig.new, r.items) ≡ circuit_sub aig.old a.now b.now) }
    ensures meaning { IfOk result (λ r. GivesWord aig.old aig.new r.items (length a.now) (value_2 word_sub aig.old a.now b.now)) }
    ensures exist { IfOk result (λ r. All (IsLiteral aig.new) r.items) }
    ensures width { IfOk result (λ r. length r.items ≡ length a.now) }
    ensures kept { Extends aig.old aig.new }
    ensures old_values { KeepsValues aig.old aig.new }
{
    let turned = negated_word(aig, b)?;
    let bits = sum(aig, a, &turned, 1)?;
    Ok(bits)
}

/// The negative, modulo 2 to the width.
#[tactic(auto, using(aig_core::proofs::Values::keeping, crate::proofs::Combinators::lasting))]
pub fn blast_neg(aig: &mut Aig, a: &[u32]) -> Result<Vec<u32>, Memory>
    requires { All (IsLiteral aig.old) a.now }
    ensures exact { IfOk result (λ r. (aig.new, r.items) ≡ circuit_neg aig.old a.now) }
    ensures meaning { IfOk result (λ r. GivesWord aig.old aig.new r.items (length a.now) (value_1 word_neg aig.old a.now)) }
    ensures exist { IfOk result (λ r. All (IsLiteral aig.new) r.items) }
    ensures width { IfOk result (λ r. length r.items ≡ length a.now) }
    ensures kept { Extends aig.old aig.new }
    ensures old_values { KeepsValues aig.old aig.new }
{
    let zeros = repeated(aig.allocator(), 0, a.len())?;
    let turned = negated_word(aig, a)?;
    let bits = sum(aig, &zeros, &turned, 1)?;
    Ok(bits)
}

/// The product, modulo 2 to the width. The widths are equal. The gates grow with the square of the width.
#[tactic(auto, using(aig_core::proofs::Values::keeping, crate::proofs::Combinators::lasting))]
pub fn blast_mul(aig: &mut Aig, a: &[u32], b: &[u32]) -> Result<Vec<u32>, Memory>
    requires widths { length b.now ≡ length a.now }
    requires a_exists { All (IsLiteral aig.old) a.now }
    requires b_exists { All (IsLiteral aig.old) b.now }
    ensures exact { IfOk result (λ r. (aig.new, r.items) ≡ circuit_mul aig.old a.now b.now) }
    ensures meaning { IfOk result (λ r. GivesWord aig.old aig.new r.items (length a.now) (value_2 word_mul aig.old a.now b.now)) }
    ensures exist { IfOk result (λ r. All (IsLiteral aig.new) r.items) }
    ensures width { IfOk result (λ r. length r.items ≡ length a.now) }
    ensures kept { Extends aig.old aig.new }
    ensures old_values { KeepsValues aig.old aig.new }
{
    let alloc = aig.allocator();
    let mut product = repeated(alloc, 0, a.len())?;
    let mut shifted = Vec::from_slice(alloc, a)?;
    for i in 0..b.len() {
        let mask = repeated(alloc, b[i], a.len())?;
        let row = each(aig, Op::And, &shifted, &mask)?;
        product = sum(aig, &product, &row, 0)?;
        move_up(&mut shifted)?;
    }
    Ok(product)
}
