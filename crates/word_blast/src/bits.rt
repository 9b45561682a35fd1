//! Circuits of one bit.

ghost use Rattle.std.specs.Prelude.{◌≡◌, ◌+◌, ◌*◌, ◌^◌, ◌<◌, ◌≤◌, IfOk, OnOk, OnErr};
ghost use Rattle.aig_core.specs.Graph.{negation, IsLiteral, IsWellFormed, and_of, Extends, Gives};
ghost use Rattle.word_blast.specs.Bits.{or_of, or_of_ands, xor_of, mux_of, full_of, one_of};

use aig_core::{Aig, Memory, negated};
use std::alloc::AllocError;

/// The conjunction of two literals. A full graph is out of memory.
pub fn and(aig: &mut Aig, x: u32, y: u32) -> Result<u32, Memory>
    requires x_exists { IsLiteral aig.old x }
    requires y_exists { IsLiteral aig.old y }
    ensures graph { OnOk result (aig.new ≡ (and_of aig.old x y).0) }
    ensures literal { IfOk result (λ r. r ≡ (and_of aig.old x y).1) }
    ensures exists { IfOk result (IsLiteral aig.new) }
    ensures kept { Extends aig.old aig.new }
    ensures was_well_formed { IsWellFormed aig.old }
{
    if aig.is_full() {
        return Err(AllocError);
    }
    let literal = aig.and(x, y)?;
    Ok(literal)
}

/// The disjunction.
#[tactic(auto, using(aig_core::proofs::Values::keeping), unfolding(crate::specs::Bits::or_of))]
pub fn or(aig: &mut Aig, x: u32, y: u32) -> Result<u32, Memory>
    requires x_exists { IsLiteral aig.old x }
    requires y_exists { IsLiteral aig.old y }
    ensures graph { OnOk result (aig.new ≡ (or_of aig.old x y).0) }
    ensures literal { IfOk result (λ r. r ≡ (or_of aig.old x y).1) }
    ensures exists { IfOk result (IsLiteral aig.new) }
    ensures kept { Extends aig.old aig.new }
    ensures was_well_formed { IsWellFormed aig.old }
{
    let neither = and(aig, negated(x), negated(y))?;
    Ok(negated(neither))
}

/// `(x & y) | (u & v)`.
#[tactic(auto, using(aig_core::proofs::Values::keeping), unfolding(crate::specs::Bits::or_of_ands))]
pub fn or_of_ands(aig: &mut Aig, x: u32, y: u32, u: u32, v: u32) -> Result<u32, Memory>
    requires x_exists { IsLiteral aig.old x }
    requires y_exists { IsLiteral aig.old y }
    requires u_exists { IsLiteral aig.old u }
    requires v_exists { IsLiteral aig.old v }
    ensures graph { OnOk result (aig.new ≡ (or_of_ands aig.old x y u v).0) }
    ensures literal { IfOk result (λ r. r ≡ (or_of_ands aig.old x y u v).1) }
    ensures exists { IfOk result (IsLiteral aig.new) }
    ensures kept { Extends aig.old aig.new }
    ensures was_well_formed { IsWellFormed aig.old }
{
    let first = and(aig, x, y)?;
    let second = and(aig, u, v)?;
    let literal = or(aig, first, second)?;
    Ok(literal)
}

/// One of the two alone.
#[tactic(auto, using(aig_core::proofs::Values::keeping, crate::proofs::BitLaws::xor_gives_at), unfolding(crate::specs::Bits::xor_of))]
pub fn xor(aig: &mut Aig, x: u32, y: u32) -> Result<u32, Memory>
    requires x_exists { IsLiteral aig.old x }
    requires y_exists { IsLiteral aig.old y }
    ensures graph { OnOk result (aig.new ≡ (xor_of aig.old x y).0) }
    ensures literal { IfOk result (λ r. r ≡ (xor_of aig.old x y).1) }
    ensures meaning { IfOk result (λ r. Gives aig.old aig.new r (one_of aig.old x y)) }
    ensures exists { IfOk result (IsLiteral aig.new) }
    ensures kept { Extends aig.old aig.new }
    ensures was_well_formed { IsWellFormed aig.old }
{
    let literal = or_of_ands(aig, x, negated(y), negated(x), y)?;
    Ok(literal)
}

/// The one or the other, by a condition.
#[tactic(auto, using(aig_core::proofs::Values::keeping), unfolding(crate::specs::Bits::mux_of))]
pub fn mux(aig: &mut Aig, c: u32, x: u32, y: u32) -> Result<u32, Memory>
    requires c_exists { IsLiteral aig.old c }
    requires x_exists { IsLiteral aig.old x }
    requires y_exists { IsLiteral aig.old y }
    ensures graph { OnOk result (aig.new ≡ (mux_of aig.old c x y).0) }
    ensures literal { IfOk result (λ r. r ≡ (mux_of aig.old c x y).1) }
    ensures exists { IfOk result (IsLiteral aig.new) }
    ensures kept { Extends aig.old aig.new }
{
    if x == y {
        return Ok(x);
    }
    let literal = or_of_ands(aig, c, x, negated(c), y)?;
    Ok(literal)
}

/// The sum and the carry of three bits.
#[tactic(auto, using(aig_core::proofs::Values::keeping), unfolding(crate::specs::Bits::full_of))]
pub fn full(aig: &mut Aig, a: u32, b: u32, c: u32) -> Result<(u32, u32), Memory>
    requires a_exists { IsLiteral aig.old a }
    requires b_exists { IsLiteral aig.old b }
    requires c_exists { IsLiteral aig.old c }
    ensures graph { OnOk result (aig.new ≡ (full_of aig.old a b c).0) }
    ensures sum { IfOk result (λ r. r.0 ≡ (full_of aig.old a b c).1) }
    ensures carry { IfOk result (λ r. r.1 ≡ (full_of aig.old a b c).2) }
    ensures sum_exists { IfOk result (λ r. IsLiteral aig.new r.0) }
    ensures carry_exists { IfOk result (λ r. IsLiteral aig.new r.1) }
    ensures kept { Extends aig.old aig.new }
    ensures was_well_formed { IsWellFormed aig.old }
{
    let either = xor(aig, a, b)?;
    let sum = xor(aig, either, c)?;
    let carry = or_of_ands(aig, a, b, either, c)?;
    Ok((sum, carry))
}
