//! Shifts of words, stage by stage.

ghost use Rattle.std.specs.Prelude.{◌≡◌, ◌≤◌, length, All, IfOk};
ghost use Rattle.aig_core.specs.Graph.{IsLiteral, IsWellFormed, Extends, KeepsValues};
ghost use Rattle.word_core.specs.Words.{word_shl, word_shr, word_sshr};
ghost use Rattle.word_blast.specs.Words.{shift_from, circuit_shl, circuit_shr, circuit_sshr, shift_worth, GivesWord};
ghost use Rattle.word_blast.specs.Steps.{move_of};

use crate::loops::{Op, choose, fold, repeated};
use aig_core::{Aig, Memory};
use std::alloc::Global;

/// Which way a word is shifted.
#[derive(Clone, Copy)]
pub enum Direction {
    Left,
    Right,
}

// The word moved by `n` places, with `fill` moved in.
fn moved(
    alloc: Global,
    direction: Direction,
    a: &[u32],
    n: usize,
    fill: u32,
) -> Result<Vec<u32>, Memory>
    requires { n ≤ length a.now }
    ensures { IfOk result (λ r. r.items ≡ move_of direction fill n a.now) }
{
    let mut bits = Vec::with_capacity(alloc, a.len())?;
    let filled = repeated(alloc, fill, n)?;
    match direction {
        Direction::Left => {
            bits.extend_from_slice(&filled)?;
            bits.extend_from_slice(&a[..a.len() - n])?;
        }
        Direction::Right => {
            bits.extend_from_slice(&a[n..])?;
            bits.extend_from_slice(&filled)?;
        }
    }
    Ok(bits)
}

/// The word shifted by the number that `by` spells, with `fill` moved in: a stage for each bit of `by` whose
/// worth is below the width, and then all is `fill` where a further bit is 1.
#[tactic(auto, using(aig_core::proofs::Values::keeping))]
pub fn shift(
    aig: &mut Aig,
    direction: Direction,
    a: &[u32],
    by: &[u32],
    fill: u32,
) -> Result<Vec<u32>, Memory>
    requires width { length a.now ≤ 128 }
    requires a_exists { All (IsLiteral aig.old) a.now }
    requires by_exists { All (IsLiteral aig.old) by.now }
    requires fill_exists { IsLiteral aig.old fill }
    ensures exact { IfOk result (λ r. (aig.new, r.items) ≡ shift_from (move_of direction fill) fill aig.old a.now 1 by.now) }
    ensures exist { IfOk result (λ r. All (IsLiteral aig.new) r.items) }
    ensures width { IfOk result (λ r. length r.items ≡ length a.now) }
    ensures kept { Extends aig.old aig.new }
    ensures was_well_formed { IsWellFormed aig.old }
{
    let alloc = aig.allocator();
    let mut shifted = Vec::from_slice(alloc, a)?;
    let mut places = 1;
    for i in 0..by.len() {
        if places >= a.len() {
            let further = fold(aig, Op::Or, 0, &by[i..])?;
            let filled = repeated(alloc, fill, a.len())?;
            let rest = choose(aig, further, &filled, &shifted)?;
            return Ok(rest);
        }
        let stage = moved(alloc, direction, &shifted, places, fill)?;
        shifted = choose(aig, by[i], &stage, &shifted)?;
        places *= 2;
    }
    Ok(shifted)
}

/// Shifted to the left by the number of `by`, which may have any width; zero where that is the width or more. The width is at most 128.
#[tactic(auto, using(aig_core::proofs::Values::keeping, crate::proofs::Combinators::lasting))]
pub fn blast_shl(aig: &mut Aig, a: &[u32], by: &[u32]) -> Result<Vec<u32>, Memory>
    requires width { length a.now ≤ 128 }
    requires a_exists { All (IsLiteral aig.old) a.now }
    requires by_exists { All (IsLiteral aig.old) by.now }
    ensures exact { IfOk result (λ r. (aig.new, r.items) ≡ circuit_shl aig.old a.now by.now) }
    ensures meaning { IfOk result (λ r. GivesWord aig.old aig.new r.items (length a.now) (shift_worth word_shl aig.old a.now by.now)) }
    ensures exist { IfOk result (λ r. All (IsLiteral aig.new) r.items) }
    ensures width { IfOk result (λ r. length r.items ≡ length a.now) }
    ensures kept { Extends aig.old aig.new }
    ensures old_values { KeepsValues aig.old aig.new }
{
    let bits = shift(aig, Direction::Left, a, by, 0)?;
    Ok(bits)
}

/// Shifted to the right by the number of `by`, which may have any width; zero where that is the width or more. The width is at most 128.
#[tactic(auto, using(aig_core::proofs::Values::keeping, crate::proofs::Combinators::lasting))]
pub fn blast_shr(aig: &mut Aig, a: &[u32], by: &[u32]) -> Result<Vec<u32>, Memory>
    requires width { length a.now ≤ 128 }
    requires a_exists { All (IsLiteral aig.old) a.now }
    requires by_exists { All (IsLiteral aig.old) by.now }
    ensures exact { IfOk result (λ r. (aig.new, r.items) ≡ circuit_shr aig.old a.now by.now) }
    ensures meaning { IfOk result (λ r. GivesWord aig.old aig.new r.items (length a.now) (shift_worth word_shr aig.old a.now by.now)) }
    ensures exist { IfOk result (λ r. All (IsLiteral aig.new) r.items) }
    ensures width { IfOk result (λ r. length r.items ≡ length a.now) }
    ensures kept { Extends aig.old aig.new }
    ensures old_values { KeepsValues aig.old aig.new }
{
    let bits = shift(aig, Direction::Right, a, by, 0)?;
    Ok(bits)
}

/// Shifted to the right as a signed value, by the number of `by`, which may have any width: the top bit is moved in. The width is from 1 to 128.
#[tactic(auto, using(aig_core::proofs::Values::keeping, crate::proofs::Combinators::lasting))]
pub fn blast_sshr(aig: &mut Aig, a: &[u32], by: &[u32]) -> Result<Vec<u32>, Memory>
    requires some { 1 ≤ length a.now }
    requires width { length a.now ≤ 128 }
    requires a_exists { All (IsLiteral aig.old) a.now }
    requires by_exists { All (IsLiteral aig.old) by.now }
    ensures exact { IfOk result (λ r. (aig.new, r.items) ≡ circuit_sshr aig.old a.now by.now) }
    ensures meaning { IfOk result (λ r. GivesWord aig.old aig.new r.items (length a.now) (shift_worth word_sshr aig.old a.now by.now)) }
    ensures exist { IfOk result (λ r. All (IsLiteral aig.new) r.items) }
    ensures width { IfOk result (λ r. length r.items ≡ length a.now) }
    ensures kept { Extends aig.old aig.new }
    ensures old_values { KeepsValues aig.old aig.new }
{
    let bits = shift(aig, Direction::Right, a, by, a[a.len() - 1])?;
    Ok(bits)
}
