//! The loops of which circuits of words are made.

ghost use Rattle.std.specs.Prelude.{◌≡◌, ◌+◌, ◌*◌, ◌^◌, ◌<◌, ◌≤◌, length, All, map, replicate, IfOk, OnOk};
ghost use Rattle.std.specs.List.{zip};
ghost use Rattle.aig_core.specs.Graph.{negation, and_of, IsLiteral, IsWellFormed, Extends};
ghost use Rattle.word_blast.specs.Bits.{or_of, xor_of, mux_of};
ghost use Rattle.word_blast.specs.Words.{each_of, fold_of, each_pair, at_pair, circuit_mux, sum_from, equal_step, borrow_step, top_negated};
ghost use Rattle.word_blast.specs.Steps.{gate_of, compare_of};

use crate::bits::{and, full, mux, or, or_of_ands, xor};
use aig_core::{Aig, Memory, negated};
use std::alloc::Global;

/// A builder of one bit from two.
#[derive(Clone, Copy)]
pub enum Op {
    And,
    Or,
    Xor,
}

/// A builder of one bit from an earlier one and a pair.
#[derive(Clone, Copy)]
pub enum Comparison {
    Equal,
    NotBelow,
}

fn gate(aig: &mut Aig, op: Op, x: u32, y: u32) -> Result<u32, Memory>
    requires x_exists { IsLiteral aig.old x }
    requires y_exists { IsLiteral aig.old y }
    ensures graph { OnOk result (aig.new ≡ (gate_of op aig.old x y).0) }
    ensures literal { IfOk result (λ r. r ≡ (gate_of op aig.old x y).1) }
    ensures exists { IfOk result (IsLiteral aig.new) }
    ensures kept { Extends aig.old aig.new }
    ensures was_well_formed { IsWellFormed aig.old }
{
    match op {
        Op::And => and(aig, x, y),
        Op::Or => or(aig, x, y),
        Op::Xor => xor(aig, x, y),
    }
}

#[tactic(auto, using(aig_core::proofs::Values::keeping), unfolding(crate::specs::Words::equal_step))]
fn equal_more(aig: &mut Aig, equal: u32, x: u32, y: u32) -> Result<u32, Memory>
    requires equal_exists { IsLiteral aig.old equal }
    requires x_exists { IsLiteral aig.old x }
    requires y_exists { IsLiteral aig.old y }
    ensures graph { OnOk result (aig.new ≡ (equal_step aig.old equal (x, y)).0) }
    ensures literal { IfOk result (λ r. r ≡ (equal_step aig.old equal (x, y)).1) }
    ensures exists { IfOk result (IsLiteral aig.new) }
    ensures kept { Extends aig.old aig.new }
    ensures was_well_formed { IsWellFormed aig.old }
{
    let differ = xor(aig, x, y)?;
    let both = and(aig, equal, negated(differ))?;
    Ok(both)
}

#[tactic(auto, using(aig_core::proofs::Values::keeping), unfolding(crate::specs::Words::borrow_step))]
fn not_below_more(aig: &mut Aig, carry: u32, x: u32, y: u32) -> Result<u32, Memory>
    requires carry_exists { IsLiteral aig.old carry }
    requires x_exists { IsLiteral aig.old x }
    requires y_exists { IsLiteral aig.old y }
    ensures graph { OnOk result (aig.new ≡ (borrow_step aig.old carry (x, y)).0) }
    ensures literal { IfOk result (λ r. r ≡ (borrow_step aig.old carry (x, y)).1) }
    ensures exists { IfOk result (IsLiteral aig.new) }
    ensures kept { Extends aig.old aig.new }
    ensures was_well_formed { IsWellFormed aig.old }
{
    let differ = xor(aig, x, negated(y))?;
    let next = or_of_ands(aig, x, negated(y), differ, carry)?;
    Ok(next)
}

fn compare_more(
    aig: &mut Aig,
    comparison: Comparison,
    so_far: u32,
    x: u32,
    y: u32,
) -> Result<u32, Memory>
    requires so_far_exists { IsLiteral aig.old so_far }
    requires x_exists { IsLiteral aig.old x }
    requires y_exists { IsLiteral aig.old y }
    ensures graph { OnOk result (aig.new ≡ (compare_of comparison aig.old so_far (x, y)).0) }
    ensures literal { IfOk result (λ r. r ≡ (compare_of comparison aig.old so_far (x, y)).1) }
    ensures exists { IfOk result (IsLiteral aig.new) }
    ensures kept { Extends aig.old aig.new }
    ensures was_well_formed { IsWellFormed aig.old }
{
    match comparison {
        Comparison::Equal => equal_more(aig, so_far, x, y),
        Comparison::NotBelow => not_below_more(aig, so_far, x, y),
    }
}

/// One bit for each pair, from the lowest.
#[tactic(auto, using(aig_core::proofs::Values::keeping))]
pub fn each(aig: &mut Aig, op: Op, a: &[u32], b: &[u32]) -> Result<Vec<u32>, Memory>
    requires widths { length b.now ≡ length a.now }
    requires a_exists { All (IsLiteral aig.old) a.now }
    requires b_exists { All (IsLiteral aig.old) b.now }
    ensures exact { IfOk result (λ r. (aig.new, r.items) ≡ each_pair (gate_of op) aig.old a.now b.now) }
    ensures exist { IfOk result (λ r. All (IsLiteral aig.new) r.items) }
    ensures width { IfOk result (λ r. length r.items ≡ length a.now) }
    ensures kept { Extends aig.old aig.new }
    ensures was_well_formed { IsWellFormed aig.old }
{
    let mut bits = Vec::with_capacity(aig.allocator(), a.len())?;
    for i in 0..a.len() {
        let bit = gate(aig, op, a[i], b[i])?;
        bits.push(bit)?;
    }
    Ok(bits)
}

/// The one word or the other, by a condition.
#[tactic(auto, using(aig_core::proofs::Values::keeping))]
pub fn choose(aig: &mut Aig, c: u32, a: &[u32], b: &[u32]) -> Result<Vec<u32>, Memory>
    requires widths { length b.now ≡ length a.now }
    requires c_exists { IsLiteral aig.old c }
    requires a_exists { All (IsLiteral aig.old) a.now }
    requires b_exists { All (IsLiteral aig.old) b.now }
    ensures exact { IfOk result (λ r. (aig.new, r.items) ≡ circuit_mux aig.old c a.now b.now) }
    ensures exist { IfOk result (λ r. All (IsLiteral aig.new) r.items) }
    ensures width { IfOk result (λ r. length r.items ≡ length a.now) }
    ensures kept { Extends aig.old aig.new }
    ensures was_well_formed { IsWellFormed aig.old }
{
    let mut bits = Vec::with_capacity(aig.allocator(), a.len())?;
    for i in 0..a.len() {
        let bit = mux(aig, c, a[i], b[i])?;
        bits.push(bit)?;
    }
    Ok(bits)
}

/// One bit of all, from `start` and the lowest.
#[tactic(auto, using(aig_core::proofs::Values::keeping))]
pub fn fold(aig: &mut Aig, op: Op, start: u32, a: &[u32]) -> Result<u32, Memory>
    requires start_exists { IsLiteral aig.old start }
    requires a_exists { All (IsLiteral aig.old) a.now }
    ensures exact { IfOk result (λ r. (aig.new, r) ≡ fold_of (gate_of op) aig.old start a.now) }
    ensures exists { IfOk result (IsLiteral aig.new) }
    ensures kept { Extends aig.old aig.new }
    ensures was_well_formed { IsWellFormed aig.old }
{
    let _alloc = aig.allocator();
    let mut so_far = start;
    for i in 0..a.len() {
        so_far = gate(aig, op, so_far, a[i])?;
    }
    Ok(so_far)
}

/// One bit of all pairs, from 1 and the lowest.
#[tactic(auto, using(aig_core::proofs::Values::keeping))]
pub fn compare(aig: &mut Aig, comparison: Comparison, a: &[u32], b: &[u32]) -> Result<u32, Memory>
    requires widths { length b.now ≡ length a.now }
    requires a_exists { All (IsLiteral aig.old) a.now }
    requires b_exists { All (IsLiteral aig.old) b.now }
    ensures exact { IfOk result (λ r. (aig.new, r) ≡ fold_of (compare_of comparison) aig.old 1 (zip a.now b.now)) }
    ensures exists { IfOk result (IsLiteral aig.new) }
    ensures kept { Extends aig.old aig.new }
    ensures was_well_formed { IsWellFormed aig.old }
{
    let _alloc = aig.allocator();
    let mut so_far = 1;
    for i in 0..a.len() {
        so_far = compare_more(aig, comparison, so_far, a[i], b[i])?;
    }
    Ok(so_far)
}

/// The sum of two words and a carry, modulo 2 to the width.
#[tactic(auto, using(aig_core::proofs::Values::keeping))]
pub fn sum(aig: &mut Aig, a: &[u32], b: &[u32], carry: u32) -> Result<Vec<u32>, Memory>
    requires widths { length b.now ≡ length a.now }
    requires carry_exists { IsLiteral aig.old carry }
    requires a_exists { All (IsLiteral aig.old) a.now }
    requires b_exists { All (IsLiteral aig.old) b.now }
    ensures exact { IfOk result (λ r. (aig.new, r.items) ≡ sum_from aig.old carry a.now b.now) }
    ensures exist { IfOk result (λ r. All (IsLiteral aig.new) r.items) }
    ensures width { IfOk result (λ r. length r.items ≡ length a.now) }
    ensures kept { Extends aig.old aig.new }
    ensures was_well_formed { IsWellFormed aig.old }
{
    let mut bits = Vec::with_capacity(aig.allocator(), a.len())?;
    let mut carried = carry;
    for i in 0..a.len() {
        let (bit, next) = full(aig, a[i], b[i], carried)?;
        bits.push(bit)?;
        carried = next;
    }
    Ok(bits)
}

/// Each literal negated.
#[tactic(auto, using(aig_core::proofs::Values::keeping))]
pub fn negated_word(aig: &Aig, a: &[u32]) -> Result<Vec<u32>, Memory>
    requires { All (IsLiteral aig.now) a.now }
    ensures literals { IfOk result (λ r. r.items ≡ map negation a.now) }
    ensures exist { IfOk result (λ r. All (IsLiteral aig.now) r.items) }
    ensures width { IfOk result (λ r. length r.items ≡ length a.now) }
    ensures well_formed { IsWellFormed aig.now }
{
    let mut bits = Vec::with_capacity(aig.allocator(), a.len())?;
    for i in 0..a.len() {
        bits.push(negated(a[i]))?;
    }
    Ok(bits)
}

/// The top literal negated.
#[tactic(auto, using(aig_core::proofs::Values::keeping))]
pub fn top_negated_word(aig: &Aig, a: &[u32]) -> Result<Vec<u32>, Memory>
    requires { All (IsLiteral aig.now) a.now }
    ensures literals { IfOk result (λ r. r.items ≡ top_negated a.now) }
    ensures exist { IfOk result (λ r. All (IsLiteral aig.now) r.items) }
    ensures width { IfOk result (λ r. length r.items ≡ length a.now) }
    ensures well_formed { IsWellFormed aig.now }
{
    let mut bits = Vec::from_slice(aig.allocator(), a)?;
    if a.is_empty() {
        return Ok(bits);
    }
    let top = a.len() - 1;
    bits[top] = negated(a[top]);
    Ok(bits)
}

/// A literal `count` times.
pub fn repeated(alloc: Global, literal: u32, count: usize) -> Result<Vec<u32>, Memory>
    ensures { IfOk result (λ r. r.items ≡ replicate count literal) }
{
    let bits = vec![in alloc; literal; count]?;
    Ok(bits)
}
