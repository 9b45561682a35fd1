// Selects of vectors.

ghost use Rattle.std.specs.Prelude.{◌≡◌, ◌≤◌, ◌<◌, length, All, IfOk};
ghost use Rattle.aig_core.specs.Graph.{IsLiteral, IsWellFormed, Extends};
ghost use Rattle.bit_exprs.specs.Formed.{IsWidth};
ghost use Rattle.expr_blast.specs.Circuits.{with_place, bit_from, select_from};

use crate::places::place;
use aig_core::{Aig, Memory};
use bit_exprs::forms::Window;
use word_blast::bits::{and, or};

// The literal so far, or the vector's literal where the index names its place.
#[tactic(auto, using(aig_core::proofs::Values::keeping))]
fn with_place(aig: &mut Aig, so_far: u32, here: u32, literal: u32) -> Result<u32, Memory>
    requires so_far_exists { IsLiteral aig.old so_far }
    requires here_exists { IsLiteral aig.old here }
    requires literal_exists { IsLiteral aig.old literal }
    ensures exact { IfOk result (λ r. (aig.new, r) ≡ with_place aig.old so_far here literal) }
    ensures exists { IfOk result (IsLiteral aig.new) }
    ensures kept { Extends aig.old aig.new }
{
    let shown = and(aig, here, literal)?;
    or(aig, so_far, shown)
}

// Bit `k` of what is selected.
#[tactic(auto, using(aig_core::proofs::Values::keeping))]
fn selected_bit(
    aig: &mut Aig,
    window: Window,
    signed: bool,
    index: &[u32],
    k: u8,
    vector: &[u32],
) -> Result<u32, Memory>
    requires some { 1 ≤ window.count }
    requires wide { IsWidth (length index.now) }
    requires index_exists { All (IsLiteral aig.old) index.now }
    requires vector_exists { All (IsLiteral aig.old) vector.now }
    ensures exact { IfOk result (λ r. (aig.new, r) ≡ bit_from window signed index.now k aig.old 0 0 vector.now) }
    ensures exists { IfOk result (IsLiteral aig.new) }
    ensures kept { Extends aig.old aig.new }
{
    let _alloc = aig.allocator();
    let mut so_far = 0;
    for p in 0..vector.len() {
        let here = place(aig, window, signed, index, k, p as u64)?;
        so_far = with_place(aig, so_far, here, vector[p])?;
    }
    Ok(so_far)
}

/// What is selected of the vector by the index, a word with or without a sign: 0 outside the vector.
#[tactic(auto, using(aig_core::proofs::Values::keeping))]
pub fn select(
    aig: &mut Aig,
    window: Window,
    signed: bool,
    index: &[u32],
    vector: &[u32],
) -> Result<Vec<u32>, Memory>
    requires some { 1 ≤ window.count }
    requires wide { IsWidth (length index.now) }
    requires index_exists { All (IsLiteral aig.old) index.now }
    requires vector_exists { All (IsLiteral aig.old) vector.now }
    ensures exact { IfOk result (λ r. (aig.new, r.items) ≡ select_from window signed index.now vector.now aig.old 0 window.count) }
    ensures exist { IfOk result (λ r. All (IsLiteral aig.new) r.items) }
    ensures width { IfOk result (λ r. length r.items ≡ window.count) }
    ensures kept { Extends aig.old aig.new }
{
    let mut literals = Vec::with_capacity(aig.allocator(), window.count as usize)?;
    for k in 0..window.count {
        let bit = selected_bit(aig, window, signed, index, k, vector)?;
        literals.push(bit)?;
    }
    Ok(literals)
}
