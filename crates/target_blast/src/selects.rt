// Writes to what an index selects.

ghost use Rattle.std.specs.Prelude.{◌≡◌, ◌≤◌, ◌<◌, ◌^◌, length, All, OnOk};
ghost use Rattle.aig_core.specs.Graph.{IsLiteral, Extends};
ghost use Rattle.bit_exprs.specs.Formed.{IsWidth, AreBits};
ghost use Rattle.target_blast.specs.Writes.{put_chosen, put_where, put_selected};

use aig_core::{Aig, Memory};
use bit_exprs::forms::{Bit, Window};
use expr_blast::place;
use word_blast::bits;

/// Which of a vector's bits an index names, and whether the index is signed.
#[derive(Clone, Copy)]
pub struct Selector {
    pub window: Window,
    pub signed: bool,
}

// Makes the literal of a bit `x` where the condition holds.
#[tactic(auto, using(aig_core::proofs::Values::keeping, crate::proofs::Steps::growing), unfolding(crate::specs::Writes::put_chosen))]
fn put_chosen(aig: &mut Aig, c: u32, x: u32, bit: Bit, targets: &mut [u32]) -> Result<(), Memory>
    requires c_exists { IsLiteral aig.old c }
    requires x_exists { IsLiteral aig.old x }
    requires within { bit < length targets.old }
    requires targets_exist { All (IsLiteral aig.old) targets.old }
    ensures exact { OnOk result ((aig.new, targets.new) ≡ put_chosen c x bit aig.old targets.old) }
    ensures exist { OnOk result (All (IsLiteral aig.new) targets.new) }
    ensures long { length targets.new ≡ length targets.old }
    ensures kept { Extends aig.old aig.new }
{
    let literal = bits::mux(aig, c, x, targets[bit as usize])?;
    targets[bit as usize] = literal;
    Ok(())
}

// Writes `x`, which is bit `k` of what is selected, to the place of the vector that the index names.
#[tactic(auto, using(aig_core::proofs::Values::keeping, crate::proofs::Steps::growing))]
fn put_where(
    aig: &mut Aig,
    selector: Selector,
    index: &[u32],
    k: u8,
    x: u32,
    vector: &[Bit],
    targets: &mut [u32],
) -> Result<(), Memory>
    requires some { 1 ≤ selector.window.count }
    requires wide { IsWidth (length index.now) }
    requires within { AreBits (length targets.old) vector.now }
    requires index_exists { All (IsLiteral aig.old) index.now }
    requires x_exists { IsLiteral aig.old x }
    requires targets_exist { All (IsLiteral aig.old) targets.old }
    ensures exact { OnOk result ((aig.new, targets.new) ≡ put_where selector.window selector.signed index.now k x 0 vector.now aig.old targets.old) }
    ensures exist { OnOk result (All (IsLiteral aig.new) targets.new) }
    ensures long { length targets.new ≡ length targets.old }
    ensures kept { Extends aig.old aig.new }
{
    for (p, bit) in vector.iter().enumerate() {
        let here = place(aig, selector.window, selector.signed, index, k, p as u64)?;
        put_chosen(aig, here, x, *bit, targets)?;
    }
    Ok(())
}

/// Writes a word into what the index selects of a vector.
#[tactic(auto, using(aig_core::proofs::Values::keeping, crate::proofs::Steps::growing))]
pub fn put_selected(
    aig: &mut Aig,
    selector: Selector,
    index: &[u32],
    vector: &[Bit],
    word: &[u32],
    targets: &mut [u32],
) -> Result<(), Memory>
    requires some { 1 ≤ selector.window.count }
    requires wide { IsWidth (length index.now) }
    requires within { AreBits (length targets.old) vector.now }
    requires narrow { length word.now ≤ 128 }
    requires index_exists { All (IsLiteral aig.old) index.now }
    requires word_exists { All (IsLiteral aig.old) word.now }
    requires targets_exist { All (IsLiteral aig.old) targets.old }
    ensures exact { OnOk result ((aig.new, targets.new) ≡ put_selected selector.window selector.signed index.now vector.now 0 word.now aig.old targets.old) }
    ensures exist { OnOk result (All (IsLiteral aig.new) targets.new) }
    ensures long { length targets.new ≡ length targets.old }
    ensures kept { Extends aig.old aig.new }
{
    for (k, x) in word.iter().enumerate() {
        put_where(aig, selector, index, k as u8, *x, vector, targets)?;
    }
    Ok(())
}
