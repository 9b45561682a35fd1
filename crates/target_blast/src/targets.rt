//! Writes to targets.

ghost use Rattle.std.specs.Prelude.{◌≡◌, ◌≤◌, length, map, All, OnOk};
ghost use Rattle.aig_core.specs.Graph.{IsLiteral, Extends};
ghost use Rattle.bit_exprs.specs.Formed.{TargetFormed};
ghost use Rattle.bit_exprs.specs.Updates.{target_width};
ghost use Rattle.target_blast.specs.Writes.{index_width, written_of};

use crate::parts::{part_width, put_part, target_width};
use aig_core::{Aig, Memory};
use bit_exprs::forms::Target;
use sqlite_items::Items;

/// Writes a value, which is at least as wide as the target, to the literals of a target's bits, with the words of its
/// indices as `indices` makes them. What lies outside of a vector is not written.
///
/// The gates are made in the order that `written_of` gives, by which certificates cite them. The error is want of memory,
/// or a full graph; the gates made so far stay, and the targets may be written in part.
#[tactic(auto, using(aig_core::proofs::Values::keeping, crate::proofs::Steps::growing))]
pub fn put(
    aig: &mut Aig,
    target: &Target,
    value: &[u32],
    indices: &[Items<u32>],
    targets: &mut [u32],
) -> Result<(), Memory>
    requires formed { TargetFormed target.now (length targets.old) }
    requires wide { target_width target.now ≤ length value.now }
    requires widths { map length indices.now ≡ map index_width target.now.parts }
    requires value_exists { All (IsLiteral aig.old) value.now }
    requires indices_exist { All (All (IsLiteral aig.old)) indices.now }
    requires targets_exist { All (IsLiteral aig.old) targets.old }
    ensures exact { OnOk result ((aig.new, targets.new) ≡ written_of target.now.parts indices.now value.now aig.old targets.old) }
    ensures exist { OnOk result (All (IsLiteral aig.new) targets.new) }
    ensures long { length targets.new ≡ length targets.old }
    ensures kept { Extends aig.old aig.new }
{
    let mut low = target_width(target);
    for (i, part) in target.parts.as_slice().iter().enumerate() {
        let width = part_width(part);
        low -= width;
        put_part(
            aig,
            part,
            indices[i].as_slice(),
            &value[low..low + width],
            targets,
        )?;
    }
    Ok(())
}
