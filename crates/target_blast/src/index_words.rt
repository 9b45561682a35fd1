//! The words of the indices of targets.

ghost use Rattle.std.specs.Prelude.{◌≡◌, length, map, All, IfOk};
ghost use Rattle.aig_core.specs.Graph.{IsLiteral, Extends};
ghost use Rattle.bit_exprs.specs.Formed.{PartFormed, TargetFormed};
ghost use Rattle.target_blast.specs.Writes.{index_width, index_of, indices_of};

use aig_core::{Aig, Memory};
use bit_exprs::forms::{Part, Target};
use expr_blast::word;
use sqlite_items::Items;

// The word of a part's index, from the literals of the bits by number. A part without an index has a word of no bits.
#[tactic(auto, using(aig_core::proofs::Values::keeping))]
fn index(aig: &mut Aig, part: &Part, read: &[u32]) -> Result<Items<u32>, Memory>
    requires formed { PartFormed part.now (length read.now) }
    requires read_exists { All (IsLiteral aig.old) read.now }
    ensures exact { IfOk result (λ r. (aig.new, r) ≡ index_of part.now aig.old read.now) }
    ensures width { IfOk result (λ r. length r ≡ index_width part.now) }
    ensures exist { IfOk result (λ r. All (IsLiteral aig.new) r) }
    ensures kept { Extends aig.old aig.new }
{
    match part {
        Part::Bits(_) => Ok(Items::new(aig.allocator())),
        Part::Select { index, .. } => {
            let literals = word(aig, index, read)?;
            Ok(Items::from_vec(literals))
        }
        Part::Outside(_) => Ok(Items::new(aig.allocator())),
    }
}

/// The words of the indices of a target's parts, a word for each part, from the literals that the bits have before
/// anything is written. A part without an index has a word of no bits.
///
/// The gates are made in the order that `indices_of` gives, by which certificates cite them. The error is want of memory,
/// or a full graph; the gates made so far stay.
#[tactic(auto, using(aig_core::proofs::Values::keeping, crate::proofs::Steps::growing))]
pub fn indices(aig: &mut Aig, target: &Target, read: &[u32]) -> Result<Vec<Items<u32>>, Memory>
    requires formed { TargetFormed target.now (length read.now) }
    requires read_exists { All (IsLiteral aig.old) read.now }
    ensures exact { IfOk result (λ r. (aig.new, r.items) ≡ indices_of target.now.parts aig.old read.now) }
    ensures widths { IfOk result (λ r. map length r.items ≡ map index_width target.now.parts) }
    ensures exist { IfOk result (λ r. All (All (IsLiteral aig.new)) r.items) }
    ensures kept { Extends aig.old aig.new }
{
    let mut words = Vec::new(aig.allocator());
    for part in target.parts.as_slice() {
        let word = index(aig, part, read)?;
        words.push(word)?;
    }
    Ok(words)
}
