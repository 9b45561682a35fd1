//! What is shown of a point so far.
ghost use Rattle.std.specs.Prelude.{◌≡◌, ◌≤◌};
ghost use Rattle.generalise.specs.Effort.{Uses};
ghost use Rattle.ic3_frames.specs.Rules.{IsKept};
ghost use Rattle.point_cone.specs.Parts.{IsCone};
ghost use Rattle.point_prover.specs.Claims.{IsClaim};

use crate::ladder::depth_ladder;
use bit_system::{Depth, Ladder, Memory, System};
use generalise::Units;
use ic3_frames::Frames;
use point_cone::Cone;
use sqlite_items::Items;
use std::alloc::Global;

/// So many cycles without a hit, with the ladder that shows it, and the number of units from which a further
/// ladder is made: twice as many as were used then, so that ladders take about half of the effort at most.
#[derive(Drop)]
pub struct Claim {
    pub cycles: u64,
    pub ladder: Ladder,
    pub due: u64,
}

/// Nothing is claimed.
pub fn no_claim(alloc: Global, system: &System, point: u32) -> Claim
    ensures { IsClaim system.now point 0 result }
{
    // Shows that the parts of the system fit.
    let _nodes = system.node_count();
    Claim {
        cycles: 0,
        ladder: Ladder {
            depth: Depth::Steps(0),
            lemmas: Items::new(alloc),
            steps: Items::new(alloc),
            hit: None,
        },
        due: 0,
    }
}

/// Makes the ladder of the frames' depth, where it is due and the depth is past the prelude. Where the effort is
/// used before its proofs are made, the claim stays.
pub fn deepen(
    alloc: Global,
    system: &System,
    cone: &Cone,
    frames: &Frames,
    claim: &mut Claim,
    units: &mut Units,
) -> Result<(), Memory>
    requires cone { IsCone system.now cone.now }
    requires kept { IsKept cone.now.system frames.now }
    requires point { frames.now.point ≡ 0 }
    requires claim { IsClaim system.now cone.now.point frames.now.depth claim.old }
    ensures claim { IsClaim system.now cone.now.point frames.now.depth claim.new }
    ensures uses { Uses units.old units.new }
{
    let prelude = u64::from(system.prelude());
    let depth = frames.depth();
    if units.used < claim.due || depth <= prelude {
        return Ok(());
    }
    let Some(ladder) = depth_ladder(alloc, system, cone, frames, units)? else {
        return Ok(());
    };
    *claim = Claim {
        cycles: depth - prelude,
        ladder,
        due: units.used.saturating_mul(2),
    };
    Ok(())
}
