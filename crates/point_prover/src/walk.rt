//! Walks of the whole system.
ghost use Rattle.std.specs.Prelude.{◌≡◌, All, IfOk, map};
ghost use Rattle.bit_system.specs.Machine.{IsInput};
ghost use Rattle.ic3_frames.specs.Walks.{EndsAtFirstHit};
ghost use Rattle.point_cone.specs.Parts.{IsCone, part};

use bit_system::{Memory, System};
use ic3_frames::Walk;
use point_cone::Cone;
use sqlite_items::Items;
use std::alloc::Global;

/// Inputs of the whole system with these parts.
fn whole_lines(
    alloc: Global,
    system: &System,
    cone: &Cone,
    lines: &[Items<bool>],
) -> Result<Items<Items<bool>>, Memory>
    requires cone { IsCone system.now cone.now }
    requires inputs { All (IsInput cone.now.system) lines.now }
    ensures inputs { IfOk result (All (IsInput system.now)) }
    ensures parts { IfOk result (λ ls. map (part cone.now.inputs) ls ≡ lines.now) }
{
    let mut whole = Items::new(alloc);
    for line in lines {
        whole.push(cone.input(alloc, system, line.as_slice())?)?;
    }
    Ok(whole)
}

/// A walk of the whole system whose part is this walk of the cone.
pub fn whole_walk(alloc: Global, system: &System, cone: &Cone, walk: &Walk) -> Result<Walk, Memory>
    requires cone { IsCone system.now cone.now }
    requires walk { EndsAtFirstHit cone.now.system 0 walk.now }
    ensures { IfOk result (EndsAtFirstHit system.now cone.now.point) }
{
    // Shows that the parts of the system fit.
    let _nodes = system.node_count();
    let start = cone.start(alloc, system, walk.start.as_slice())?;
    let lines = whole_lines(alloc, system, cone, walk.lines.as_slice())?;
    Ok(Walk { start, lines })
}
