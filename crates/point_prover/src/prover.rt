//! The search for one point.
ghost use Rattle.std.specs.Prelude.{◌≡◌, ◌<◌, ◌≤◌, IfOk, length};
ghost use Rattle.ic3_frames.specs.Rules.{IsKept};
ghost use Rattle.ic3_frames.specs.Turns.{IsClosed};
ghost use Rattle.ic3_frames.specs.Walks.{EndsAtFirstHit};
ghost use Rattle.point_cone.specs.Parts.{IsCone};
ghost use Rattle.generalise.specs.Effort.{Uses};
ghost use Rattle.point_prover.specs.Claims.{IsClaim};
ghost use Rattle.point_prover.specs.Proved.{IsProved};

use crate::claim::{Claim, deepen, no_claim};
use crate::ladder::closed_ladder;
use crate::walk::whole_walk;
use bit_system::{Ladder, Memory, System};
use generalise::Units;
use ic3_frames::{Frames, Turn, Walk};
use point_cone::{Cone, cone_of};
use std::alloc::Global;

/// What is found out of a point.
#[derive(Drop)]
pub enum Proved {
    /// No walk hits it, by this ladder of depth `All`.
    Excluded(Ladder),
    /// This walk hits it in its last step, and in none before.
    Reached(Walk),
    /// No walk hits it in the first so many steps after the prelude, by this ladder, and the effort is used.
    Open {
        cycles: u64,
        ladder: Ladder,
        used: u64,
    },
}

/// What is left where the effort is used.
fn open(claim: Claim, used: u64) -> Proved
    ensures { result ≡ Proved.Open claim.cycles claim.ladder used }
{
    Proved::Open {
        cycles: claim.cycles,
        ladder: claim.ladder,
        used,
    }
}

/// Makes the ladder of frames that are equal.
fn conclude(
    alloc: Global,
    system: &System,
    cone: &Cone,
    frames: &Frames,
    level: u64,
    claim: Claim,
    units: &mut Units,
) -> Result<Proved, Memory>
    requires cone { IsCone system.now cone.now }
    requires kept { IsKept cone.now.system frames.now }
    requires point { frames.now.point ≡ 0 }
    requires closed { IsClosed cone.now.system frames.now level }
    requires claim { IsClaim system.now cone.now.point units.old.used claim }
    ensures { IfOk result (IsProved system.now cone.now.point units.old.effort) }
{
    match closed_ladder(alloc, system, cone, frames, level, units)? {
        Some(ladder) => Ok(Proved::Excluded(ladder)),
        None => Ok(open(claim, units.used)),
    }
}

/// The walk of the whole system.
fn reached(
    alloc: Global,
    system: &System,
    cone: &Cone,
    walk: &Walk,
    effort: u64,
) -> Result<Proved, Memory>
    requires cone { IsCone system.now cone.now }
    requires walk { EndsAtFirstHit cone.now.system 0 walk.now }
    ensures { IfOk result (IsProved system.now cone.now.point effort) }
{
    let walk = whole_walk(alloc, system, cone, walk)?;
    Ok(Proved::Reached(walk))
}

/// Searches until the point is decided or the effort is used. The first query is whether a start hits; where none
/// does and there is no prelude, that is proved at once. A ladder is made anew from time to time, and at the end.
///
/// The search sees only what the point needs of the system. Each of its queries is a solver of its own, which takes time
/// and memory in the nodes that are needed. The proofs of a ladder are solvers over the literals of their queries, which
/// at the first step have one for each state bit of the whole system with a starting value.
pub fn prove(alloc: Global, system: &System, point: u32, effort: u64) -> Result<Proved, Memory>
    requires point { point < length system.now.hits }
    requires effort { 0 < effort }
    ensures { IfOk result (IsProved system.now point effort) }
{
    let cone = cone_of(alloc, system, point)?;
    let proved = search(alloc, system, &cone, effort)?;
    Ok(proved)
}

/// Searches over the cone.
fn search(alloc: Global, system: &System, cone: &Cone, effort: u64) -> Result<Proved, Memory>
    requires cone { IsCone system.now cone.now }
    requires effort { 0 < effort }
    ensures { IfOk result (IsProved system.now cone.now.point effort) }
{
    let mut frames = Frames::make(alloc, &cone.system, 0);
    let mut units = Units { used: 0, effort };
    let mut claim = no_claim(alloc, system, cone.point);
    loop {
        match frames.step(&cone.system, &mut units)? {
            Turn::More => deepen(alloc, system, cone, &frames, &mut claim, &mut units)?,
            Turn::Closed { level } => {
                return conclude(alloc, system, cone, &frames, level, claim, &mut units);
            }
            Turn::Trace(walk) => return reached(alloc, system, cone, &walk, effort),
            Turn::Spent => return Ok(open(claim, units.used)),
        }
    }
}
