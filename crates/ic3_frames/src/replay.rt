//! Walks up to their first hit.
ghost use Rattle.std.specs.Prelude.{◌≡◌, ◌<◌, IfOk, length, map};
ghost use Rattle.aig_core.specs.Graph.{node_count, value_in};
ghost use Rattle.ic3_frames.specs.Searching.{IsFirstHit, IsTrace};
ghost use Rattle.ic3_frames.specs.Walks.{EndsAtFirstHit};

use crate::walk::Walk;
use aig_core::value_at;
use bit_system::{Memory, System};
use generalise::values_in_step;
use sqlite_items::Items;
use std::alloc::Global;

/// The state after the step in which the nodes have these values.
fn state_after_step(alloc: Global, system: &System, values: &[bool]) -> Result<Items<bool>, Memory>
    requires { length values.now ≡ node_count system.now.graph }
    ensures { IfOk result (λ s. s ≡ map (value_in values.now) system.now.next) }
{
    let mut state = Items::new(alloc);
    for k in 0..system.states().len() {
        state.push(value_at(values, system.next(k as u32)))?;
    }
    Ok(state)
}

/// The first step in which the walk hits.
fn first_hit(alloc: Global, system: &System, point: u32, walk: &Walk) -> Result<usize, Memory>
    requires point { point < length system.now.hits }
    requires trace { IsTrace system.now point walk.now }
    ensures { IfOk result (IsFirstHit system.now point walk.now) }
{
    let hit = system.hit(point);
    let lines = walk.lines.as_slice();
    let last = lines.len() - 1;
    let mut state = Items::from_slice(alloc, walk.start.as_slice())?;
    for at in 0..last {
        let values = values_in_step(alloc, system, state.as_slice(), lines[at].as_slice())?;
        if value_at(&values, hit) {
            return Ok(at);
        }
        state = state_after_step(alloc, system, &values)?;
    }
    Ok(last)
}

/// The walk without the steps after its first hit.
pub fn cut(alloc: Global, system: &System, point: u32, walk: Walk) -> Result<Walk, Memory>
    requires point { point < length system.now.hits }
    requires trace { IsTrace system.now point walk }
    ensures { IfOk result (EndsAtFirstHit system.now point) }
{
    let last = first_hit(alloc, system, point, &walk)?;
    let Walk { start, mut lines } = walk;
    while lines.len() > last + 1 {
        lines.pop();
    }
    Ok(Walk { start, lines })
}
