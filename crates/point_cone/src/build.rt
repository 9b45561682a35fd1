//! Cones of points.
ghost use Rattle.std.specs.Prelude.{◌≡◌, ◌<◌, All, IfOk, length, map, replicate};
ghost use Rattle.aig_core.specs.Graph.{IsLiteral, node_count};
ghost use Rattle.bit_system.specs.Machine.{next_literal};
ghost use Rattle.point_cone.specs.Naming.{name_of};
ghost use Rattle.point_cone.specs.Parts.{IsCone, infos_at};
ghost use Rattle.point_cone.specs.Small.{IsSmall};
ghost use Rattle.point_cone.specs.Reaching.{IsReached, AreDone};

use crate::reach::reached;
use crate::rename::{name_gates, name_leaves, name_of};
use aig_core::Aig;
use bit_system::{Memory, StateInfo, System};
use sqlite_items::Items;
use std::alloc::Global;
use word_core::Name;

/// The part of a system that a point needs, as a system of which it is point 0, and the places of its state bits and
/// inputs in the whole system. Its state bits have no names.
#[derive(Drop)]
pub struct Cone {
    pub point: u32,
    pub system: System,
    pub states: Items<u32>,
    pub inputs: Items<u32>,
}

/// A circuit, and the places of its state bits and inputs.
#[derive(Drop)]
struct Small {
    aig: Aig,
    states: Items<u32>,
    inputs: Items<u32>,
}

/// The circuit of the marked nodes, and their names in it.
fn smaller(
    alloc: Global,
    system: &System,
    marks: &[bool],
    names: &mut [u32],
) -> Result<Small, Memory>
    requires size { length marks.now ≡ node_count system.now.graph }
    requires done { AreDone system.now marks.now }
    requires names { names.old ≡ replicate (node_count system.now.graph) 0 }
    ensures { IfOk result (IsSmall system.now marks.now names.new) }
{
    let inputs = name_leaves(alloc, marks, names, 1, system.inputs(), 1)?;
    let states = name_leaves(
        alloc,
        marks,
        names,
        1 + system.inputs(),
        system.states().len() as u32,
        1 + inputs.len() as u32,
    )?;
    let mut aig = Aig::make(alloc, inputs.len() as u32, states.len() as u32)?;
    name_gates(&mut aig, names, marks, system.first_gate(), system.gates())?;
    Ok(Small {
        aig,
        states,
        inputs,
    })
}

/// The state bits at these places, without names.
fn infos(alloc: Global, system: &System, states: &[u32]) -> Result<Items<StateInfo>, Memory>
    requires { All (λ s. s < length system.now.states) states.now }
    ensures { IfOk result (λ is. is ≡ infos_at system.now.states states.now) }
{
    let all = system.states();
    let mut infos = Items::new(alloc);
    for state in states {
        infos.push(StateInfo {
            name: Name::make(alloc, b"")?,
            start: all[*state as usize].start,
        })?;
    }
    Ok(infos)
}

/// The names of the next literals of the state bits at these places.
fn next_names(
    alloc: Global,
    system: &System,
    names: &[u32],
    states: &[u32],
) -> Result<Items<u32>, Memory>
    requires states { All (λ s. s < length system.now.states) states.now }
    requires names { length names.now ≡ node_count system.now.graph }
    ensures { IfOk result (λ ns. ns ≡ map (λ s. name_of names.now (next_literal system.now s)) states.now) }
{
    let mut next = Items::new(alloc);
    for state in states {
        next.push(name_of(names, system.next(*state)))?;
    }
    Ok(next)
}

/// The cone of the marked nodes.
fn cone_with(
    alloc: Global,
    system: &System,
    point: u32,
    marks: &[bool],
    names: &mut [u32],
) -> Result<Cone, Memory>
    requires point { point < length system.now.hits }
    requires reached { IsReached system.now point marks.now }
    requires names { names.old ≡ replicate (node_count system.now.graph) 0 }
    ensures cone { IfOk result (IsCone system.now) }
    ensures point { IfOk result (λ c. c.point ≡ point) }
{
    let Small {
        aig,
        states,
        inputs,
    } = smaller(alloc, system, marks, names)?;
    let infos = infos(alloc, system, states.as_slice())?;
    let next = next_names(alloc, system, names, states.as_slice())?;
    let mut hits = Items::new(alloc);
    hits.push(name_of(names, system.hit(point)))?;
    let small = System::make(aig, infos, next, hits, system.prelude());
    // Shows that the parts of the small system fit.
    let _nodes = small.node_count();
    Ok(Cone {
        point,
        system: small,
        states,
        inputs,
    })
}

/// The part of the system that the point needs: the state bits and inputs that its hit literal reads, over any number
/// of steps. It takes two places for each node of the whole circuit, of a byte and of four, a look at each of the bytes,
/// and else the time and memory of what is needed.
pub fn cone_of(alloc: Global, system: &System, point: u32) -> Result<Cone, Memory>
    requires { point < length system.now.hits }
    ensures cone { IfOk result (IsCone system.now) }
    ensures point { IfOk result (λ c. c.point ≡ point) }
{
    let marks = reached(alloc, system, point)?;
    let mut names = vec![in alloc; 0u32; system.node_count() as usize]?;
    let cone = cone_with(alloc, system, point, &marks, &mut names)?;
    Ok(cone)
}
