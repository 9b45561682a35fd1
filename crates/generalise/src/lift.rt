//! Parts of a state that force literals.
ghost use Rattle.std.specs.Prelude.{◌≡◌, ◌+◌, ◌*◌, ◌/◌, ◌<◌, ◌≤◌, ◌^◌, ◌++◌, true, All, length, IfOk, OnOk, slice_set};
ghost use Rattle.aig_core.specs.Graph.{IsLiteral, ReadEarlierNodes, node_count, node_values, value_in, first_gate};
ghost use Rattle.bit_system.specs.Machine.{IsState, IsInput, value_in_step};
ghost use Rattle.generalise.specs.Cubes.{in_cube, IsCube};
ghost use Rattle.generalise.specs.Lifting.{Forces, on, IsSupported, AreSupported, Grows, IsGathered};

use crate::cube::Cube;
use aig_core::{Gate, value_at};
use bit_system::{Memory, StateLit, System};
use sqlite_items::Items;
use std::alloc::Global;

/// The value of each node in the state, under the input.
pub fn values_in_step(
    alloc: Global,
    system: &System,
    state: &[bool],
    input: &[bool],
) -> Result<Vec<bool>, Memory>
    requires state { IsState system.now state.now }
    requires input { IsInput system.now input.now }
    ensures values { IfOk result (λ v. v.items ≡ node_values system.now.graph (input.now ++ state.now)) }
    ensures nodes { IfOk result (λ v. length v.items ≡ node_count system.now.graph) }
{
    // Shows that the parts of the system fit.
    let nodes = system.node_count();
    let mut leaves = Vec::from_slice(alloc, input)?;
    leaves.extend_from_slice(state)?;
    let mut values = vec![in alloc; false; nodes as usize]?;
    system.aig().eval_into(&leaves, &mut values);
    Ok(values)
}

fn mark(marks: &mut [bool], literal: u32)
    requires { literal / 2 < length marks.old }
    ensures { marks.new ≡ slice_set marks.old (literal / 2) true }
{
    marks[(literal / 2) as usize] = true;
}

fn mark_all(marks: &mut [bool], literals: &[u32])
    requires { All (λ x. x / 2 < length marks.old) literals.now }
    ensures { All (λ x. on marks.new (x / 2) ≡ true) literals.now }
{
    for literal in literals {
        mark(marks, *literal);
    }
}

/// Marks sides of the gate whose values give that of the gate: one that is false where there is one, the right
/// one first, whose cone is mostly smaller.
fn support(values: &[bool], marks: &mut [bool], node: usize, gate: Gate)
    requires marks { length marks.old ≡ length values.now }
    requires node { node < length values.now }
    requires left { gate.left < 2 * node }
    requires right { gate.right < 2 * node }
    ensures grows { Grows marks.old marks.new node }
    ensures supported { IsSupported values.now marks.new gate }
{
    if !value_at(values, gate.right) {
        mark(marks, gate.right);
        return;
    }
    mark(marks, gate.left);
    if value_at(values, gate.left) {
        mark(marks, gate.right);
    }
}

/// Marks further nodes so that each marked gate's value follows from the marked leaves.
fn support_all(values: &[bool], marks: &mut [bool], first: u32, gates: &[Gate])
    requires marks { length marks.old ≡ length values.now }
    requires nodes { length values.now ≡ first + length gates.now }
    requires reads { ReadEarlierNodes first gates.now }
    ensures grows { Grows marks.old marks.new (first + length gates.now) }
    ensures supported { AreSupported values.now marks.new first gates.now 0 }
{
    let mut left = gates.len();
    while left > 0 {
        left -= 1;
        let node = first as usize + left;
        if marks[node] {
            support(values, marks, node, gates[left]);
        }
    }
}

/// The nodes whose values are needed for those of the goal literals.
fn needed(
    alloc: Global,
    system: &System,
    values: &[bool],
    goal: &[u32],
) -> Result<Vec<bool>, Memory>
    requires values { length values.now ≡ node_count system.now.graph }
    requires exist { All (IsLiteral system.now.graph) goal.now }
    ensures nodes { IfOk result (λ m. length m.items ≡ node_count system.now.graph) }
    ensures goal { IfOk result (λ m. All (λ x. on m.items (x / 2) ≡ true) goal.now) }
    ensures supported { IfOk result (λ m. AreSupported values.now m.items (first_gate system.now.graph) system.now.graph.gates 0) }
{
    let first = system.first_gate();
    let gates = system.gates();
    let mut marks = vec![in alloc; false; values.len()]?;
    mark_all(&mut marks, goal);
    support_all(values, &mut marks, first, gates);
    Ok(marks)
}

/// The literal of the state bit at this place, where its node is marked.
fn gather_bit(
    cube: &mut Cube,
    marks: &[bool],
    first: u32,
    state: &[bool],
    at: usize,
) -> Result<(), Memory>
    requires marks { first + length state.now ≤ length marks.now }
    requires small { length state.now < 2 ^ 32 }
    requires at { at < length state.now }
    requires gathered { IsGathered marks.now state.now first at cube.old }
    ensures { OnOk result (IsGathered marks.now state.now first (at + 1) cube.new) }
{
    if !marks[first as usize + at] {
        return Ok(());
    }
    cube.push(StateLit {
        state: at as u32,
        positive: state[at],
    })?;
    Ok(())
}

/// The values of the marked state bits, of which the first is node `first`.
fn gather(alloc: Global, marks: &[bool], first: u32, state: &[bool]) -> Result<Cube, Memory>
    requires marks { first + length state.now ≤ length marks.now }
    requires small { length state.now < 2 ^ 32 }
    ensures { IfOk result (IsGathered marks.now state.now first (length state.now)) }
{
    let mut cube = Items::new(alloc);
    for k in 0..state.len() {
        gather_bit(&mut cube, marks, first, state, k)?;
    }
    Ok(cube)
}

/// A part of the state that forces the goal literals under that input. It costs a step for each node of the
/// circuit.
pub fn shrink_state(
    alloc: Global,
    system: &System,
    state: &[bool],
    input: &[bool],
    goal: &[u32],
) -> Result<Cube, Memory>
    requires state { IsState system.now state.now }
    requires input { IsInput system.now input.now }
    requires exist { All (IsLiteral system.now.graph) goal.now }
    requires forced { All (λ x. value_in_step system.now state.now input.now x ≡ true) goal.now }
    ensures is_cube { IfOk result (IsCube system.now) }
    ensures part { IfOk result (λ c. in_cube state.now c ≡ true) }
    ensures forces { IfOk result (Forces system.now input.now goal.now) }
{
    let first = 1 + system.inputs();
    let values = values_in_step(alloc, system, state, input)?;
    let marks = needed(alloc, system, &values, goal)?;
    let cube = gather(alloc, &marks, first, state)?;
    Ok(cube)
}
