//! The nodes that a point needs.
ghost use Rattle.std.specs.Prelude.{◌≡◌, ◌+◌, ◌≤◌, ◌<◌, ◌++◌, ◌∷◌, [], ℕ, true, false, IfOk, OnOk, length, replicate};
ghost use Rattle.aig_core.specs.Graph.{IsLiteral, node_count};
ghost use Rattle.bit_system.specs.Machine.{IsMachine};
ghost use Rattle.point_cone.specs.Reaching.{on, reads, unmarked, IsUnder, IsReached, Reaches};

use bit_system::{Memory, System};
use std::alloc::Global;

/// The two literals that give the value of a node: the sides of a gate, twice the next literal of a state bit, and
/// twice the false literal for the others.
fn reads(system: &System, node: u32) -> (u32, u32)
    requires { node < node_count system.now.graph }
    ensures value { result ≡ reads system.now node }
    ensures left { IsLiteral system.now.graph result.0 }
    ensures right { IsLiteral system.now.graph result.1 }
    ensures valid { IsMachine system.now }
{
    let first_state = 1 + system.inputs();
    if node < first_state {
        return (0, 0);
    }
    let first_gate = system.first_gate();
    if node < first_gate {
        let next = system.next(node - first_state);
        return (next, next);
    }
    let gate = system.gates()[(node - first_gate) as usize];
    (gate.left, gate.right)
}

/// The node is marked, and waits where it was not marked before.
fn reach(marks: &mut [bool], waiting: &mut Vec<u32>, node: u32) -> Result<(), Memory>
    requires { node < length marks.old }
    ensures { OnOk result (Reaches node marks.old waiting.old.items marks.new waiting.new.items) }
{
    if marks[node as usize] {
        return Ok(());
    }
    waiting.push(node)?;
    marks[node as usize] = true;
    Ok(())
}

/// What the node reads is marked.
fn reach_read(
    system: &System,
    point: u32,
    marks: &mut [bool],
    waiting: &mut Vec<u32>,
    node: u32,
) -> Result<(), Memory>
    requires { IsUnder system.now point marks.old (waiting.old.items ++ node ∷ []) }
    ensures kept { OnOk result ((n : ℕ) → on marks.old n ≡ true → on marks.new n ≡ true) }
    ensures under { OnOk result (IsUnder system.now point marks.new waiting.new.items) }
    ensures count { OnOk result (unmarked marks.new + length waiting.new.items ≤ unmarked marks.old + length waiting.old.items) }
{
    let (left, right) = reads(system, node);
    reach(marks, waiting, left / 2)?;
    reach(marks, waiting, right / 2)?;
    Ok(())
}

/// Marks what the point needs.
fn reach_all(alloc: Global, system: &System, point: u32, marks: &mut [bool]) -> Result<(), Memory>
    requires point { point < length system.now.hits }
    requires marks { marks.old ≡ replicate (node_count system.now.graph) false }
    ensures { OnOk result (IsReached system.now point marks.new) }
{
    let mut waiting = Vec::new(alloc);
    reach(marks, &mut waiting, system.hit(point) / 2)?;
    while let Some(node) = waiting.pop() {
        reach_read(system, point, marks, &mut waiting, node)?;
    }
    Ok(())
}

/// Whether each node is one that the point needs: those that its hit literal reads, over any number of steps. It
/// takes a place for each node of the circuit, and the time of those that are needed.
pub fn reached(alloc: Global, system: &System, point: u32) -> Result<Vec<bool>, Memory>
    requires { point < length system.now.hits }
    ensures { IfOk result (λ marks. IsReached system.now point marks.items) }
{
    let mut marks = vec![in alloc; false; system.node_count() as usize]?;
    reach_all(alloc, system, point, &mut marks)?;
    Ok(marks)
}
