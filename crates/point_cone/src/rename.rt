//! A smaller circuit, and names of nodes in it.
ghost use Rattle.std.specs.Prelude.{◌≡◌, ◌+◌, ◌*◌, ◌/◌, ◌≤◌, ◌<◌, ◌^◌, All, IfOk, OnOk, length};
ghost use Rattle.aig_core.specs.Graph.{IsLiteral, IsWellFormed, ReadEarlierNodes, node_count};
ghost use Rattle.point_cone.specs.Naming.{name_of, name_at, name_gates, AreLeaves};

use aig_core::{Aig, Gate, negated};
use bit_system::Memory;
use sqlite_items::Items;
use std::alloc::{AllocError, Global};

/// The name of a literal.
pub fn name_of(names: &[u32], literal: u32) -> u32
    requires { literal / 2 < length names.now }
    ensures { result ≡ name_of names.now literal }
{
    let name = names[(literal / 2) as usize];
    if literal % 2 == 1 {
        return negated(name);
    }
    name
}

/// Names the marked ones of the leaves, of which the first is node `first`, after the leaves from node `from` on.
/// Answers their places among those.
pub fn name_leaves(
    alloc: Global,
    marks: &[bool],
    names: &mut [u32],
    first: u32,
    count: u32,
    from: u32,
) -> Result<Items<u32>, Memory>
    requires marks { first + count ≤ length marks.now }
    requires names { first + count ≤ length names.old }
    requires from { from ≤ first }
    requires small { first + count < 2 ^ 31 }
    ensures { IfOk result (AreLeaves marks.now names.old names.new first count from) }
{
    let mut places = Items::new(alloc);
    for k in 0..count {
        let node = (first + k) as usize;
        if marks[node] {
            names[node] = 2 * (from + places.len() as u32);
            places.push(k)?;
        }
    }
    Ok(places)
}

/// Makes the gate of this node over the names of its sides, where the node is marked.
fn name_gate(
    aig: &mut Aig,
    names: &mut [u32],
    marks: &[bool],
    node: usize,
    gate: Gate,
) -> Result<(), Memory>
    requires marks { node < length marks.now }
    requires names { node < length names.old }
    requires left { gate.left / 2 < length names.old }
    requires right { gate.right / 2 < length names.old }
    requires exist { All (IsLiteral aig.old) names.old }
    ensures renamed { OnOk result (record { graph = aig.new; names = names.new } ≡ name_at marks.now node gate (record { graph = aig.old; names = names.old })) }
    ensures exist { OnOk result (All (IsLiteral aig.new) names.new) }
{
    if !marks[node] {
        return Ok(());
    }
    if aig.is_full() {
        return Err(AllocError);
    }
    let left = name_of(names, gate.left);
    let right = name_of(names, gate.right);
    names[node] = aig.and(left, right)?;
    Ok(())
}

/// Makes the marked gates, of which the first is node `first`, over the names of their sides.
pub fn name_gates(
    aig: &mut Aig,
    names: &mut [u32],
    marks: &[bool],
    first: u32,
    gates: &[Gate],
) -> Result<(), Memory>
    requires marks { first + length gates.now ≤ length marks.now }
    requires names { first + length gates.now ≤ length names.old }
    requires reads { ReadEarlierNodes first gates.now }
    requires exist { All (IsLiteral aig.old) names.old }
    ensures renamed { OnOk result (record { graph = aig.new; names = names.new } ≡ name_gates marks.now first gates.now (record { graph = aig.old; names = names.old })) }
    ensures exist { OnOk result (All (IsLiteral aig.new) names.new) }
{
    for (i, gate) in gates.iter().enumerate() {
        name_gate(aig, names, marks, first as usize + i, *gate)?;
    }
    Ok(())
}
