//! Which bits lie on loops, and a loop through the lowest one.
ghost use Rattle.std.specs.Prelude.{◌≡◌, ◌<◌, ℕ, None, false, IfOk, MatchOption, length, slice_index_or};
ghost use Rattle.settle_order.specs.Nodes.{IsNet, IsTable, Needs};
ghost use Rattle.settle_order.specs.Loops.{IsLooped, IsLowestLoop};
ghost use Rattle.settle_order.specs.Search.{AreEarlier, Expands, IsBack, IsLoopOf, IsSearched};
ghost use Rattle.settle_order.specs.Sweeping.{IsLeft, IsStuck, on};

use crate::nodes::Node;
use crate::sweep::{Sweep, flags, scan};
use sqlite_items::Items;
use std::alloc::{AllocError, Global};

/// A bit that feeds the bit of an earlier step.
#[derive(Clone, Copy)]
struct Step {
    bit: u32,
    toward: usize,
}

/// Goes on from a step to what feeds its bit, and says whether c does.
fn expand(
    nodes: &[Node],
    table: &[Option<u32>],
    c: u32,
    at: usize,
    seen: &mut [bool],
    steps: &mut Vec<Step>,
) -> Result<bool, AllocError>
    requires net { IsNet nodes.now (length table.now) }
    requires table { IsTable nodes.now (length table.now) (length nodes.now) table.now }
    requires searched { IsSearched nodes.now c (length table.now) seen.old steps.old.items at }
    requires at { at < length steps.old.items }
    ensures { IfOk result (λ found. Expands nodes.now c (length table.now) at seen.old steps.old.items seen.new steps.new.items found) }
{
    let Some(driver) = table[steps[at].bit as usize] else {
        return Ok(false);
    };
    for need in nodes[driver as usize].needs.as_slice() {
        if *need == c {
            return Ok(true);
        }
        if !seen[*need as usize] {
            steps.push(Step {
                bit: *need,
                toward: at,
            })?;
            seen[*need as usize] = true;
        }
    }
    Ok(false)
}

/// The loop from c over a step that it feeds.
fn loop_back(alloc: Global, steps: &[Step], c: u32, mut at: usize) -> Result<Items<u32>, AllocError>
    requires at { at < length steps.now }
    requires earlier { AreEarlier steps.now }
    ensures { IfOk result (IsBack c steps.now at) }
{
    let mut bits = Items::new(alloc);
    bits.push(c)?;
    while at != 0 {
        bits.push(steps[at].bit)?;
        at = steps[at].toward;
    }
    Ok(bits)
}

/// A loop from c on, if c lies on one.
fn loop_through(
    alloc: Global,
    nodes: &[Node],
    table: &[Option<u32>],
    c: u32,
) -> Result<Option<Items<u32>>, AllocError>
    requires net { IsNet nodes.now (length table.now) }
    requires table { IsTable nodes.now (length table.now) (length nodes.now) table.now }
    requires within { c < length table.now }
    ensures { IfOk result (λ found. MatchOption found (IsLooped nodes.now c → ⊥) (IsLoopOf nodes.now c)) }
{
    let mut seen = flags(alloc, table.len())?;
    let mut steps = Vec::new(alloc);
    steps.push(Step { bit: c, toward: 0 })?;
    let mut at = 0;
    while at < steps.len() {
        if expand(nodes, table, c, at, &mut seen, &mut steps)? {
            return Ok(Some(loop_back(alloc, &steps, c, at)?));
        }
        at += 1;
    }
    Ok(None)
}

/// An unknown bit that a node needs.
fn awaited(nodes: &[Node], sweep: &Sweep, node: u32) -> u32
    requires stuck { (bits : ℕ) × IsStuck nodes.now bits sweep.now }
    requires left { IsLeft nodes.now sweep.now.placed node }
    ensures needed { Needs nodes.now node result }
    ensures unknown { on sweep.now.known result ≡ false }
{
    let needs = nodes[node as usize].needs.as_slice();
    let from = sweep.scanned.as_slice()[node as usize];
    let at = scan(needs, sweep.known.as_slice(), from);
    needs[at]
}

/// The node that drives a bit.
fn driver(table: &[Option<u32>], bit: u32) -> u32
    requires { (k : ℕ) × (slice_index_or table.now bit None ≡ Some k) }
    ensures { slice_index_or table.now bit None ≡ Some result }
{
    match table[bit as usize] {
        Some(node) => node,
        None => unreachable!(),
    }
}

/// A bit that lies on a loop: that of the walk from a node to the driver of a bit that it waits for.
pub fn looped(
    alloc: Global,
    nodes: &[Node],
    table: &[Option<u32>],
    sweep: &Sweep,
    node: u32,
) -> Result<u32, AllocError>
    requires net { IsNet nodes.now (length table.now) }
    requires table { IsTable nodes.now (length table.now) (length nodes.now) table.now }
    requires stuck { IsStuck nodes.now (length table.now) sweep.now }
    requires left { IsLeft nodes.now sweep.now.placed node }
    ensures looped { IfOk result (IsLooped nodes.now) }
    ensures within { IfOk result (λ b. b < length table.now) }
{
    let mut seen = flags(alloc, table.len())?;
    let mut bit = awaited(nodes, sweep, node);
    while !seen[bit as usize] {
        seen[bit as usize] = true;
        bit = awaited(nodes, sweep, driver(table, bit));
    }
    Ok(bit)
}

/// A loop through the lowest bit that lies on one, where `last` does.
pub fn lowest_loop(
    alloc: Global,
    nodes: &[Node],
    table: &[Option<u32>],
    last: u32,
) -> Result<Items<u32>, AllocError>
    requires net { IsNet nodes.now (length table.now) }
    requires table { IsTable nodes.now (length table.now) (length nodes.now) table.now }
    requires within { last < length table.now }
    requires looped { IsLooped nodes.now last }
    ensures { IfOk result (IsLowestLoop nodes.now) }
{
    for c in 0..last {
        if let Some(bits) = loop_through(alloc, nodes, table, c)? {
            return Ok(bits);
        }
    }
    match loop_through(alloc, nodes, table, last)? {
        Some(bits) => Ok(bits),
        None => unreachable!(),
    }
}
