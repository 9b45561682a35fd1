//! The order of nodes, or a loop.
ghost use Rattle.std.specs.Prelude.{◌≡◌, ◌<◌, ◌^◌, ℕ, true, false, IfOk, MatchOption, length};
ghost use Rattle.settle_order.specs.Nodes.{IsNet};
ghost use Rattle.settle_order.specs.Settling.{Settles};
ghost use Rattle.settle_order.specs.Sweeping.{on};

use crate::nodes::{Node, drivers};
use crate::search::{looped, lowest_loop};
use crate::sweep::swept;
use sqlite_items::Items;
use std::alloc::{AllocError, Global};

/// What nodes settle to.
#[derive(Debug, Drop)]
pub enum Settling {
    /// All nodes, in their order.
    Order(Items<u32>),
    /// Bits each of which the driver of the next one needs, and the last one the driver of the first.
    Loop(Items<u32>),
}

/// The first node that isn't placed.
fn first_left(placed: &[bool]) -> Option<u32>
    requires { length placed.now < 2 ^ 32 }
    ensures { MatchOption result ((k : ℕ) → k < length placed.now → on placed.now k ≡ true) (λ k. (k < length placed.now) × (on placed.now k ≡ false)) }
{
    for (k, flag) in placed.iter().enumerate() {
        if !*flag {
            return Some(k as u32);
        }
    }
    None
}

/// The order of nodes over bits below `bits`, of which no two drive one bit: again and again the lowest node is placed of
/// those whose needs are known, which are the bits that no node drives and those of the nodes that are placed. Where some
/// node can't be placed, a loop instead, which begins with the lowest bit that lies on one.
pub fn settle(alloc: Global, nodes: &[Node], bits: u32) -> Result<Settling, AllocError>
    requires net { IsNet nodes.now bits }
    requires count { length nodes.now < 2 ^ 32 }
    ensures { IfOk result (Settles nodes.now) }
{
    let table = drivers(alloc, nodes, bits)?;
    let table = table.as_slice();
    let sweep = swept(alloc, nodes, table)?;
    match first_left(sweep.placed.as_slice()) {
        None => Ok(Settling::Order(sweep.into_order())),
        Some(node) => {
            let last = looped(alloc, nodes, table, &sweep, node)?;
            Ok(Settling::Loop(lowest_loop(alloc, nodes, table, last)?))
        }
    }
}
