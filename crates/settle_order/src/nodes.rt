//! Nodes, and which of them drives each bit.
ghost use Rattle.std.specs.Prelude.{◌≡◌, ◌<◌, ◌^◌, All, IfOk, length};
ghost use Rattle.settle_order.specs.Nodes.{IsNet, IsTable, IsNoted};

use sqlite_items::Items;
use std::alloc::{AllocError, Global};

/// The numbers of the bits that a node needs, and of those that it drives.
#[derive(Drop)]
pub struct Node {
    pub needs: Items<u32>,
    pub drives: Items<u32>,
}

/// Notes that a node drives these bits.
fn note(table: &mut Items<Option<u32>>, drives: &[u32], node: u32)
    requires { All (λ b. b < length table.old) drives.now }
    ensures { IsNoted drives.now node (length drives.now) table.old table.new }
{
    for bit in drives {
        table.set(*bit as usize, Some(node));
    }
}

/// For each bit the node that drives it.
pub fn drivers(alloc: Global, nodes: &[Node], bits: u32) -> Result<Items<Option<u32>>, AllocError>
    requires net { IsNet nodes.now bits }
    requires count { length nodes.now < 2 ^ 32 }
    ensures { IfOk result (IsTable nodes.now bits (length nodes.now)) }
{
    let mut table = Items::from_vec(vec![in alloc; None; bits as usize]?);
    for (k, node) in nodes.iter().enumerate() {
        note(&mut table, node.drives.as_slice(), k as u32);
    }
    Ok(table)
}
