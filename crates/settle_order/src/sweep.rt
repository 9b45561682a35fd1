//! Placing nodes one after another, each as soon as it is the lowest whose needs are known.
ghost use Rattle.std.specs.Prelude.{◌≡◌, ℕ, ◌<◌, ◌^◌, ◌∷◌, [], true, Contains, List, All, IfOk, OnOk, false, length, replicate, slice_index_or, slice_set};
ghost use Rattle.settle_order.specs.Nodes.{IsNet, IsTable};
ghost use Rattle.settle_order.specs.Orders.{IsNext};
ghost use Rattle.settle_order.specs.Sweeping.{AllKnown, IsOrdered, IsScan, IsScanned, IsStuck, IsSwept, IsUndriven, Releases, SameFlags};

use crate::nodes::Node;
use crate::waiting::Waiting;
use sqlite_items::Items;
use std::alloc::{AllocError, Global};
use std::collections::BTreeSet;

/// Nodes that are being placed.
#[derive(Drop)]
pub struct Sweep {
    /// Whether each bit is known.
    pub known: Items<bool>,
    /// Whether each node is placed.
    pub placed: Items<bool>,
    /// How many of each node's needs, from the first one on, were seen to be known.
    pub scanned: Items<usize>,
    /// The nodes that wait for each bit.
    pub waiting: Waiting,
    /// The nodes that can be placed.
    pub ready: BTreeSet<u32>,
    /// The placed nodes in their order.
    pub order: Items<u32>,
}

/// The place of the first need from here on that isn't known, or how many needs there are.
pub fn scan(needs: &[u32], known: &[bool], from: usize) -> usize
    requires within { All (λ b. b < length known.now) needs.now }
    requires scanned { IsScanned known.now needs.now from }
    ensures { IsScan known.now needs.now result }
{
    for at in from..needs.len() {
        if !known[needs[at] as usize] {
            return at;
        }
    }
    needs.len()
}

impl Sweep {
    /// A node that isn't placed waits for the next bit that it needs and that isn't known, or is ready.
    fn watch(&mut self, nodes: &[Node], node: u32) -> Result<(), AllocError>
        requires { (rest : List ℕ) × IsSwept nodes.now self.old (node ∷ rest) }
        ensures swept { OnOk result ((rest : List ℕ) → IsSwept nodes.now self.old (node ∷ rest) → IsSwept nodes.now self.new rest) }
        ensures same { OnOk result (SameFlags self.old self.new) }
    {
        let needs = nodes[node as usize].needs.as_slice();
        let from = self.scanned.as_slice()[node as usize];
        let at = scan(needs, self.known.as_slice(), from);
        self.scanned.set(node as usize, at);
        if at < needs.len() {
            self.waiting.wait(needs[at], node)?;
            return Ok(());
        }
        self.ready.insert(node)?;
        Ok(())
    }

    /// None of these nodes is loose any more.
    fn watch_all(&mut self, nodes: &[Node], loose: &[u32]) -> Result<(), AllocError>
        requires { IsSwept nodes.now self.old loose.now }
        ensures swept { OnOk result (IsSwept nodes.now self.new []) }
        ensures same { OnOk result (SameFlags self.old self.new) }
    {
        for node in loose {
            self.watch(nodes, *node)?;
        }
        Ok(())
    }

    /// The bit is known, and the nodes that waited for it are loose.
    fn release(&mut self, bit: u32, loose: &mut Vec<u32>) -> Result<(), AllocError>
        requires known { bit < length self.old.known }
        requires waiting { bit < length self.old.waiting }
        ensures { OnOk result (Releases bit self.old self.new loose.old.items loose.new.items) }
    {
        self.known.set(bit as usize, true);
        self.waiting.release(bit, loose)?;
        Ok(())
    }

    /// Places the node.
    fn place(&mut self, alloc: Global, nodes: &[Node], node: u32) -> Result<(), AllocError>
        requires net { IsNet nodes.now (length self.old.known) }
        requires swept { IsSwept nodes.now self.old (node ∷ []) }
        requires known { AllKnown nodes.now self.old.known node }
        requires apart { Contains self.old.ready.keys node → ⊥ }
        requires ordered { IsOrdered nodes.now self.old }
        requires next { IsNext nodes.now self.old.order node }
        ensures swept { OnOk result (IsSwept nodes.now self.new []) }
        ensures ordered { OnOk result (IsOrdered nodes.now self.new) }
        ensures placed { OnOk result (self.new.placed ≡ slice_set self.old.placed node true) }
        ensures size { OnOk result (length self.new.known ≡ length self.old.known) }
    {
        self.order.push(node)?;
        self.placed.set(node as usize, true);
        let mut loose = Vec::new(alloc);
        for bit in nodes[node as usize].drives.as_slice() {
            self.release(*bit, &mut loose)?;
        }
        self.watch_all(nodes, &loose)?;
        Ok(())
    }

    /// The placed nodes in their order.
    pub fn into_order(self) -> Items<u32>
        ensures { result ≡ self.order }
    {
        let Sweep {
            known: _,
            placed: _,
            scanned: _,
            waiting: _,
            ready: _,
            order,
        } = self;
        order
    }
}

/// Flags that are all down.
pub fn flags(alloc: Global, count: usize) -> Result<Vec<bool>, AllocError>
    ensures { IfOk result (λ v. v.items ≡ replicate count false) }
{
    vec![in alloc; false; count]
}

/// No needs of so many nodes.
fn zeros(alloc: Global, count: usize) -> Result<Vec<usize>, AllocError>
    ensures { IfOk result (λ v. v.items ≡ replicate count 0) }
{
    vec![in alloc; 0usize; count]
}

/// The bits that no node drives.
fn undriven(alloc: Global, table: &[Option<u32>]) -> Result<Items<bool>, AllocError>
    ensures { IfOk result (IsUndriven table.now) }
{
    let mut known = Items::new(alloc);
    for driver in table {
        known.push(driver.is_none())?;
    }
    Ok(known)
}

/// The numbers of all nodes.
fn numbers(alloc: Global, count: u32) -> Result<Vec<u32>, AllocError>
    ensures length { IfOk result (λ v. length v.items ≡ count) }
    ensures each { IfOk result (λ v. (k : ℕ) → k < count → slice_index_or v.items k 0 ≡ k) }
{
    let mut all = Vec::with_capacity(alloc, count as usize)?;
    for k in 0..count {
        all.push(k)?;
    }
    Ok(all)
}

/// No node is placed, and each is ready or waits.
fn start(alloc: Global, nodes: &[Node], table: &[Option<u32>]) -> Result<Sweep, AllocError>
    requires net { IsNet nodes.now (length table.now) }
    requires count { length nodes.now < 2 ^ 32 }
    requires bits { length table.now < 2 ^ 32 }
    requires table { IsTable nodes.now (length table.now) (length nodes.now) table.now }
    ensures swept { IfOk result (λ s. IsSwept nodes.now s []) }
    ensures ordered { IfOk result (IsOrdered nodes.now) }
    ensures size { IfOk result (λ s. length s.known ≡ length table.now) }
{
    let mut sweep = Sweep {
        known: undriven(alloc, table)?,
        placed: Items::from_vec(flags(alloc, nodes.len())?),
        scanned: Items::from_vec(zeros(alloc, nodes.len())?),
        waiting: Waiting::make(alloc, table.len() as u32)?,
        ready: BTreeSet::new(alloc),
        order: Items::new(alloc),
    };
    let all = numbers(alloc, nodes.len() as u32)?;
    sweep.watch_all(nodes, &all)?;
    Ok(sweep)
}

/// All nodes placed that can be.
pub fn swept(alloc: Global, nodes: &[Node], table: &[Option<u32>]) -> Result<Sweep, AllocError>
    requires net { IsNet nodes.now (length table.now) }
    requires count { length nodes.now < 2 ^ 32 }
    requires bits { length table.now < 2 ^ 32 }
    requires table { IsTable nodes.now (length table.now) (length nodes.now) table.now }
    ensures { IfOk result (IsStuck nodes.now (length table.now)) }
{
    let mut sweep = start(alloc, nodes, table)?;
    while let Some(node) = sweep.ready.pop_first() {
        sweep.place(alloc, nodes, node)?;
    }
    Ok(sweep)
}
