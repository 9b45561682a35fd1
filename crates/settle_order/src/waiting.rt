//! Which nodes wait for which bit.
ghost use Rattle.std.specs.Prelude.{◌≡◌, ◌∷◌, ◌++◌, ◌<◌, [], IfOk, OnOk, length, replicate, slice_set};
ghost use Rattle.settle_order.specs.Sweeping.{list_at};

use std::alloc::{AllocError, Global};
use std::marker::Model;

/// For each bit the nodes that wait for it.
#[derive(Drop)]
pub struct Waiting {
    lists: Vec<Vec<u32>>,
}

impl Model for Waiting {
    ghost use Rattle.std.specs.Prelude.{ℕ, List, map};

    ghost Value = { List (List ℕ) };

    ghost view = { λ w. map (λ v. v.items) w.lists.items };
}

impl Waiting {
    /// No node waits for any of these bits.
    pub fn make(alloc: Global, bits: u32) -> Result<Waiting, AllocError>
        ensures { IfOk result (λ w. w ≡ replicate bits []) }
    {
        let mut lists = Vec::with_capacity(alloc, bits as usize)?;
        for _ in 0..bits {
            lists.push(Vec::new(alloc))?;
        }
        Ok(Waiting { lists })
    }

    /// The node waits for the bit.
    pub fn wait(&mut self, bit: u32, node: u32) -> Result<(), AllocError>
        requires { bit < length self.old }
        ensures { OnOk result (self.new ≡ slice_set self.old bit (list_at self.old bit ++ node ∷ [])) }
    {
        self.lists[bit as usize].push(node)?;
        Ok(())
    }

    /// Those that wait for the bit are loose.
    pub fn release(&mut self, bit: u32, loose: &mut Vec<u32>) -> Result<(), AllocError>
        requires { bit < length self.old }
        ensures waiting { OnOk result (self.new ≡ slice_set self.old bit []) }
        ensures loose { OnOk result (loose.new.items ≡ loose.old.items ++ list_at self.old bit) }
    {
        loose.append(&mut self.lists[bit as usize])?;
        Ok(())
    }
}
