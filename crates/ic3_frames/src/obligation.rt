//! Obligations.
ghost use Rattle.std.specs.Prelude.{◌≡◌, ◌∷◌, [], true, All, IfOk, MatchOption, OnOk, length};
ghost use Rattle.aig_core.specs.Graph.{IsLiteral};
ghost use Rattle.bit_system.specs.Machine.{IsState, IsInput, value_in_step};
ghost use Rattle.ic3_frames.specs.Lifted.{IsLifted};

use bit_system::{Memory, System};
use generalise::{Cube, shrink_state};
use sqlite_items::Items;
use std::alloc::{AllocError, Global};
use std::collections::VecDeque;
use std::marker::Model;

/// A cube that leads to a hit, the input with which it does, one of its states, and the level at which it has to be
/// blocked.
#[derive(Drop)]
pub struct Obligation {
    pub cube: Cube,
    pub input: Items<bool>,
    pub state: Items<bool>,
    pub level: u64,
}

/// The part of the state that forces the goal literals under the input.
pub fn lift(
    alloc: Global,
    system: &System,
    state: Items<bool>,
    input: Items<bool>,
    goal: &[u32],
    level: u64,
) -> Result<Obligation, Memory>
    requires state { IsState system.now state }
    requires input { IsInput system.now input }
    requires exist { All (IsLiteral system.now.graph) goal.now }
    requires forced { All (λ x. value_in_step system.now state input x ≡ true) goal.now }
    ensures { IfOk result (IsLifted system.now state input goal.now level) }
{
    let cube = shrink_state(alloc, system, state.as_slice(), input.as_slice(), goal)?;
    Ok(Obligation {
        cube,
        input,
        state,
        level,
    })
}

/// Obligations, each of which leads to the next one.
#[derive(Drop)]
pub struct Obligations {
    items: VecDeque<Obligation>,
}

impl Model for Obligations {
    ghost use Rattle.std.specs.Prelude.{List};
    ghost use Rattle.ic3_frames.specs.declared.obligation.Obligation.{Obligation};

    ghost Value = { List Obligation };

    ghost view = { λ o. o.items.items };
}

impl Obligations {
    pub fn new(alloc: Global) -> Self
        ensures { result ≡ [] }
    {
        Obligations {
            items: VecDeque::new(alloc),
        }
    }

    pub fn len(&self) -> usize
        ensures { result ≡ length self.now }
    {
        self.items.len()
    }

    pub fn push(&mut self, first: Obligation) -> Result<(), Memory>
        ensures { OnOk result (self.new ≡ first ∷ self.old) }
    {
        if let Err(_) = self.items.push_front(first) {
            return Err(AllocError);
        }
        Ok(())
    }

    pub fn pop(&mut self) -> Option<Obligation>
        ensures { MatchOption result ((self.old ≡ []) × (self.new ≡ [])) (λ o. self.old ≡ o ∷ self.new) }
    {
        self.items.pop_front()
    }
}
