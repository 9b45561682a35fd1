//! Transition systems.
ghost use Rattle.std.specs.Prelude.{◌≡◌, ◌↔◌, ◌+◌, ◌≤◌, ◌<◌, ◌^◌, IsTrue, IsSome, IfSome, All, length, slice_index_or};
ghost use Rattle.aig_core.specs.Graph.{IsLiteral, node_count, first_gate};
ghost use Rattle.bit_system.specs.Machine.{IsMachine, PartsFit};

use aig_core::{Aig, Gate};
use sqlite_items::Items;
use std::marker::Model;
use word_core::Name;

/// A state bit: its name, and its value at the start, where it has one.
#[derive(Drop)]
pub struct StateInfo {
    pub name: Name,
    pub start: Option<bool>,
}

/// A circuit with the next literal of each state bit, the literal that each point is hit by, and the
/// number of steps of its prelude.
#[derive(Drop)]
pub struct System {
    aig: Aig,
    inputs: u32,
    states: Items<StateInfo>,
    next: Items<u32>,
    hits: Items<u32>,
    prelude: u8,
}

impl Model for System {
    ghost use Rattle.std.specs.Prelude.{◌≡◌};
    ghost use Rattle.bit_system.specs.Machine.{Machine, IsMachine};

    ghost Value = { Machine };

    ghost view = { λ s. record { graph = s.aig; states = s.states; next = s.next; hits = s.hits; prelude = s.prelude } };

    ghost invariant = { λ s. (s.inputs ≡ s.aig.inputs) × IsMachine (record { graph = s.aig; states = s.states; next = s.next; hits = s.hits; prelude = s.prelude }) };
}

/// Whether the literals are a circuit's.
fn exist(aig: &Aig, literals: &[u32]) -> bool
    ensures { IsTrue result ↔ All (IsLiteral aig.now) literals.now }
{
    for literal in literals {
        if literal / 2 >= aig.node_count() {
            return false;
        }
    }
    true
}

/// Whether there is a next literal for each state bit of a circuit, and all literals are the circuit's.
pub fn parts_fit(aig: &Aig, states: &[StateInfo], next: &[u32], hits: &[u32]) -> bool
    ensures { IsTrue result ↔ PartsFit aig.now states.now next.now hits.now }
{
    if aig.states() as usize != states.len() {
        return false;
    }
    if next.len() != states.len() {
        return false;
    }
    if !exist(aig, next) {
        return false;
    }
    exist(aig, hits)
}

impl System {
    /// A system over a circuit. It takes no memory.
    pub fn make(
        aig: Aig,
        states: Items<StateInfo>,
        next: Items<u32>,
        hits: Items<u32>,
        prelude: u8,
    ) -> Self
        requires { PartsFit aig states next hits }
        ensures { result ≡ record { graph = aig; states = states; next = next; hits = hits; prelude = prelude } }
    {
        // Shows that the circuit is well formed.
        let _nodes = aig.node_count();
        let inputs = aig.inputs();
        System {
            aig,
            inputs,
            states,
            next,
            hits,
            prelude,
        }
    }

    /// How many inputs there are.
    pub fn inputs(&self) -> u32
        ensures value { result ≡ self.now.graph.inputs }
        ensures valid { IsMachine self.now }
    {
        self.inputs
    }

    /// The state bits.
    pub fn states(&self) -> &[StateInfo]
        ensures value { result.now ≡ self.now.states }
        ensures valid { IsMachine self.now }
    {
        self.states.as_slice()
    }

    /// How many steps come before those that count.
    pub fn prelude(&self) -> u8
        ensures { result ≡ self.now.prelude }
    {
        self.prelude
    }

    /// The circuit.
    pub fn aig(&self) -> &Aig
        ensures value { result.now ≡ self.now.graph }
        ensures valid { IsMachine self.now }
    {
        // Shows that the parts of the system fit.
        let _inputs = self.inputs;
        &self.aig
    }

    /// How many nodes the circuit has.
    pub fn node_count(&self) -> u32
        ensures value { result ≡ node_count self.now.graph }
        ensures valid { IsMachine self.now }
    {
        // Shows that the parts of the system fit.
        let _inputs = self.inputs;
        self.aig.node_count()
    }

    /// The node of the first gate.
    pub fn first_gate(&self) -> u32
        ensures value { result ≡ first_gate self.now.graph }
        ensures valid { IsMachine self.now }
    {
        // Shows that the parts of the system fit.
        let _nodes = self.aig.node_count();
        1 + self.inputs + self.states.len() as u32
    }

    /// The gates, in the order of their nodes.
    pub fn gates(&self) -> &[Gate]
        ensures value { result.now ≡ self.now.graph.gates }
        ensures valid { IsMachine self.now }
    {
        // Shows that the parts of the system fit.
        let _inputs = self.inputs;
        self.aig.gates()
    }

    /// The literal of a state bit after a step.
    pub fn next(&self, state: u32) -> u32
        requires { state < length self.now.states }
        ensures value { result ≡ slice_index_or self.now.next state 0 }
        ensures exists { IsLiteral self.now.graph result }
        ensures valid { IsMachine self.now }
    {
        // Shows that the parts of the system fit.
        let _inputs = self.inputs;
        self.next.as_slice()[state as usize]
    }

    /// How many points there are.
    pub fn points(&self) -> usize
        ensures { result ≡ length self.now.hits }
    {
        self.hits.len()
    }

    /// The literal that a point is hit by.
    pub fn hit(&self, point: u32) -> u32
        requires { point < length self.now.hits }
        ensures value { result ≡ slice_index_or self.now.hits point 0 }
        ensures exists { IsLiteral self.now.graph result }
        ensures valid { IsMachine self.now }
    {
        // Shows that the parts of the system fit.
        let _inputs = self.inputs;
        self.hits.as_slice()[point as usize]
    }
}
