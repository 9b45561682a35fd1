//! The graph.

ghost use Rattle.std.specs.Prelude.{◌≡◌, ◌+◌, ◌*◌, ◌^◌, ◌<◌, ◌≤◌, [], ◌↔◌, length, take, IsTrue, IfOk, OnOk, OnErr};
ghost use Rattle.aig_core.specs.Graph.{negation, value_in, values_with, ReadEarlierNodes};

use crate::gate::Gate;
use indexmap::IndexSet;
use std::alloc::{AllocError, Global};
use std::marker::Model;

/// Memory ran out: the one error of this crate.
pub type Memory = AllocError;

/// The opposite literal.
pub fn negated(x: u32) -> u32
    ensures { result ≡ negation x }
{
    x ^ 1
}

/// The value of a literal, from the values of the nodes. It takes no memory.
pub fn value_at(values: &[bool], x: u32) -> bool
    requires { x < 2 * length values.now }
    ensures { result ≡ value_in values.now x }
{
    values[(x / 2) as usize] != (x % 2 == 1)
}

// Writes the values of the gates behind those of the nodes before them.
fn eval_gates(first: usize, gates: &[Gate], out: &mut [bool])
    requires reads { ReadEarlierNodes first gates.now }
    requires nodes { length out.old ≡ first + length gates.now }
    ensures { out.new ≡ values_with (take first out.old) gates.now }
{
    for (i, gate) in gates.iter().enumerate() {
        let value = value_at(out, gate.left) && value_at(out, gate.right);
        out[first + i] = value;
    }
}

/// An and-inverter graph, as in AIGER 1.9: node 0 is false, then come the inputs, the states and the
/// gates; literal 2n is node n, and 2n+1 its negation. A graph has at most 2^30 nodes.
///
/// No two gates are equal. One that is there is found by its hash, so `and` costs the same in a graph
/// of any size, but for the growth of its table.
#[derive(Drop)]
pub struct Aig {
    inputs: u32,
    states: u32,
    gates: IndexSet<Gate>,
    alloc: Global,
}

impl Model for Aig {
    ghost use Rattle.std.specs.Prelude.{◌≤◌, ◌^◌};
    ghost use Rattle.aig_core.specs.Graph.{Graph, node_count, IsWellFormed};

    ghost Value = { Graph };

    ghost view = { λ a. record { inputs = a.inputs; states = a.states; gates = a.gates.keys } };

    ghost invariant = { λ a. IsWellFormed (record { inputs = a.inputs; states = a.states; gates = a.gates.keys }) × (node_count (record { inputs = a.inputs; states = a.states; gates = a.gates.keys }) ≤ 2 ^ 30) };
}

impl Aig {
    ghost use Rattle.aig_core.specs.Graph.{IsLiteral, IsWellFormed, node_count, and_of, both, Gives, Extends, KeepsValues, leaf_count, node_values};

    /// A graph with no gates. It may answer want of memory.
    pub fn make(alloc: Global, inputs: u32, states: u32) -> Result<Aig, Memory>
        requires { inputs + states < 2 ^ 30 }
        ensures made { IfOk result (λ aig. aig ≡ record { inputs = inputs; states = states; gates = [] }) }
        ensures well_formed { IfOk result IsWellFormed }
    {
        Ok(Aig {
            inputs,
            states,
            gates: IndexSet::new(alloc),
            alloc,
        })
    }

    /// How many inputs there are.
    pub fn inputs(&self) -> u32
        ensures { result ≡ self.now.inputs }
    {
        self.inputs
    }

    /// How many states there are.
    pub fn states(&self) -> u32
        ensures { result ≡ self.now.states }
    {
        self.states
    }

    /// The gates, in the order of their nodes.
    pub fn gates(&self) -> &[Gate]
        ensures gates { result.now ≡ self.now.gates }
        ensures well_formed { IsWellFormed self.now }
    {
        self.gates.as_slice()
    }

    /// The allocator.
    pub fn allocator(&self) -> Global
        ensures well_formed { IsWellFormed self.now }
    {
        self.alloc
    }

    /// The number of nodes.
    pub fn node_count(&self) -> u32
        ensures count { result ≡ node_count self.now }
        ensures well_formed { IsWellFormed self.now }
        ensures limit { node_count self.now ≤ 2 ^ 30 }
    {
        1 + self.inputs + self.states + self.gates.len() as u32
    }

    /// Whether no gate can be made any more.
    pub fn is_full(&self) -> bool
        ensures full { IsTrue result ↔ (node_count self.now ≡ 2 ^ 30) }
        ensures limit { node_count self.now ≤ 2 ^ 30 }
        ensures well_formed { IsWellFormed self.now }
    {
        self.node_count() == 1 << 30
    }

    /// Writes the value of each node, under the values of the inputs and then the states. It takes no
    /// memory, and costs a step for each node.
    pub fn eval_into(&self, leaves: &[bool], out: &mut [bool])
        requires leaves { length leaves.now ≡ leaf_count self.now }
        requires nodes { length out.old ≡ node_count self.now }
        ensures { out.new ≡ node_values self.now leaves.now }
    {
        let first = 1 + (self.inputs + self.states) as usize;
        out[0] = false;
        out[1..first].copy_from_slice(leaves);
        eval_gates(first, self.gates.as_slice(), out);
    }

    /// The literal of the conjunction of two literals: 0 where one of them is 0 or they are opposite,
    /// the other where one is 1, `x` where they are equal, else that of the gate with the larger
    /// literal left. Only a gate that is not there yet is made. After want of memory the graph is as
    /// before.
    pub fn and(&mut self, x: u32, y: u32) -> Result<u32, Memory>
        requires x_exists { IsLiteral self.old x }
        requires y_exists { IsLiteral self.old y }
        requires room { node_count self.old < 2 ^ 30 }
        ensures graph { OnOk result (self.new ≡ (and_of self.old x y).0) }
        ensures literal { IfOk result (λ r. r ≡ (and_of self.old x y).1) }
        ensures meaning { IfOk result (λ r. Gives self.old self.new r (both self.old x y)) }
        ensures kept { Extends self.old self.new }
        ensures old_values { KeepsValues self.old self.new }
        ensures err { OnErr result (self.new ≡ self.old) }
        ensures was_well_formed { IsWellFormed self.old }
    {
        let literal = self.place(x, y)?;
        Ok(literal)
    }

    #[tactic(auto, unfolding(crate::specs::Graph::and_of))]
    fn place(&mut self, x: u32, y: u32) -> Result<u32, Memory>
        requires x_exists { IsLiteral self.old x }
        requires y_exists { IsLiteral self.old y }
        requires room { node_count self.old < 2 ^ 30 }
        ensures graph { OnOk result (self.new ≡ (and_of self.old x y).0) }
        ensures literal { IfOk result (λ r. r ≡ (and_of self.old x y).1) }
        ensures err { OnErr result (self.new ≡ self.old) }
        ensures was_well_formed { IsWellFormed self.old }
    {
        let first = 1 + self.inputs + self.states;
        if x == 0 || y == 0 || x == negated(y) {
            return Ok(0);
        }
        if x == 1 {
            return Ok(y);
        }
        if y == 1 || x == y {
            return Ok(x);
        }
        let gate = Gate {
            left: x.max(y),
            right: x.min(y),
        };
        let (index, _) = self.gates.insert_full(gate)?;
        Ok(2 * (first + index as u32))
    }
}
