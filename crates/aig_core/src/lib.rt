//! And-inverter graphs with structural hashing: the nodes are false, the inputs, the states and the
//! gates, and a literal is a node or its negation.
#![tactic(auto)]

mod gate;
mod graph;

pub use gate::Gate;
pub use graph::{Aig, Memory, negated, value_at};
