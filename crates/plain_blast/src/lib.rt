//! The translation of a legal design into a transition system of and-inverter gates, and what a design costs.
#![tactic(auto)]

mod assigned;
mod bodies;
mod costs;
mod phases;
mod plain;
mod points;

pub use bit_system::Memory;
pub use costs::cost;
pub use plain::translate;
