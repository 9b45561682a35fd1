//! Cubes of states, queries about frames, and how cubes are made smaller: literals that a blocked cube
//! doesn't need, and state bits that a step doesn't need.
#![tactic(auto)]

mod ask;
mod cube;
mod drop;
mod lift;
mod units;

pub use ask::Ask;
pub use bit_system::Memory;
pub use cube::{Cube, lemma_of, misses_start};
pub use drop::drop_literals;
pub use lift::{shrink_state, values_in_step};
pub use units::Units;
