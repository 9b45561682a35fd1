//! Decides points of a system, each with what shows it.
#![tactic(auto)]

mod claim;
mod ladder;
mod prover;
mod proving;
mod walk;

pub use bit_system::Memory;
pub use ic3_frames::Walk;
pub use prover::{Proved, prove};
