//! Flat designs: what they are, what their bodies do, and what their runs are.
#![tactic(auto)]

pub mod flat;
pub mod legal;
pub mod setup;
