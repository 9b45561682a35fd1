//! Expressions over the bits of a design: what they are, and the definitions of what they are worth and cost.
#![tactic(auto)]

pub mod forms;
pub mod indices;
pub mod names;
pub mod signs;
