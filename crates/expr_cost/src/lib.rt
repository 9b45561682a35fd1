//! What expressions and targets cost: a measure of the size of their circuits.
#![tactic(auto)]

mod expressions;
mod operators;
mod sums;
mod targets;

pub use expressions::{Weight, cost, weigh};
pub use targets::target_cost;
