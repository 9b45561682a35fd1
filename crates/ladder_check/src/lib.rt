//! Checks ladders: that each lemma holds at the start and keeps, by its proof, and that none of the states
//! that are left makes the hit.
#![tactic(auto)]

mod check;
mod fault;
mod lent;
mod proof;
mod shape;

pub use check::{check_ladder, check_with, checker_for};
pub use fault::{LadderFault, Query, QueryFault};
pub use lent::LentLadder;
