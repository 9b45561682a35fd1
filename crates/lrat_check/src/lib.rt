//! Checks LRAT proofs, line by line, and knows nothing of any solver.
#![tactic(auto)]

mod assignment;
mod checker;
mod hints;
mod store;

pub use checker::{Checker, LineFault, Room, count_lits, refutes};
