//! Dense numbers for the variables of clauses, and refutations told in the variables themselves.
#![tactic(auto)]

mod naming;
mod numbering;

pub use bit_system::Memory;
pub use numbering::{Numbered, law_numbered_clauses_are_as_unsolvable, number_clauses};
