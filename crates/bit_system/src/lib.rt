//! Bit-level transition systems, ladders of lemmas about them, and the clauses that the proofs of a ladder refute.
#![tactic(auto)]

mod cone;
mod ladder;
mod proof;
mod query;
mod system;
mod waiting;

pub use cnf_core::Memory;
pub use ladder::{Depth, Ladder, Lemma, StateLit};
pub use proof::Proof;
pub use query::{have_states, hit_query, lemma_has_states, step_query};
pub use system::{StateInfo, System, parts_fit};
