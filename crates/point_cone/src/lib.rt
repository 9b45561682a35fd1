//! The part of a system that one point needs, as a system of its own.
#![tactic(auto)]

mod back;
mod build;
mod reach;
mod rename;

pub use back::{law_lemmas_are_same, law_walks_are_seen};
pub use bit_system::Memory;
pub use build::{Cone, cone_of};
