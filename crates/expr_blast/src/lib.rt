//! The circuits of expressions on words.
#![tactic(auto)]

mod literals;
mod operators;
mod places;
mod selecting;
mod words;

pub use literals::picked;
pub use places::{equal_to, place};
pub use words::{test, word};
