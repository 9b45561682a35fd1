//! The circuit of a write to a target.
#![tactic(auto)]

mod index_words;
mod parts;
mod selects;
mod targets;

pub use index_words::indices;
pub use targets::put;
