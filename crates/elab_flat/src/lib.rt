//! From a text's tree and a setup to a design on words.
#![tactic(auto)]

mod bodies;
mod drivers;
mod elaborate;
mod names;
mod nets;
mod scopes;
mod sites;
mod targets;

pub use elaborate::{FlatError, flatten};
