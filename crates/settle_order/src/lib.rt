//! In which order nodes that need and drive bits can be settled, or a loop that keeps them from it.
#![tactic(auto)]

mod nodes;
mod order;
mod search;
mod sweep;
mod waiting;

pub use nodes::Node;
pub use order::{Settling, settle};
