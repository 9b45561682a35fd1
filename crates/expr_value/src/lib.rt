//! What expressions over bits are worth.
#![tactic(auto)]

mod evaluate;
mod lists;
mod operators;
mod selects;
mod writes;

pub use evaluate::value;
pub use lists::list;
pub use operators::{binary, unary};
pub use selects::{names, read, select};
pub use writes::{assign, named, part_places, target_places, write};
