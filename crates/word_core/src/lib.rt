//! Names, places and words of bits.
#![tactic(auto)]

mod name;
mod place;
mod word;

pub use name::Name;
pub use place::Place;
pub use word::Word;
