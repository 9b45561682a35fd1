//! Tokens written as a text, which divides into them again.
#![tactic(auto)]

mod print;
mod writer;

pub use print::print_tokens;
pub use writer::TokenText;
