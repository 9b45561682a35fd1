//! Texts of lines, and lines of words: how they are cut, and how readers of lines are put together.
#![tactic(auto)]

mod error;
mod line;
mod numeral;
mod tagged;

pub use error::LineError;
pub use line::{Lines, one_word, split_at_byte, split_word, three_words, two_words};
pub use numeral::number;
pub use tagged::{behind, exact_line, is_alone, is_exact, number_line, numbered};
