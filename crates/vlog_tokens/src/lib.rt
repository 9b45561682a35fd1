//! The tokens of a Verilog text.
#![tactic(auto)]

mod bytes;
mod directive;
mod divide;
mod error;
mod gap;
mod length;
mod number;
mod place;
mod token;
mod turn;
mod word;

pub use directive::first_backquote;
pub use divide::{MAX_BYTES, tokens};
pub use error::LexError;
pub use number::{Number, number_of};
pub use place::{START, past};
pub use token::Token;
pub use word::{Kind, Word, kind_of, word_of};
