//! Where the lines of a proof go, and their text.
#![tactic(auto)]

mod error;
mod read;
mod sink;
mod write;

pub use error::LratError;
pub use read::{read_line, read_lrat};
pub use sink::{KeepSink, NoSink, ProofSink, TextSink};
pub use write::write_lrat;
