//! What a program has outside: a desk of files and a sink for bytes, each with a count of its faults.
#![tactic(auto)]

mod desk;
mod memory;
mod sink;

pub use desk::{Desk, DeskError, Kind};
pub use memory::{Call, Fail, Files, MemDesk, MemSink};
pub use sink::{Sink, SinkError};
