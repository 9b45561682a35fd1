//! The desk over real files and the sink over a writer.
#![tactic(auto)]

mod host;

pub use host::{FileDesk, WriterSink};
