//! What the tool does with its words, over any desk and any sinks.
#![tactic(auto)]

mod check;
mod engine;
mod messages;
mod options;
mod pieces;
mod prove;
mod report;
mod steps;
mod stop;
mod words;

pub use engine::run;

/// The most bytes of FILE that are loaded: one more than a source may have, so that a longer one is seen.
pub const SOURCE_MOST: u64 = 4_194_305;
