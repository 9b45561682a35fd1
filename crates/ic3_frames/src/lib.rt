//! Frames of lemmas after Bradley (SAT-based model checking without unrolling, 2011), and the obligations that
//! fill them.
#![tactic(auto)]

mod asker;
mod frames;
mod obligation;
mod query;
mod replay;
mod search;
mod solve;
mod turn;
mod walk;

pub use bit_system::Memory;
pub use frames::{Frames, law_kept_frames_keep_the_rules};
pub use solve::{Solved, fill, run};
pub use turn::Turn;
pub use walk::Walk;
