//! What is told of a point once its claim is accepted.

use word_core::Name;

/// An accepted claim.
#[derive(Debug, Drop)]
pub struct Claim {
    /// The point's name, as `S t #1`.
    pub point: Name,
    pub verdict: Verdict,
}

#[derive(Clone, Copy, Debug)]
pub enum Verdict {
    /// The point is first hit at this cycle, counted from 0.
    Reached { cycle: u64 },
    /// The point is hit in no run.
    Excluded,
    /// The point is hit in none of a run's first `cycles` cycles.
    Open { cycles: u64 },
}
