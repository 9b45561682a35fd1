//! What a certificate says.

use bit_system::{Depth, Proof};
use design_core::setup::{Setup, Stimulus};
use sqlite_items::Items;
use word_core::Name;

/// The settings under which a design is judged, and a claim for each of its cover points.
#[derive(Drop)]
pub struct Cert {
    pub setup: Setup,
    pub claims: Items<CertClaim>,
}

/// What is claimed of one cover point.
#[derive(Drop)]
pub struct CertClaim {
    /// The number of the line at which the claim begins, from 1.
    pub line: u64,
    /// The whole text of that line, which names the point, as `S t #1`.
    pub point: Name,
    pub body: Body,
}

/// A verdict, and what shows it.
#[derive(Drop)]
pub enum Body {
    /// The point is hit at this cycle, counted from 0, by this stimulus.
    Reached { cycle: u64, stimulus: Stimulus },
    /// The point is hit in no run.
    Excluded(NamedLadder),
    /// The point is hit in none of a run's first `cycles` cycles.
    Open { cycles: u64, ladder: NamedLadder },
}

/// A ladder whose lemmas name their state bits: lemmas, a proof for each in the same order, and a proof that
/// no state in which the lemmas hold makes the hit. Only a claim about no cycles at all lacks that last proof.
#[derive(Drop)]
pub struct NamedLadder {
    pub lemmas: Items<NamedLemma>,
    pub steps: Items<Proof>,
    pub hit: Option<Proof>,
}

/// One of these literals holds in each state that is reached in at most as many steps as the level says.
#[derive(Drop)]
pub struct NamedLemma {
    pub level: Depth,
    pub lits: Items<NamedLit>,
}

/// The state bit of this name, or its negation.
#[derive(Drop)]
pub struct NamedLit {
    pub name: Name,
    pub positive: bool,
}
