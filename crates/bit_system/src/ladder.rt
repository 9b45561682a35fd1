//! Lemmas about the states that a system reaches, and the proofs that show them.
ghost use Rattle.std.specs.Prelude.{◌≡◌};
ghost use Rattle.bit_system.specs.Ladders.{previous, is_at_least, is_first};

use crate::proof::Proof;
use sqlite_items::Items;

/// How many steps something is about.
#[derive(Clone, Copy, Debug, PartialEq, Eq)]
pub enum Depth {
    /// Any number of steps.
    All,
    /// The first so many steps.
    Steps(u64),
}

impl Depth {
    /// A step less.
    pub fn previous(self) -> Depth
        ensures { result ≡ previous self }
    {
        match self {
            Depth::All => Depth::All,
            Depth::Steps(steps) => Depth::Steps(steps.saturating_sub(1)),
        }
    }

    /// Whether what is of this depth holds as far as the other.
    pub fn is_at_least(self, other: Depth) -> bool
        ensures { result ≡ is_at_least self other }
    {
        match self {
            Depth::All => true,
            Depth::Steps(steps) => match other {
                Depth::All => false,
                Depth::Steps(others) => others <= steps,
            },
        }
    }

    /// Whether this is one step.
    pub fn is_first(self) -> bool
        ensures { result ≡ is_first self }
    {
        match self {
            Depth::All => false,
            Depth::Steps(steps) => steps == 1,
        }
    }
}

/// A state bit, or its negation.
#[derive(Clone, Copy, Debug, PartialEq, Eq)]
pub struct StateLit {
    pub state: u32,
    pub positive: bool,
}

/// One of these literals holds in each state that is reached in at most as many steps as the level says.
/// The literals rise strictly by state bit.
#[derive(Drop)]
pub struct Lemma {
    pub level: Depth,
    pub lits: Items<StateLit>,
}

/// Lemmas, a proof for each, and one that no state in which they hold makes the hit, within the depth.
#[derive(Drop)]
pub struct Ladder {
    pub depth: Depth,
    pub lemmas: Items<Lemma>,
    pub steps: Items<Proof>,
    pub hit: Option<Proof>,
}
