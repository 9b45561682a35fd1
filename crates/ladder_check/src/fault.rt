//! What a ladder is refused for.

use lrat_check::LineFault;
use std::alloc::AllocError;

/// Which proof of a ladder.
#[derive(Clone, Copy, Debug, PartialEq, Eq)]
pub enum Query {
    /// That of the lemma with this number, from 1 on.
    Step(u64),
    /// That of the point.
    Hit,
}

/// What is wrong with a proof.
#[derive(Clone, Copy, Debug, PartialEq, Eq)]
pub enum QueryFault {
    /// The first line that isn't accepted.
    Line(LineFault),
    /// Every line is accepted, and none is empty.
    NoEnd,
}

/// Why a ladder isn't accepted: the first of these that applies. Proofs are looked at in the order of
/// their lemmas, and that of the point last.
#[derive(Clone, Copy, Debug, PartialEq, Eq)]
pub enum LadderFault {
    /// A level or a state number is out of range, literals don't rise, or the number of proofs doesn't fit.
    Shape,
    /// No literal of the lemma with this number, from 1 on, is true at the start.
    StartFails { lemma: u64 },
    /// The proof of this query fails.
    Line { query: Query, fault: QueryFault },
    /// Memory ran out.
    Memory,
}

impl From<AllocError> for LadderFault {
    ghost use Rattle.std.specs.Prelude.{◌≡◌};
    ghost use Rattle.ladder_check.specs.declared.fault.LadderFault.TheVariants.{Memory};

    ghost from_gives = { λ _ e. e ≡ Memory };

    fn from(_error: AllocError) -> LadderFault {
        LadderFault::Memory
    }
}
