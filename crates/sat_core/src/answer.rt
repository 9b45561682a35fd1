//! What a call answers.
use cnf_core::Lit;
use sqlite_items::Items;
use std::alloc::AllocError;
use thiserror::Error;

/// The answer of a call, with the number of its counted conflicts: those that came with a decision.
#[derive(Drop)]
pub enum Answer {
    /// These values, that of variable 1 first, make each clause and each assumption true.
    Model { conflicts: u64, values: Items<bool> },
    /// No values make each clause and these assumptions true.
    Refuted { conflicts: u64, core: Items<Lit> },
    /// The counted conflicts have reached the limit.
    Spent { conflicts: u64 },
}

/// Why a call has no answer.
#[derive(Clone, Copy, Debug, PartialEq, Eq, Error)]
pub enum SolveError {
    /// The sink failed: its count of faults rose.
    #[error("the sink failed")]
    Failed,
    #[error("memory ran out")]
    Memory,
}

impl From<AllocError> for SolveError {
    ghost use Rattle.std.specs.Prelude.{◌≡◌};
    ghost use Rattle.sat_core.specs.declared.answer.SolveError.TheVariants.{Memory};

    ghost from_gives = { λ _ e. e ≡ Memory };

    fn from(_: AllocError) -> Self {
        SolveError::Memory
    }
}
