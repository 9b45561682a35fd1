//! Why a text of proof lines could not be read.
ghost use Rattle.std.specs.Prelude.{◌≡◌};
ghost use Rattle.proof_lines.specs.declared.error.LratError.TheVariants.{Memory};

use std::alloc::{AllocError, AllocFailed};
use thiserror::Error;

/// Why a text is no list of proof lines. Lines are counted from 1.
#[derive(Clone, Copy, Debug, PartialEq, Eq, Error)]
pub enum LratError {
    /// The first line that is no proof line. It isn't spelled as one, or has no line feed.
    #[error("line {line} is no proof line")]
    BadLine { line: u64 },
    /// The first line that is no proof line: an addition with a negative hint, as RAT has them.
    #[error("line {line} has a negative hint")]
    RatHint { line: u64 },
    /// Memory ran out.
    #[error("memory ran out")]
    Memory,
}

impl From<AllocError> for LratError {
    ghost from_gives = { λ _ e. e ≡ Memory };

    fn from(_: AllocError) -> Self {
        LratError::Memory
    }
}

impl<T: Drop> From<AllocFailed<T>> for LratError {
    ghost from_gives = { λ _ e. e ≡ Memory };

    fn from(_: AllocFailed<T>) -> Self {
        LratError::Memory
    }
}
