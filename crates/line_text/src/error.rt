//! Why a text of lines could not be read.

ghost use Rattle.std.specs.Prelude.{◌≡◌};
ghost use Rattle.line_text.specs.declared.error.LineError.TheVariants.{Memory};

use std::alloc::{AllocError, AllocFailed};

/// Why a reader of lines stopped.
#[derive(Debug, Drop)]
pub enum LineError {
    /// Memory ran out.
    Memory,
    /// The line with this number, from 1, is the first that can't stand where it stands.
    BadLine { line: u64 },
}

impl From<AllocError> for LineError {
    ghost from_gives = { λ _ e. e ≡ Memory };

    fn from(_e: AllocError) -> LineError {
        LineError::Memory
    }
}

impl<T: Drop> From<AllocFailed<T>> for LineError {
    ghost from_gives = { λ _ e. e ≡ Memory };

    fn from(_e: AllocFailed<T>) -> LineError {
        LineError::Memory
    }
}
