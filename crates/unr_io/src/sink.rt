// A sink: bytes go in at its end.
ghost use Rattle.unr_io.specs.Sink.{SinkState, Puts};

use std::alloc::{AllocError, AllocFailed};
use thiserror::Error;

/// Why a sink refuses a put. Each error is counted by itself.
#[derive(Clone, Copy, Debug, PartialEq, Eq, Error)]
pub enum SinkError {
    /// A fault. The count of faults rose in this call.
    #[error("the sink failed")]
    Failed,
    /// The count of memory refusals rose in this call.
    #[error("memory ran out")]
    Memory,
}

impl From<AllocError> for SinkError {
    ghost use Rattle.std.specs.Prelude.{◌≡◌};
    ghost use Rattle.unr_io.specs.declared.sink.SinkError.TheVariants.{Memory};

    ghost from_gives = { λ _ e. e ≡ Memory };

    fn from(_: AllocError) -> Self {
        SinkError::Memory
    }
}

impl<T: Drop> From<AllocFailed<T>> for SinkError {
    ghost use Rattle.std.specs.Prelude.{◌≡◌};
    ghost use Rattle.unr_io.specs.declared.sink.SinkError.TheVariants.{Memory};

    ghost from_gives = { λ _ e. e ≡ Memory };

    fn from(_: AllocFailed<T>) -> Self {
        SinkError::Memory
    }
}

/// Bytes in the order in which they were put.
pub trait Sink {
    /// How often it has failed or refused for memory, and, where it tells them, the bytes so far.
    ghost state: { Self → SinkState };

    /// Puts these bytes at the end, or, where it fails, a front of them.
    fn put(&mut self, bytes: &[u8]) -> Result<(), SinkError>
        ensures { Puts bytes.now result (state self.old) (state self.new) };
}
