// A desk: files by name, each call of which may fail.
ghost use Rattle.std.specs.Prelude.{◌≡◌, ◌≤◌, List, ℕ};
ghost use Rattle.unr_io.specs.Desk.{DeskState, Tells, Loads, Stores, HasCause};

use std::alloc::{AllocError, AllocFailed};
use thiserror::Error;

/// What a desk was asked.
#[derive(Clone, Copy, Debug, PartialEq, Eq)]
pub enum Kind {
    Load,
    Store,
}

/// Why a desk refuses a call.
#[derive(Clone, Copy, Debug, PartialEq, Eq, Error)]
pub enum DeskError {
    /// A fault, as a file that is missing. The count of faults rose in this call.
    #[error("the desk failed")]
    Failed,
    #[error("memory ran out")]
    Memory,
}

impl From<AllocError> for DeskError {
    ghost use Rattle.unr_io.specs.declared.desk.DeskError.TheVariants.{Memory};

    ghost from_gives = { λ _ e. e ≡ Memory };

    fn from(_: AllocError) -> Self {
        DeskError::Memory
    }
}

impl<T: Drop> From<AllocFailed<T>> for DeskError {
    ghost use Rattle.unr_io.specs.declared.desk.DeskError.TheVariants.{Memory};

    ghost from_gives = { λ _ e. e ≡ Memory };

    fn from(_: AllocFailed<T>) -> Self {
        DeskError::Memory
    }
}

/// Files by name.
pub trait Desk {
    /// How often it has failed, and, where it tells them, its files and its calls so far.
    ghost state: { Self → DeskState };

    /// The first `max` bytes of the file, or all where there are fewer. Every file stays.
    ///
    /// `Failed` is a fault, also where there is no such file. `Memory` leaves the desk as it was.
    fn load(&mut self, name: &str, max: u64) -> Result<Vec<u8>, DeskError>
        ensures loads { Tells (state self.old).told (state self.new).told (Loads name.now max result) }
        ensures cause { HasCause (state self.old).faults (state self.new).faults result };

    /// Makes the file hold exactly these bytes. Every other file stays.
    ///
    /// `Failed` is a fault, and leaves a front of the bytes in the file. `Memory` leaves the desk as it was.
    fn store(&mut self, name: &str, bytes: &[u8]) -> Result<(), DeskError>
        ensures stores { Tells (state self.old).told (state self.new).told (Stores name.now bytes.now result) }
        ensures cause { HasCause (state self.old).faults (state self.new).faults result };
}
