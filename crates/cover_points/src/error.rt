// Why a design has no list of cover points.

use std::alloc::AllocError;

/// Why a design has no list of cover points.
#[derive(Clone, Copy, Debug)]
pub enum PointError {
    /// There are more than 200,000 points. The number is 200,001.
    TooMany { number: u32 },
    /// Memory ran out.
    Memory,
}

impl From<AllocError> for PointError {
    ghost use Rattle.std.specs.Prelude.{◌≡◌};
    ghost use Rattle.cover_points.specs.declared.error.PointError.TheVariants.{Memory};

    ghost from_gives = { λ _ e. e ≡ Memory };

    fn from(_: AllocError) -> PointError {
        PointError::Memory
    }
}
