// Vectors.

ghost use Rattle.std.specs.Prelude.{◌+◌, ◌≤◌, ◌<◌, ◌^◌};

use bit_exprs::forms::Bit;

/// The range of a vector: the indices of its most and of its least significant bit. It has at most 128 indices.
#[derive(Clone, Copy, Debug, PartialEq, Eq)]
pub struct Range {
    pub left: u64,
    pub right: u64,
    ghost falls: { left < right + 128 },
    ghost rises: { right < left + 128 },
}

/// A net or a variable: its range, and its bits, which have consecutive numbers.
#[derive(Clone, Copy, Debug, PartialEq, Eq)]
pub struct Vector {
    /// None where it is a scalar, of one bit.
    pub range: Option<Range>,
    /// The number of its least significant bit.
    pub first: Bit,
    ghost numbered: { first < 2 ^ 31 },
}
