//! Units of effort.
ghost use Rattle.std.specs.Prelude.{◌≤◌};

/// How many units are used, and how many there are. A unit is an ended query of the solver, or one of its
/// counted conflicts.
#[derive(Clone, Copy, Debug, PartialEq, Eq)]
pub struct Units {
    pub used: u64,
    pub effort: u64,
    pub ghost within: { used ≤ effort },
}
