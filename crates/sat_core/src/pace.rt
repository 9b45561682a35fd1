//! When the search starts again from its first decision.

/// After how many conflicts the search starts again the first time.
const UNIT: u64 = 64;

/// Counts conflicts between restarts, by the sequence 1, 1, 2, 1, 1, 2, 4, .. of Luby, Sinclair and Zuckerman (1993),
/// each times 64, made as Knuth does: reluctant doubling (The Art of Computer Programming 4, 7.2.2.2).
#[derive(Clone, Copy)]
pub struct Pace {
    conflicts: u64,
    index: u64,
    length: u64,
}

impl Pace {
    pub fn new() -> Self {
        Pace {
            conflicts: 0,
            index: 1,
            length: 1,
        }
    }

    /// Counts a conflict, and says whether the search is to start again.
    pub fn is_due(&mut self) -> bool {
        self.conflicts = self.conflicts.saturating_add(1);
        if self.conflicts / UNIT < self.length {
            return false;
        }
        self.conflicts = 0;
        if self.index & self.index.wrapping_neg() == self.length {
            self.index = self.index.wrapping_add(1);
            self.length = 1;
        } else {
            self.length = self.length.wrapping_mul(2);
        }
        true
    }
}
