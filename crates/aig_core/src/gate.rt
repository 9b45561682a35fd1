//! A gate.

/// A gate, the conjunction of two literals of earlier nodes. The larger literal is the left one.
#[derive(Clone, Copy, Debug, PartialEq, Eq, Hash)]
pub struct Gate {
    pub left: u32,
    pub right: u32,
}
