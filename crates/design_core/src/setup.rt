// What a design is judged by.

use sqlite_items::Items;
use word_core::Name;

/// The settings under which a design is judged.
#[derive(Drop)]
pub struct Setup {
    pub top: Name,
    pub clock: Name,
    /// The inputs that are held in the prelude.
    pub hold: Items<Held>,
    /// The length of the prelude, in cycles.
    pub cycles: u8,
    pub kinds: Kinds,
    /// The registers whose arcs are cover points.
    pub fsm: Items<Name>,
}

/// An input, and the value that it has in the prelude.
#[derive(Drop)]
pub struct Held {
    pub name: Name,
    pub value: u128,
}

/// The kinds of cover points that are judged: statements, branch arms, rows, toggles and arcs.
#[derive(Clone, Copy, Debug, PartialEq, Eq)]
pub struct Kinds {
    pub s: bool,
    pub b: bool,
    pub r: bool,
    pub t: bool,
    pub f: bool,
}

/// The registers' values at the start, and the inputs' in each cycle, in the order of the design's lists.
#[derive(Drop)]
pub struct Stimulus {
    pub start: Items<bool>,
    pub lines: Items<Items<bool>>,
}
