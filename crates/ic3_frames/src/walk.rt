//! Walks.
use sqlite_items::Items;

/// A state to begin with, one value per state bit, and for each step one value per input.
#[derive(Drop)]
pub struct Walk {
    pub start: Items<bool>,
    pub lines: Items<Items<bool>>,
}
