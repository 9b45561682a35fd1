//! What a turn of the search comes to.
use crate::walk::Walk;

/// What a turn of the search came to.
#[derive(Drop)]
pub enum Turn {
    /// The frontier rose by one.
    More,
    /// The frames of this level and the next one are equal.
    Closed { level: u64 },
    /// A walk that hits.
    Trace(Walk),
    /// The effort is used.
    Spent,
}
