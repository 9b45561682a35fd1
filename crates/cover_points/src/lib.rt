//! The cover points of a design: their list, their names, and what it takes to hit them.
#![tactic(auto)]

mod error;
mod listing;
mod naming;
mod point;

pub use error::PointError;
pub use listing::points;
pub use point::{Point, Test, sites_of};
