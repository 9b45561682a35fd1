//! From a text's tree and a certificate to claims that are true.
#![tactic(auto)]

mod checking;
mod error;
mod judging;
mod ladders;
mod legality;
mod listing;
mod places;
mod reading;

pub use checking::{check, front};
pub use cover_points::{Point, Test};
pub use error::{CheckError, SourceError};
pub use judging::judge;
pub use listing::Front;
