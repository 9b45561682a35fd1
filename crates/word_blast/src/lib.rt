//! Words of literals, and the gates that compute with them.
#![tactic(auto)]

mod arithmetic;
pub mod bits;
mod bitwise;
mod comparisons;
mod loops;
mod shifts;

pub use arithmetic::{blast_add, blast_mul, blast_neg, blast_sub};
pub use bitwise::{blast_and, blast_mux, blast_not, blast_or, blast_xnor, blast_xor};
pub use comparisons::{blast_all, blast_any, blast_equal, blast_less, blast_odd};
pub use shifts::{blast_shl, blast_shr, blast_sshr};
