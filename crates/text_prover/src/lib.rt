//! From the bytes of a text to a certificate of all its points.
#![tactic(auto)]

mod claims;
mod laws;
mod making;
mod naming;
mod numbers;
mod proving;

pub use laws::law_accepted_certs_are_accepted;
pub use proving::{Proven, prove_text};
