//! Certificates: what they say of a design's cover points, and how they are read and written.
#![tactic(auto)]

mod bits;
mod body;
mod cert;
mod claim;
mod error;
mod kinds;
mod ladder;
mod lemma;
mod lrat;
mod point;
mod put;
mod put_ladder;
mod read;
mod write;

pub use cert::{Body, Cert, CertClaim, NamedLadder, NamedLemma, NamedLit};
pub use claim::{Claim, Verdict};
pub use error::CertError;
pub use kinds::kinds_of;
pub use read::read_cert;
pub use write::{law_read_certs_are_written_back, law_written_certs_are_read, write_cert};
