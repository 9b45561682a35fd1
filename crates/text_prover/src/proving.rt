// A claim for each point of a text, with the certificate that shows them.
ghost use Rattle.std.specs.Prelude.{◌≡◌, ◌≤◌, ◌^◌, IfOk};
ghost use Rattle.cert_text.specs.Kinds.{AreBuilt};
ghost use Rattle.text_prover.specs.Proving.{ProveAnswers, setup_of, IsProven};
ghost use Rattle.text_prover.specs.Making.{IsMade};

use crate::making::{Made, make};
use cert_text::Claim;
use design_core::setup::{Kinds, Setup};
use source_check::{CheckError, SourceError, check};
use sqlite_items::Items;
use std::alloc::{AllocError, Global};
use word_core::Name;

/// What was proved of a text.
#[derive(Drop)]
pub struct Proven {
    /// The text of the certificate.
    pub cert: Vec<u8>,
    /// What it claims of each point, in the order of the points.
    pub claims: Items<Claim>,
    /// For each claim that is open the units that its search used, for each other one 0.
    pub used: Items<u64>,
}

/// The settings under which a text is proved.
fn setup(alloc: Global, top: &[u8], clock: &[u8], kinds: Kinds) -> Result<Setup, AllocError>
    ensures { IfOk result (λ s. s ≡ setup_of top.now clock.now kinds) }
{
    Ok(Setup {
        top: Name::make(alloc, top)?,
        clock: Name::make(alloc, clock)?,
        hold: Items::new(alloc),
        cycles: 0,
        kinds,
        fsm: Items::new(alloc),
    })
}

/// The one error of checking a certificate that is accepted.
fn want_of_memory(error: &CheckError) -> AllocError
    requires { error.now ≡ CheckError.Memory }
{
    match error {
        CheckError::Memory => AllocError,
        _ => unreachable!(),
    }
}

/// Checks the certificate that was made for a text. It is accepted, so want of memory is the only error.
fn checked(
    alloc: Global,
    text: &[u8],
    top: &[u8],
    clock: &[u8],
    kinds: Kinds,
    effort: u64,
    made: Made,
) -> Result<Proven, AllocError>
    requires { IsMade text.now top.now clock.now kinds effort made.cert.items made.used }
    ensures { IfOk result (IsProven text.now top.now clock.now kinds effort) }
{
    match check(alloc, text, &made.cert) {
        Ok(claims) => Ok(Proven {
            cert: made.cert,
            claims,
            used: made.used,
        }),
        Err(error) => Err(want_of_memory(&error)),
    }
}

/// Makes a claim for each point of these kinds of the text's design under this top and this clock, and the certificate of all claims.
///
/// `effort` is the number of units that are spent on each point at most: a unit is one ended query of the solver, or one counted conflict.
pub fn prove_text(
    alloc: Global,
    text: &[u8],
    top: &[u8],
    clock: &[u8],
    kinds: Kinds,
    effort: u64,
) -> Result<Proven, SourceError>
    requires built { AreBuilt kinds }
    requires some { 1 ≤ effort }
    requires most { effort ≤ 10 ^ 18 }
    ensures { ProveAnswers text.now top.now clock.now kinds effort result }
{
    let setup = setup(alloc, top, clock, kinds)?;
    let made = make(alloc, text, setup, effort)?;
    let proven = checked(alloc, text, top, clock, kinds, effort, made)?;
    Ok(proven)
}
