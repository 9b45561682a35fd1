// From the bytes of a text and of a certificate to claims that are true.

ghost use Rattle.std.specs.Prelude.{IfOk};
ghost use Rattle.source_check.specs.Checking.{CheckAnswers, ClaimsAreTrue, FrontAnswers};

use crate::error::{CheckError, SourceError};
use crate::judging::judge;
use crate::legality::elaborate;
use crate::listing::{Front, listed};
use crate::reading::tree_of;
use cert_text::{Claim, read_cert};
use design_core::setup::Setup;
use sqlite_items::Items;
use std::alloc::Global;

/// The claims of a certificate for a text, where it is accepted; each is true. Otherwise the first fault:
/// of the text's tokens and grammar, of the certificate's grammar, of the text's design, of the claims in order.
pub fn check(alloc: Global, text: &[u8], cert: &[u8]) -> Result<Items<Claim>, CheckError>
    ensures answers { CheckAnswers text.now cert.now result }
    ensures true_claims { IfOk result (λ claims. ClaimsAreTrue text.now cert.now claims) }
{
    let tree = tree_of(alloc, text)?;
    let cert = read_cert(alloc, cert)?;
    judge(alloc, &tree, &cert)
}

/// The legal design of a text under a setup, and its cover points: those of statements and of branch arms, where
/// the setup names their kinds. Other kinds have none so far, and no prelude is looked at.
pub fn front(alloc: Global, text: &[u8], setup: &Setup) -> Result<Front, SourceError>
    ensures { FrontAnswers text.now setup.now result }
{
    let tree = tree_of(alloc, text)?;
    let legal = elaborate(alloc, &tree, setup)?;
    let points = listed(alloc, legal.design(), setup)?;
    Ok(Front { legal, points })
}
