// The certificate of all points of a text.

ghost use Rattle.std.specs.Prelude.{◌≡◌, ◌<◌, ◌≤◌, ◌^◌, length, IfOk};
ghost use Rattle.cert_text.specs.Kinds.{AreBuilt};
ghost use Rattle.text_prover.specs.Proving.{setup_of};
ghost use Rattle.text_prover.specs.Making.{AreClaimed, IsWritten, MakeAnswers};

use crate::claims::{Found, claims};
use cert_text::{Cert, write_cert};
use cover_points::{Point, sites_of};
use design_core::legal::Legal;
use design_core::setup::Setup;
use plain_blast::translate;
use source_check::{SourceError, front};
use sqlite_items::Items;
use std::alloc::{AllocError, Global};

/// The text of a certificate, and the units that are told of each of its claims.
#[derive(Drop)]
pub struct Made {
    pub cert: Vec<u8>,
    pub used: Items<u64>,
}

/// Searches for each of the points of a legal design.
fn claims_for(
    alloc: Global,
    legal: &Legal,
    points: &[Point],
    effort: u64,
) -> Result<Found, AllocError>
    requires few { length points.now ≤ 2 ^ 32 }
    requires effort { 0 < effort }
    ensures { IfOk result (λ found. AreClaimed legal.now points.now effort found.claims found.used) }
{
    let sites = sites_of(alloc, points)?;
    let system = translate(alloc, legal, &sites)?;
    claims(alloc, &system, points, effort)
}

/// Writes the certificate of these claims.
fn written(alloc: Global, setup: Setup, found: Found) -> Result<Made, AllocError>
    ensures { IfOk result (IsWritten setup found.claims found.used) }
{
    let cert = Cert {
        setup,
        claims: found.claims,
    };
    Ok(Made {
        cert: write_cert(alloc, &cert)?,
        used: found.used,
    })
}

/// Searches for each point of a text's design, and writes what is found out.
pub fn make(alloc: Global, text: &[u8], setup: Setup, effort: u64) -> Result<Made, SourceError>
    requires built { AreBuilt setup.kinds }
    requires plain { setup ≡ setup_of setup.top setup.clock setup.kinds }
    requires some { 0 < effort }
    requires most { effort < 2 ^ 63 }
    ensures { MakeAnswers text.now setup effort result }
{
    let front = front(alloc, text, &setup)?;
    // Shows that the design is legal.
    let _design = front.legal.design();
    let points = front.points.as_slice();
    let found = claims_for(alloc, &front.legal, points, effort)?;
    let made = written(alloc, setup, found)?;
    Ok(made)
}
