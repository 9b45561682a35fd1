// The command `prove`.
ghost use Rattle.std.specs.Prelude.{◌≤◌, ◌^◌};
ghost use Rattle.cert_text.specs.Kinds.{AreBuilt};
ghost use Rattle.unr_engine.specs.Ends.{end_of};
ghost use Rattle.unr_engine.specs.Words.{Prove_file};
ghost use Rattle.unr_engine.specs.Outcome.{Ran};

use crate::SOURCE_MOST;
use crate::report::{exclusion_list, proof_report, some_open};
use crate::steps::{deliver, fetch, keep};
use crate::stop::{Ending, Stop};
use design_core::setup::Kinds;
use std::alloc::Global;
use text_prover::prove_text;
use unr_io::{Desk, Sink};

/// Proves what it can of each point of these kinds of the text in FILE, with `effort` units for each. It stores the certificate and then the exclusion list,
/// puts out the report last, and answers whether a claim is left open.
pub fn prove_file<'a, D: Desk, O: Sink>(
    alloc: Global,
    file: &'a str,
    top: &'a str,
    clock: &'a str,
    prefix: &'a str,
    kinds: Kinds,
    effort: u64,
    desk: &mut D,
    out: &mut O,
) -> Result<bool, Stop<'a>>
    requires built { AreBuilt kinds }
    requires some { 1 ≤ effort }
    requires most { effort ≤ 10 ^ 18 }
    ensures { Ran (Prove_file file.now top.now clock.now prefix.now kinds effort) (end_of result) (D.state desk.old) (D.state desk.new) (O.state out.old) (O.state out.new) }
{
    let text = fetch(desk, file, SOURCE_MOST)?;
    let proven = prove_text(
        alloc,
        &text,
        top.as_bytes(),
        clock.as_bytes(),
        kinds,
        effort,
    )?;
    let claims = proven.claims.as_slice();
    let list = exclusion_list(alloc, claims)?;
    let report = proof_report(alloc, claims, proven.used.as_slice(), effort)?;
    keep(alloc, desk, prefix, Ending::Cert, &proven.cert)?;
    keep(alloc, desk, prefix, Ending::Excl, &list)?;
    deliver(out, &report)?;
    Ok(some_open(claims))
}
