// The command `check`.
ghost use Rattle.unr_engine.specs.Ends.{end_of};
ghost use Rattle.unr_engine.specs.Words.{Check_files};
ghost use Rattle.unr_engine.specs.Outcome.{Ran};

use crate::SOURCE_MOST;
use crate::report::report_text;
use crate::steps::{deliver, fetch};
use crate::stop::Stop;
use cert_text::read_cert;
use source_check::judge;
use std::alloc::Global;
use unr_io::{Desk, Sink};
use vlog_modules::parse;

/// Checks the certificate in CERT for the text in FILE, and puts out the report of its claims. It writes no claim, so it answers that none is left open.
pub fn check_files<'a, D: Desk, O: Sink>(
    alloc: Global,
    file: &'a str,
    cert: &'a str,
    desk: &mut D,
    out: &mut O,
) -> Result<bool, Stop<'a>>
    ensures { Ran (Check_files file.now cert.now) (end_of result) (D.state desk.old) (D.state desk.new) (O.state out.old) (O.state out.new) }
{
    let text = fetch(desk, file, SOURCE_MOST)?;
    let tree = parse(alloc, &text)?;
    let spelling = fetch(desk, cert, u64::MAX)?;
    let certificate = read_cert(alloc, &spelling)?;
    let claims = judge(alloc, &tree, &certificate)?;
    let report = report_text(alloc, claims.as_slice())?;
    deliver(out, &report)?;
    Ok(false)
}
