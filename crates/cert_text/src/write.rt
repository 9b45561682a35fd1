//! Certificates, written.

ghost use Rattle.std.specs.Prelude.{◌≡◌, ◌++◌, OnOk, IfOk};
ghost use Rattle.std.specs.List.{flat_map};
ghost use Rattle.line_text.specs.Lines.{text_of};
ghost use Rattle.cert_text.specs.declared.cert.Body.TheVariants.{Reached, Excluded, Open};
ghost use Rattle.cert_text.specs.Spelling.{setup_lines, body_lines, claim_lines, spelling};
ghost use Rattle.cert_text.specs.Written.{FitsButLines, lined, Reads, ReadIsWritten, WrittenIsRead};

use crate::cert::{Body, Cert, CertClaim, NamedLadder};
use crate::kinds::put_kinds;
use crate::put::{put_bits, put_inputs, put_number, put_numbered, put_tagged};
use crate::put_ladder::put_ladder;
use design_core::setup::{Setup, Stimulus};
use std::alloc::{AllocError, Global};

fn put_setup(out: &mut Vec<u8>, setup: &Setup) -> Result<(), AllocError>
    ensures { OnOk result (out.new.items ≡ out.old.items ++ text_of (setup_lines setup.now)) }
{
    put_tagged(out, b"unr", b"1")?;
    put_tagged(out, b"top", setup.top.bytes())?;
    put_tagged(out, b"clock", setup.clock.bytes())?;
    put_tagged(out, b"cycles", b"0")?;
    put_kinds(out, b"points", &setup.kinds)?;
    Ok(())
}

fn put_reached(out: &mut Vec<u8>, cycle: u64, stimulus: &Stimulus) -> Result<(), AllocError>
    ensures { OnOk result (out.new.items ≡ out.old.items ++ text_of (body_lines (Reached cycle stimulus.now))) }
{
    put_numbered(out, b"reached", u128::from(cycle))?;
    put_bits(out, b"start", stimulus.start.as_slice())?;
    put_inputs(out, stimulus.lines.as_slice())?;
    out.extend_from_slice(b"end\n")?;
    Ok(())
}

fn put_excluded(alloc: Global, out: &mut Vec<u8>, ladder: &NamedLadder) -> Result<(), AllocError>
    ensures { OnOk result (out.new.items ≡ out.old.items ++ text_of (body_lines (Excluded ladder.now))) }
{
    put_numbered(out, b"excluded", ladder.lemmas.len() as u128)?;
    put_ladder(alloc, out, ladder)?;
    Ok(())
}

fn put_open(
    alloc: Global,
    out: &mut Vec<u8>,
    cycles: u64,
    ladder: &NamedLadder,
) -> Result<(), AllocError>
    ensures { OnOk result (out.new.items ≡ out.old.items ++ text_of (body_lines (Open cycles ladder.now))) }
{
    out.extend_from_slice(b"open ")?;
    put_number(out, u128::from(cycles))?;
    out.push(b' ')?;
    put_number(out, ladder.lemmas.len() as u128)?;
    out.push(b'\n')?;
    put_ladder(alloc, out, ladder)?;
    Ok(())
}

fn put_body(alloc: Global, out: &mut Vec<u8>, body: &Body) -> Result<(), AllocError>
    ensures { OnOk result (out.new.items ≡ out.old.items ++ text_of (body_lines body.now)) }
{
    match body {
        Body::Reached { cycle, stimulus } => put_reached(out, *cycle, stimulus),
        Body::Excluded(ladder) => put_excluded(alloc, out, ladder),
        Body::Open { cycles, ladder } => put_open(alloc, out, *cycles, ladder),
    }
}

fn put_claim(alloc: Global, out: &mut Vec<u8>, claim: &CertClaim) -> Result<(), AllocError>
    ensures { OnOk result (out.new.items ≡ out.old.items ++ text_of (claim_lines claim.now)) }
{
    out.extend_from_slice(claim.point.bytes())?;
    out.push(b'\n')?;
    put_body(alloc, out, &claim.body)?;
    Ok(())
}

fn put_claims(alloc: Global, out: &mut Vec<u8>, claims: &[CertClaim]) -> Result<(), AllocError>
    ensures { OnOk result (out.new.items ≡ out.old.items ++ text_of (flat_map claim_lines claims.now)) }
{
    for claim in claims {
        put_claim(alloc, out, claim)?;
    }
    Ok(())
}

/// The text of a certificate. The time grows with the length of the text, and memory is taken for the
/// text, and for that of one proof at a time.
///
/// The numbers of the claims' lines are not written: where the certificate fits but for them, it is read back with
/// those that its claims have in the text. Any other is written too, and not read back as it was.
pub fn write_cert(alloc: Global, cert: &Cert) -> Result<Vec<u8>, AllocError>
    ensures exact { IfOk result (λ t. t.items ≡ spelling cert.now) }
    ensures readable { FitsButLines cert.now → IfOk result (λ t. Reads t.items (lined cert.now)) }
{
    let mut out = Vec::new(alloc);
    put_setup(&mut out, &cert.setup)?;
    put_numbered(&mut out, b"claims", cert.claims.len() as u128)?;
    put_claims(alloc, &mut out, cert.claims.as_slice())?;
    Ok(out)
}

/// A certificate that was read is spelled as the text was, byte for byte.
pub fn law_read_certs_are_written_back()
    ensures { ReadIsWritten }
{}

/// A certificate that fits but for the numbers of its lines is read from its spelling, with the numbers that its
/// claims have there, and nothing else is.
pub fn law_written_certs_are_read()
    ensures { WrittenIsRead }
{}
