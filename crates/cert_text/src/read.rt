//! Certificates, read.

ghost use Rattle.std.specs.Prelude.{◌≡◌, IfOk, codes};
ghost use Rattle.std.specs.Option.{option_copied};
ghost use Rattle.line_text.specs.Lines.{words};
ghost use Rattle.line_text.specs.Reading.{Gives, Tells, line_by, times};
ghost use Rattle.cert_text.specs.Certs.{named_of, point_of, setup_at, claim_at, cert_at, cert_of};
ghost use Rattle.cert_text.specs.Answers.{CertAnswers};

use crate::body::read_body;
use crate::cert::{Cert, CertClaim};
use crate::error::CertError;
use crate::kinds::kinds_line;
use crate::point::{MAX_NUMBER, is_name, is_point};
use design_core::setup::Setup;
use line_text::{LineError, Lines, behind, exact_line, number_line};
use sqlite_items::Items;
use std::alloc::{AllocError, Global};
use word_core::Name;

fn named<'a>(tag: &[u8], line: &'a [u8]) -> Option<&'a [u8]>
    ensures { option_copied result ≡ named_of tag.now (words line.now) }
{
    let word = behind(tag, line)?;
    if is_name(word) { Some(word) } else { None }
}

fn name_line(alloc: Global, tag: &[u8], lines: &mut Lines<'_>) -> Result<Name, LineError>
    ensures { Gives (λ x. x) lines.new result (line_by (named_of tag.now) lines.old) }
{
    let at = lines.line();
    let line = lines.next()?;
    match named(tag, line) {
        Some(name) => Ok(Name::make(alloc, name)?),
        None => Err(LineError::BadLine { line: at }),
    }
}

#[tactic(auto, unfolding(crate::specs::Certs::setup_at))]
fn setup(alloc: Global, lines: &mut Lines<'_>) -> Result<Setup, LineError>
    ensures { Gives (λ x. x) lines.new result (setup_at lines.old) }
{
    exact_line(b"unr", b"1", lines)?;
    let top = name_line(alloc, b"top", lines)?;
    let clock = name_line(alloc, b"clock", lines)?;
    exact_line(b"cycles", b"0", lines)?;
    let kinds = kinds_line(b"points", lines)?;
    Ok(Setup {
        top,
        clock,
        hold: Items::new(alloc),
        cycles: 0,
        kinds,
        fsm: Items::new(alloc),
    })
}

#[tactic(auto, unfolding(crate::specs::Certs::point_of), using(line_text::proofs::Cutting::join_words))]
fn point(alloc: Global, line: &[u8]) -> Result<Option<Name>, AllocError>
    ensures { IfOk result (λ p. p ≡ point_of (words line.now)) }
{
    if is_point(line) {
        let name = Name::make(alloc, line)?;
        Ok(Some(name))
    } else {
        Ok(None)
    }
}

fn point_line(alloc: Global, lines: &mut Lines<'_>) -> Result<Name, LineError>
    ensures { Gives (λ x. x) lines.new result (line_by point_of lines.old) }
{
    let at = lines.line();
    let line = lines.next()?;
    match point(alloc, line)? {
        Some(point) => Ok(point),
        None => Err(LineError::BadLine { line: at }),
    }
}

#[tactic(auto, unfolding(crate::specs::Certs::claim_at, crate::specs::Certs::claim_from))]
fn claim(alloc: Global, lines: &mut Lines<'_>) -> Result<CertClaim, LineError>
    ensures { Gives (λ x. x) lines.new result (claim_at lines.old) }
{
    let line = lines.line();
    let point = point_line(alloc, lines)?;
    let body = read_body(alloc, lines)?;
    Ok(CertClaim { line, point, body })
}

fn claims(alloc: Global, count: u64, lines: &mut Lines<'_>) -> Result<Items<CertClaim>, LineError>
    ensures { Gives (λ x. x) lines.new result (times count 0 (λ _. claim_at) lines.old) }
{
    let mut claims = Items::new(alloc);
    for _ in 0..count {
        let claim = claim(alloc, lines)?;
        claims.push(claim)?;
    }
    Ok(claims)
}

#[tactic(auto, unfolding(crate::specs::Certs::cert_at))]
fn cert(alloc: Global, lines: &mut Lines<'_>) -> Result<Cert, LineError>
    ensures { Gives (λ x. x) lines.new result (cert_at lines.old) }
{
    let setup = setup(alloc, lines)?;
    let count = number_line(b"claims", MAX_NUMBER, lines)?;
    let claims = claims(alloc, count, lines)?;
    Ok(Cert { setup, claims })
}

#[tactic(auto, unfolding(crate::specs::Certs::cert_of))]
fn whole(alloc: Global, text: &[u8]) -> Result<Cert, LineError>
    ensures { Tells result (cert_of text.now) }
{
    let mut lines = Lines::new(text);
    let cert = cert(alloc, &mut lines)?;
    if !lines.is_ended() {
        return Err(LineError::BadLine { line: lines.line() });
    }
    Ok(cert)
}

/// The certificate that a text spells. The time grows with the length of the text.
pub fn read_cert(alloc: Global, text: &[u8]) -> Result<Cert, CertError>
    ensures answers { CertAnswers text.now result }
{
    match whole(alloc, text) {
        Ok(cert) => Ok(cert),
        Err(e) => Err(CertError::from(e)),
    }
}
