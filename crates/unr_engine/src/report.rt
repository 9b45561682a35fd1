// The reports of claims, and the exclusion list.
ghost use Rattle.std.specs.Prelude.{◌≡◌, ◌++◌, IfOk};
ghost use Rattle.unr_engine.specs.Report.{claim_line, report, report_line, report_lines, summary, is_excluded, is_reached, is_open, count, some_open, spent_line, spent_lines, proof_report, excluded_line, exclusions};

use crate::pieces::{Piece, push_all};
use cert_text::{Claim, Verdict};
use std::alloc::{AllocError, Global};

// Appends the line of a claim.
fn push_line(text: &mut Vec<u8>, claim: &Claim) -> Result<(), AllocError>
    ensures { IfOk result (λ _. text.new.items ≡ text.old.items ++ claim_line claim.now.verdict claim.now.point) }
{
    match claim.verdict {
        Verdict::Reached { cycle } => push_all(
            text,
            &[
                Piece::Text(b"reached "),
                Piece::Number(cycle),
                Piece::Text(b" "),
                Piece::Text(claim.point.bytes()),
                Piece::Text(b"\n"),
            ],
        ),
        Verdict::Excluded => push_all(
            text,
            &[
                Piece::Text(b"excluded "),
                Piece::Text(claim.point.bytes()),
                Piece::Text(b"\n"),
            ],
        ),
        Verdict::Open { cycles } => push_all(
            text,
            &[
                Piece::Text(b"open "),
                Piece::Number(cycles),
                Piece::Text(b" "),
                Piece::Text(claim.point.bytes()),
                Piece::Text(b"\n"),
            ],
        ),
    }
}

fn is_excluded(verdict: &Verdict) -> bool
    ensures { result ≡ is_excluded verdict.now }
{
    match verdict {
        Verdict::Excluded => true,
        Verdict::Reached { .. } => false,
        Verdict::Open { .. } => false,
    }
}

fn is_reached(verdict: &Verdict) -> bool
    ensures { result ≡ is_reached verdict.now }
{
    match verdict {
        Verdict::Excluded => false,
        Verdict::Reached { .. } => true,
        Verdict::Open { .. } => false,
    }
}

fn is_open(verdict: &Verdict) -> bool
    ensures { result ≡ is_open verdict.now }
{
    match verdict {
        Verdict::Excluded => false,
        Verdict::Reached { .. } => false,
        Verdict::Open { .. } => true,
    }
}

// How many claims are excluded.
fn excluded_count(claims: &[Claim]) -> usize
    ensures { result ≡ count is_excluded claims.now }
{
    claims
        .iter()
        .filter(|claim| is_excluded(&claim.verdict))
        .count()
}

// How many are reached.
fn reached_count(claims: &[Claim]) -> usize
    ensures { result ≡ count is_reached claims.now }
{
    claims
        .iter()
        .filter(|claim| is_reached(&claim.verdict))
        .count()
}

// How many are open.
fn open_count(claims: &[Claim]) -> usize
    ensures { result ≡ count is_open claims.now }
{
    claims
        .iter()
        .filter(|claim| is_open(&claim.verdict))
        .count()
}

// Appends the last line.
fn push_summary(text: &mut Vec<u8>, claims: &[Claim]) -> Result<(), AllocError>
    ensures { IfOk result (λ _. text.new.items ≡ text.old.items ++ summary claims.now) }
{
    push_all(
        text,
        &[
            Piece::Text(b"points "),
            Piece::Number(claims.len() as u64),
            Piece::Text(b" excluded "),
            Piece::Number(excluded_count(claims) as u64),
            Piece::Text(b" reached "),
            Piece::Number(reached_count(claims) as u64),
            Piece::Text(b" open "),
            Piece::Number(open_count(claims) as u64),
            Piece::Text(b"\n"),
        ],
    )
}

/// The report: a line for each claim, in order, and a last line with their numbers.
/// It takes time and memory in the bytes of the points' names.
pub fn report_text(alloc: Global, claims: &[Claim]) -> Result<Vec<u8>, AllocError>
    ensures { IfOk result (λ text. text.items ≡ report claims.now) }
{
    let mut text = Vec::new(alloc);
    for claim in claims {
        push_line(&mut text, claim)?;
    }
    push_summary(&mut text, claims)?;
    Ok(text)
}

/// Whether a claim is open.
pub fn some_open(claims: &[Claim]) -> bool
    ensures { result ≡ some_open claims.now }
{
    open_count(claims) > 0
}

// Appends the line of a claim whose search used so many units of the effort.
fn push_spent(text: &mut Vec<u8>, claim: &Claim, units: u64, effort: u64) -> Result<(), AllocError>
    ensures { IfOk result (λ _. text.new.items ≡ text.old.items ++ spent_line effort units claim.now.verdict claim.now.point) }
{
    match claim.verdict {
        Verdict::Open { cycles } => push_all(
            text,
            &[
                Piece::Text(b"open "),
                Piece::Number(cycles),
                Piece::Text(b" "),
                Piece::Text(claim.point.bytes()),
                Piece::Text(b" used "),
                Piece::Number(units),
                Piece::Text(b" of "),
                Piece::Number(effort),
                Piece::Text(b"\n"),
            ],
        ),
        Verdict::Reached { .. } => push_line(text, claim),
        Verdict::Excluded => push_line(text, claim),
    }
}

// Appends a line for each claim, with the units that its search used.
fn push_spent_lines(
    text: &mut Vec<u8>,
    claims: &[Claim],
    used: &[u64],
    effort: u64,
) -> Result<(), AllocError>
    ensures { IfOk result (λ _. text.new.items ≡ text.old.items ++ spent_lines effort claims.now used.now) }
{
    let mut rest = used;
    for claim in claims {
        let Some((units, more)) = rest.split_first() else {
            return Ok(());
        };
        push_spent(text, claim, *units, effort)?;
        rest = more;
    }
    Ok(())
}

/// The report of claims that were proved, each with the units of the effort that its search used.
/// It takes time and memory in the bytes of the points' names.
pub fn proof_report(
    alloc: Global,
    claims: &[Claim],
    used: &[u64],
    effort: u64,
) -> Result<Vec<u8>, AllocError>
    ensures { IfOk result (λ text. text.items ≡ proof_report effort claims.now used.now) }
{
    let mut text = Vec::new(alloc);
    push_spent_lines(&mut text, claims, used, effort)?;
    push_summary(&mut text, claims)?;
    Ok(text)
}

// Appends the point of a claim, where it is excluded.
fn push_excluded(text: &mut Vec<u8>, claim: &Claim) -> Result<(), AllocError>
    ensures { IfOk result (λ _. text.new.items ≡ text.old.items ++ excluded_line claim.now.verdict claim.now.point) }
{
    match claim.verdict {
        Verdict::Excluded => push_all(
            text,
            &[Piece::Text(claim.point.bytes()), Piece::Text(b"\n")],
        ),
        Verdict::Reached { .. } => Ok(()),
        Verdict::Open { .. } => Ok(()),
    }
}

/// The exclusion list: the point of each excluded claim, in order, with a line feed.
/// It takes time and memory in the bytes of the points' names.
pub fn exclusion_list(alloc: Global, claims: &[Claim]) -> Result<Vec<u8>, AllocError>
    ensures { IfOk result (λ text. text.items ≡ exclusions claims.now) }
{
    let mut text = Vec::new(alloc);
    for claim in claims {
        push_excluded(&mut text, claim)?;
    }
    Ok(text)
}
