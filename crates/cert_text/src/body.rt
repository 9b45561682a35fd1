//! What stands behind the line that names a claim's point.

ghost use Rattle.std.specs.Prelude.{◌≡◌, codes};
ghost use Rattle.line_text.specs.Lines.{words};
ghost use Rattle.line_text.specs.Reading.{Gives, line_by, until};
ghost use Rattle.line_text.specs.Tagged.{numbered_of};
ghost use Rattle.cert_text.specs.Certs.{in_or_end, stimulus_at, head_of, behind_head, body_at};

use crate::bits::{bits_line, tagged_bits};
use crate::cert::Body;
use crate::ladder::{ladder, ladder_for};
use crate::lrat::tagged_pair;
use crate::point::MAX_NUMBER;
use design_core::setup::Stimulus;
use line_text::{LineError, Lines, is_alone, numbered};
use sqlite_items::Items;
use std::alloc::Global;

type Inputs = Items<Items<bool>>;

fn inputs(alloc: Global, lines: &mut Lines<'_>) -> Result<(Inputs, ()), LineError>
    ensures { Gives (λ x. x) lines.new result (until in_or_end lines.old) }
{
    let mut inputs = Items::new(alloc);
    loop {
        let at = lines.line();
        let line = lines.next()?;
        match tagged_bits(alloc, b"in", line)? {
            Some(bits) => inputs.push(bits)?,
            None => match is_alone(b"end", line) {
                Some(()) => return Ok((inputs, ())),
                None => return Err(LineError::BadLine { line: at }),
            },
        }
    }
}

#[tactic(auto, unfolding(crate::specs::Certs::stimulus_at))]
fn stimulus(alloc: Global, lines: &mut Lines<'_>) -> Result<Stimulus, LineError>
    ensures { Gives (λ x. x) lines.new result (stimulus_at lines.old) }
{
    let start = bits_line(alloc, b"start", lines)?;
    let (inputs, ()) = inputs(alloc, lines)?;
    Ok(Stimulus {
        start,
        lines: inputs,
    })
}

/// What the first line of a claim's body says: the verdict, with its numbers.
#[derive(Clone, Copy)]
pub enum Claimed {
    HitAt { cycle: u64 },
    Never { lemmas: u64 },
    NotWithin { cycles: u64, lemmas: u64 },
}

fn tagged_number(tag: &[u8], line: &[u8]) -> Option<u64>
    ensures { result ≡ numbered_of tag.now 9223372036854775807 (words line.now) }
{
    match numbered(tag, u128::from(MAX_NUMBER), line) {
        Some(n) => Some(n as u64),
        None => None,
    }
}

fn head(line: &[u8]) -> Option<Claimed>
    ensures { result ≡ head_of (words line.now) }
{
    if let Some(cycle) = tagged_number(b"reached", line) {
        return Some(Claimed::HitAt { cycle });
    }
    if let Some(lemmas) = tagged_number(b"excluded", line) {
        return Some(Claimed::Never { lemmas });
    }
    match tagged_pair(b"open", line) {
        Some((cycles, lemmas)) => Some(Claimed::NotWithin { cycles, lemmas }),
        None => None,
    }
}

fn head_line(lines: &mut Lines<'_>) -> Result<Claimed, LineError>
    ensures { Gives (λ x. x) lines.new result (line_by head_of lines.old) }
{
    let at = lines.line();
    let line = lines.next()?;
    match head(line) {
        Some(head) => Ok(head),
        None => Err(LineError::BadLine { line: at }),
    }
}

fn behind_head(alloc: Global, head: Claimed, lines: &mut Lines<'_>) -> Result<Body, LineError>
    ensures { Gives (λ x. x) lines.new result (behind_head head lines.old) }
{
    match head {
        Claimed::HitAt { cycle } => {
            let stimulus = stimulus(alloc, lines)?;
            Ok(Body::Reached { cycle, stimulus })
        }
        Claimed::Never { lemmas } => Ok(Body::Excluded(ladder(alloc, true, lemmas, lines)?)),
        Claimed::NotWithin { cycles, lemmas } => {
            let ladder = ladder_for(alloc, cycles, lemmas, lines)?;
            Ok(Body::Open { cycles, ladder })
        }
    }
}

/// Reads the body of a claim, up to its line `end`.
#[tactic(auto, unfolding(crate::specs::Certs::body_at))]
pub fn read_body(alloc: Global, lines: &mut Lines<'_>) -> Result<Body, LineError>
    ensures { Gives (λ x. x) lines.new result (body_at lines.old) }
{
    let head = head_line(lines)?;
    behind_head(alloc, head, lines)
}
