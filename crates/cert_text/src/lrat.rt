//! The proofs of a ladder: a line that counts their lines and literals, and these lines.

ghost use Rattle.std.specs.Prelude.{◌≡◌, ◌≤◌, IfOk, IfSome, ◌+◌, codes, decimal, option_map};
ghost use Rattle.std.specs.Str.{bytes_eq};
ghost use Rattle.bit_system.specs.ProofLines.{seen};
ghost use Rattle.line_text.specs.Lines.{words};
ghost use Rattle.line_text.specs.Number.{number_of};
ghost use Rattle.line_text.specs.Reading.{Gives, line_by, times};
ghost use Rattle.cert_text.specs.Spelling.{added};
ghost use Rattle.cert_text.specs.Ladders.{pair_of, tagged_pair_of, step_of, hit_of, line_within, lines_from, proof_at};

use crate::point::{MAX_NUMBER, four_words};
use bit_system::Proof;
use cnf_core::Line;
use line_text::{LineError, Lines, number, three_words};
use proof_lines::read_line;
use sqlite_items::Items;
use std::alloc::{AllocError, Global};

fn number_below(word: &[u8]) -> Option<u64>
    ensures { result ≡ number_of 9223372036854775807 word.now }
{
    match number(word, u128::from(MAX_NUMBER)) {
        Some(n) => Some(n as u64),
        None => None,
    }
}

// Two numbers, of which the second is 0 where the first is.
fn pair(first: &[u8], second: &[u8]) -> Option<(u64, u64)>
    ensures { result ≡ pair_of first.now second.now }
{
    let first = number_below(first)?;
    let second = number_below(second)?;
    if first == 0 && second != 0 {
        return None;
    }
    Some((first, second))
}

/// The two numbers of a line that is a tag and two numbers, of which the second is 0 where the first is.
pub fn tagged_pair(tag: &[u8], line: &[u8]) -> Option<(u64, u64)>
    ensures { result ≡ tagged_pair_of tag.now (words line.now) }
{
    let (word, first, second) = three_words(line)?;
    if word == tag {
        pair(first, second)
    } else {
        None
    }
}

fn is_decimal(n: u64, word: &[u8]) -> bool
    ensures { result ≡ bytes_eq word.now (decimal n) }
{
    match number(word, u128::from(u64::MAX)) {
        Some(found) => found == u128::from(n),
        None => false,
    }
}

fn step_sizes(i: u64, line: &[u8]) -> Option<(u64, u64)>
    ensures { result ≡ step_of i (words line.now) }
{
    let (tag, word, first, second) = four_words(line)?;
    if tag != b"step".as_slice() {
        return None;
    }
    if is_decimal(i, word) {
        pair(first, second)
    } else {
        None
    }
}

fn step_head(i: u64, lines: &mut Lines<'_>) -> Result<(u64, u64), LineError>
    ensures { Gives (λ x. x) lines.new result (line_by (step_of i) lines.old) }
{
    let at = lines.line();
    let line = lines.next()?;
    match step_sizes(i, line) {
        Some(sizes) => Ok(sizes),
        None => Err(LineError::BadLine { line: at }),
    }
}

fn hit_head(lines: &mut Lines<'_>) -> Result<(u64, u64), LineError>
    ensures { Gives (λ x. x) lines.new result (line_by hit_of lines.old) }
{
    let at = lines.line();
    let line = lines.next()?;
    match tagged_pair(b"hit", line) {
        Some(sizes) => Ok(sizes),
        None => Err(LineError::BadLine { line: at }),
    }
}

fn added(line: &Line) -> u64
    ensures { result ≡ added (seen line.now) }
{
    match line {
        Line::Add { lits, .. } => lits.len() as u64,
        Line::Delete { .. } => 0,
    }
}

// A line that adds at most as many literals as are left, and on the last line exactly these.
#[tactic(auto, unfolding(crate::specs::Ladders::line_within))]
fn line_within(
    alloc: Global,
    left: u64,
    is_last: bool,
    line: &[u8],
) -> Result<Option<Line>, AllocError>
    ensures value { IfOk result (λ o. option_map seen o ≡ line_within left is_last (words line.now)) }
    ensures room { IfOk result (λ o. IfSome o (λ x. added (seen x) ≤ left)) }
{
    let Some(found) = read_line(alloc, line)? else {
        return Ok(None);
    };
    let count = added(&found);
    if count <= left && (!is_last || count == left) {
        Ok(Some(found))
    } else {
        Ok(None)
    }
}

fn proof_line(
    alloc: Global,
    left: u64,
    is_last: bool,
    lines: &mut Lines<'_>,
) -> Result<Line, LineError>
    ensures value { Gives seen lines.new result (line_by (line_within left is_last) lines.old) }
    ensures room { IfOk result (λ x. added (seen x) ≤ left) }
{
    let at = lines.line();
    let line = lines.next()?;
    match line_within(alloc, left, is_last, line)? {
        Some(found) => Ok(found),
        None => Err(LineError::BadLine { line: at }),
    }
}

fn proof_lines(
    alloc: Global,
    count: u64,
    lits: u64,
    lines: &mut Lines<'_>,
) -> Result<Proof, LineError>
    ensures { Gives (λ x. x) lines.new result (lines_from count lits lines.old) }
{
    let mut proof = Proof::new(alloc);
    let mut left = lits;
    for i in 0..count {
        let line = proof_line(alloc, left, i + 1 == count, lines)?;
        left -= added(&line);
        proof.push(line)?;
    }
    Ok(proof)
}

#[tactic(auto, unfolding(crate::specs::Ladders::proof_at))]
fn step(alloc: Global, i: u64, lines: &mut Lines<'_>) -> Result<Proof, LineError>
    ensures { Gives (λ x. x) lines.new result (proof_at (step_of i) lines.old) }
{
    let (count, lits) = step_head(i, lines)?;
    proof_lines(alloc, count, lits, lines)
}

/// Reads the proofs of so many lemmas.
pub fn steps(alloc: Global, count: u64, lines: &mut Lines<'_>) -> Result<Items<Proof>, LineError>
    ensures { Gives (λ x. x) lines.new result (times count 0 (λ i. proof_at (step_of (i + 1))) lines.old) }
{
    let mut steps = Items::new(alloc);
    for i in 0..count {
        let step = step(alloc, i + 1, lines)?;
        steps.push(step)?;
    }
    Ok(steps)
}

/// Reads the proof of the hit.
#[tactic(auto, unfolding(crate::specs::Ladders::proof_at))]
pub fn hit(alloc: Global, lines: &mut Lines<'_>) -> Result<Proof, LineError>
    ensures { Gives (λ x. x) lines.new result (proof_at hit_of lines.old) }
{
    let (count, lits) = hit_head(lines)?;
    proof_lines(alloc, count, lits, lines)
}
