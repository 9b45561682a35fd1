//! Proof lines, read from their text.
ghost use Rattle.std.specs.Prelude.{◌≡◌, ◌<◌, ◌≤◌, [], ℕ, false, List, IfOk, IfSome, map, option_map};
ghost use Rattle.std.specs.List.{AllByRecursion};
ghost use Rattle.std.specs.Option.{option_copied};
ghost use Rattle.line_text.specs.Lines.{words, words_after};
ghost use Rattle.proof_lines.specs.Spelling.{PlainLine, plain, Fits, spelling};
ghost use Rattle.proof_lines.specs.Reading.{positive, id_of, signed, signed_of, literal_of, hint_of, to_zero, deletion_of, addition_of, behind_id, lrat_of, are_rat_hints, is_rat, fault_of, next_line, text_lines};
ghost use Rattle.proof_lines.specs.Read.{IsFault, IsNext, AreRead};
ghost use Rattle.proof_lines.specs.Answers.{LineAnswers, LratAnswers, LratGives};

use crate::error::LratError;
use cnf_core::{Hints, Line, Lit};
use line_text::{LineError, Lines, number, split_word};
use sqlite_items::Items;
use std::alloc::{AllocError, Global};

/// The greatest number of a line or a hint.
const MOST: u128 = 9223372036854775807;

/// The greatest variable.
const MOST_VARIABLE: u128 = 2147483647;

fn positive(max: u128, word: &[u8]) -> Option<u128>
    requires { 9 ≤ max }
    ensures value { result ≡ positive max word.now }
    ensures small { IfSome result (λ n. n ≤ max) }
    ensures low { IfSome result (λ n. 0 < n) }
{
    let n = number(word, max)?;
    if n == 0 { None } else { Some(n) }
}

fn id(word: &[u8]) -> Option<u64>
    ensures { result ≡ id_of word.now }
{
    match positive(MOST, word) {
        Some(n) => Some(n as u64),
        None => None,
    }
}

/// A number from 1 to `max`, and whether it has no sign.
#[tactic(auto, unfolding(crate::specs::Reading::signed_of))]
fn signed_number(max: u128, word: &[u8]) -> Option<(bool, u128)>
    requires { 9 ≤ max }
    ensures value { option_map (λ p. signed p.0 p.1) result ≡ signed_of max word.now }
    ensures small { IfSome result (λ p. p.1 ≤ max) }
    ensures low { IfSome result (λ p. 0 < p.1) }
{
    match word {
        [] => None,
        [first, rest @ ..] => {
            if *first == b'-' {
                match positive(max, rest) {
                    Some(n) => Some((false, n)),
                    None => None,
                }
            } else {
                match positive(max, word) {
                    Some(n) => Some((true, n)),
                    None => None,
                }
            }
        }
    }
}

fn literal(word: &[u8]) -> Option<Lit>
    ensures { result ≡ literal_of word.now }
{
    match signed_number(MOST_VARIABLE, word) {
        Some((is_positive, n)) => Some(Lit::make(n as u32, is_positive)),
        None => None,
    }
}

/// Whether a hint has no sign, where the word is one.
fn hint(word: &[u8]) -> Option<bool>
    ensures { result ≡ option_map (λ h. h.positive) (hint_of word.now) }
{
    match signed_number(MOST, word) {
        Some((is_positive, _)) => Some(is_positive),
        None => None,
    }
}

/// The literals up to the word 0, and what stands behind it.
fn literals<'a>(
    alloc: Global,
    words: Option<&'a [u8]>,
) -> Result<Option<(Vec<Lit>, Option<&'a [u8]>)>, AllocError>
    ensures { IfOk result (λ o. option_map (λ p. (p.0.items, words_after (option_copied p.1))) o ≡ to_zero literal_of [] (words_after (option_copied words.entry))) }
{
    let mut literals = Vec::new(alloc);
    let mut rest = words;
    while let Some(text) = rest {
        let (word, after) = split_word(text);
        if word == b"0".as_slice() {
            return Ok(Some((literals, after)));
        }
        match literal(word) {
            Some(literal) => literals.push(literal)?,
            None => return Ok(None),
        }
        rest = after;
    }
    Ok(None)
}

/// The numbers up to the word 0, and what stands behind it.
fn ids<'a>(
    alloc: Global,
    words: Option<&'a [u8]>,
) -> Result<Option<(Hints, Option<&'a [u8]>)>, AllocError>
    ensures { IfOk result (λ o. option_map (λ p. (p.0.items, words_after (option_copied p.1))) o ≡ to_zero id_of [] (words_after (option_copied words.entry))) }
{
    let mut ids = Hints::new(alloc);
    let mut rest = words;
    while let Some(text) = rest {
        let (word, after) = split_word(text);
        if word == b"0".as_slice() {
            return Ok(Some((ids, after)));
        }
        match id(word) {
            Some(id) => ids.push(id)?,
            None => return Ok(None),
        }
        rest = after;
    }
    Ok(None)
}

#[tactic(auto, using(crate::proofs::Leftover::only_more))]
fn deletion(alloc: Global, id: u64, words: Option<&[u8]>) -> Result<Option<Line>, AllocError>
    ensures { IfOk result (λ o. option_map plain o ≡ deletion_of id (words_after (option_copied words.entry))) }
{
    let Some((ids, rest)) = ids(alloc, words)? else {
        return Ok(None);
    };
    match rest {
        None => Ok(Some(Line::Delete { id, ids })),
        Some(_) => Ok(None),
    }
}

#[tactic(auto, using(crate::proofs::Leftover::only_more))]
fn addition(alloc: Global, id: u64, words: Option<&[u8]>) -> Result<Option<Line>, AllocError>
    ensures { IfOk result (λ o. option_map plain o ≡ addition_of id (words_after (option_copied words.entry))) }
{
    let Some((lits, rest)) = literals(alloc, words)? else {
        return Ok(None);
    };
    let Some((hints, rest)) = ids(alloc, rest)? else {
        return Ok(None);
    };
    match rest {
        None => Ok(Some(Line::Add { id, lits, hints })),
        Some(_) => Ok(None),
    }
}

fn behind_id(alloc: Global, id: u64, words: Option<&[u8]>) -> Result<Option<Line>, AllocError>
    ensures { IfOk result (λ o. option_map plain o ≡ behind_id id (words_after (option_copied words.entry))) }
{
    let Some(text) = words else {
        return Ok(None);
    };
    let (word, rest) = split_word(text);
    if word == b"d".as_slice() {
        deletion(alloc, id, rest)
    } else {
        addition(alloc, id, words)
    }
}

#[tactic(auto, unfolding(crate::specs::Reading::lrat_of))]
fn lrat(alloc: Global, line: &[u8]) -> Result<Option<Line>, AllocError>
    ensures { IfOk result (λ o. option_map plain o ≡ lrat_of (words line.now)) }
{
    let (word, rest) = split_word(line);
    match id(word) {
        Some(id) => behind_id(alloc, id, rest),
        None => Ok(None),
    }
}

/// The proof line that a line of text spells, or `None` where it spells none: LRAT, without RAT. The line feed isn't
/// part of it. It takes time in the line.
pub fn read_line(alloc: Global, line: &[u8]) -> Result<Option<Line>, AllocError>
    // What is read is spelled by the words of the line, and where nothing is read they spell no proof line.
    ensures answers { IfOk result (λ o. LineAnswers (words line.now) (option_map plain o)) }
    // The same, as a function of the words.
    ensures value { IfOk result (λ o. option_map plain o ≡ lrat_of (words line.now)) }
{
    lrat(alloc, line)
}

/// Whether these are hints and the word 0 at the end, and a hint is negative.
#[tactic(auto, using(crate::proofs::Leftover::nothing_more))]
fn are_rat_hints(words: Option<&[u8]>) -> bool
    ensures { result ≡ are_rat_hints false (words_after (option_copied words.entry)) }
{
    let mut seen = false;
    let mut rest = words;
    while let Some(text) = rest {
        let (word, after) = split_word(text);
        if word == b"0".as_slice() {
            return match after {
                None => seen,
                Some(_) => false,
            };
        }
        match hint(word) {
            Some(is_positive) => seen = seen || !is_positive,
            None => return false,
        }
        rest = after;
    }
    false
}

/// Whether a line is an addition with a negative hint.
#[tactic(auto, unfolding(crate::specs::Reading::is_rat))]
fn is_rat(alloc: Global, line: &[u8]) -> Result<bool, AllocError>
    ensures { IfOk result (λ b. b ≡ is_rat (words line.now)) }
{
    let (word, rest) = split_word(line);
    let Some(_) = id(word) else {
        return Ok(false);
    };
    let Some((_, rest)) = literals(alloc, rest)? else {
        return Ok(false);
    };
    Ok(are_rat_hints(rest))
}

fn fault(alloc: Global, number: u64, line: &[u8]) -> LratError
    ensures { IsFault (fault_of number (words line.now)) result }
{
    match is_rat(alloc, line) {
        Ok(true) => LratError::RatHint { line: number },
        Ok(false) => LratError::BadLine { line: number },
        Err(AllocError) => LratError::Memory,
    }
}

fn next_line(alloc: Global, lines: &mut Lines<'_>) -> Result<Line, LratError>
    ensures { IsNext lines.new result (next_line lines.old) }
{
    let at = lines.line();
    let line = match lines.next() {
        Ok(line) => line,
        Err(LineError::BadLine { line }) => return Err(LratError::BadLine { line }),
        Err(LineError::Memory) => return Err(LratError::Memory),
    };
    match lrat(alloc, line)? {
        Some(found) => Ok(found),
        None => Err(fault(alloc, at, line)),
    }
}

#[tactic(auto, unfolding(crate::specs::Reading::text_lines))]
fn all_lines(alloc: Global, text: &[u8]) -> Result<Items<Line>, LratError>
    ensures { AreRead result (text_lines text.now) }
{
    let mut lines = Lines::new(text);
    let mut read = Items::new(alloc);
    while !lines.is_ended() {
        let line = next_line(alloc, &mut lines)?;
        read.push(line)?;
    }
    Ok(read)
}

/// The proof lines that a text spells: LRAT, without RAT, each line with its line feed. It takes time in the text.
pub fn read_lrat(alloc: Global, text: &[u8]) -> Result<Items<Line>, LratError>
    // What is read is spelled so, each byte of it. A refusal tells the first line that is no proof line.
    ensures answers { LratAnswers text.now result }
    // What is spelled so is read, unless memory runs out.
    ensures exact { (lines : List PlainLine) → AllByRecursion Fits lines → text.now ≡ spelling lines → LratGives lines result }
{
    all_lines(alloc, text)
}
