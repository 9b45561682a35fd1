//! The lemmas of a ladder, a line each.

ghost use Rattle.std.specs.Prelude.{◌≡◌, [], IfOk};
ghost use Rattle.std.specs.Option.{option_copied};
ghost use Rattle.line_text.specs.Lines.{words, words_after};
ghost use Rattle.line_text.specs.Reading.{Gives, line_by, times};
ghost use Rattle.cert_text.specs.Points.{begins_with, is_state_name};
ghost use Rattle.cert_text.specs.Ladders.{named_lit, lit_of, lits_after, lits_of, level_of, behind_l, lemma_of};

use crate::cert::{NamedLemma, NamedLit};
use crate::point::{MAX_NUMBER, is_name};
use bit_system::Depth;
use line_text::{LineError, Lines, number, split_word};
use sqlite_items::Items;
use std::alloc::{AllocError, Global};
use word_core::Name;

fn begins_with(byte: u8, word: &[u8]) -> bool
    ensures { result ≡ begins_with byte word.now }
{
    match word {
        [] => false,
        [first, ..] => *first == byte,
    }
}

fn is_state_name(word: &[u8]) -> bool
    ensures { result ≡ is_state_name word.now }
{
    is_name(word) && !begins_with(b'-', word)
}

fn named_lit(alloc: Global, positive: bool, word: &[u8]) -> Result<Option<NamedLit>, AllocError>
    ensures { IfOk result (λ l. l ≡ named_lit positive word.now) }
{
    if is_state_name(word) {
        let name = Name::make(alloc, word)?;
        Ok(Some(NamedLit { name, positive }))
    } else {
        Ok(None)
    }
}

#[tactic(auto, unfolding(crate::specs::Ladders::lit_of))]
fn lit(alloc: Global, word: &[u8]) -> Result<Option<NamedLit>, AllocError>
    ensures { IfOk result (λ l. l ≡ lit_of word.now) }
{
    match word {
        [] => Ok(None),
        [first, rest @ ..] => {
            if *first == b'-' {
                named_lit(alloc, false, rest)
            } else {
                named_lit(alloc, true, word)
            }
        }
    }
}

fn lits_after(alloc: Global, words: Option<&[u8]>) -> Result<Option<Items<NamedLit>>, AllocError>
    ensures { IfOk result (λ l. l ≡ lits_after [] (words_after (option_copied words.entry))) }
{
    let mut lits = Items::new(alloc);
    let mut rest = words;
    while let Some(text) = rest {
        let (word, after) = split_word(text);
        match lit(alloc, word)? {
            Some(lit) => lits.push(lit)?,
            None => return Ok(None),
        }
        rest = after;
    }
    Ok(Some(lits))
}

fn lits(alloc: Global, words: Option<&[u8]>) -> Result<Option<Items<NamedLit>>, AllocError>
    ensures { IfOk result (λ l. l ≡ lits_of (words_after (option_copied words.entry))) }
{
    match words {
        None => Ok(None),
        Some(_) => lits_after(alloc, words),
    }
}

fn level(forever: bool, word: &[u8]) -> Option<Depth>
    ensures { result ≡ level_of forever word.now }
{
    if word == b"all".as_slice() {
        return Some(Depth::All);
    }
    if forever {
        return None;
    }
    match number(word, u128::from(MAX_NUMBER)) {
        Some(level) => Some(Depth::Steps(level as u64)),
        None => None,
    }
}

fn behind_l(
    alloc: Global,
    forever: bool,
    words: Option<&[u8]>,
) -> Result<Option<NamedLemma>, AllocError>
    ensures { IfOk result (λ l. l ≡ behind_l forever (words_after (option_copied words.entry))) }
{
    let Some(text) = words else {
        return Ok(None);
    };
    let (word, rest) = split_word(text);
    let Some(level) = level(forever, word) else {
        return Ok(None);
    };
    let Some(lits) = lits(alloc, rest)? else {
        return Ok(None);
    };
    Ok(Some(NamedLemma { level, lits }))
}

#[tactic(auto, unfolding(crate::specs::Ladders::lemma_of))]
fn lemma(alloc: Global, forever: bool, line: &[u8]) -> Result<Option<NamedLemma>, AllocError>
    ensures { IfOk result (λ l. l ≡ lemma_of forever (words line.now)) }
{
    let (word, rest) = split_word(line);
    if word == b"l".as_slice() {
        behind_l(alloc, forever, rest)
    } else {
        Ok(None)
    }
}

fn lemma_line(alloc: Global, forever: bool, lines: &mut Lines<'_>) -> Result<NamedLemma, LineError>
    ensures { Gives (λ x. x) lines.new result (line_by (lemma_of forever) lines.old) }
{
    let at = lines.line();
    let line = lines.next()?;
    match lemma(alloc, forever, line)? {
        Some(lemma) => Ok(lemma),
        None => Err(LineError::BadLine { line: at }),
    }
}

/// Reads so many lemmas, whose levels must be `all` where the claim is for all cycles.
pub fn lemmas(
    alloc: Global,
    forever: bool,
    count: u64,
    lines: &mut Lines<'_>,
) -> Result<Items<NamedLemma>, LineError>
    ensures { Gives (λ x. x) lines.new result (times count 0 (λ _. line_by (lemma_of forever)) lines.old) }
{
    let mut lemmas = Items::new(alloc);
    for _ in 0..count {
        let lemma = lemma_line(alloc, forever, lines)?;
        lemmas.push(lemma)?;
    }
    Ok(lemmas)
}
