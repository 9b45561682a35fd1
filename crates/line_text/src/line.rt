//! A text as lines, and a line as words.

ghost use Rattle.std.specs.Prelude.{◌≡◌, ◌∷◌, ◌==◌, option_map, position};
ghost use Rattle.std.specs.Option.{option_copied};
ghost use Rattle.line_text.specs.Lines.{source_of, cut, words, words_after, one_of, two_of, three_of, is_ended};
ghost use Rattle.line_text.specs.Reading.{Gives, next};

use crate::error::LineError;
use std::marker::Model;

/// The rest of a text, from the beginning of a line on.
#[derive(Drop)]
pub struct Lines<'a> {
    rest: &'a [u8],
    line: u64,
}

impl<'a> Model for Lines<'a> {
    ghost use Rattle.std.specs.Prelude.{◌+◌, ◌≤◌, ◌<◌, ◌^◌, length};
    ghost use Rattle.line_text.specs.Lines.{Source, source_of};

    ghost Value = { Source };

    ghost view = { λ a. source_of a.line a.rest.now };

    ghost invariant = { λ a. a.line + length a.rest.now < 2 ^ 64 };
}

impl<'a> Lines<'a> {
    pub fn new(text: &'a [u8]) -> Lines<'a>
        ensures { result ≡ source_of 1 text.now }
    {
        Lines {
            rest: text,
            line: 1,
        }
    }

    /// The number of the next line.
    pub fn line(&self) -> u64
        ensures { result ≡ self.now.line }
    {
        self.line
    }

    /// Whether nothing is left.
    pub fn is_ended(&self) -> bool
        ensures { result ≡ is_ended self.now }
    {
        self.rest.is_empty()
    }

    /// The next line, without its line feed.
    pub fn next(&mut self) -> Result<&'a [u8], LineError>
        ensures { Gives (λ l. words l.now) self.new result (next self.old) }
    {
        match split_at_byte(b'\n', self.rest) {
            Some((line, rest)) => {
                self.rest = rest;
                self.line += 1;
                Ok(line)
            }
            None => Err(LineError::BadLine { line: self.line }),
        }
    }
}

fn find_byte(byte: u8, text: &[u8]) -> Option<usize>
    ensures { result ≡ position (λ b. b == byte) text.now }
{
    text.iter().position(|b| *b == byte)
}

/// What stands before the first such byte, and what stands after it.
pub fn split_at_byte(byte: u8, text: &[u8]) -> Option<(&[u8], &[u8])>
    ensures { option_map (λ p. (p.0.now, p.1.now)) result ≡ cut byte text.now }
{
    match find_byte(byte, text) {
        Some(at) => Some((&text[..at], &text[at + 1..])),
        None => None,
    }
}

/// The first word, and what stands after the space behind it.
pub fn split_word(line: &[u8]) -> (&[u8], Option<&[u8]>)
    ensures { words line.now ≡ result.0.now ∷ words_after (option_copied result.1) }
{
    match split_at_byte(b' ', line) {
        Some((word, rest)) => (word, Some(rest)),
        None => (line, None),
    }
}

#[tactic(auto, using(crate::proofs::Cutting::two_of_more))]
/// The words of a line that has two.
pub fn two_words(line: &[u8]) -> Option<(&[u8], &[u8])>
    ensures { option_map (λ p. (p.0.now, p.1.now)) result ≡ two_of (words line.now) }
{
    let (first, rest) = split_word(line);
    let (second, rest) = split_word(rest?);
    match rest {
        Some(_) => None,
        None => Some((first, second)),
    }
}

#[tactic(auto, using(crate::proofs::Cutting::one_of_more))]
/// The word of a line that has one.
pub fn one_word(line: &[u8]) -> Option<&[u8]>
    ensures { option_copied result ≡ one_of (words line.now) }
{
    let (word, rest) = split_word(line);
    match rest {
        Some(_) => None,
        None => Some(word),
    }
}

/// The words of a line that has three.
pub fn three_words(line: &[u8]) -> Option<(&[u8], &[u8], &[u8])>
    ensures { option_map (λ p. (p.0.now, p.1.now, p.2.now)) result ≡ three_of (words line.now) }
{
    let (first, rest) = split_word(line);
    let (second, third) = two_words(rest?)?;
    Some((first, second, third))
}
