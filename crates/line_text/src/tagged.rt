//! Lines of a tag and a word.

ghost use Rattle.std.specs.Prelude.{◌≡◌, ◌≤◌, IfSome};
ghost use Rattle.std.specs.Option.{option_copied};
ghost use Rattle.line_text.specs.Lines.{words};
ghost use Rattle.line_text.specs.Reading.{Gives, line_by};
ghost use Rattle.line_text.specs.Tagged.{behind, numbered_of, exact_of, alone_of};

use crate::error::LineError;
use crate::line::{Lines, one_word, two_words};
use crate::numeral::number;

/// The word behind a tag, where the line is the tag and a word.
pub fn behind<'a>(tag: &[u8], line: &'a [u8]) -> Option<&'a [u8]>
    ensures { option_copied result ≡ behind tag.now (words line.now) }
{
    let (first, second) = two_words(line)?;
    if first == tag { Some(second) } else { None }
}

/// The number behind a tag, where it is at most `max`.
pub fn numbered(tag: &[u8], max: u128, line: &[u8]) -> Option<u128>
    requires { 9 ≤ max }
    ensures value { result ≡ numbered_of tag.now max (words line.now) }
    ensures small { IfSome result (λ n. n ≤ max) }
{
    number(behind(tag, line)?, max)
}

/// Whether the line is this tag and this word.
pub fn is_exact(tag: &[u8], word: &[u8], line: &[u8]) -> Option<()>
    ensures { result ≡ exact_of tag.now word.now (words line.now) }
{
    if behind(tag, line)? == word {
        Some(())
    } else {
        None
    }
}

/// Whether the line is this word alone.
pub fn is_alone(word: &[u8], line: &[u8]) -> Option<()>
    ensures { result ≡ alone_of word.now (words line.now) }
{
    if one_word(line)? == word {
        Some(())
    } else {
        None
    }
}

/// Reads a line that is this tag and this word.
pub fn exact_line(tag: &[u8], word: &[u8], lines: &mut Lines<'_>) -> Result<(), LineError>
    ensures { Gives (λ x. x) lines.new result (line_by (exact_of tag.now word.now) lines.old) }
{
    let at = lines.line();
    let line = lines.next()?;
    match is_exact(tag, word, line) {
        Some(()) => Ok(()),
        None => Err(LineError::BadLine { line: at }),
    }
}

/// Reads a line that is a tag and a number of at most `max`.
pub fn number_line(tag: &[u8], max: u64, lines: &mut Lines<'_>) -> Result<u64, LineError>
    requires { 9 ≤ max }
    ensures { Gives (λ x. x) lines.new result (line_by (numbered_of tag.now max) lines.old) }
{
    let at = lines.line();
    let line = lines.next()?;
    match numbered(tag, u128::from(max), line) {
        Some(n) => Ok(n as u64),
        None => Err(LineError::BadLine { line: at }),
    }
}
