//! The lines that name cover points.

ghost use Rattle.std.specs.Prelude.{◌≡◌, option_map};
ghost use Rattle.std.specs.List.{list_all};
ghost use Rattle.line_text.specs.Lines.{words};
ghost use Rattle.cert_text.specs.Points.{is_visible, is_name};
ghost use Rattle.cert_text.specs.Tests.{four_of, five_of, is_number, is_positive, is_ordinal, is_arc, is_change, is_plain, is_three, is_branch, is_arm, is_four, is_numbered, is_five, is_point};

use line_text::{number, split_at_byte, split_word, three_words};

pub const MAX_NUMBER: u64 = 9223372036854775807;

fn is_visible(b: u8) -> bool
    ensures { result ≡ is_visible b }
{
    33 <= b && b <= 126
}

fn are_visible(word: &[u8]) -> bool
    ensures { result ≡ list_all is_visible word.now }
{
    word.iter().all(|b| is_visible(*b))
}

/// Whether a word is a name: one or more bytes from 33 to 126.
pub fn is_name(word: &[u8]) -> bool
    ensures { result ≡ is_name word.now }
{
    !word.is_empty() && are_visible(word)
}

/// The words of a line that has four.
pub fn four_words(line: &[u8]) -> Option<(&[u8], &[u8], &[u8], &[u8])>
    ensures { option_map (λ p. (p.0.now, p.1.now, p.2.now, p.3.now)) result ≡ four_of (words line.now) }
{
    let (first, rest) = split_word(line);
    let (second, third, fourth) = three_words(rest?)?;
    Some((first, second, third, fourth))
}

fn five_words(line: &[u8]) -> Option<(&[u8], &[u8], &[u8], &[u8], &[u8])>
    ensures { option_map (λ p. (p.0.now, p.1.now, p.2.now, p.3.now, p.4.now)) result ≡ five_of (words line.now) }
{
    let (first, rest) = split_word(line);
    let (second, third, fourth, fifth) = four_words(rest?)?;
    Some((first, second, third, fourth, fifth))
}

fn is_number(word: &[u8]) -> bool
    ensures { result ≡ is_number 9223372036854775807 word.now }
{
    number(word, u128::from(MAX_NUMBER)).is_some()
}

fn is_state(word: &[u8]) -> bool
    ensures { result ≡ is_number 340282366920938463463374607431768211455 word.now }
{
    number(word, u128::MAX).is_some()
}

fn is_positive(word: &[u8]) -> bool
    ensures { result ≡ is_positive 9223372036854775807 word.now }
{
    match number(word, u128::from(MAX_NUMBER)) {
        Some(n) => 0 < n,
        None => false,
    }
}

fn is_ordinal(word: &[u8]) -> bool
    ensures { result ≡ is_ordinal word.now }
{
    match word {
        [] => false,
        [first, rest @ ..] => *first == b'#' && is_number(rest),
    }
}

fn is_arc(word: &[u8]) -> bool
    ensures { result ≡ is_arc word.now }
{
    match split_at_byte(b'>', word) {
        Some((from, to)) => is_state(from) && is_state(to),
        None => false,
    }
}

fn is_change(word: &[u8]) -> bool
    ensures { result ≡ is_change word.now }
{
    word == b"rise".as_slice() || word == b"fall".as_slice()
}

// What stands behind the name of a statement, a bit or a register.
fn is_plain(kind: &[u8], detail: &[u8]) -> bool
    ensures { result ≡ is_plain kind.now detail.now }
{
    match kind {
        b"S" => is_ordinal(detail),
        b"T" => is_change(detail),
        b"F" => is_arc(detail),
        _ => false,
    }
}

fn is_three(line: &[u8]) -> bool
    ensures { result ≡ is_three (words line.now) }
{
    match three_words(line) {
        Some((kind, name, detail)) => is_name(name) && is_plain(kind, detail),
        None => false,
    }
}

fn is_branch(word: &[u8]) -> bool
    ensures { result ≡ is_branch word.now }
{
    word == b"then".as_slice() || word == b"else".as_slice() || word == b"default".as_slice()
}

fn is_arm(kind: &[u8], arm: &[u8]) -> bool
    ensures { result ≡ is_arm kind.now arm.now }
{
    match kind {
        b"B" => is_branch(arm),
        b"R" => arm == b"all".as_slice(),
        _ => false,
    }
}

fn is_four(line: &[u8]) -> bool
    ensures { result ≡ is_four (words line.now) }
{
    match four_words(line) {
        Some((kind, name, ordinal, arm)) => {
            is_name(name) && is_ordinal(ordinal) && is_arm(kind, arm)
        }
        None => false,
    }
}

fn is_numbered(kind: &[u8], arm: &[u8], number: &[u8]) -> bool
    ensures { result ≡ is_numbered kind.now arm.now number.now }
{
    match kind {
        b"B" => arm == b"item".as_slice() && is_number(number),
        b"R" => arm == b"only".as_slice() && is_positive(number),
        _ => false,
    }
}

fn is_five(line: &[u8]) -> bool
    ensures { result ≡ is_five (words line.now) }
{
    match five_words(line) {
        Some((kind, name, ordinal, arm, number)) => {
            is_name(name) && is_ordinal(ordinal) && is_numbered(kind, arm, number)
        }
        None => false,
    }
}

/// Whether a line has the shape of a cover point's name.
pub fn is_point(line: &[u8]) -> bool
    ensures { result ≡ is_point (words line.now) }
{
    is_three(line) || is_four(line) || is_five(line)
}
