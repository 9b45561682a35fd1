ghost use Rattle.std.specs.Prelude.{◌≡◌, ◌≤◌, ◌<◌, length};
ghost use Rattle.vlog_tokens.specs.Reads as spec;

use crate::gap::{Opening, behind_two, bytes_before, line_length, opening_of};
use crate::length::token_length;
use crate::number::number_of;
use crate::word::begins_number;

/// What is done at a place of a text that isn't at its end. Lengths count bytes.
#[derive(Clone, Copy, Debug, PartialEq, Eq)]
pub enum Turn {
    /// A blank, a comment or an attribute of this length is passed.
    Pass(usize),
    /// A token of this length is taken.
    Take(usize),
    /// A comment or an attribute has no end.
    NoEnd,
    /// The token that begins is a number without a value.
    NoValue,
    /// No token begins.
    Nothing,
}

/// Whether the token begins as a number and has no value.
fn is_bad_number(text: &[u8]) -> bool
    ensures { result ≡ spec.is_bad_number text.now }
{
    match text {
        [first, ..] => {
            if begins_number(*first) {
                number_of(text).is_none()
            } else {
                false
            }
        }
        [] => false,
    }
}

/// What is done at a comment or an attribute that has so many bytes before those that close it.
fn closed(body: &[u8], before: usize) -> Turn
    ensures { result ≡ spec.closed body.now before }
{
    if before < body.len() {
        Turn::Pass(before + 4)
    } else {
        Turn::NoEnd
    }
}

/// What is done where the longest token has this length.
fn token_or_bad(text: &[u8], taken: usize) -> Turn
    requires { taken ≤ length text.now }
    ensures { result ≡ spec.token_or_bad text.now taken }
{
    if taken == 0 {
        return Turn::Nothing;
    }
    if is_bad_number(text.split_at(taken).0) {
        return Turn::NoValue;
    }
    Turn::Take(taken)
}

/// What is done where the text begins with a comment or an attribute that these two bytes close.
pub fn close(first: u8, second: u8, text: &[u8]) -> Turn
    ensures { result ≡ spec.close first second text.now }
{
    let body = behind_two(text);
    closed(body, bytes_before(first, second, body))
}

/// What is done where this begins.
fn turn_at(opening: Opening, text: &[u8]) -> Turn
    ensures { result ≡ spec.turn_at opening text.now }
{
    match opening {
        Opening::Blank => Turn::Pass(1),
        Opening::Line => Turn::Pass(line_length(text)),
        Opening::Block => close(b'*', b'/', text),
        Opening::Attribute => close(b'*', b')', text),
        Opening::Other => token_or_bad(text, token_length(text)),
    }
}

/// What is done where the text begins.
#[tactic(auto, unfolding(crate::specs::Reads::turn))]
pub fn turn_of(text: &[u8]) -> Turn
    requires { 0 < length text.now }
    ensures value { result ≡ spec.turn text.now }
    ensures fits { spec.TurnFits text.now result }
{
    turn_at(opening_of(text), text)
}
