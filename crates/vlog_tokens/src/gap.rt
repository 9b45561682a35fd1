ghost use Rattle.std.specs.Prelude.{◌≡◌, ◌≤◌, length, drop};
ghost use Rattle.std.specs.List.{prefix_len};
ghost use Rattle.vlog_tokens.specs.Bytes as class;
ghost use Rattle.vlog_tokens.specs.Gaps as spec;

use crate::bytes::is_blank;

/// What begins at a place of a text.
#[derive(Clone, Copy, Debug, PartialEq, Eq)]
pub enum Opening {
    /// A blank.
    Blank,
    /// A comment that goes to the end of its line.
    Line,
    /// A comment that goes to `*/`.
    Block,
    /// An attribute, which goes to `*)`.
    Attribute,
    /// Anything else: a token, if one begins here.
    Other,
}

/// Whether the text begins with the byte.
pub fn begins_with(byte: u8, text: &[u8]) -> bool
    ensures { result ≡ spec.begins_with byte text.now }
{
    match text {
        [first, ..] => *first == byte,
        [] => false,
    }
}

/// Whether the text begins with the two bytes.
pub fn begins_with_both(first: u8, second: u8, text: &[u8]) -> bool
    ensures { result ≡ spec.begins_with_both first second text.now }
{
    match text {
        [byte, more @ ..] => *byte == first && begins_with(second, more),
        [] => false,
    }
}

/// How many blanks stand at the front.
fn blanks(text: &[u8]) -> usize
    ensures value { result ≡ prefix_len class.is_blank text.now }
    ensures within { result ≤ length text.now }
{
    let mut end = 0;
    while end < text.len() && is_blank(text[end]) {
        end += 1;
    }
    end
}

/// What stands behind the blanks at the front.
fn behind_blanks(text: &[u8]) -> &[u8]
    ensures { result.now ≡ spec.behind_blanks text.now }
{
    text.split_at(blanks(text)).1
}

/// What stands behind the first two bytes.
#[tactic(auto, using(crate::proofs::Closing::short))]
pub fn behind_two(text: &[u8]) -> &[u8]
    ensures { result.now ≡ drop 2 text.now }
{
    if text.len() < 2 {
        return text.split_at(text.len()).1;
    }
    text.split_at(2).1
}

/// Whether an attribute begins: `(*`, unless `)` follows behind blanks.
fn opens_attribute(text: &[u8]) -> bool
    ensures { result ≡ spec.opens_attribute text.now }
{
    begins_with_both(b'(', b'*', text) && !begins_with(b')', behind_blanks(behind_two(text)))
}

/// What begins where no blank does.
fn opening_of_solid(text: &[u8]) -> Opening
    ensures { result ≡ spec.opening_of_solid text.now }
{
    if begins_with_both(b'/', b'/', text) {
        return Opening::Line;
    }
    if begins_with_both(b'/', b'*', text) {
        return Opening::Block;
    }
    if opens_attribute(text) {
        return Opening::Attribute;
    }
    Opening::Other
}

/// What begins where the text does.
pub fn opening_of(text: &[u8]) -> Opening
    ensures { result ≡ spec.opening text.now }
{
    match text {
        [first, ..] => {
            if is_blank(*first) {
                Opening::Blank
            } else {
                opening_of_solid(text)
            }
        }
        [] => Opening::Other,
    }
}

/// How many bytes at the front stand in the first line.
pub fn line_length(text: &[u8]) -> usize
    ensures value { result ≡ prefix_len spec.is_in_line text.now }
    ensures within { result ≤ length text.now }
{
    let mut end = 0;
    while end < text.len() && text[end] != b'\n' {
        end += 1;
    }
    end
}

/// How many bytes stand before the first two that are these. All of them where none are.
pub fn bytes_before(first: u8, second: u8, text: &[u8]) -> usize
    ensures value { result ≡ spec.bytes_before first second text.now }
    ensures within { result ≤ length text.now }
{
    let mut end = 0;
    while end < text.len() && !begins_with_both(first, second, &text[end..]) {
        end += 1;
    }
    end
}
