ghost use Rattle.std.specs.Prelude.{◌≡◌, ◌≤◌, ◌<◌, length};
ghost use Rattle.vlog_tokens.specs.Directives as spec;
ghost use Rattle.vlog_tokens.specs.Places.{start};

use crate::gap::{Opening, begins_with, line_length, opening_of};
use crate::place::{START, past};
use crate::turn::{Turn, close};
use word_core::Place;

/// What the search for a backquote does at a place of a text that isn't at its end.
#[derive(Clone, Copy, Debug, PartialEq, Eq)]
pub enum Scan {
    /// So many bytes are passed.
    Skip(usize),
    /// A backquote stands here.
    Quote,
    /// The rest of the text is in a comment.
    Rest,
}

/// What is done at a comment.
fn scan_of(turn: Turn) -> Scan
    ensures { result ≡ spec.scan_of turn }
{
    match turn {
        Turn::Pass(length) => Scan::Skip(length),
        Turn::Take(_) => Scan::Rest,
        Turn::NoEnd => Scan::Rest,
        Turn::NoValue => Scan::Rest,
        Turn::Nothing => Scan::Rest,
    }
}

/// What is done outside comments.
fn scan_byte(text: &[u8]) -> Scan
    ensures { result ≡ spec.scan_byte text.now }
{
    if begins_with(b'`', text) {
        Scan::Quote
    } else {
        Scan::Skip(1)
    }
}

/// What is done where this begins.
fn scan_at(opening: Opening, text: &[u8]) -> Scan
    ensures { result ≡ spec.scan_at opening text.now }
{
    match opening {
        Opening::Blank => scan_byte(text),
        Opening::Line => Scan::Skip(line_length(text)),
        Opening::Block => scan_of(close(b'*', b'/', text)),
        Opening::Attribute => scan_byte(text),
        Opening::Other => scan_byte(text),
    }
}

/// What is done where the text begins.
fn scan_text(text: &[u8]) -> Scan
    requires { 0 < length text.now }
    ensures value { result ≡ spec.scan text.now }
    ensures fits { spec.ScanFits text.now result }
{
    scan_at(opening_of(text), text)
}

/// The place of the first backquote outside comments, if there is one. The time is linear in the text.
pub fn first_backquote(text: &[u8]) -> Option<Place>
    requires { length text.now ≤ 4194304 }
    ensures { spec.Quotes start text.now result }
{
    let mut rest = text;
    let mut at = START;
    while let [_, ..] = rest {
        match scan_text(rest) {
            Scan::Skip(length) => {
                let (taken, behind) = rest.split_at(length);
                at = past(at, taken);
                rest = behind;
            }
            Scan::Quote => return Some(at),
            Scan::Rest => return None,
        }
    }
    None
}
