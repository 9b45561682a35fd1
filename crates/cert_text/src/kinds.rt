//! The kinds of cover points, by the letters that name them.

ghost use Rattle.std.specs.Prelude.{◌≡◌, ◌++◌, codes, OnOk};
ghost use Rattle.line_text.specs.Lines.{words, line_text};
ghost use Rattle.line_text.specs.Reading.{Gives, line_by};
ghost use Rattle.line_text.specs.Tagged.{tagged};
ghost use Rattle.cert_text.specs.Kinds.{letter_of, kinds_word, kinds_named, kinds_of, kinds_line_of};

use design_core::setup::Kinds;
use line_text::{LineError, Lines, behind};
use std::alloc::AllocError;

/// Statements, branch arms, or both.
fn kinds_named(s: bool, b: bool) -> Kinds
    ensures { result ≡ kinds_named s b }
{
    Kinds {
        s,
        b,
        r: false,
        t: false,
        f: false,
    }
}

/// The kinds that a word names by their letters: `s` statements, `b` branch arms, `sb` both. Others aren't built yet.
pub fn kinds_of(word: &[u8]) -> Option<Kinds>
    ensures { result ≡ kinds_of word.now }
{
    match word {
        b"s" => Some(kinds_named(true, false)),
        b"b" => Some(kinds_named(false, true)),
        b"sb" => Some(kinds_named(true, true)),
        _ => None,
    }
}

fn tagged_kinds(tag: &[u8], line: &[u8]) -> Option<Kinds>
    ensures { result ≡ kinds_line_of tag.now (words line.now) }
{
    kinds_of(behind(tag, line)?)
}

/// Reads a line that is a tag and the letters of kinds.
pub fn kinds_line(tag: &[u8], lines: &mut Lines<'_>) -> Result<Kinds, LineError>
    ensures { Gives (λ x. x) lines.new result (line_by (kinds_line_of tag.now) lines.old) }
{
    let at = lines.line();
    let line = lines.next()?;
    match tagged_kinds(tag, line) {
        Some(kinds) => Ok(kinds),
        None => Err(LineError::BadLine { line: at }),
    }
}

fn put_letter(out: &mut Vec<u8>, chosen: bool, letter: &[u8]) -> Result<(), AllocError>
    ensures { OnOk result (out.new.items ≡ out.old.items ++ letter_of chosen letter.now) }
{
    if chosen {
        out.extend_from_slice(letter)?;
    }
    Ok(())
}

/// Appends the letters of kinds.
fn put_letters(out: &mut Vec<u8>, kinds: &Kinds) -> Result<(), AllocError>
    ensures { OnOk result (out.new.items ≡ out.old.items ++ kinds_word kinds.now) }
{
    put_letter(out, kinds.s, b"s")?;
    put_letter(out, kinds.b, b"b")?;
    put_letter(out, kinds.r, b"r")?;
    put_letter(out, kinds.t, b"t")?;
    put_letter(out, kinds.f, b"f")?;
    Ok(())
}

/// Appends the line that is a tag and the letters of kinds.
pub fn put_kinds(out: &mut Vec<u8>, tag: &[u8], kinds: &Kinds) -> Result<(), AllocError>
    ensures { OnOk result (out.new.items ≡ out.old.items ++ line_text (tagged tag.now (kinds_word kinds.now))) }
{
    out.extend_from_slice(tag)?;
    out.push(b' ')?;
    put_letters(out, kinds)?;
    out.push(b'\n')?;
    Ok(())
}
