//! Lists of bits as words: characters 0 and 1, or `-` where the list is empty.

ghost use Rattle.std.specs.Prelude.{◌≡◌, [], IfOk};
ghost use Rattle.line_text.specs.Lines.{words};
ghost use Rattle.line_text.specs.Reading.{Gives, line_by};
ghost use Rattle.cert_text.specs.Certs.{bit_of, bits_after, bits_of, bits_line_of};

use line_text::{LineError, Lines, behind};
use sqlite_items::Items;
use std::alloc::{AllocError, Global};

fn bit(byte: u8) -> Option<bool>
    ensures { result ≡ bit_of byte }
{
    match byte {
        b'0' => Some(false),
        b'1' => Some(true),
        _ => None,
    }
}

fn bits_after(alloc: Global, word: &[u8]) -> Result<Option<Items<bool>>, AllocError>
    ensures { IfOk result (λ b. b ≡ bits_after [] word.now) }
{
    let mut bits = Items::new(alloc);
    let mut rest = word;
    while let [byte, after @ ..] = rest {
        let Some(bit) = bit(*byte) else {
            return Ok(None);
        };
        bits.push(bit)?;
        rest = after;
    }
    Ok(Some(bits))
}

fn bits(alloc: Global, word: &[u8]) -> Result<Option<Items<bool>>, AllocError>
    ensures { IfOk result (λ b. b ≡ bits_of word.now) }
{
    if word == b"-".as_slice() {
        return Ok(Some(Items::new(alloc)));
    }
    if word.is_empty() {
        return Ok(None);
    }
    bits_after(alloc, word)
}

/// The bits behind a tag.
pub fn tagged_bits(
    alloc: Global,
    tag: &[u8],
    line: &[u8],
) -> Result<Option<Items<bool>>, AllocError>
    ensures { IfOk result (λ b. b ≡ bits_line_of tag.now (words line.now)) }
{
    match behind(tag, line) {
        Some(word) => bits(alloc, word),
        None => Ok(None),
    }
}

/// Reads a line that is a tag and bits.
pub fn bits_line(alloc: Global, tag: &[u8], lines: &mut Lines<'_>) -> Result<Items<bool>, LineError>
    ensures { Gives (λ x. x) lines.new result (line_by (bits_line_of tag.now) lines.old) }
{
    let at = lines.line();
    let line = lines.next()?;
    match tagged_bits(alloc, tag, line)? {
        Some(bits) => Ok(bits),
        None => Err(LineError::BadLine { line: at }),
    }
}
