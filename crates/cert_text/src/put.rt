//! Lines of a tag and a word, and of bits, written.

ghost use Rattle.std.specs.Prelude.{◌≡◌, ◌++◌, map, codes, decimal, OnOk};
ghost use Rattle.line_text.specs.Lines.{line_text, text_of};
ghost use Rattle.line_text.specs.Tagged.{tagged};
ghost use Rattle.cert_text.specs.Spelling.{bit, bits_word};

use itoa::Buffer;
use sqlite_items::Items;
use std::alloc::AllocError;

/// Appends a number in decimal digits.
pub fn put_number(out: &mut Vec<u8>, n: u128) -> Result<(), AllocError>
    ensures { OnOk result (out.new.items ≡ out.old.items ++ decimal n) }
{
    let mut buffer = Buffer::new();
    out.extend_from_slice(buffer.format(n).as_bytes())?;
    Ok(())
}

/// Appends the line that is a tag and a word.
pub fn put_tagged(out: &mut Vec<u8>, tag: &[u8], word: &[u8]) -> Result<(), AllocError>
    ensures { OnOk result (out.new.items ≡ out.old.items ++ line_text (tagged tag.now word.now)) }
{
    out.extend_from_slice(tag)?;
    out.push(b' ')?;
    out.extend_from_slice(word)?;
    out.push(b'\n')?;
    Ok(())
}

/// Appends the line that is a tag and a number.
pub fn put_numbered(out: &mut Vec<u8>, tag: &[u8], n: u128) -> Result<(), AllocError>
    ensures { OnOk result (out.new.items ≡ out.old.items ++ line_text (tagged tag.now (decimal n))) }
{
    out.extend_from_slice(tag)?;
    out.push(b' ')?;
    put_number(out, n)?;
    out.push(b'\n')?;
    Ok(())
}

fn put_each_bit(out: &mut Vec<u8>, bits: &[bool]) -> Result<(), AllocError>
    ensures { OnOk result (out.new.items ≡ out.old.items ++ map bit bits.now) }
{
    for b in bits {
        out.push(if *b { b'1' } else { b'0' })?;
    }
    Ok(())
}

fn put_bits_word(out: &mut Vec<u8>, bits: &[bool]) -> Result<(), AllocError>
    ensures { OnOk result (out.new.items ≡ out.old.items ++ bits_word bits.now) }
{
    match bits {
        [] => out.push(b'-')?,
        [_, ..] => put_each_bit(out, bits)?,
    }
    Ok(())
}

/// Appends the line that is a tag and bits.
pub fn put_bits(out: &mut Vec<u8>, tag: &[u8], bits: &[bool]) -> Result<(), AllocError>
    ensures { OnOk result (out.new.items ≡ out.old.items ++ line_text (tagged tag.now (bits_word bits.now))) }
{
    out.extend_from_slice(tag)?;
    out.push(b' ')?;
    put_bits_word(out, bits)?;
    out.push(b'\n')?;
    Ok(())
}

/// Appends the lines of the inputs' values, a line for each cycle.
pub fn put_inputs(out: &mut Vec<u8>, inputs: &[Items<bool>]) -> Result<(), AllocError>
    ensures { OnOk result (out.new.items ≡ out.old.items ++ text_of (map (λ b. tagged (codes "in") (bits_word b)) inputs.now)) }
{
    for input in inputs {
        put_bits(out, b"in", input.as_slice())?;
    }
    Ok(())
}
