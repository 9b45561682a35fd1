//! Proof lines, written as text.
ghost use Rattle.std.specs.Prelude.{◌≡◌, ◌++◌, ◌∷◌, [], map, decimal, OnOk, IfOk};
ghost use Rattle.line_text.specs.Lines.{line_text};
ghost use Rattle.proof_lines.specs.Spelling.{plain, literal_word, addition_words, deletion_words, line_words, spelling};
ghost use Rattle.proof_lines.specs.Spaced.{spaced, addition_text, deletion_text};

use cnf_core::{Line, Lit};
use itoa::Buffer;
use std::alloc::{AllocError, Global};

fn put_number(out: &mut Vec<u8>, n: u64) -> Result<(), AllocError>
    ensures { OnOk result (out.new.items ≡ out.old.items ++ decimal n) }
{
    let mut buffer = Buffer::new();
    out.extend_from_slice(buffer.format(n).as_bytes())?;
    Ok(())
}

fn put_literal(out: &mut Vec<u8>, literal: Lit) -> Result<(), AllocError>
    ensures { OnOk result (out.new.items ≡ out.old.items ++ literal_word literal) }
{
    if !literal.is_positive() {
        out.push(b'-')?;
    }
    put_number(out, u64::from(literal.variable()))?;
    Ok(())
}

/// Each literal, and a space behind it.
fn put_literals(out: &mut Vec<u8>, lits: &[Lit]) -> Result<(), AllocError>
    ensures { OnOk result (out.new.items ≡ out.old.items ++ spaced (map literal_word lits.now)) }
{
    for literal in lits {
        put_literal(out, *literal)?;
        out.push(b' ')?;
    }
    Ok(())
}

/// Each number, and a space behind it.
fn put_numbers(out: &mut Vec<u8>, numbers: &[u64]) -> Result<(), AllocError>
    ensures { OnOk result (out.new.items ≡ out.old.items ++ spaced (map decimal numbers.now)) }
{
    for number in numbers {
        put_number(out, *number)?;
        out.push(b' ')?;
    }
    Ok(())
}

fn put_addition_words(
    out: &mut Vec<u8>,
    id: u64,
    lits: &[Lit],
    hints: &[u64],
) -> Result<(), AllocError>
    ensures { OnOk result (out.new.items ≡ out.old.items ++ addition_text id lits.now hints.now) }
{
    put_number(out, id)?;
    out.push(b' ')?;
    put_literals(out, lits)?;
    out.extend_from_slice(b"0 ")?;
    put_numbers(out, hints)?;
    out.extend_from_slice(b"0\n")?;
    Ok(())
}

/// The line of an addition.
pub fn put_addition(
    out: &mut Vec<u8>,
    id: u64,
    lits: &[Lit],
    hints: &[u64],
) -> Result<(), AllocError>
    ensures { OnOk result (out.new.items ≡ out.old.items ++ line_text (addition_words id lits.now hints.now)) }
{
    put_addition_words(out, id, lits, hints)
}

fn put_deletion_words(out: &mut Vec<u8>, id: u64, ids: &[u64]) -> Result<(), AllocError>
    ensures { OnOk result (out.new.items ≡ out.old.items ++ deletion_text id ids.now) }
{
    put_number(out, id)?;
    out.extend_from_slice(b" d ")?;
    put_numbers(out, ids)?;
    out.extend_from_slice(b"0\n")?;
    Ok(())
}

/// The line of a deletion.
pub fn put_deletion(out: &mut Vec<u8>, id: u64, ids: &[u64]) -> Result<(), AllocError>
    ensures { OnOk result (out.new.items ≡ out.old.items ++ line_text (deletion_words id ids.now)) }
{
    put_deletion_words(out, id, ids)
}

fn put_line(out: &mut Vec<u8>, line: &Line) -> Result<(), AllocError>
    ensures { OnOk result (out.new.items ≡ out.old.items ++ line_text (line_words (plain line.now))) }
{
    match line {
        Line::Add { id, lits, hints } => put_addition(out, *id, lits, hints.as_slice()),
        Line::Delete { id, ids } => put_deletion(out, *id, ids.as_slice()),
    }
}

/// The text of proof lines: LRAT, without RAT. A line takes time in its literals and hints.
///
/// It is read back where the numbers of the lines are in the range that the format has.
pub fn write_lrat(alloc: Global, lines: &[Line]) -> Result<Vec<u8>, AllocError>
    ensures { IfOk result (λ text. text.items ≡ spelling (map plain lines.now)) }
{
    let mut out = Vec::new(alloc);
    for line in lines {
        put_line(&mut out, line)?;
    }
    Ok(out)
}
