//! Ladders, written: lemmas with named literals, and the proofs.

ghost use Rattle.std.specs.Prelude.{◌≡◌, ◌++◌, ◌∷◌, [], map, length, codes, decimal, OnOk};
ghost use Rattle.std.specs.List.{flat_map};
ghost use Rattle.bit_system.specs.ProofLines.{seen};
ghost use Rattle.line_text.specs.Lines.{line_text, text_of};
ghost use Rattle.cert_text.specs.Spelling.{added, lit_word, level_word, lemma_line, proof_line, all_added, proof_lines, step_lines, hit_lines, ladder_lines};

use crate::cert::{NamedLadder, NamedLemma, NamedLit};
use crate::put::put_number;
use bit_system::{Depth, Proof};
use cnf_core::Line;
use proof_lines::write_lrat;
use std::alloc::{AllocError, Global};

// How many literals a line of a proof adds.
fn added(line: &Line) -> u64
    ensures { result ≡ added (seen line.now) }
{
    match line {
        Line::Add { lits, .. } => lits.len() as u64,
        Line::Delete { .. } => 0,
    }
}

// A space, and a state bit's name with its sign.
fn put_lit(out: &mut Vec<u8>, lit: &NamedLit) -> Result<(), AllocError>
    ensures { OnOk result (out.new.items ≡ out.old.items ++ 32 ∷ lit_word lit.now) }
{
    out.push(b' ')?;
    if !lit.positive {
        out.push(b'-')?;
    }
    out.extend_from_slice(lit.name.bytes())?;
    Ok(())
}

fn put_lits(out: &mut Vec<u8>, lits: &[NamedLit]) -> Result<(), AllocError>
    ensures { OnOk result (out.new.items ≡ out.old.items ++ flat_map (λ l. 32 ∷ lit_word l) lits.now) }
{
    for lit in lits {
        put_lit(out, lit)?;
    }
    Ok(())
}

fn put_level(out: &mut Vec<u8>, level: Depth) -> Result<(), AllocError>
    ensures { OnOk result (out.new.items ≡ out.old.items ++ level_word level) }
{
    match level {
        Depth::All => out.extend_from_slice(b"all")?,
        Depth::Steps(steps) => put_number(out, u128::from(steps))?,
    }
    Ok(())
}

fn put_lemma_words(out: &mut Vec<u8>, lemma: &NamedLemma) -> Result<(), AllocError>
    ensures { OnOk result (out.new.items ≡ out.old.items ++ (codes "l " ++ (level_word lemma.now.level ++ flat_map (λ l. 32 ∷ lit_word l) lemma.now.lits) ++ 10 ∷ [])) }
{
    out.extend_from_slice(b"l ")?;
    put_level(out, lemma.level)?;
    put_lits(out, lemma.lits.as_slice())?;
    out.push(b'\n')?;
    Ok(())
}

fn put_lemma(out: &mut Vec<u8>, lemma: &NamedLemma) -> Result<(), AllocError>
    ensures { OnOk result (out.new.items ≡ out.old.items ++ line_text (lemma_line lemma.now)) }
{
    put_lemma_words(out, lemma)
}

fn put_lemmas(out: &mut Vec<u8>, lemmas: &[NamedLemma]) -> Result<(), AllocError>
    ensures { OnOk result (out.new.items ≡ out.old.items ++ text_of (map lemma_line lemmas.now)) }
{
    for lemma in lemmas {
        put_lemma(out, lemma)?;
    }
    Ok(())
}

// How many literals lines of a proof add. A line adds less than 2^64, and there are fewer lines than that.
fn all_added(lines: &[Line]) -> u128
    ensures { result ≡ all_added (map seen lines.now) }
{
    let mut count = 0;
    for line in lines {
        count += u128::from(added(line));
    }
    count
}

fn put_proof_lines(alloc: Global, out: &mut Vec<u8>, lines: &[Line]) -> Result<(), AllocError>
    ensures { OnOk result (out.new.items ≡ out.old.items ++ text_of (map proof_line (map seen lines.now))) }
{
    let text = write_lrat(alloc, lines)?;
    out.extend_from_slice(text.as_slice())?;
    Ok(())
}

// The end of a head, with how many lines follow and how many literals they add, and these lines.
fn put_behind_head(alloc: Global, out: &mut Vec<u8>, lines: &[Line]) -> Result<(), AllocError>
    ensures { OnOk result (out.new.items ≡ out.old.items ++ 32 ∷ decimal (length (map seen lines.now)) ++ 32 ∷ decimal (all_added (map seen lines.now)) ++ 10 ∷ text_of (map proof_line (map seen lines.now))) }
{
    out.push(b' ')?;
    put_number(out, lines.len() as u128)?;
    out.push(b' ')?;
    put_number(out, all_added(lines))?;
    out.push(b'\n')?;
    put_proof_lines(alloc, out, lines)?;
    Ok(())
}

fn put_step(alloc: Global, out: &mut Vec<u8>, i: u128, proof: &Proof) -> Result<(), AllocError>
    ensures { OnOk result (out.new.items ≡ out.old.items ++ text_of (proof_lines (codes "step" ∷ decimal i ∷ []) proof.now)) }
{
    out.extend_from_slice(b"step ")?;
    put_number(out, i)?;
    put_behind_head(alloc, out, proof.lines())?;
    Ok(())
}

fn put_steps(alloc: Global, out: &mut Vec<u8>, steps: &[Proof]) -> Result<(), AllocError>
    ensures { OnOk result (out.new.items ≡ out.old.items ++ text_of (step_lines 1 steps.now)) }
{
    for (i, step) in steps.iter().enumerate() {
        put_step(alloc, out, i as u128 + 1, step)?;
    }
    Ok(())
}

fn put_hit(alloc: Global, out: &mut Vec<u8>, hit: &Option<Proof>) -> Result<(), AllocError>
    ensures { OnOk result (out.new.items ≡ out.old.items ++ text_of (hit_lines hit.now)) }
{
    match hit {
        Some(proof) => {
            out.extend_from_slice(b"hit")?;
            put_behind_head(alloc, out, proof.lines())?;
        }
        None => {}
    }
    Ok(())
}

/// Appends the lines of a ladder, up to its line `end`.
pub fn put_ladder(alloc: Global, out: &mut Vec<u8>, ladder: &NamedLadder) -> Result<(), AllocError>
    ensures { OnOk result (out.new.items ≡ out.old.items ++ text_of (ladder_lines ladder.now)) }
{
    put_lemmas(out, ladder.lemmas.as_slice())?;
    put_steps(alloc, out, ladder.steps.as_slice())?;
    put_hit(alloc, out, &ladder.hit)?;
    out.extend_from_slice(b"end\n")?;
    Ok(())
}
