// Words that take no gates.

ghost use Rattle.std.specs.Prelude.{◌≡◌, ◌≤◌, ◌<◌, ◌*◌, [], ◌∷◌, ◌++◌, length, map, cond, All, IfOk};
ghost use Rattle.word_core.specs.Words.{bits_of};
ghost use Rattle.word_blast.specs.Words.{top_literal};
ghost use Rattle.expr_blast.specs.Circuits.{constant, literal_at, extended, copies};

use aig_core::Memory;
use bit_exprs::forms::Bit;
use std::alloc::Global;
use word_core::Word;

/// The literal of a constant bit.
pub fn constant(on: bool) -> u32
    ensures { result ≡ constant on }
{
    if on { 1 } else { 0 }
}

/// The literals of a constant word.
pub fn constants(alloc: Global, word: Word) -> Result<Vec<u32>, Memory>
    ensures { IfOk result (λ r. r.items ≡ map constant (bits_of word.width word.bits)) }
{
    let mut literals = Vec::with_capacity(alloc, word.width as usize)?;
    let mut rest = word.bits;
    for _ in 0..word.width {
        literals.push(constant(rest % 2 == 1))?;
        rest /= 2;
    }
    Ok(literals)
}

/// The literals of some bits.
pub fn picked(alloc: Global, literals: &[u32], bits: &[Bit]) -> Result<Vec<u32>, Memory>
    requires { All (λ b. b < length literals.now) bits.now }
    ensures { IfOk result (λ r. r.items ≡ map (literal_at literals.now) bits.now) }
{
    let mut picked = Vec::with_capacity(alloc, bits.len())?;
    for bit in bits {
        picked.push(literals[*bit as usize])?;
    }
    Ok(picked)
}

// The literal that a word goes on with.
fn fill(word: &[u32], signed: bool) -> u32
    requires { 1 ≤ length word.now }
    ensures { result ≡ cond signed (top_literal word.now) 0 }
{
    if signed { word[word.len() - 1] } else { 0 }
}

/// The word brought to a width that is not narrower, by its sign or by zeros.
pub fn extended(alloc: Global, word: &[u32], width: u8, signed: bool) -> Result<Vec<u32>, Memory>
    requires some { 1 ≤ length word.now }
    requires room { length word.now ≤ width }
    ensures { IfOk result (λ r. r.items ≡ extended width signed word.now) }
{
    let more = vec![in alloc; fill(word, signed); width as usize - word.len()]?;
    let literals = joined(alloc, word, &more)?;
    Ok(literals)
}

/// The word so many times side by side.
pub fn copies(alloc: Global, word: &[u32], count: u8) -> Result<Vec<u32>, Memory>
    ensures { IfOk result (λ r. r.items ≡ copies count word.now) }
{
    let mut literals = Vec::new(alloc);
    for _ in 0..count {
        literals.extend_from_slice(word)?;
    }
    Ok(literals)
}

/// The one word above the other.
pub fn joined(alloc: Global, low: &[u32], high: &[u32]) -> Result<Vec<u32>, Memory>
    ensures { IfOk result (λ r. r.items ≡ low.now ++ high.now) }
{
    let mut literals = Vec::from_slice(alloc, low)?;
    literals.extend_from_slice(high)?;
    Ok(literals)
}

/// A word of one literal.
pub fn single(alloc: Global, literal: u32) -> Result<Vec<u32>, Memory>
    ensures { IfOk result (λ r. r.items ≡ literal ∷ []) }
{
    let literals = vec![in alloc; literal]?;
    Ok(literals)
}
