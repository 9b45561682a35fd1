// Reading bits, and selects of vectors.

ghost use Rattle.std.specs.Prelude.{◌≡◌, ◌≤◌, ◌<◌, ◌+◌, ◌-◌, ◌^◌, ◌&&◌, length, map};
ghost use Rattle.word_core.specs.Words.{number_of};
ghost use Rattle.bit_exprs.specs.Values.{bit_at, bit_where, selected, listed};
ghost use Rattle.bit_exprs.specs.Indices.{names_place};
ghost use Rattle.bit_exprs.specs.Formed.{AreBits, IsWidth};

use crate::operators::flag;
use bit_exprs::forms::{Bit, Window};
use bit_exprs::indices::{code, index_at};
use word_core::Word;

/// Whether the index is the one at which bit `k` of what is selected stands at place `p`. It takes no memory.
pub fn names(window: Window, at: Word, signed: bool, k: u8, p: u64) -> bool
    requires some { 1 ≤ window.count }
    requires place { p < 2 ^ 63 }
    ensures { result ≡ names_place window at.width signed at.bits k p }
{
    let index = index_at(window, k, p);
    match code(at.width, signed, index) {
        Some(code) => code == at.bits,
        None => false,
    }
}

// The same, and the vector's bit there is 1.
fn shows(window: Window, at: Word, signed: bool, k: u8, p: u64, bit: bool) -> bool
    requires some { 1 ≤ window.count }
    requires place { p < 2 ^ 63 }
    ensures { result ≡ (names_place window at.width signed at.bits k p && bit) }
{
    names(window, at, signed, k, p) && bit
}

// Bit `k` of what is selected. It takes a step for each bit of the vector.
#[tactic(auto, using(crate::proofs::Loops::where_more, crate::proofs::Loops::where_found, crate::proofs::Loops::where_none))]
fn selected_bit(
    vector: &[Bit],
    window: Window,
    at: Word,
    signed: bool,
    k: u8,
    values: &[bool],
) -> bool
    requires some { 1 ≤ window.count }
    requires exist { AreBits (length values.now) vector.now }
    ensures { result ≡ bit_where (names_place window at.width signed at.bits k) 0 (map (bit_at values.now) vector.now) }
{
    for p in 0..vector.len() {
        let bit = values[vector[p] as usize];
        if shows(window, at, signed, k, p as u64, bit) {
            return true;
        }
    }
    false
}

/// What is selected of the vector by the index, a word with or without a sign. It takes no memory, and a step for each
/// bit of the vector and bit selected.
pub fn select(vector: &[Bit], window: Window, at: Word, signed: bool, values: &[bool]) -> Word
    requires wide { IsWidth window.count }
    requires exist { AreBits (length values.now) vector.now }
    ensures width { result.width ≡ window.count }
    ensures bits { result.bits ≡ selected window (map (bit_at values.now) vector.now) at.width signed at.bits }
{
    let mut from = window.count - 1;
    let mut word = flag(selected_bit(vector, window, at, signed, from, values));
    while from > 0 {
        from -= 1;
        word = word.join(flag(selected_bit(vector, window, at, signed, from, values)));
    }
    word
}

/// The word of some bits. It takes no memory.
pub fn read(bits: &[Bit], values: &[bool]) -> Word
    requires { AreBits (length values.now) bits.now }
    ensures width { result.width ≡ length bits.now }
    ensures bits { result.bits ≡ number_of (map (bit_at values.now) bits.now) }
{
    let mut from = bits.len() - 1;
    let mut word = flag(values[bits[from] as usize]);
    while from > 0 {
        from -= 1;
        word = word.join(flag(values[bits[from] as usize]));
    }
    word
}
