// Words that are equal to a number, and indices that name a place.

ghost use Rattle.std.specs.Prelude.{◌≡◌, ◌≤◌, ◌<◌, ◌^◌, ◌%◌, ◌==◌, cond, length, All, IfOk, IfSome};
ghost use Rattle.aig_core.specs.Graph.{negation, IsLiteral, IsWellFormed, Extends, Gives};
ghost use Rattle.word_blast.specs.Words.{word_value};
ghost use Rattle.bit_exprs.specs.Indices.{is_code, names_place};
ghost use Rattle.bit_exprs.specs.Formed.{IsWidth};
ghost use Rattle.expr_blast.specs.Circuits.{matched, equal_to, place_of};

use aig_core::{Aig, Memory, negated};
use bit_exprs::forms::Window;
use bit_exprs::indices::{code, index_at};
use std::alloc::Global;
use word_blast::blast_all;

// The literal, or its opposite where the number is even.
fn matching(literal: u32, number: u128) -> u32
    ensures { result ≡ cond (number % 2 == 1) literal (negation literal) }
{
    if number % 2 == 1 {
        literal
    } else {
        negated(literal)
    }
}

// The literals that are all 1 where the word is the number.
fn matched(alloc: Global, word: &[u32], number: u128) -> Result<Vec<u32>, Memory>
    ensures { IfOk result (λ r. r.items ≡ matched word.now number) }
{
    let mut literals = Vec::with_capacity(alloc, word.len())?;
    let mut rest = number;
    for literal in word {
        literals.push(matching(*literal, rest))?;
        rest /= 2;
    }
    Ok(literals)
}

/// The literal of the word's being the number, or 0 where there is none. The number fits into the word.
#[tactic(auto, using(aig_core::proofs::Values::keeping))]
pub fn equal_to(aig: &mut Aig, word: &[u32], number: Option<u128>) -> Result<u32, Memory>
    requires exists { All (IsLiteral aig.old) word.now }
    requires fits { IfSome number (λ j. j < 2 ^ length word.now) }
    ensures exact { IfOk result (λ r. (aig.new, r) ≡ equal_to aig.old word.now number) }
    ensures exists { IfOk result (IsLiteral aig.new) }
    ensures kept { Extends aig.old aig.new }
    ensures meaning { IfOk result (λ r. Gives aig.old aig.new r (λ leaves. is_code number (word_value aig.old leaves word.now))) }
{
    let alloc = aig.allocator();
    match number {
        Some(number) => {
            let literals = matched(alloc, word, number)?;
            let equal = blast_all(aig, &literals)?;
            Ok(equal[0])
        }
        None => Ok(0),
    }
}

/// The literal of the index's putting bit `k` of what a select selects at place `p` of its vector.
#[tactic(auto, using(aig_core::proofs::Values::keeping))]
pub fn place(
    aig: &mut Aig,
    window: Window,
    signed: bool,
    index: &[u32],
    k: u8,
    p: u64,
) -> Result<u32, Memory>
    requires some { 1 ≤ window.count }
    requires wide { IsWidth (length index.now) }
    requires place { p < 2 ^ 63 }
    requires index_exists { All (IsLiteral aig.old) index.now }
    ensures exact { IfOk result (λ r. (aig.new, r) ≡ place_of window signed index.now k p aig.old) }
    ensures exists { IfOk result (IsLiteral aig.new) }
    ensures kept { Extends aig.old aig.new }
    ensures meaning { IfOk result (λ r. Gives aig.old aig.new r (λ leaves. names_place window (length index.now) signed (word_value aig.old leaves index.now) k p)) }
{
    let at = index_at(window, k, p);
    let number = code(index.len() as u8, signed, at);
    let literal = equal_to(aig, index, number)?;
    Ok(literal)
}
