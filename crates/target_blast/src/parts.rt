// Writes to the parts of targets.

ghost use Rattle.std.specs.Prelude.{◌≡◌, ◌<◌, ◌≤◌, length, All, OnOk};
ghost use Rattle.aig_core.specs.Graph.{IsLiteral, Extends};
ghost use Rattle.bit_exprs.specs.Formed.{PartFormed};
ghost use Rattle.bit_exprs.specs.Updates.{part_width, target_width};
ghost use Rattle.target_blast.specs.Writes.{index_width, replaced, put_part};

use crate::selects::{Selector, put_selected};
use aig_core::{Aig, Memory};
use bit_exprs::forms::{Bit, Part, Target};
use bit_exprs::signs::is_signed;

/// How many literals of a value a part takes.
pub fn part_width(part: &Part) -> usize
    ensures { result ≡ part_width part.now }
{
    match part {
        Part::Bits(bits) => bits.len(),
        Part::Select { window, .. } => window.count as usize,
        Part::Outside(count) => *count as usize,
    }
}

/// How many literals of a value a target takes.
#[tactic(auto, using(crate::proofs::Steps::widths))]
pub fn target_width(target: &Target) -> usize
    requires { target_width target.now ≤ 128 }
    ensures { result ≡ target_width target.now }
{
    let mut total = 0;
    for part in target.parts.as_slice() {
        total += part_width(part);
    }
    total
}

// Replaces the literals of bits by those of a word.
fn replace(bits: &[Bit], word: &[u32], targets: &mut [u32])
    requires within { All (λ b. b < length targets.old) bits.now }
    requires width { length word.now ≡ length bits.now }
    ensures exact { targets.new ≡ replaced bits.now word.now targets.old }
    ensures long { length targets.new ≡ length targets.old }
{
    for (k, bit) in bits.iter().enumerate() {
        targets[*bit as usize] = word[k];
    }
}

/// Writes a word to a part, whose index is given.
#[tactic(auto, using(aig_core::proofs::Values::keeping, crate::proofs::Steps::growing))]
pub fn put_part(
    aig: &mut Aig,
    part: &Part,
    index: &[u32],
    word: &[u32],
    targets: &mut [u32],
) -> Result<(), Memory>
    requires formed { PartFormed part.now (length targets.old) }
    requires index_width { length index.now ≡ index_width part.now }
    requires width { length word.now ≡ part_width part.now }
    requires index_exists { All (IsLiteral aig.old) index.now }
    requires word_exists { All (IsLiteral aig.old) word.now }
    requires targets_exist { All (IsLiteral aig.old) targets.old }
    ensures exact { OnOk result ((aig.new, targets.new) ≡ put_part part.now index.now word.now aig.old targets.old) }
    ensures exist { OnOk result (All (IsLiteral aig.new) targets.new) }
    ensures long { length targets.new ≡ length targets.old }
    ensures kept { Extends aig.old aig.new }
{
    match part {
        Part::Bits(bits) => {
            replace(bits.as_slice(), word, targets);
            Ok(())
        }
        Part::Select {
            vector,
            window,
            index: expr,
        } => {
            let selector = Selector {
                window: *window,
                signed: is_signed(expr),
            };
            put_selected(aig, selector, index, vector.as_slice(), word, targets)
        }
        Part::Outside(_) => Ok(()),
    }
}
