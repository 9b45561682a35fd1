//! Which bits expressions and targets name.

ghost use Rattle.std.specs.Prelude.{◌≡◌, ◌||◌};
ghost use Rattle.bit_exprs.specs.Named.{among, reads, certain_part, certain_bits, part_reads, target_reads};

use crate::forms::{Bit, Expr, Part, Target};

/// Whether a bit is one of these.
pub fn is_among(bits: &[Bit], bit: usize) -> bool
    ensures { result ≡ among bits.now bit }
{
    for b in bits {
        if *b as usize == bit {
            return true;
        }
    }
    false
}

fn either(a: bool, b: bool) -> bool
    ensures { result ≡ (a || b) }
{
    a || b
}

/// Whether an expression reads a bit; a select with an index reads its whole vector. It takes no memory, and a step for
/// each node and bit of the expression.
pub fn reads(expr: &Expr, bit: usize) -> bool
    ensures { result ≡ reads expr.now bit }
{
    match expr {
        Expr::Const { .. } => false,
        Expr::Read(bits) => is_among(bits.as_slice(), bit),
        Expr::Select {
            vector,
            window: _,
            index,
        } => {
            let i = reads(index.get(), bit);
            either(is_among(vector.as_slice(), bit), i)
        }
        Expr::Unary { op: _, value } => reads(value.get(), bit),
        Expr::Binary { op: _, left, right } => {
            let l = reads(left.get(), bit);
            let r = reads(right.get(), bit);
            either(l, r)
        }
        Expr::Choose { cond, yes, no } => {
            let c = reads(cond.get(), bit);
            let y = reads(yes.get(), bit);
            let n = reads(no.get(), bit);
            either(c, either(y, n))
        }
        Expr::Logical {
            and: _,
            chain: _,
            operands,
        } => {
            for operand in operands.as_slice() {
                if reads(operand, bit) {
                    return true;
                }
            }
            false
        }
    }
}

// Whether a part writes a bit whatever its index is.
fn is_certain_part(part: &Part, bit: usize) -> bool
    ensures { result ≡ among (certain_part part.now) bit }
{
    match part {
        Part::Bits(bits) => is_among(bits.as_slice(), bit),
        Part::Select { .. } => false,
        Part::Outside(_) => false,
    }
}

/// Whether a target writes a bit whatever its indices are.
pub fn is_certain(target: &Target, bit: usize) -> bool
    ensures { result ≡ among (certain_bits target.now) bit }
{
    for part in target.parts.as_slice() {
        if is_certain_part(part, bit) {
            return true;
        }
    }
    false
}

// Whether the index of a part reads a bit.
fn part_reads(part: &Part, bit: usize) -> bool
    ensures { result ≡ part_reads part.now bit }
{
    match part {
        Part::Bits(_) => false,
        Part::Select {
            vector: _,
            window: _,
            index,
        } => reads(index, bit),
        Part::Outside(_) => false,
    }
}

/// Whether an index of a target reads a bit.
pub fn target_reads(target: &Target, bit: usize) -> bool
    ensures { result ≡ target_reads target.now bit }
{
    for part in target.parts.as_slice() {
        if part_reads(part, bit) {
            return true;
        }
    }
    false
}
