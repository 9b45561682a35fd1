// Assignments to targets.

ghost use Rattle.std.specs.Prelude.{◌≡◌, ◌≤◌, ◌<◌, cond, [], ◌∷◌, length, map, All};
ghost use Rattle.word_core.specs.Words.{bits_of};
ghost use Rattle.bit_exprs.specs.Values.{bit_at};
ghost use Rattle.bit_exprs.specs.Indices.{names_place};
ghost use Rattle.bit_exprs.specs.Formed.{AreBits, IsWidth, PartFormed, TargetFormed};
ghost use Rattle.bit_exprs.specs.Named.{part_bits, target_bits};
ghost use Rattle.bit_exprs.specs.Updates.{part_width, target_width, written, written_where, selected_updates, part_updates, updates_of, perform};

use crate::evaluate::value;
use crate::selects::names;
use bit_exprs::forms::{Bit, Part, Target, Window};
use bit_exprs::signs::is_signed;
use word_core::Word;

// Writes the low bits of a number into some bits.
fn write_bits(bits: &[Bit], number: u128, out: &mut [bool])
    requires { All (λ b. b < length out.old) bits.now }
    ensures { out.new ≡ perform (written bits.now (bits_of (length bits.now) number)) out.old }
{
    let mut rest = number;
    for bit in bits {
        out[*bit as usize] = rest % 2 == 1;
        rest /= 2;
    }
}

// Gives the bit this value where the test holds.
fn put_if(holds: bool, bit: Bit, value: bool, out: &mut [bool])
    requires { bit < length out.old }
    ensures { out.new ≡ perform (cond holds ((bit, value) ∷ []) []) out.old }
{
    if holds {
        out[bit as usize] = value;
    }
}

// Writes the bit at each place of the vector at which the index names bit `k` of what is selected.
fn write_place(
    vector: &[Bit],
    window: Window,
    at: Word,
    signed: bool,
    k: u8,
    bit: bool,
    out: &mut [bool],
)
    requires some { 1 ≤ window.count }
    requires exist { AreBits (length out.old) vector.now }
    ensures { out.new ≡ perform (written_where (names_place window at.width signed at.bits k) 0 vector.now bit) out.old }
{
    for p in 0..vector.len() {
        put_if(names(window, at, signed, k, p as u64), vector[p], bit, out);
    }
}

// Writes the low bits of a number into what the index selects of the vector.
fn write_selected(
    vector: &[Bit],
    window: Window,
    at: Word,
    signed: bool,
    number: u128,
    out: &mut [bool],
)
    requires wide { IsWidth window.count }
    requires exist { AreBits (length out.old) vector.now }
    ensures { out.new ≡ perform (selected_updates window vector.now at.width signed at.bits 0 (bits_of window.count number)) out.old }
{
    let mut rest = number;
    for k in 0..window.count {
        write_place(vector, window, at, signed, k, rest % 2 == 1, out);
        rest /= 2;
    }
}

// Writes the low bits of a number into a part of a target.
fn write_part(part: &Part, number: u128, values: &[bool], out: &mut [bool])
    requires formed { PartFormed part.now (length values.now) }
    requires long { length out.old ≡ length values.now }
    ensures { out.new ≡ perform (part_updates part.now (bits_of (part_width part.now) number) values.now) out.old }
{
    match part {
        Part::Bits(bits) => write_bits(bits.as_slice(), number, out),
        Part::Select {
            vector,
            window,
            index,
        } => {
            let at = value(index, values);
            let signed = is_signed(index);
            write_selected(vector.as_slice(), *window, at, signed, number, out);
        }
        Part::Outside(_) => {}
    }
}

/// How many places a part of a target has.
pub fn part_places(part: &Part) -> u8
    requires { part_width part.now ≤ 128 }
    ensures { result ≡ part_width part.now }
{
    match part {
        Part::Bits(bits) => bits.len() as u8,
        Part::Select {
            vector: _,
            window,
            index: _,
        } => window.count,
        Part::Outside(count) => *count,
    }
}

/// How many places a target has.
pub fn target_places(target: &Target) -> u8
    requires { target_width target.now ≤ 128 }
    ensures { result ≡ target_width target.now }
{
    let mut all = 0;
    for part in target.parts.as_slice() {
        all += part_places(part);
    }
    all
}

/// Performs an assignment of the value to the target: writes its bits, where the indices of the target have the values
/// `values`, into `out`. What an index names outside its vector is not written. A wider value is cut to the target,
/// and a narrower one goes on with zeros.
///
/// It takes no memory. It takes a step for each bit that is written, and for a select one for each bit of its vector
/// and bit selected.
pub fn write(target: &Target, value: Word, values: &[bool], out: &mut [bool])
    requires formed { TargetFormed target.now (length values.now) }
    requires long { length out.old ≡ length values.now }
    ensures { out.new ≡ perform (updates_of target.now value.bits values.now) out.old }
{
    let mut left = target_places(target);
    for part in target.parts.as_slice() {
        left -= part_places(part);
        write_part(part, value.bits >> left, values, out);
    }
}

/// The bits that a part of a target may write.
pub fn named(part: &Part) -> &[Bit]
    ensures { result.now ≡ part_bits part.now }
{
    match part {
        Part::Bits(bits) => bits.as_slice(),
        Part::Select {
            vector,
            window: _,
            index: _,
        } => vector.as_slice(),
        Part::Outside(_) => &[],
    }
}

// Copies some bits.
fn copy(bits: &[Bit], from: &[bool], to: &mut [bool])
    requires from { All (λ b. b < length from.now) bits.now }
    requires to { All (λ b. b < length to.old) bits.now }
    ensures { to.new ≡ perform (written bits.now (map (bit_at from.now) bits.now)) to.old }
{
    for bit in bits {
        to[*bit as usize] = from[*bit as usize];
    }
}

// Copies the bits that the target may write.
fn copy_named(target: &Target, from: &[bool], to: &mut [bool])
    requires formed { TargetFormed target.now (length from.now) }
    requires long { length to.old ≡ length from.now }
    ensures { to.new ≡ perform (written (target_bits target.now) (map (bit_at from.now) (target_bits target.now))) to.old }
{
    for part in target.parts.as_slice() {
        copy(named(part), from, to);
    }
}

/// Performs an assignment of the value to the target on the values themselves: the indices of the target have the values
/// that the bits had before. `scratch` is overwritten.
///
/// It takes no memory, and the time of `write` and a step for each bit of the target's vectors.
pub fn assign(target: &Target, value: Word, values: &mut [bool], scratch: &mut [bool])
    requires formed { TargetFormed target.now (length values.old) }
    requires long { length scratch.old ≡ length values.old }
    ensures { values.new ≡ perform (updates_of target.now value.bits values.old) values.old }
{
    copy_named(target, values, scratch);
    write(target, value, values, scratch);
    copy_named(target, scratch, values);
}
