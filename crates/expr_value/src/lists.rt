// The updates of assignments, listed.

ghost use Rattle.std.specs.Prelude.{◌≡◌, ◌≤◌, ◌++◌, cond, [], ◌∷◌, length, OnOk};
ghost use Rattle.word_core.specs.Words.{bits_of};
ghost use Rattle.bit_exprs.specs.Indices.{names_place};
ghost use Rattle.bit_exprs.specs.Formed.{IsWidth, PartFormed, TargetFormed};
ghost use Rattle.bit_exprs.specs.Updates.{part_width, written, written_where, selected_updates, part_updates, updates_of};

use crate::evaluate::value;
use crate::selects::names;
use crate::writes::{part_places, target_places};
use bit_exprs::forms::{Bit, Part, Target, Window};
use bit_exprs::signs::is_signed;
use std::alloc::AllocError;
use word_core::Word;

// Lists the low bits of a number for some bits.
fn list_bits(bits: &[Bit], number: u128, updates: &mut Vec<(Bit, bool)>) -> Result<(), AllocError>
    ensures { OnOk result (updates.new.items ≡ updates.old.items ++ written bits.now (bits_of (length bits.now) number)) }
{
    let mut rest = number;
    for bit in bits {
        updates.push((*bit, rest % 2 == 1))?;
        rest /= 2;
    }
    Ok(())
}

// Lists this value for the bit where the test holds.
fn list_if(
    holds: bool,
    bit: Bit,
    value: bool,
    updates: &mut Vec<(Bit, bool)>,
) -> Result<(), AllocError>
    ensures { OnOk result (updates.new.items ≡ updates.old.items ++ cond holds ((bit, value) ∷ []) []) }
{
    if holds {
        updates.push((bit, value))?;
    }
    Ok(())
}

// Lists the bit for each place of the vector at which the index names bit `k` of what is selected.
fn list_place(
    vector: &[Bit],
    window: Window,
    at: Word,
    signed: bool,
    k: u8,
    bit: bool,
    updates: &mut Vec<(Bit, bool)>,
) -> Result<(), AllocError>
    requires some { 1 ≤ window.count }
    requires short { length vector.now ≤ 128 }
    ensures { OnOk result (updates.new.items ≡ updates.old.items ++ written_where (names_place window at.width signed at.bits k) 0 vector.now bit) }
{
    for p in 0..vector.len() {
        let holds = names(window, at, signed, k, p as u64);
        list_if(holds, vector[p], bit, updates)?;
    }
    Ok(())
}

// Lists the low bits of a number for what the index selects of the vector.
fn list_selected(
    vector: &[Bit],
    window: Window,
    at: Word,
    signed: bool,
    number: u128,
    updates: &mut Vec<(Bit, bool)>,
) -> Result<(), AllocError>
    requires wide { IsWidth window.count }
    requires short { length vector.now ≤ 128 }
    ensures { OnOk result (updates.new.items ≡ updates.old.items ++ selected_updates window vector.now at.width signed at.bits 0 (bits_of window.count number)) }
{
    let mut rest = number;
    for k in 0..window.count {
        list_place(vector, window, at, signed, k, rest % 2 == 1, updates)?;
        rest /= 2;
    }
    Ok(())
}

// Lists the low bits of a number for a part of a target.
fn list_part(
    part: &Part,
    number: u128,
    values: &[bool],
    updates: &mut Vec<(Bit, bool)>,
) -> Result<(), AllocError>
    requires { PartFormed part.now (length values.now) }
    ensures { OnOk result (updates.new.items ≡ updates.old.items ++ part_updates part.now (bits_of (part_width part.now) number) values.now) }
{
    match part {
        Part::Bits(bits) => list_bits(bits.as_slice(), number, updates),
        Part::Select {
            vector,
            window,
            index,
        } => {
            let at = value(index, values);
            let signed = is_signed(index);
            list_selected(vector.as_slice(), *window, at, signed, number, updates)
        }
        Part::Outside(_) => Ok(()),
    }
}

/// Puts the updates of an assignment of the value to the target behind the others: what `write` would perform, in order.
///
/// It takes memory for each update, and the time of `write`. An error is want of memory.
pub fn list(
    target: &Target,
    value: Word,
    values: &[bool],
    updates: &mut Vec<(Bit, bool)>,
) -> Result<(), AllocError>
    requires { TargetFormed target.now (length values.now) }
    ensures { OnOk result (updates.new.items ≡ updates.old.items ++ updates_of target.now value.bits values.now) }
{
    let mut left = target_places(target);
    for part in target.parts.as_slice() {
        left -= part_places(part);
        list_part(part, value.bits >> left, values, updates)?;
    }
    Ok(())
}
