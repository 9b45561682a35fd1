// Selects of vectors.

ghost use Rattle.std.specs.Prelude.{◌≡◌, ◌≤◌, ◌<◌, ◌+◌, ◌-◌, ◌^◌, min, option_map, false, IfOk};
ghost use Rattle.bit_exprs.specs.declared.forms.Expr.{Select};
ghost use Rattle.expr_elab.specs.Vectors.{bits_of};
ghost use Rattle.expr_elab.specs.Numbers.{fixed, count_within};
ghost use Rattle.expr_elab.specs.Formed.{IsClosed, AreClosed};
ghost use Rattle.expr_elab.specs.Selects.{window_of, choice, count_between, indices_from, bounds_count, bounded, fixed_count, choice_of, above, beneath, place_up, place_down, bit_named, bits_named, bit_read, joined_to, read_of, select_of, selected, select_built, whole};

use crate::built::{Built, Choice, Fixed, Picked};
use crate::contexts::two;
use crate::numbers::{count, fixed, zero_bit};
use crate::scope::{bit_at, bits, rises, width};
use crate::vectors::{Range, Vector};
use bit_exprs::forms::{BinaryOp, Bit, Expr, Window};
use sqlite_items::{Boxed, Items};
use std::alloc::{AllocError, Global};

// ---- which window, at which index

fn window_of(range: Range, down: bool, count: u8) -> Window
    ensures { result ≡ window_of range down count }
{
    Window {
        rising: rises(range),
        right: range.right,
        down,
        count,
    }
}

// A count of one more.
fn count_after(number: u128) -> Option<u8>
    ensures { result ≡ count_within (number + 1) }
{
    if number < 128 {
        Some((number + 1) as u8)
    } else {
        None
    }
}

fn count_over(a: u128, b: u128) -> Option<u8>
    ensures { result ≡ count_within (a + b + 1) }
{
    if a < 128 && b < 128 {
        count_after(a + b)
    } else {
        None
    }
}

fn count_between(a: u128, b: u128) -> Option<u8>
    ensures { result ≡ count_between a b }
{
    if a <= b { count_after(b - a) } else { None }
}

// How many indices there are from one to another; none where that one is less.
fn indices_from(least: Fixed, greatest: Fixed) -> Option<u8>
    ensures { result ≡ indices_from least greatest }
{
    match least {
        Fixed::Up(a) => match greatest {
            Fixed::Up(b) => count_between(a, b),
            Fixed::Down(_) => None,
        },
        Fixed::Down(a) => match greatest {
            Fixed::Up(b) => count_over(a, b),
            Fixed::Down(b) => count_between(b, a),
        },
    }
}

fn counted_choice(range: Range, base: Built, down: bool, count: Option<u8>) -> Option<Choice>
    ensures { result ≡ option_map (λ n. choice range down base n) count }
{
    match count {
        None => None,
        Some(count) => Some(Choice {
            window: window_of(range, down, count),
            index: base,
        }),
    }
}

fn bounds_count(least: &Built, greatest: &Built) -> Option<u8>
    requires least { IsClosed least.now }
    requires greatest { IsClosed greatest.now }
    ensures { result ≡ bounds_count least.now greatest.now }
{
    let least = fixed(least)?;
    let greatest = fixed(greatest)?;
    indices_from(least, greatest)
}

fn bounded(range: Range, left: Built, right: Built) -> Option<Choice>
    requires left { IsClosed left }
    requires right { IsClosed right }
    ensures { result ≡ bounded range left right }
{
    if rises(range) {
        let count = bounds_count(&left, &right);
        counted_choice(range, left, false, count)
    } else {
        let count = bounds_count(&right, &left);
        counted_choice(range, right, false, count)
    }
}

/// The number of bits that a constant says.
pub fn fixed_count(built: &Built) -> Option<u8>
    requires { IsClosed built.now }
    ensures { result ≡ fixed_count built.now }
{
    match fixed(built) {
        None => None,
        Some(fixed) => count(fixed),
    }
}

/// The window of a select, and its index.
pub fn choice_of(range: Range, picked: Picked) -> Option<Choice>
    requires { AreClosed picked }
    ensures { result ≡ choice_of range picked }
{
    match picked {
        Picked::Bit(index) => counted_choice(range, index, false, Some(1)),
        Picked::Bounds { left, right } => bounded(range, left, right),
        Picked::Counted { base, count, down } => {
            let count = fixed_count(&count);
            counted_choice(range, base, down, count)
        }
    }
}

// ---- selects with a constant index

// A number, or 2^127 where it is more.
fn capped(number: u128) -> u128
    ensures value { result ≡ min number (2 ^ 127) }
    ensures within { result ≤ 2 ^ 127 }
{
    if number < 1 << 127 { number } else { 1 << 127 }
}

fn above(index: Fixed) -> u128
    ensures value { result ≡ above index }
    ensures within { result ≤ 2 ^ 127 }
{
    match index {
        Fixed::Up(a) => capped(a),
        Fixed::Down(_) => 0,
    }
}

fn beneath(index: Fixed) -> u128
    ensures value { result ≡ beneath index }
    ensures within { result ≤ 2 ^ 127 }
{
    match index {
        Fixed::Up(_) => 0,
        Fixed::Down(a) => capped(a),
    }
}

fn spare(window: Window) -> u128
    requires { 1 ≤ window.count }
    ensures value { result ≡ window.count - 1 }
    ensures within { result < 256 }
{
    (window.count - 1) as u128
}

fn place_up(window: Window, index: Fixed, k: u8) -> u128
    ensures { result ≡ place_up window index k }
{
    if window.rising {
        k as u128 + (window.right as u128 + beneath(index))
    } else {
        k as u128 + above(index)
    }
}

fn place_down(window: Window, index: Fixed) -> u128
    requires { 1 ≤ window.count }
    ensures { result ≡ place_down window index }
{
    if window.rising {
        if window.down {
            return above(index);
        }
        return above(index) + spare(window);
    }
    if window.down {
        return beneath(index) + window.right as u128 + spare(window);
    }
    beneath(index) + window.right as u128
}

/// Bit `k` of what is selected of a vector, if it lies inside.
pub fn bit_named(vector: Vector, window: Window, index: Fixed, k: u8) -> Option<Bit>
    requires { 1 ≤ window.count }
    ensures { result ≡ bit_named (bits_of vector) window index k }
{
    let up = place_up(window, index, k);
    let down = place_down(window, index);
    if up < down {
        return None;
    }
    bit_at(vector, up - down)
}

/// The bits that are selected, where all lie inside.
pub fn bits_named(
    alloc: Global,
    vector: Vector,
    window: Window,
    index: Fixed,
) -> Result<Option<Items<Bit>>, AllocError>
    requires { 1 ≤ window.count }
    ensures { IfOk result (λ bits. bits ≡ bits_named (bits_of vector) window index) }
{
    let mut bits = Items::new(alloc);
    for k in 0..window.count {
        let Some(bit) = bit_named(vector, window, index, k) else {
            return Ok(None);
        };
        bits.push(bit)?;
    }
    Ok(Some(bits))
}

// ---- the expression

fn bit_read(alloc: Global, bit: Option<Bit>) -> Result<Expr, AllocError>
    ensures { IfOk result (λ e. e ≡ bit_read bit) }
{
    match bit {
        None => Ok(Expr::Const {
            word: zero_bit(),
            signed: false,
        }),
        Some(bit) => {
            let mut bits = Items::new(alloc);
            bits.push(bit)?;
            Ok(Expr::Read(bits))
        }
    }
}

// The bits that are selected, one by one.
fn joined_to(
    alloc: Global,
    vector: Vector,
    window: Window,
    index: Fixed,
) -> Result<Expr, AllocError>
    requires { 1 ≤ window.count }
    ensures { IfOk result (λ e. e ≡ joined_to (bit_named (bits_of vector) window index) (window.count - 1)) }
{
    let mut all = bit_read(alloc, bit_named(vector, window, index, 0))?;
    for k in 1..window.count {
        let bit = bit_read(alloc, bit_named(vector, window, index, k))?;
        all = two(alloc, BinaryOp::Join, bit, all)?;
    }
    Ok(all)
}

fn read_of(alloc: Global, vector: Vector, window: Window, index: Fixed) -> Result<Expr, AllocError>
    requires { 1 ≤ window.count }
    ensures { IfOk result (λ e. e ≡ read_of (bits_named (bits_of vector) window index) (bit_named (bits_of vector) window index) window.count) }
{
    match bits_named(alloc, vector, window, index)? {
        Some(bits) => Ok(Expr::Read(bits)),
        None => joined_to(alloc, vector, window, index),
    }
}

fn variable(alloc: Global, vector: Vector, window: Window, index: Expr) -> Result<Expr, AllocError>
    ensures { IfOk result (λ e. e ≡ Select (bits_of vector) window index) }
{
    Ok(Expr::Select {
        vector: bits(alloc, vector)?,
        window,
        index: Boxed::new(alloc, index)?,
    })
}

fn select_of(alloc: Global, vector: Vector, choice: Choice) -> Result<Expr, AllocError>
    requires some { 1 ≤ choice.window.count }
    requires closed { IsClosed choice.index }
    ensures { IfOk result (λ e. e ≡ select_of (bits_of vector) choice (fixed choice.index)) }
{
    match fixed(&choice.index) {
        Some(index) => read_of(alloc, vector, choice.window, index),
        None => variable(alloc, vector, choice.window, choice.index.expr),
    }
}

fn selected(alloc: Global, vector: Vector, choice: Choice) -> Result<Built, AllocError>
    requires some { 1 ≤ choice.window.count }
    requires closed { IsClosed choice.index }
    ensures { IfOk result (λ b. b ≡ selected vector choice) }
{
    let width = choice.window.count;
    Ok(Built {
        expr: select_of(alloc, vector, choice)?,
        width,
        signed: false,
        constant: false,
    })
}

/// A select of a vector. None where the vector is a scalar, and where the select's count or bounds aren't built.
pub fn select_built(
    alloc: Global,
    vector: Vector,
    picked: Picked,
) -> Result<Option<Built>, AllocError>
    requires { AreClosed picked }
    ensures { IfOk result (λ b. b ≡ select_built vector picked) }
{
    let Some(range) = vector.range else {
        return Ok(None);
    };
    let Some(choice) = choice_of(range, picked) else {
        return Ok(None);
    };
    Ok(Some(selected(alloc, vector, choice)?))
}

/// A whole vector.
pub fn whole(alloc: Global, vector: Vector) -> Result<Built, AllocError>
    ensures { IfOk result (λ b. b ≡ whole vector) }
{
    Ok(Built {
        expr: Expr::Read(bits(alloc, vector)?),
        width: width(vector),
        signed: false,
        constant: false,
    })
}
