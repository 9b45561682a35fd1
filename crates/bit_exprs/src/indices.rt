//! The words of the indices at which a select names a bit.

ghost use Rattle.std.specs.Prelude.{◌≡◌, ◌≤◌, ◌<◌, ◌^◌, nat_lt};
ghost use Rattle.bit_exprs.specs.Indices.{up_of, down_of, code_of};
ghost use Rattle.bit_exprs.specs.Formed.{IsWidth};

use crate::forms::Window;
use word_core::Word;

/// An index as a difference: `up` less `down`.
#[derive(Clone, Copy)]
pub struct Index {
    pub up: u128,
    pub down: u128,
}

/// The index at which bit `k` of what is selected is the vector's bit at place `p`.
pub fn index_at(window: Window, k: u8, p: u64) -> Index
    requires some { 1 ≤ window.count }
    requires place { p < 2 ^ 63 }
    ensures up { result.up ≡ up_of window k p }
    ensures down { result.down ≡ down_of window k p }
    ensures up_small { result.up < 2 ^ 66 }
    ensures down_small { result.down < 2 ^ 66 }
{
    let right = window.right as u128;
    let spare = (window.count - 1) as u128;
    let bit = k as u128;
    let place = p as u128;
    if window.rising {
        let up = right + bit;
        if window.down {
            return Index { up, down: place };
        }
        return Index {
            up,
            down: place + spare,
        };
    }
    if window.down {
        return Index {
            up: right + place + spare,
            down: bit,
        };
    }
    Index {
        up: right + place,
        down: bit,
    }
}

// Whether the number is below 2 to `limit`, which is at most 128.
fn is_below(number: u128, limit: u8) -> bool
    requires { limit ≤ 128 }
    ensures { result ≡ nat_lt number (2 ^ limit) }
{
    if limit == 128 {
        return true;
    }
    number < 1 << limit
}

/// The word of `width` bits that has this value as an index, if there is one.
pub fn code(width: u8, signed: bool, index: Index) -> Option<u128>
    requires wide { IsWidth width }
    ensures { result ≡ code_of width signed index.up index.down }
{
    if index.up < index.down {
        if !signed {
            return None;
        }
        let below = index.down - index.up;
        if below > 1 << (width - 1) {
            return None;
        }
        let word = Word::make(width, below).neg();
        return Some(word.bits);
    }
    let value = index.up - index.down;
    let limit = if signed { width - 1 } else { width };
    if is_below(value, limit) {
        Some(value)
    } else {
        None
    }
}
