ghost use Rattle.std.specs.Prelude.{◌≡◌, ◌≤◌, ◌<◌, ◌+◌, ◌*◌, ◌-◌, ◌%◌, ◌^◌, length, IfSome};
ghost use Rattle.std.specs.List.{prefix_len, list_all, list_any};
ghost use Rattle.vlog_tokens.specs.Bytes as class;
ghost use Rattle.vlog_tokens.specs.Numbers as spec;

use crate::bytes::{is_decimal, is_digit_of, is_open, is_unknown, radix_of, worth};

/// The value of a number, and its width.
#[derive(Clone, Copy, Debug, PartialEq, Eq)]
pub struct Number {
    /// The number of bits, from 1 to 128.
    pub width: u8,
    /// The value, below 2 to the width. The bits that match anything are 0 in it.
    pub value: u128,
    /// The bits that match anything, which are written `z`, `Z` or `?`.
    pub wild: u128,
    /// Whether it is signed, as a number without a base is.
    pub is_signed: bool,
}

// ---- lists of digits

/// How many bytes at the front may stand behind the first of a list of decimal digits.
fn decimal_run(text: &[u8]) -> usize
    ensures value { result ≡ prefix_len (spec.or_underscore class.is_decimal) text.now }
    ensures within { result ≤ length text.now }
{
    let mut end = 0;
    while end < text.len() && (is_decimal(text[end]) || text[end] == b'_') {
        end += 1;
    }
    end
}

/// How many bytes the longest list of decimal digits has that stands at the front.
pub fn decimal_length(text: &[u8]) -> usize
    ensures value { result ≡ spec.digits_length class.is_decimal text.now }
    ensures within { result ≤ length text.now }
{
    match text {
        [first, more @ ..] => {
            if is_decimal(*first) {
                1 + decimal_run(more)
            } else {
                0
            }
        }
        [] => 0,
    }
}

/// How many bytes at the front may stand behind the first of a list of digits of the base.
fn digit_run(radix: u8, text: &[u8]) -> usize
    ensures value { result ≡ prefix_len (spec.or_underscore (class.is_digit_of radix)) text.now }
    ensures within { result ≤ length text.now }
{
    let mut end = 0;
    while end < text.len() && (is_digit_of(radix, text[end]) || text[end] == b'_') {
        end += 1;
    }
    end
}

/// How many bytes the longest list of digits of the base has that stands at the front.
pub fn digits_length(radix: u8, text: &[u8]) -> usize
    ensures value { result ≡ spec.digits_length (class.is_digit_of radix) text.now }
    ensures within { result ≤ length text.now }
{
    match text {
        [first, more @ ..] => {
            if is_digit_of(radix, *first) {
                1 + digit_run(radix, more)
            } else {
                0
            }
        }
        [] => 0,
    }
}

/// Whether the text may stand behind the first of a list of digits of the base.
#[tactic(auto, using(crate::proofs::Digits::whole_run))]
fn may_follow(radix: u8, text: &[u8]) -> bool
    ensures { result ≡ list_all (spec.or_underscore (class.is_digit_of radix)) text.now }
{
    digit_run(radix, text) == text.len()
}

/// Whether the text is a list of digits of the base.
fn is_digits(radix: u8, text: &[u8]) -> bool
    ensures { result ≡ spec.is_digits (class.is_digit_of radix) text.now }
{
    match text {
        [first, more @ ..] => is_digit_of(radix, *first) && may_follow(radix, more),
        [] => false,
    }
}

// ---- values

/// What a digit adds to the value.
fn digit_value(digit: u8) -> u8
    ensures value { result ≡ spec.digit_value digit }
    ensures within { result ≤ 16 }
{
    if is_open(digit) { 0 } else { worth(digit) }
}

/// The value with one digit more. None where it is 2^128 or more.
fn add_digit(value: u128, radix: u8, digit: u8) -> Option<u128>
    ensures { result ≡ spec.below (2 ^ 128) (value * radix + spec.digit_value digit) }
{
    match value.checked_mul(radix as u128) {
        Some(product) => product.checked_add(digit_value(digit) as u128),
        None => None,
    }
}

/// The value with one byte more of a list of digits. None where it is 2^128 or more.
#[tactic(auto, using(crate::proofs::Digits::small_below))]
fn with_digit(value: u128, radix: u8, digit: u8) -> Option<u128>
    ensures { result ≡ spec.below (2 ^ 128) (spec.with_digit spec.digit_value radix value digit) }
{
    if digit == b'_' {
        Some(value)
    } else {
        add_digit(value, radix, digit)
    }
}

/// The number that the digits spell. None where it is 2^128 or more.
fn numeral(radix: u8, digits: &[u8]) -> Option<u128>
    requires { 1 ≤ radix }
    ensures { result ≡ spec.below (2 ^ 128) (spec.numeral radix digits.now) }
{
    let mut value = 0u128;
    let mut rest = digits;
    while let [digit, more @ ..] = rest {
        match with_digit(value, radix, *digit) {
            Some(next) => value = next,
            None => return None,
        }
        rest = more;
    }
    Some(value)
}

/// The bits of a digit that match anything.
fn open_bits(radix: u8, digit: u8) -> u8
    requires { 1 ≤ radix }
    ensures { result ≡ spec.open_bits radix digit }
{
    if is_open(digit) { radix - 1 } else { 0 }
}

/// The bits that match anything with those of one byte more, modulo 2^128.
#[tactic(auto, using(crate::proofs::Digits::low_sum))]
fn with_open_bits(bits: u128, radix: u8, digit: u8) -> u128
    requires { 1 ≤ radix }
    ensures { result % 2 ^ 128 ≡ spec.with_digit (spec.open_bits radix) radix bits digit % 2 ^ 128 }
{
    if digit == b'_' {
        return bits;
    }
    bits.wrapping_mul(radix as u128)
        .wrapping_add(open_bits(radix, digit) as u128)
}

/// The bits that match anything, behind those of `filling`, modulo 2^128.
fn open_behind(radix: u8, filling: u128, digits: &[u8]) -> u128
    requires { 1 ≤ radix }
    ensures { result % 2 ^ 128 ≡ spec.spelled (spec.open_bits radix) radix filling digits.now % 2 ^ 128 }
{
    let mut bits = filling;
    let mut rest = digits;
    while let [digit, more @ ..] = rest {
        bits = with_open_bits(bits, radix, *digit);
        rest = more;
    }
    bits
}

/// The greatest number of a width.
fn mask(width: u8) -> u128
    requires some { 1 ≤ width }
    requires within { width ≤ 128 }
    ensures { result ≡ 2 ^ width - 1 }
{
    u128::MAX >> (128 - width)
}

/// A number modulo 2 to the width.
fn low(number: u128, width: u8) -> u128
    requires some { 1 ≤ width }
    requires within { width ≤ 128 }
    ensures { result ≡ number % 2 ^ width }
{
    number & mask(width)
}

/// The bits above the digits.
fn filling(width: u8, digits: &[u8]) -> u128
    requires some { 1 ≤ width }
    requires within { width ≤ 128 }
    ensures { result ≡ spec.filling width digits.now }
{
    match digits {
        [first, ..] => { if is_open(*first) { mask(width) } else { 0 } }
        [] => 0,
    }
}

/// The bits that match anything.
#[tactic(auto, using(crate::proofs::Digits::cut_low))]
fn open_of(width: u8, radix: u8, digits: &[u8]) -> u128
    requires some { 1 ≤ width }
    requires within { width ≤ 128 }
    requires radix { 1 ≤ radix }
    ensures { result ≡ spec.open_of width radix digits.now }
{
    low(open_behind(radix, filling(width, digits), digits), width)
}

// ---- numbers

/// The width that a size gives.
fn width_of(size: &[u8]) -> Option<u8>
    ensures { result ≡ spec.width_of size.now }
{
    match size {
        [_, ..] => width_within(numeral(10, size)),
        [] => Some(32),
    }
}

/// The number as a width. None where it isn't from 1 to 128.
fn width_within(number: Option<u128>) -> Option<u8>
    ensures { result ≡ spec.width_found number }
{
    match number {
        Some(width) => {
            if 1 <= width && width <= 128 {
                Some(width as u8)
            } else {
                None
            }
        }
        None => None,
    }
}

/// The number without a base.
fn plain(digits: &[u8]) -> Option<Number>
    ensures { result ≡ spec.plain digits.now }
{
    match digits {
        [_, ..] => signed(numeral(10, digits)),
        [] => None,
    }
}

/// The signed number of 32 bits with the value.
fn signed(value: Option<u128>) -> Option<Number>
    ensures { result ≡ spec.signed_found value }
{
    match value {
        Some(value) => {
            if value < 1 << 32 {
                Some(Number {
                    width: 32,
                    value,
                    wild: 0,
                    is_signed: true,
                })
            } else {
                None
            }
        }
        None => None,
    }
}

/// The number with these digits, cut to the width.
fn cut_to(width: u8, radix: u8, digits: &[u8]) -> Option<Number>
    requires some { 1 ≤ width }
    requires within { width ≤ 128 }
    requires radix { 1 ≤ radix }
    ensures { result ≡ spec.cut_to width radix digits.now }
{
    match numeral(radix, digits) {
        Some(value) => Some(Number {
            width,
            value: low(value, width),
            wild: open_of(width, radix, digits),
            is_signed: false,
        }),
        None => None,
    }
}

/// Whether some digit is unknown.
fn has_unknown(digits: &[u8]) -> bool
    ensures { result ≡ list_any class.is_unknown digits.now }
{
    digits.iter().any(|digit| is_unknown(*digit))
}

/// The number with this size and these digits of the base.
fn sized(size: &[u8], radix: u8, digits: &[u8]) -> Option<Number>
    requires { 1 ≤ radix }
    ensures { result ≡ spec.sized (spec.width_of size.now) radix digits.now }
{
    match width_of(size) {
        Some(width) => {
            if has_unknown(digits) {
                None
            } else {
                cut_to(width, radix, digits)
            }
        }
        None => None,
    }
}

/// The number with this size and what stands behind the `'`.
fn based(size: &[u8], text: &[u8]) -> Option<Number>
    ensures { result ≡ spec.based size.now text.now }
{
    match text {
        [letter, digits @ ..] => in_base(size, radix_of(*letter), digits),
        [] => None,
    }
}

/// The number with this size and these digits, where they are digits of the base.
fn in_base(size: &[u8], radix: u8, digits: &[u8]) -> Option<Number>
    ensures { result ≡ spec.in_base size.now radix digits.now }
{
    if radix == 0 {
        return None;
    }
    if is_digits(radix, digits) {
        sized(size, radix, digits)
    } else {
        None
    }
}

/// The number whose decimal digits at the front are these, and what stands behind them.
fn sized_or_plain(size: &[u8], text: &[u8]) -> Option<Number>
    ensures { result ≡ spec.sized_or_plain size.now text.now }
{
    match text {
        [first, more @ ..] => {
            if *first == b'\'' {
                based(size, more)
            } else {
                None
            }
        }
        [] => plain(size),
    }
}

/// The number with this text. None where the text is no number, has a digit `x` or `X`, a size outside 1 to 128, or a value that is too large:
/// 2^32 or more without a base, 2^128 or more with one. The time is linear in the text.
#[tactic(auto, unfolding(crate::specs::Numbers::number_of))]
pub fn number_of(text: &[u8]) -> Option<Number>
    ensures value { result ≡ spec.number_of text.now }
    ensures within { IfSome result (λ n. spec.IsWithin n) }
{
    let (size, behind) = text.split_at(decimal_length(text));
    sized_or_plain(size, behind)
}
