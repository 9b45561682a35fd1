ghost use Rattle.std.specs.Prelude.{◌≡◌, ◌≤◌, ◌+◌, length, map};
ghost use Rattle.std.specs.List.{prefix_len};
ghost use Rattle.vlog_tokens.specs.Bytes as class;
ghost use Rattle.vlog_tokens.specs.Tokens as spec;

use crate::bytes::{begins_name, goes_on, radix_of};
use crate::number::{decimal_length, digits_length};
use crate::word::{MARKS, Word};

/// How many bytes at the front may go on with a name.
fn name_run(text: &[u8]) -> usize
    ensures value { result ≡ prefix_len class.goes_on text.now }
    ensures within { result ≤ length text.now }
{
    let mut end = 0;
    while end < text.len() && goes_on(text[end]) {
        end += 1;
    }
    end
}

/// The length of the name or keyword at the front.
fn name_length(text: &[u8]) -> usize
    ensures value { result ≡ spec.name_length text.now }
    ensures within { result ≤ length text.now }
{
    match text {
        [first, more @ ..] => {
            if begins_name(*first) {
                1 + name_run(more)
            } else {
                0
            }
        }
        [] => 0,
    }
}

/// One byte and those at the front that may go on with a name. 0 where there are none.
fn one_and(more: &[u8]) -> usize
    ensures value { result ≡ spec.one_and (prefix_len class.goes_on more.now) }
    ensures within { result ≤ length more.now + 1 }
{
    let run = name_run(more);
    if run == 0 { 0 } else { 1 + run }
}

/// The length of the `$` at the front with what goes on behind it.
fn system_length(text: &[u8]) -> usize
    ensures value { result ≡ spec.system_length text.now }
    ensures within { result ≤ length text.now }
{
    match text {
        [first, more @ ..] => { if *first == b'$' { one_and(more) } else { 0 } }
        [] => 0,
    }
}

/// The length of the entry, where the text begins with it.
fn entry_length(entry: &[u8], text: &[u8]) -> usize
    ensures value { result ≡ spec.entry_length entry.now text.now }
    ensures within { result ≤ length text.now }
{
    if text.starts_with(entry) {
        entry.len()
    } else {
        0
    }
}

/// The length of the longest entry of the table with which the text begins.
fn longest_of(mut table: &[(&[u8], Word)], text: &[u8]) -> usize
    ensures value { result ≡ spec.longest_of 0 (map (λ entry. (entry.0.now, entry.1)) table.entry.now) text.now }
    ensures within { result ≤ length text.now }
{
    let mut longest = 0;
    while let [entry, rest @ ..] = table {
        longest = longest.max(entry_length(entry.0, text));
        table = rest;
    }
    longest
}

/// The length of the longest mark at the front.
#[tactic(auto, using(crate::proofs::Tables::marks_are))]
fn mark_length(text: &[u8]) -> usize
    ensures value { result ≡ spec.mark_length text.now }
    ensures within { result ≤ length text.now }
{
    longest_of(&MARKS, text)
}

/// Two bytes and the digits of the base at the front. 0 where there are none.
fn digits_behind(radix: u8, digits: &[u8]) -> usize
    ensures value { result ≡ spec.digits_behind radix digits.now }
    ensures within { result ≤ length digits.now + 2 }
{
    if radix == 0 {
        return 0;
    }
    let length = digits_length(radix, digits);
    if length == 0 { 0 } else { 2 + length }
}

/// The length of the `'`, the base letter and the digits, of which the `'` stands before the text.
fn base_length(text: &[u8]) -> usize
    ensures value { result ≡ spec.base_length text.now }
    ensures within { result ≤ length text.now + 1 }
{
    match text {
        [letter, digits @ ..] => digits_behind(radix_of(*letter), digits),
        [] => 0,
    }
}

/// The length of the `'`, the base letter and the digits at the front.
fn tail_length(text: &[u8]) -> usize
    ensures value { result ≡ spec.tail_length text.now }
    ensures within { result ≤ length text.now }
{
    match text {
        [first, more @ ..] => {
            if *first == b'\'' {
                base_length(more)
            } else {
                0
            }
        }
        [] => 0,
    }
}

/// The length of the number at the front.
fn number_length(text: &[u8]) -> usize
    ensures value { result ≡ spec.number_length text.now }
    ensures within { result ≤ length text.now }
{
    let size = decimal_length(text);
    size + tail_length(text.split_at(size).1)
}

/// The length of the longest token at the front. 0 where no token begins.
pub fn token_length(text: &[u8]) -> usize
    ensures value { result ≡ spec.token_length text.now }
    ensures within { result ≤ length text.now }
{
    let word = name_length(text).max(system_length(text));
    word.max(mark_length(text).max(number_length(text)))
}
