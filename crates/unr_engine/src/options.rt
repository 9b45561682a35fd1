// Files and options, in any order.
ghost use Rattle.std.specs.Prelude.{◌≡◌, ◌≢◌, ℕ, List, ◌∷◌, ◌^◌, ◌≤◌, MatchOption, IfSome};
ghost use Rattle.std.specs.Option.{option_map};
ghost use Rattle.unr_engine.specs.Words.{texts};
ghost use Rattle.unr_engine.specs.Requests.{is_option, after_hyphen, cut_at_equals, key_named, read_value, read_cut, read_option, read_word, with_value, with_entry, step, givens_of, once, number_of, value_after, effort_of, no_prelude, kinds_given, read_flag, read_joined, first_scan, if_positive, read_is, given_is, givens_are, scan_is, nothing_given};

use cert_text::kinds_of;
use design_core::setup::Kinds;

/// What a word, or an option's value, is given for.
#[derive(Clone, Copy)]
pub enum Key {
    File,
    Top,
    Clock,
    Out,
    Effort,
    Cycles,
    Points,
}

/// What a word gives.
#[derive(Clone, Copy)]
pub enum Read<'a> {
    Gives { key: Key, value: &'a str },
    /// The option's value stands in the next word.
    Awaits { key: Key },
    Wrong,
}

/// The values of a key so far.
#[derive(Clone, Copy)]
pub enum Given<'a> {
    Absent,
    Once { value: &'a str },
    Twice,
}

/// The values of each key so far.
#[derive(Clone, Copy)]
pub struct Givens<'a> {
    pub file: Given<'a>,
    pub top: Given<'a>,
    pub clock: Given<'a>,
    pub out: Given<'a>,
    pub effort: Given<'a>,
    pub cycles: Given<'a>,
    pub points: Given<'a>,
}

/// What was read so far, and the option that awaits its value.
#[derive(Clone, Copy)]
pub struct Scan<'a> {
    pub awaits: Option<Key>,
    pub givens: Givens<'a>,
}

/// A word that begins with a hyphen is an option.
pub fn is_option(word: &str) -> bool
    ensures { result ≡ is_option word.now }
{
    match word.as_bytes().first() {
        Some(byte) => *byte == b'-',
        None => false,
    }
}

fn key_named(name: &str) -> Option<Key>
    ensures { result ≡ key_named name.now }
{
    match name {
        "top" => Some(Key::Top),
        "clock" => Some(Key::Clock),
        "out" => Some(Key::Out),
        "effort" => Some(Key::Effort),
        "cycles" => Some(Key::Cycles),
        "points" => Some(Key::Points),
        _ => None,
    }
}

// What stands after a hyphen.
fn after_hyphen(word: &str) -> Option<&str>
    ensures { MatchOption result (after_hyphen word.now ≡ None) (λ rest. after_hyphen word.now ≡ Some rest.now) }
{
    word.strip_prefix('-')
}

// What stands before the first equals sign, and what stands after it.
fn cut_at_equals(word: &str) -> Option<(&str, &str)>
    ensures { MatchOption result (cut_at_equals word.now ≡ None) (λ parts. cut_at_equals word.now ≡ Some (parts.0.now, parts.1.now)) }
{
    word.split_once('=')
}

fn read_value(key: Key, value: &str) -> Read<'_>
    ensures { read_is result ≡ read_value key value.now }
{
    if value.is_empty() {
        Read::Wrong
    } else {
        Read::Gives { key, value }
    }
}

fn read_flag<'a>(name: &str) -> Read<'a>
    ensures { read_is result ≡ read_flag (key_named name.now) }
{
    match key_named(name) {
        Some(key) => Read::Awaits { key },
        None => Read::Wrong,
    }
}

fn read_joined<'a>(name: &str, value: &'a str) -> Read<'a>
    ensures { read_is result ≡ read_joined (key_named name.now) value.now }
{
    match key_named(name) {
        Some(key) => read_value(key, value),
        None => Read::Wrong,
    }
}

// What stands after two hyphens.
fn read_named(named: &str) -> Read<'_>
    ensures { read_is result ≡ read_cut (cut_at_equals named.now) named.now }
{
    match cut_at_equals(named) {
        Some((name, value)) => read_joined(name, value),
        None => read_flag(named),
    }
}

// What stands after one hyphen.
fn read_option(rest: &str) -> Read<'_>
    ensures { read_is result ≡ read_option (after_hyphen rest.now) }
{
    match after_hyphen(rest) {
        Some(named) => read_named(named),
        None => Read::Wrong,
    }
}

fn read_first(word: &str) -> Read<'_>
    ensures { read_is result ≡ read_word None word.now }
{
    match after_hyphen(word) {
        Some(rest) => read_option(rest),
        None => Read::Gives {
            key: Key::File,
            value: word,
        },
    }
}

fn read_awaited(key: Key, word: &str) -> Read<'_>
    ensures { read_is result ≡ read_word (Some key) word.now }
{
    if is_option(word) {
        Read::Wrong
    } else {
        read_value(key, word)
    }
}

fn read_word(awaits: Option<Key>, word: &str) -> Read<'_>
    ensures { read_is result ≡ read_word awaits word.now }
{
    match awaits {
        Some(key) => read_awaited(key, word),
        None => read_first(word),
    }
}

fn with_value<'a>(given: Given<'a>, value: &'a str) -> Given<'a>
    ensures { given_is result ≡ with_value (given_is given.entry) value.now }
{
    match given {
        Given::Absent => Given::Once { value },
        Given::Once { .. } => Given::Twice,
        Given::Twice => Given::Twice,
    }
}

fn with_entry<'a>(givens: Givens<'a>, key: Key, value: &'a str) -> Givens<'a>
    ensures { givens_are result ≡ with_entry (givens_are givens.entry) key value.now }
{
    match key {
        Key::File => Givens {
            file: with_value(givens.file, value),
            ..givens
        },
        Key::Top => Givens {
            top: with_value(givens.top, value),
            ..givens
        },
        Key::Clock => Givens {
            clock: with_value(givens.clock, value),
            ..givens
        },
        Key::Out => Givens {
            out: with_value(givens.out, value),
            ..givens
        },
        Key::Effort => Givens {
            effort: with_value(givens.effort, value),
            ..givens
        },
        Key::Cycles => Givens {
            cycles: with_value(givens.cycles, value),
            ..givens
        },
        Key::Points => Givens {
            points: with_value(givens.points, value),
            ..givens
        },
    }
}

fn after_word<'a>(scan: Scan<'a>, word: &'a str) -> Option<Scan<'a>>
    ensures { option_map scan_is result ≡ step (scan_is scan.entry) word.now }
{
    match read_word(scan.awaits, word) {
        Read::Gives { key, value } => Some(Scan {
            awaits: None,
            givens: with_entry(scan.givens, key, value),
        }),
        Read::Awaits { key } => Some(Scan {
            awaits: Some(key),
            givens: scan.givens,
        }),
        Read::Wrong => None,
    }
}

// Reads one more word. None where it is wrong.
fn step<'a>(scan: &mut Scan<'a>, word: &'a str) -> Option<()>
    ensures { MatchOption result (step (scan_is scan.old) word.now ≡ None) (λ _. step (scan_is scan.old) word.now ≡ Some (scan_is scan.new)) }
{
    *scan = after_word(*scan, word)?;
    Some(())
}

fn first_scan<'a>() -> Scan<'a>
    ensures { scan_is result ≡ first_scan }
{
    let none = Given::Absent;
    Scan {
        awaits: None,
        givens: Givens {
            file: none,
            top: none,
            clock: none,
            out: none,
            effort: none,
            cycles: none,
            points: none,
        },
    }
}

/// What the words give for each key. None where a word is no file and no option, or an option has no value.
pub fn givens_of(words: &[String]) -> Option<Givens<'_>>
    ensures { option_map givens_are result ≡ givens_of (texts words.now) }
{
    let mut scan = first_scan();
    for word in words {
        step(&mut scan, word.as_str())?;
    }
    match scan.awaits {
        Some(_) => None,
        None => Some(scan.givens),
    }
}

/// The value of a key that is given once.
pub fn once(given: Given<'_>) -> Option<&str>
    ensures { MatchOption result (once (given_is given.entry) ≡ None) (λ value. once (given_is given.entry) ≡ Some value.now) }
{
    match given {
        Given::Absent => None,
        Given::Once { value } => Some(value),
        Given::Twice => None,
    }
}

// The number that the digits spell, if it is at most `max`.
fn value(word: &[u8], max: u64) -> Option<u64>
    requires { 9 ≤ max }
    ensures { result ≡ value_after max 0 word.now }
{
    let mut n: u64 = 0;
    let mut rest = word;
    while let [byte, after @ ..] = rest {
        if !byte.is_ascii_digit() {
            return None;
        }
        let digit = u64::from(*byte - b'0');
        if n > (max - digit) / 10 {
            return None;
        }
        n = n * 10 + digit;
        rest = after;
    }
    Some(n)
}

// The number that 1 to 19 digits spell, if it is at most 10^18.
fn number(word: &[u8]) -> Option<u64>
    ensures { result ≡ number_of word.now }
{
    if 1 <= word.len() && word.len() <= 19 {
        value(word, 1_000_000_000_000_000_000)
    } else {
        None
    }
}

fn if_positive(n: u64) -> Option<u64>
    ensures { result ≡ if_positive n }
{
    if n == 0 { None } else { Some(n) }
}

/// How many units each point may take: a number from 1 to 10^18, and 1,000,000 where none is given.
pub fn effort_of(given: Given<'_>) -> Option<u64>
    ensures { result ≡ effort_of (given_is given.entry) }
{
    match given {
        Given::Absent => Some(1_000_000),
        Given::Once { value } => if_positive(number(value.as_bytes())?),
        Given::Twice => None,
    }
}

/// No prelude is asked for.
pub fn no_prelude(given: Given<'_>) -> bool
    ensures { result ≡ no_prelude (given_is given.entry) }
{
    match given {
        Given::Absent => true,
        Given::Once { value } => match number(value.as_bytes()) {
            Some(n) => n == 0,
            None => false,
        },
        Given::Twice => false,
    }
}

/// The kinds of points that are asked for, by their letters, and all that are built where none are given.
pub fn kinds_given(given: Given<'_>) -> Option<Kinds>
    ensures { result ≡ kinds_given (given_is given.entry) }
{
    match given {
        Given::Absent => kinds_of(b"sb"),
        Given::Once { value } => kinds_of(value.as_bytes()),
        Given::Twice => None,
    }
}
