//! Numbers as words.

ghost use Rattle.std.specs.Prelude.{◌≡◌, ◌≤◌, IfSome};
ghost use Rattle.line_text.specs.Number.{is_short, value_after, number_of};

fn is_short(word: &[u8]) -> bool
    ensures { result ≡ is_short word.now }
{
    match word {
        [] => false,
        [_] => true,
        [first, ..] => *first != b'0',
    }
}

fn value(word: &[u8], max: u128) -> Option<u128>
    requires { 9 ≤ max }
    ensures value { result ≡ value_after max 0 word.now }
    ensures small { IfSome result (λ n. n ≤ max) }
{
    let mut n: u128 = 0;
    let mut rest = word;
    while let [byte, after @ ..] = rest {
        if !byte.is_ascii_digit() {
            return None;
        }
        let digit = u128::from(*byte - b'0');
        if n > (max - digit) / 10 {
            return None;
        }
        n = n * 10 + digit;
        rest = after;
    }
    Some(n)
}

/// The number that a word spells with no leading zero, if it is at most `max`.
#[tactic(auto, unfolding(crate::specs::Number::number_of))]
pub fn number(word: &[u8], max: u128) -> Option<u128>
    requires { 9 ≤ max }
    ensures value { result ≡ number_of max word.now }
    ensures small { IfSome result (λ n. n ≤ max) }
{
    if is_short(word) {
        value(word, max)
    } else {
        None
    }
}
