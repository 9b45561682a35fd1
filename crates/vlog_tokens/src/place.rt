ghost use Rattle.std.specs.Prelude.{◌≡◌, ◌+◌, ◌^◌, ◌<◌, length};
ghost use Rattle.vlog_tokens.specs.Places as spec;

use word_core::Place;

/// The place of a text's first byte.
pub const START: Place = Place { line: 1, col: 1 };

/// The place behind this byte.
fn step(at: Place, byte: u8) -> Place
    requires line { at.line + 1 < 2 ^ 32 }
    requires col { at.col + 1 < 2 ^ 32 }
    ensures { result ≡ spec.step at byte }
{
    if byte == b'\n' {
        Place {
            line: at.line + 1,
            col: 1,
        }
    } else {
        Place {
            line: at.line,
            col: at.col + 1,
        }
    }
}

/// The place behind these bytes.
pub fn past(at: Place, bytes: &[u8]) -> Place
    requires line { at.line + length bytes.now < 2 ^ 32 }
    requires col { at.col + length bytes.now < 2 ^ 32 }
    ensures { result ≡ spec.past at bytes.now }
{
    let mut place = at;
    let mut rest = bytes;
    while let [byte, more @ ..] = rest {
        place = step(place, *byte);
        rest = more;
    }
    place
}
