//! What targets cost.

ghost use Rattle.std.specs.Prelude.{◌≡◌, ◌+◌};
ghost use Rattle.bit_exprs.specs.Cost.{capped, part_cost, target_cost};

use crate::expressions::{select_cost, weigh};
use crate::sums::plus;
use bit_exprs::forms::{Part, Target};

fn part_cost(part: &Part) -> u64
    ensures { result ≡ capped (part_cost part.now) }
{
    match part {
        Part::Bits(_) => 0,
        Part::Select {
            vector,
            window,
            index,
        } => {
            let at = weigh(index);
            select_cost(at, 4, window.count, vector.len())
        }
        Part::Outside(_) => 0,
    }
}

/// What a write to a target costs beside its value, or 2^64 - 1 where it costs more. It takes no memory.
pub fn target_cost(target: &Target) -> u64
    ensures { result ≡ capped (target_cost target.now) }
{
    let mut total = 0;
    for part in target.parts.as_slice() {
        total = plus(total, part_cost(part));
    }
    total
}
