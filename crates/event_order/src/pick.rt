// Which pending process an order number names.

ghost use Rattle.std.specs.Prelude.{◌≡◌, ℕ, ◌<◌, length, true, false, MatchOption, slice_index};
ghost use Rattle.bit_exprs.specs.Values.{bit_at};
ghost use Rattle.event_order.specs.Numbers.{numbers_from, chosen, next_number};

/// How many flags are up.
fn count_pending(pending: &[bool]) -> usize
    ensures { result ≡ length (numbers_from 0 pending.now) }
{
    let mut n = 0;
    for flag in pending {
        if *flag {
            n += 1;
        }
    }
    n
}

/// The number of the flag at a place among those that are up.
fn find_pending(pending: &[bool], place: usize) -> usize
    ensures { result ≡ slice_index (numbers_from 0 pending.now) place }
{
    let mut left = place;
    for (k, flag) in pending.iter().enumerate() {
        if *flag {
            if left == 0 {
                return k;
            }
            left -= 1;
        }
    }
    0
}

/// The pending process that an order number names, or nothing where none is pending.
pub fn pick(pending: &[bool], number: u64) -> Option<usize>
    ensures { MatchOption result ((k : ℕ) → bit_at pending.now k ≡ false) (λ k. (k < length pending.now) × (bit_at pending.now k ≡ true) × (k ≡ chosen pending.now number)) }
{
    let n = count_pending(pending);
    if n == 0 {
        return None;
    }
    Some(find_pending(pending, (number >> 33) as usize % n))
}

/// The order number once a process was picked.
pub fn next(number: u64) -> u64
    ensures { result ≡ next_number number }
{
    number
        .wrapping_mul(6364136223846793005)
        .wrapping_add(1442695040888963407)
}
