//! Cubes of states.
ghost use Rattle.std.specs.Prelude.{◌≡◌, ◌<◌, length, map, IfOk};
ghost use Rattle.bit_system.specs.Accepted.{starts_as};
ghost use Rattle.generalise.specs.Cubes.{opposite, HasBits, lemma_of, misses_start};

use bit_system::{Depth, Lemma, Memory, StateLit, System};
use sqlite_items::Items;
use std::alloc::Global;

/// The states that make each of these literals true.
pub type Cube = Items<StateLit>;

fn opposite(lit: StateLit) -> StateLit
    ensures { result ≡ opposite lit }
{
    StateLit {
        state: lit.state,
        positive: !lit.positive,
    }
}

/// The lemma that keeps states out of the cube.
pub fn lemma_of(alloc: Global, level: Depth, cube: &Cube) -> Result<Lemma, Memory>
    ensures { IfOk result (λ l. l ≡ lemma_of level cube.now) }
{
    let mut lits = Items::new(alloc);
    for lit in cube.as_slice() {
        lits.push(opposite(*lit))?;
    }
    Ok(Lemma { level, lits })
}

/// Whether the starting value makes a literal of this sign true.
fn starts_as(start: Option<bool>, positive: bool) -> bool
    ensures { result ≡ starts_as start positive }
{
    match start {
        None => false,
        Some(value) => value == positive,
    }
}

/// Whether a starting value makes a literal of the cube false, so that no start lies in it.
pub fn misses_start(system: &System, cube: &Cube) -> bool
    requires { HasBits system.now cube.now }
    ensures { result ≡ misses_start system.now cube.now }
{
    let states = system.states();
    for lit in cube.as_slice() {
        if starts_as(states[lit.state as usize].start, !lit.positive) {
            return true;
        }
    }
    false
}
