//! Dropping literals of a blocked cube.
ghost use Rattle.std.specs.Prelude.{◌≡◌, ◌<◌, IfOk, length};
ghost use Rattle.generalise.specs.Cubes.{HasBits};
ghost use Rattle.generalise.specs.Effort.{Uses};
ghost use Rattle.generalise.specs.Frames.{IsLevel, IsLearnable, IsLeast};
ghost use Rattle.generalise.specs.Parts.{IsPart, IsAttempt, IsPass};
ghost use Rattle.std.specs.List.{remove};

use crate::ask::Ask;
use crate::cube::{Cube, misses_start};
use crate::units::Units;
use bit_system::{Depth, Memory, System};
use sqlite_items::Items;
use std::alloc::Global;

/// What came of taking out a literal.
#[derive(Drop)]
pub enum Attempt {
    /// The rest is blocked and misses the start.
    Less(Cube),
    /// The literal is needed.
    Needed,
    /// The effort is used.
    Spent,
}

fn without(alloc: Global, cube: &Cube, at: usize) -> Result<Cube, Memory>
    requires { at < length cube.now }
    ensures { IfOk result (λ c. c ≡ remove cube.now at) }
{
    let mut rest = Items::from_slice(alloc, cube.as_slice())?;
    rest.remove(at);
    Ok(rest)
}

/// Takes out the literal at this place, where the rest is blocked and misses the start.
fn try_without<A: Ask>(
    alloc: Global,
    ask: &mut A,
    system: &System,
    cube: &Cube,
    at: usize,
    level: Depth,
    units: &mut Units,
) -> Result<Attempt, Memory>
    requires level { IsLevel level }
    requires system { system.now ≡ A.machine ask.old }
    requires learnable { IsLearnable (A.machine ask.old) (A.frames ask.old) level cube.now }
    requires at { at < length cube.now }
    ensures attempt { IfOk result (λ a. IsAttempt (A.machine ask.old) (A.frames ask.old) level cube.now at units.new a) }
    ensures machine { A.machine ask.new ≡ A.machine ask.old }
    ensures frames { A.frames ask.new ≡ A.frames ask.old }
    ensures uses { Uses units.old units.new }
{
    let rest = without(alloc, cube, at)?;
    if !misses_start(system, &rest) {
        return Ok(Attempt::Needed);
    }
    match ask.step_blocks(&rest, level, units)? {
        Some(true) => Ok(Attempt::Less(rest)),
        Some(false) => Ok(Attempt::Needed),
        None => Ok(Attempt::Spent),
    }
}

/// Tries each literal once, and says whether one was dropped.
fn drop_pass<A: Ask>(
    alloc: Global,
    ask: &mut A,
    system: &System,
    cube: &mut Cube,
    level: Depth,
    units: &mut Units,
) -> Result<bool, Memory>
    requires level { IsLevel level }
    requires system { system.now ≡ A.machine ask.old }
    requires learnable { IsLearnable (A.machine ask.old) (A.frames ask.old) level cube.old }
    ensures pass { IfOk result (λ dropped. IsPass (A.machine ask.old) (A.frames ask.old) level cube.old cube.new units.new dropped) }
    ensures machine { A.machine ask.new ≡ A.machine ask.old }
    ensures frames { A.frames ask.new ≡ A.frames ask.old }
    ensures uses { Uses units.old units.new }
{
    let mut dropped = false;
    let mut at = 0;
    while at < cube.len() {
        match try_without(alloc, ask, system, cube, at, level, units)? {
            Attempt::Less(rest) => {
                *cube = rest;
                dropped = true;
            }
            Attempt::Needed => at += 1,
            Attempt::Spent => return Ok(false),
        }
    }
    Ok(dropped)
}

/// A part of the cube that is still blocked and still misses the start. Where effort is left, no one literal
/// more can be taken out so that this holds. At a low level nearly every part of a cube is blocked, so the level
/// is best the highest one at which the whole cube is. A pass asks a query for each literal, and passes go on until one
/// drops nothing.
pub fn drop_literals<A: Ask>(
    alloc: Global,
    ask: &mut A,
    system: &System,
    cube: &Cube,
    level: Depth,
    units: &mut Units,
) -> Result<Cube, Memory>
    requires level { IsLevel level }
    requires system { system.now ≡ A.machine ask.old }
    requires learnable { IsLearnable (A.machine ask.old) (A.frames ask.old) level cube.now }
    ensures learnable { IfOk result (λ c. IsLearnable (A.machine ask.old) (A.frames ask.old) level c) }
    ensures part { IfOk result (λ c. IsPart c cube.now) }
    ensures least { IfOk result (λ c. units.new.used < units.new.effort → IsLeast (A.machine ask.old) (A.frames ask.old) level c) }
    ensures machine { A.machine ask.new ≡ A.machine ask.old }
    ensures frames { A.frames ask.new ≡ A.frames ask.old }
    ensures uses { Uses units.old units.new }
{
    let mut part = Items::from_slice(alloc, cube.as_slice())?;
    while drop_pass(alloc, ask, system, &mut part, level, units)? {}
    Ok(part)
}
