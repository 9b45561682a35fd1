//! Blocking what leads to a hit.
ghost use Rattle.std.specs.Prelude.{◌≡◌, ℕ, ◌<◌, ◌≤◌, ◌+◌, ◌^◌, ◌∷◌, [], true, false, All, IfNone, IfOk, IfSome, OnOk, length, map};
ghost use Rattle.aig_core.specs.Graph.{IsLiteral};
ghost use Rattle.bit_system.specs.Machine.{Machine, IsStart, IsState};
ghost use Rattle.generalise.specs.Cubes.{HasBits, misses_start};
ghost use Rattle.generalise.specs.Effort.{Uses};
ghost use Rattle.ic3_frames.specs.Full.{IsLike, or_else};
ghost use Rattle.ic3_frames.specs.Obligations.{Chain, LeadsInto};
ghost use Rattle.ic3_frames.specs.Queries.{all_true_after, true_after};
ghost use Rattle.ic3_frames.specs.Rules.{IsKept, MissesHit};
ghost use Rattle.ic3_frames.specs.Searching.{IsEnding, IsProgress, IsTrace};
ghost use Rattle.ic3_frames.specs.Turns.{IsRaised, IsTurn};

use crate::frames::{Frames, Level};
use crate::obligation::{Obligation, Obligations, lift};
use crate::query::Query;
use crate::replay::cut;
use crate::turn::Turn;
use crate::walk::Walk;
use aig_core::negated;
use bit_system::{Memory, StateLit, System};
use generalise::{Cube, Units, misses_start};
use sqlite_items::Items;
use std::alloc::{AllocError, Global};

fn value_or(start: Option<bool>, value: bool) -> bool
    ensures { result ≡ or_else start value }
{
    match start {
        None => value,
        Some(start) => start,
    }
}

/// A start with the values of this state where the start leaves them open.
fn start_like(alloc: Global, system: &System, state: &[bool]) -> Result<Items<bool>, Memory>
    requires { IsState system.now state.now }
    ensures { IfOk result (IsLike system.now state.now) }
{
    let states = system.states();
    let mut start = Items::new(alloc);
    for k in 0..states.len() {
        start.push(value_or(states[k].start, state[k]))?;
    }
    Ok(start)
}

/// The inputs of the obligations, from the first on.
fn inputs_of(
    alloc: Global,
    first: Obligation,
    rest: &mut Obligations,
) -> Result<Items<Items<bool>>, Memory>
    ensures { IfOk result (λ xs. xs ≡ map (λ o. o.input) (first ∷ rest.old)) }
{
    let mut lines = Items::new(alloc);
    lines.push(first.input)?;
    while let Some(next) = rest.pop() {
        lines.push(next.input)?;
    }
    Ok(lines)
}

/// The walk through the obligations from a start that lies in the first one.
fn walk_of(
    alloc: Global,
    system: &System,
    point: u32,
    first: Obligation,
    rest: &mut Obligations,
) -> Result<Walk, Memory>
    requires chain { Chain system.now point (first ∷ rest.old) }
    requires start { misses_start system.now first.cube ≡ false }
    ensures { IfOk result (IsTrace system.now point) }
{
    // Shows that the parts of the system fit.
    let _nodes = system.node_count();
    let start = start_like(alloc, system, first.state.as_slice())?;
    let lines = inputs_of(alloc, first, rest)?;
    Ok(Walk { start, lines })
}

/// The literal that says that a state bit's literal is true after a step.
fn true_after_step(system: &System, lit: StateLit) -> u32
    requires { lit.state < length system.now.states }
    ensures value { result ≡ true_after system.now lit }
    ensures exists { IsLiteral system.now.graph result }
{
    // Shows that the parts of the system fit.
    let _states = system.states();
    let next = system.next(lit.state);
    if lit.positive {
        return next;
    }
    negated(next)
}

fn all_true_after_step(alloc: Global, system: &System, cube: &Cube) -> Result<Vec<u32>, Memory>
    requires { HasBits system.now cube.now }
    ensures value { IfOk result (λ v. v.items ≡ all_true_after system.now cube.now) }
    ensures exist { IfOk result (λ v. All (IsLiteral system.now.graph) v.items) }
{
    let mut literals = Vec::new(alloc);
    for lit in cube.as_slice() {
        literals.push(true_after_step(system, *lit))?;
    }
    Ok(literals)
}

/// How a search ends.
#[derive(Drop)]
pub enum Ending {
    /// A walk that hits.
    Trace(Walk),
    /// The effort is used.
    Spent,
}

/// How a search goes on.
#[derive(Drop)]
pub enum Progress {
    /// There is more to block.
    More,
    /// Nothing is left to block.
    Empty,
    /// The search ends.
    Ended(Ending),
}

/// Puts before the first obligation one from which a step leads into its cube.
fn put_before(
    alloc: Global,
    system: &System,
    point: u32,
    first: Obligation,
    rest: &mut Obligations,
    state: Items<bool>,
    input: Items<bool>,
) -> Result<(), Memory>
    requires level { 0 < first.level }
    requires starts { first.level ≡ 1 → IsStart system.now state }
    requires steps { LeadsInto system.now first.cube state input }
    requires chain { Chain system.now point (first ∷ rest.old) }
    ensures { OnOk result (Chain system.now point rest.new) }
{
    // Shows that the parts of the system fit.
    let _nodes = system.node_count();
    let goal = all_true_after_step(alloc, system, &first.cube)?;
    let next = lift(
        alloc,
        system,
        state,
        input,
        goal.as_slice(),
        first.level - 1,
    )?;
    rest.push(first)?;
    rest.push(next)?;
    Ok(())
}

/// Where so many obligations wait, a blocked one isn't put back: a hit that is farther away would take a lemma for each
/// state on the way to it, and each query asks about all lemmas.
const MANY: usize = 256;

/// Puts the obligation back, to be blocked one level higher, where it is blocked below the frontier's level and not many
/// others wait.
fn put_back(
    first: Obligation,
    blocked: u64,
    frontier: u64,
    rest: &mut Obligations,
) -> Result<(), Memory>
    ensures { OnOk result ((m : Machine) (point : ℕ) → Chain m point (first ∷ rest.old) → Chain m point rest.new) }
{
    if blocked >= frontier || rest.len() >= MANY {
        return Ok(());
    }
    let Obligation {
        cube,
        input,
        state,
        level: _,
    } = first;
    rest.push(Obligation {
        cube,
        input,
        state,
        level: blocked + 1,
    })
}

/// Blocks the first obligation at the highest level at which it can be, or puts one before it that leads into it. A
/// blocked one goes on for the levels above, up to the frontier's.
fn lead(
    alloc: Global,
    system: &System,
    frames: &mut Frames,
    first: Obligation,
    rest: &mut Obligations,
    units: &mut Units,
) -> Result<Option<Ending>, Memory>
    requires kept { IsKept system.now frames.old }
    requires chain { Chain system.now frames.old.point (first ∷ rest.old) }
    requires misses { misses_start system.now first.cube ≡ true }
    requires level { 0 < first.level }
    requires room { frames.old.depth + 1 < 2 ^ 64 }
    ensures chain { IfOk result (λ r. IfNone r (Chain system.now frames.old.point rest.new)) }
    ensures used { IfOk result (λ r. IfNone r (units.old.used < units.new.used)) }
    ensures ending { IfOk result (λ r. IfSome r (IsEnding system.now frames.old.point units.new)) }
    ensures kept { IsKept system.now frames.new }
    ensures point { frames.new.point ≡ frames.old.point }
    ensures depth { frames.new.depth ≡ frames.old.depth }
    ensures uses { Uses units.old units.new }
{
    let depth = frames.depth();
    match frames.query_step(system, &first.cube, first.level, units)? {
        Query::Refuted => {
            let blocked = frames.block(system, &first.cube, first.level, depth + 1, units)?;
            put_back(first, blocked, depth, rest)?;
            Ok(None)
        }
        Query::Found(state, input) => {
            put_before(alloc, system, frames.point(), first, rest, state, input)?;
            Ok(None)
        }
        Query::Spent => Ok(Some(Ending::Spent)),
    }
}

/// Deals with the first obligation.
fn advance(
    alloc: Global,
    system: &System,
    frames: &mut Frames,
    stack: &mut Obligations,
    units: &mut Units,
) -> Result<Progress, Memory>
    requires kept { IsKept system.now frames.old }
    requires chain { Chain system.now frames.old.point stack.old }
    requires room { frames.old.depth + 1 < 2 ^ 64 }
    ensures chain { IfOk result (IsProgress system.now frames.old.point units.new (Chain system.now frames.old.point stack.new) (Unit {0})) }
    ensures used { IfOk result (IsProgress system.now frames.old.point units.new (units.old.used < units.new.used) (Unit {0})) }
    ensures kept { IsKept system.now frames.new }
    ensures point { frames.new.point ≡ frames.old.point }
    ensures depth { frames.new.depth ≡ frames.old.depth }
    ensures uses { Uses units.old units.new }
{
    let Some(first) = stack.pop() else {
        return Ok(Progress::Empty);
    };
    if !misses_start(system, &first.cube) {
        let walk = walk_of(alloc, system, frames.point(), first, stack)?;
        return Ok(Progress::Ended(Ending::Trace(walk)));
    }
    match lead(alloc, system, frames, first, stack, units)? {
        None => Ok(Progress::More),
        Some(ending) => Ok(Progress::Ended(ending)),
    }
}

/// Blocks the states of an obligation, or ends the search.
fn block_all(
    alloc: Global,
    system: &System,
    frames: &mut Frames,
    first: Obligation,
    units: &mut Units,
) -> Result<Option<Ending>, Memory>
    requires kept { IsKept system.now frames.old }
    requires chain { Chain system.now frames.old.point (first ∷ []) }
    requires room { frames.old.depth + 1 < 2 ^ 64 }
    ensures ending { IfOk result (λ r. IfSome r (IsEnding system.now frames.old.point units.new)) }
    ensures kept { IsKept system.now frames.new }
    ensures point { frames.new.point ≡ frames.old.point }
    ensures depth { frames.new.depth ≡ frames.old.depth }
    ensures uses { Uses units.old units.new }
{
    let mut stack = Obligations::new(alloc);
    stack.push(first)?;
    loop {
        match advance(alloc, system, frames, &mut stack, units)? {
            Progress::More => {}
            Progress::Empty => return Ok(None),
            Progress::Ended(ending) => return Ok(Some(ending)),
        }
    }
}

/// Blocks one state of the frontier that hits, and what its part of it stands for.
fn meet(
    alloc: Global,
    system: &System,
    frames: &mut Frames,
    units: &mut Units,
) -> Result<Progress, Memory>
    requires kept { IsKept system.now frames.old }
    requires room { frames.old.depth + 1 < 2 ^ 64 }
    ensures misses { IfOk result (IsProgress system.now frames.old.point units.new (Unit {0}) (MissesHit system.now frames.new.point frames.new.lemmas frames.new.depth)) }
    ensures used { IfOk result (IsProgress system.now frames.old.point units.new (units.old.used < units.new.used) (units.old.used < units.new.used)) }
    ensures kept { IsKept system.now frames.new }
    ensures point { frames.new.point ≡ frames.old.point }
    ensures depth { frames.new.depth ≡ frames.old.depth }
    ensures uses { Uses units.old units.new }
{
    let depth = frames.depth();
    match frames.query_hit(system, depth, units)? {
        Query::Refuted => Ok(Progress::Empty),
        Query::Found(state, input) => {
            let hit = system.hit(frames.point());
            let first = lift(alloc, system, state, input, &[hit], depth)?;
            match block_all(alloc, system, frames, first, units)? {
                None => Ok(Progress::More),
                Some(ending) => Ok(Progress::Ended(ending)),
            }
        }
        Query::Spent => Ok(Progress::Ended(Ending::Spent)),
    }
}

/// Blocks every state of the frontier that hits, or ends the search.
fn clear(
    alloc: Global,
    system: &System,
    frames: &mut Frames,
    units: &mut Units,
) -> Result<Option<Ending>, Memory>
    requires kept { IsKept system.now frames.old }
    requires room { frames.old.depth + 1 < 2 ^ 64 }
    ensures misses { IfOk result (λ r. IfNone r (MissesHit system.now frames.new.point frames.new.lemmas frames.new.depth)) }
    ensures used { IfOk result (λ r. IfNone r (units.old.used < units.new.used)) }
    ensures ending { IfOk result (λ r. IfSome r (IsEnding system.now frames.old.point units.new)) }
    ensures kept { IsKept system.now frames.new }
    ensures point { frames.new.point ≡ frames.old.point }
    ensures depth { frames.new.depth ≡ frames.old.depth }
    ensures uses { Uses units.old units.new }
{
    loop {
        match meet(alloc, system, frames, units)? {
            Progress::More => {}
            Progress::Empty => return Ok(None),
            Progress::Ended(ending) => return Ok(Some(ending)),
        }
    }
}

/// Raises lemmas level by level, until a level is left with none.
fn raise_all(system: &System, frames: &mut Frames, units: &mut Units) -> Result<Turn, Memory>
    requires kept { IsKept system.now frames.old }
    ensures turn { IfOk result (IsRaised system.now frames.new units.new) }
    ensures kept { IsKept system.now frames.new }
    ensures point { frames.new.point ≡ frames.old.point }
    ensures depth { frames.new.depth ≡ frames.old.depth }
    ensures uses { Uses units.old units.new }
{
    for level in 1..frames.depth() {
        match frames.raise_level(system, level, units)? {
            Level::Left => {}
            Level::Empty => return Ok(Turn::Closed { level }),
            Level::Spent => return Ok(Turn::Spent),
        }
    }
    Ok(Turn::More)
}

impl Frames {
    /// Makes the depth one more, and looks for a level at which the frames are equal. The system is the one that
    /// the frames were made for. After want of memory the frames are kept still.
    ///
    /// It asks a query for each obligation and each level that it goes up, some for each lemma that blocks one, and
    /// one for each lemma that may rise. A walk may be longer than the depth.
    pub fn step(&mut self, system: &System, units: &mut Units) -> Result<Turn, Memory>
        requires kept { IsKept system.now self.old }
        ensures turn { IfOk result (IsTurn system.now self.old self.new units.old units.new) }
        ensures kept { IsKept system.now self.new }
        ensures point { self.new.point ≡ self.old.point }
        ensures deeper { self.old.depth ≤ self.new.depth }
        ensures counted { self.new.depth + units.old.used ≤ self.old.depth + units.new.used }
        ensures uses { Uses units.old units.new }
    {
        let alloc = self.alloc();
        if self.depth() == u64::MAX {
            return Err(AllocError);
        }
        match clear(alloc, system, self, units)? {
            None => {}
            Some(Ending::Trace(walk)) => {
                let walk = cut(alloc, system, self.point(), walk)?;
                return Ok(Turn::Trace(walk));
            }
            Some(Ending::Spent) => return Ok(Turn::Spent),
        }
        self.rise(system);
        raise_all(system, self, units)
    }
}
