//! The frames of a search.
ghost use Rattle.std.specs.Prelude.{◌≡◌, ◌+◌, ◌^◌, ◌<◌, ◌≤◌, ◌∷◌, ◌++◌, [], All, IfOk, OnErr, OnOk, List, IsTrue, Contains, length, map, slice_index_or, HoldsAt};
ghost use Rattle.std.specs.List.{remove};
ghost use Rattle.bit_system.specs.Machine.{Machine};
ghost use Rattle.bit_system.specs.declared.ladder.StateLit.{StateLit as BitLit};
ghost use Rattle.bit_system.specs.declared.ladder.Lemma.{Lemma as FrameLemma};
ghost use Rattle.bit_system.specs.declared.ladder.Depth.TheVariants.{Steps};
ghost use Rattle.generalise.specs.Cubes.{HasBits, lemma_of, opposite};
ghost use Rattle.generalise.specs.Effort.{Uses};
ghost use Rattle.generalise.specs.Frames.{IsLearnable};
ghost use Rattle.ic3_frames.specs.Ascents.{IsHighest, KeepsOut, LieIn};
ghost use Rattle.ic3_frames.specs.Known.{Subsumes, IsNeedless};
ghost use Rattle.ic3_frames.specs.Queries.{Finds, Hits, StepsInto};
ghost use Rattle.ic3_frames.specs.Raised.{AreSameUpTo, IsLeft, IsPlace};
ghost use Rattle.ic3_frames.specs.Rules.{IsKept, MissesHit, KeptFramesKeepTheRules};

use crate::asker::{query_cube, smaller};
use crate::query::{Query, query_hit};
use bit_system::{Depth, Lemma, Memory, StateLit, System};
use generalise::{Cube, Units, lemma_of};
use sqlite_items::Items;
use std::alloc::Global;
use std::marker::Model;

/// What is left at a level.
#[derive(Clone, Copy)]
pub enum Level {
    /// A lemma.
    Left,
    /// No lemma.
    Empty,
    /// The effort is used.
    Spent,
}

/// The lemmas of a point's search, each with the highest level at which it stands, and the number of steps from
/// the start without a hit.
#[derive(Drop)]
pub struct Frames {
    alloc: Global,
    point: u32,
    lemmas: Items<Lemma>,
    depth: u64,
}

impl Model for Frames {
    ghost use Rattle.ic3_frames.specs.Framed.{Framed};

    ghost Value = { Framed };

    ghost view = { λ f. record { point = f.point; lemmas = f.lemmas; depth = f.depth } };
}

/// The cube of the states that the lemma keeps out.
fn cube_of(alloc: Global, lemma: &Lemma) -> Result<Cube, Memory>
    ensures { IfOk result (λ c. c ≡ map opposite lemma.now.lits) }
{
    let mut cube = Items::new(alloc);
    for lit in lemma.lits.as_slice() {
        cube.push(StateLit {
            state: lit.state,
            positive: !lit.positive,
        })?;
    }
    Ok(cube)
}

/// Whether the literal is one of these.
fn has(lits: &[StateLit], literal: StateLit) -> bool
    ensures { IsTrue result → Contains lits.now literal }
{
    for lit in lits {
        if *lit == literal {
            return true;
        }
    }
    false
}

/// Whether each literal of `part` is one of `whole`.
fn has_all(whole: &[StateLit], part: &[StateLit]) -> bool
    ensures { IsTrue result → All (Contains whole.now) part.now }
{
    for lit in part {
        if !has(whole, *lit) {
            return false;
        }
    }
    true
}

/// Whether the first lemma says what the second one does, as far as that.
fn subsumes(first: &Lemma, second: &Lemma) -> bool
    ensures { IsTrue result → Subsumes first.now second.now }
{
    if !first.level.is_at_least(second.level) {
        return false;
    }
    has_all(second.lits.as_slice(), first.lits.as_slice())
}

impl Frames {
    /// The frames of the point's search, with no lemma.
    pub fn make(alloc: Global, system: &System, point: u32) -> Self
        requires { point < length system.now.hits }
        ensures framed { result ≡ record { point = point; lemmas = []; depth = 0 } }
        ensures kept { IsKept system.now result }
    {
        // Shows that the parts of the system fit.
        let _nodes = system.node_count();
        Frames {
            alloc,
            point,
            lemmas: Items::new(alloc),
            depth: 0,
        }
    }

    pub(crate) fn alloc(&self) -> Global {
        self.alloc
    }

    pub(crate) fn point(&self) -> u32
        ensures { result ≡ self.now.point }
    {
        self.point
    }

    /// The number of steps from the start without a hit.
    pub fn depth(&self) -> u64
        ensures { result ≡ self.now.depth }
    {
        self.depth
    }

    /// The lemmas, each with the highest level at which it stands: from frame 1 on a frame is the lemmas of its
    /// level and above. Each has its literals in strictly rising order of state bits, and the start makes one true.
    pub fn lemmas(&self) -> &[Lemma]
        ensures { result.now ≡ self.now.lemmas }
    {
        self.lemmas.as_slice()
    }

    /// Looks for a step into the cube, from a state outside it that lies in the frame before the level.
    pub(crate) fn query_step(
        &mut self,
        system: &System,
        cube: &Cube,
        level: u64,
        units: &mut Units,
    ) -> Result<Query, Memory>
        requires kept { IsKept system.now self.old }
        requires level { 0 < level }
        requires cube { HasBits system.now cube.now }
        ensures finds { IfOk result (Finds (StepsInto system.now self.old.lemmas (Steps level) cube.now) units.old units.new) }
        ensures same { self.new ≡ self.old }
        ensures uses { Uses units.old units.new }
    {
        let alloc = self.alloc;
        query_cube(
            alloc,
            system,
            &mut self.lemmas,
            Depth::Steps(level),
            cube,
            units,
        )
    }

    /// Looks for a hit from a state of the frame of this level.
    pub(crate) fn query_hit(
        &self,
        system: &System,
        level: u64,
        units: &mut Units,
    ) -> Result<Query, Memory>
        requires kept { IsKept system.now self.now }
        requires room { level + 1 < 2 ^ 64 }
        ensures finds { IfOk result (Finds (Hits system.now self.now.point self.now.lemmas (Steps (level + 1))) units.old units.new) }
        ensures uses { Uses units.old units.new }
    {
        let depth = Depth::Steps(level + 1);
        query_hit(
            self.alloc,
            system,
            depth,
            self.lemmas.as_slice(),
            self.point,
            units,
        )
    }

    /// Makes a lemma of the cube.
    fn learn(&mut self, cube: &Cube, level: u64) -> Result<(), Memory>
        ensures ok { OnOk result (self.new ≡ record self.old { lemmas = self.old.lemmas ++ lemma_of (Steps level) cube.now ∷ [] }) }
        ensures err { OnErr result (self.new ≡ self.old) }
    {
        let lemma = lemma_of(self.alloc, Depth::Steps(level), cube)?;
        self.lemmas.push(lemma)?;
        Ok(())
    }

    /// The highest level up to `top` at which the cube is blocked, or the one that was come to where the effort is
    /// used.
    fn ascend(
        &mut self,
        system: &System,
        cube: &Cube,
        level: u64,
        top: u64,
        units: &mut Units,
    ) -> Result<u64, Memory>
        requires kept { IsKept system.now self.old }
        requires level { 0 < level }
        requires learnable { IsLearnable system.now self.old.lemmas (Steps level) cube.now }
        ensures highest { IfOk result (IsHighest system.now self.old.lemmas cube.now level top units.new) }
        ensures same { self.new ≡ self.old }
        ensures uses { Uses units.old units.new }
    {
        let mut high = level;
        while high < top {
            match self.query_step(system, cube, high + 1, units)? {
                Query::Refuted => high += 1,
                Query::Found(_, _) => return Ok(high),
                Query::Spent => return Ok(high),
            }
        }
        Ok(high)
    }

    /// Blocks the cube, which is blocked at this level, at the highest level up to `top` at which it is, by a part
    /// of it, and gives that level. At a lower one parts are blocked too that aren't above.
    pub(crate) fn block(
        &mut self,
        system: &System,
        cube: &Cube,
        level: u64,
        top: u64,
        units: &mut Units,
    ) -> Result<u64, Memory>
        requires kept { IsKept system.now self.old }
        requires level { 0 < level }
        requires learnable { IsLearnable system.now self.old.lemmas (Steps level) cube.now }
        ensures above { IfOk result (λ high. level ≤ high) }
        ensures blocked { IfOk result (λ high. KeepsOut system.now self.new.lemmas high cube.now) }
        ensures kept { IsKept system.now self.new }
        ensures point { self.new.point ≡ self.old.point }
        ensures depth { self.new.depth ≡ self.old.depth }
        ensures uses { Uses units.old units.new }
    {
        let alloc = self.alloc;
        let high = self.ascend(system, cube, level, top, units)?;
        let part = smaller(
            alloc,
            system,
            &mut self.lemmas,
            cube,
            Depth::Steps(high),
            units,
        )?;
        self.learn(&part, high)?;
        self.tidy();
        Ok(high)
    }

    /// Whether the last lemma makes the one at this place needless.
    fn is_needless(&self, at: usize) -> bool
        requires { at + 1 < length self.now.lemmas }
        ensures { IsTrue result → IsNeedless self.now.lemmas at }
    {
        let lemmas = self.lemmas.as_slice();
        subsumes(&lemmas[lemmas.len() - 1], &lemmas[at])
    }

    /// Forgets the lemma at this place, which the last one makes needless.
    fn forget(&mut self, at: usize)
        requires at { at + 1 < length self.old.lemmas }
        requires needless { IsNeedless self.old.lemmas at }
        ensures lemmas { self.new ≡ record self.old { lemmas = remove self.old.lemmas at } }
        ensures within { LieIn self.new.lemmas self.old.lemmas }
        ensures kept { (m : Machine) → IsKept m self.old → IsKept m self.new }
    {
        self.lemmas.remove(at);
    }

    /// Forgets the lemmas that the last one makes needless.
    fn tidy(&mut self)
        ensures within { LieIn self.new.lemmas self.old.lemmas }
        ensures kept { (m : Machine) → IsKept m self.old → IsKept m self.new }
        ensures point { self.new.point ≡ self.old.point }
        ensures depth { self.new.depth ≡ self.old.depth }
    {
        let mut at = self.lemmas.len().saturating_sub(1);
        while at > 0 {
            at -= 1;
            if self.is_needless(at) {
                self.forget(at);
            }
        }
    }

    /// Puts the lemma at this place one level higher, where no step from the frame of its level makes it false.
    fn raise(
        &mut self,
        system: &System,
        at: usize,
        level: u64,
        units: &mut Units,
    ) -> Result<Level, Memory>
        requires kept { IsKept system.now self.old }
        requires at { at < length self.old.lemmas }
        requires level { HoldsAt (λ l. l.level ≡ Steps level) self.old.lemmas at }
        requires room { level + 1 < 2 ^ 64 }
        ensures kept { IsKept system.now self.new }
        ensures place { IfOk result (IsPlace system.now self.old.lemmas self.new.lemmas at level units.new) }
        ensures same { AreSameUpTo system.now level self.old.lemmas self.new.lemmas }
        ensures length { length self.new.lemmas ≡ length self.old.lemmas }
        ensures point { self.new.point ≡ self.old.point }
        ensures depth { self.new.depth ≡ self.old.depth }
        ensures uses { Uses units.old units.new }
    {
        let next = level + 1;
        let cube = cube_of(self.alloc, &self.lemmas.as_slice()[at])?;
        match self.query_step(system, &cube, next, units)? {
            Query::Refuted => {
                let lemma = lemma_of(self.alloc, Depth::Steps(next), &cube)?;
                self.lemmas.set(at, lemma);
                Ok(Level::Empty)
            }
            Query::Found(_, _) => Ok(Level::Left),
            Query::Spent => Ok(Level::Spent),
        }
    }

    /// Raises the lemma at this place if it has this level, and says whether it has the level still.
    fn raise_at(
        &mut self,
        system: &System,
        at: usize,
        level: u64,
        units: &mut Units,
    ) -> Result<Level, Memory>
        requires kept { IsKept system.now self.old }
        requires at { at < length self.old.lemmas }
        requires room { level + 1 < 2 ^ 64 }
        ensures kept { IsKept system.now self.new }
        ensures place { IfOk result (IsPlace system.now self.old.lemmas self.new.lemmas at level units.new) }
        ensures same { AreSameUpTo system.now level self.old.lemmas self.new.lemmas }
        ensures length { length self.new.lemmas ≡ length self.old.lemmas }
        ensures point { self.new.point ≡ self.old.point }
        ensures depth { self.new.depth ≡ self.old.depth }
        ensures uses { Uses units.old units.new }
    {
        if self.lemmas.as_slice()[at].level != Depth::Steps(level) {
            return Ok(Level::Empty);
        }
        self.raise(system, at, level, units)
    }

    /// Raises each lemma of this level that no step from its frame makes false.
    pub(crate) fn raise_level(
        &mut self,
        system: &System,
        level: u64,
        units: &mut Units,
    ) -> Result<Level, Memory>
        requires kept { IsKept system.now self.old }
        requires level { 0 < level }
        requires room { level + 1 < 2 ^ 64 }
        ensures kept { IsKept system.now self.new }
        ensures same { AreSameUpTo system.now level self.old.lemmas self.new.lemmas }
        ensures left { IfOk result (IsLeft system.now self.new level units.new) }
        ensures point { self.new.point ≡ self.old.point }
        ensures depth { self.new.depth ≡ self.old.depth }
        ensures uses { Uses units.old units.new }
    {
        let mut left = false;
        for at in 0..self.lemmas.len() {
            match self.raise_at(system, at, level, units)? {
                Level::Empty => {}
                Level::Left => left = true,
                Level::Spent => return Ok(Level::Spent),
            }
        }
        if left {
            return Ok(Level::Left);
        }
        Ok(Level::Empty)
    }

    /// Makes the depth one more.
    pub(crate) fn rise(&mut self, system: &System)
        requires kept { IsKept system.now self.old }
        requires misses { MissesHit system.now self.old.point self.old.lemmas self.old.depth }
        requires room { self.old.depth + 1 < 2 ^ 64 }
        ensures framed { self.new ≡ record self.old { depth = self.old.depth + 1 } }
        ensures kept { IsKept system.now self.new }
    {
        // Shows that the parts of the system fit.
        let _nodes = system.node_count();
        self.depth += 1;
    }
}

/// Frames that are kept keep the rules.
pub fn law_kept_frames_keep_the_rules()
    ensures { KeptFramesKeepTheRules }
{}
