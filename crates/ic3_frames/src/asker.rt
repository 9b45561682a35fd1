//! Answers queries about cubes, from the lemmas of the frames.
ghost use Rattle.std.specs.Prelude.{◌≡◌, All, IfOk};
ghost use Rattle.bit_system.specs.Ladders.{HasStates};
ghost use Rattle.generalise.specs.Cubes.{HasBits};
ghost use Rattle.generalise.specs.Effort.{Uses};
ghost use Rattle.generalise.specs.Frames.{IsLevel, IsLearnable};
ghost use Rattle.generalise.specs.Parts.{IsPart};
ghost use Rattle.ic3_frames.specs.Queries.{StepsInto, Finds};

use crate::query::{Query, query_step};
use bit_system::{Depth, Lemma, Memory, System};
use generalise::{Ask, Cube, Units, drop_literals, lemma_of};
use sqlite_items::Items;
use std::alloc::Global;
use std::marker::Model;

/// Looks for a step into the cube, from a state outside it that lies in the frame before the level. The lemmas are
/// as before at each return.
pub fn query_cube(
    alloc: Global,
    system: &System,
    lemmas: &mut Items<Lemma>,
    level: Depth,
    cube: &Cube,
    units: &mut Units,
) -> Result<Query, Memory>
    requires level { IsLevel level }
    requires cube { HasBits system.now cube.now }
    requires states { All (HasStates system.now) lemmas.old }
    ensures finds { IfOk result (Finds (StepsInto system.now lemmas.old level cube.now) units.old units.new) }
    ensures lemmas { lemmas.new ≡ lemmas.old }
    ensures uses { Uses units.old units.new }
{
    let at = lemmas.len();
    let lemma = lemma_of(alloc, level, cube)?;
    lemmas.push(lemma)?;
    let query = query_step(alloc, system, lemmas.as_slice(), at, units);
    lemmas.remove(at);
    query
}

/// A system and the lemmas of its frames.
#[derive(Drop)]
pub struct Asker<'a> {
    alloc: Global,
    system: &'a System,
    lemmas: Items<Lemma>,
}

impl<'a> Model for Asker<'a> {
    ghost use Rattle.std.specs.Prelude.{All};
    ghost use Rattle.bit_system.specs.Ladders.{HasStates};
    ghost use Rattle.ic3_frames.specs.Framed.{Told};

    ghost Value = { Told };

    ghost view = { λ a. record { machine = a.system.now; lemmas = a.lemmas } };

    ghost invariant = { λ a. All (HasStates a.system.now) a.lemmas };
}

impl<'a> Ask for Asker<'a> {
    ghost machine = { λ a. a.machine };

    ghost frames = { λ a. a.lemmas };

    fn step_blocks(
        &mut self,
        cube: &Cube,
        level: Depth,
        units: &mut Units,
    ) -> Result<Option<bool>, Memory> {
        let system = self.system;
        match query_cube(self.alloc, system, &mut self.lemmas, level, cube, units)? {
            Query::Refuted => Ok(Some(true)),
            Query::Found(_, _) => Ok(Some(false)),
            Query::Spent => Ok(None),
        }
    }
}

impl<'a> Asker<'a> {
    fn make(alloc: Global, system: &'a System, lemmas: Items<Lemma>) -> Self
        requires { All (HasStates system.now) lemmas }
        ensures { result ≡ record { machine = system.now; lemmas = lemmas } }
    {
        Asker {
            alloc,
            system,
            lemmas,
        }
    }

    fn into_lemmas(self) -> Items<Lemma>
        ensures { result ≡ self.entry.lemmas }
    {
        let Asker {
            alloc: _,
            system: _,
            lemmas,
        } = self;
        lemmas
    }
}

/// A part of the cube that may still become a lemma. The lemmas are as before at each return.
pub fn smaller(
    alloc: Global,
    system: &System,
    lemmas: &mut Items<Lemma>,
    cube: &Cube,
    level: Depth,
    units: &mut Units,
) -> Result<Cube, Memory>
    requires level { IsLevel level }
    requires states { All (HasStates system.now) lemmas.old }
    requires learnable { IsLearnable system.now lemmas.old level cube.now }
    ensures learnable { IfOk result (λ c. IsLearnable system.now lemmas.old level c) }
    ensures part { IfOk result (λ c. IsPart c cube.now) }
    ensures lemmas { lemmas.new ≡ lemmas.old }
    ensures uses { Uses units.old units.new }
{
    let known = std::mem::replace(lemmas, Items::new(alloc));
    let mut asker = Asker::make(alloc, system, known);
    let part = drop_literals(alloc, &mut asker, system, cube, level, units);
    *lemmas = asker.into_lemmas();
    part
}
