//! From a cone back to the whole system.
ghost use Rattle.std.specs.Prelude.{◌≡◌, ◌<◌, false, All, IfOk, length, map, replicate};
ghost use Rattle.bit_system.specs.Machine.{IsStart, IsInput};
ghost use Rattle.point_cone.specs.Back.{whole_lit, whole_lemma, value_of_start, starting, IsPut, AgreeElsewhere};
ghost use Rattle.point_cone.specs.Laws.{WalksAreSeen, LemmasAreSame};
ghost use Rattle.point_cone.specs.Parts.{ArePlaces, IsCone, part};

use crate::build::Cone;
use bit_system::{Lemma, Memory, StateInfo, StateLit, System};
use sqlite_items::Items;
use std::alloc::Global;

fn value_of_start(start: Option<bool>) -> bool
    ensures { result ≡ value_of_start start }
{
    match start {
        Some(value) => value,
        None => false,
    }
}

/// The starting values, and false where there is none.
fn starting(alloc: Global, states: &[StateInfo]) -> Result<Items<bool>, Memory>
    ensures { IfOk result (λ v. v ≡ starting states.now) }
{
    let mut values = Items::new(alloc);
    for state in states {
        values.push(value_of_start(state.start))?;
    }
    Ok(values)
}

/// Sets the values at these places.
fn put(values: &mut Items<bool>, places: &[u32], some: &[bool])
    requires places { ArePlaces (length values.old) places.now }
    requires length { length some.now ≡ length places.now }
    ensures { IsPut places.now some.now (length places.now) values.old values.new }
{
    for (k, place) in places.iter().enumerate() {
        values.set(*place as usize, some[k]);
    }
}

impl Cone {
    /// The lemma about the whole system.
    pub fn lemma(&self, alloc: Global, lemma: &Lemma) -> Result<Lemma, Memory>
        requires { All (λ l. l.state < length self.now.states) lemma.now.lits }
        ensures { IfOk result (λ l. l ≡ whole_lemma self.now.states lemma.now) }
    {
        let states = self.states.as_slice();
        let mut lits = Items::new(alloc);
        for lit in lemma.lits.as_slice() {
            lits.push(StateLit {
                state: states[lit.state as usize],
                positive: lit.positive,
            })?;
        }
        Ok(Lemma {
            level: lemma.level,
            lits,
        })
    }

    /// A start of the whole system with this part: the starting values elsewhere, or false.
    pub fn start(
        &self,
        alloc: Global,
        system: &System,
        start: &[bool],
    ) -> Result<Items<bool>, Memory>
        requires cone { IsCone system.now self.now }
        requires start { IsStart self.now.system start.now }
        ensures start { IfOk result (IsStart system.now) }
        ensures part { IfOk result (λ s. part self.now.states s ≡ start.now) }
        ensures elsewhere { IfOk result (AgreeElsewhere self.now.states (starting system.now.states)) }
    {
        let mut values = starting(alloc, system.states())?;
        put(&mut values, self.states.as_slice(), start);
        Ok(values)
    }

    /// An input of the whole system with this part, false elsewhere.
    pub fn input(
        &self,
        alloc: Global,
        system: &System,
        input: &[bool],
    ) -> Result<Items<bool>, Memory>
        requires cone { IsCone system.now self.now }
        requires input { IsInput self.now.system input.now }
        ensures input { IfOk result (IsInput system.now) }
        ensures part { IfOk result (λ i. part self.now.inputs i ≡ input.now) }
        ensures elsewhere { IfOk result (AgreeElsewhere self.now.inputs (replicate system.now.graph.inputs false)) }
    {
        let mut values = Items::from_vec(vec![in alloc; false; system.inputs() as usize]?);
        put(&mut values, self.inputs.as_slice(), input);
        Ok(values)
    }
}

/// The part of a walk of the whole system is a walk of the cone, with the same hits.
pub fn law_walks_are_seen()
    ensures { WalksAreSeen }
{}

/// A lemma of the cone, on the places in the whole system, is true in a state where it is true in the state's part.
pub fn law_lemmas_are_same()
    ensures { LemmasAreSame }
{}
