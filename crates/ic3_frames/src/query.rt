//! The queries of the search, each a solver of its own over exactly the clauses of a ladder's query.
ghost use Rattle.std.specs.Prelude.{◌≡◌, ◌<◌, All, HoldsAt, IfOk, length};
ghost use Rattle.aig_core.specs.Graph.{node_count};
ghost use Rattle.bit_system.specs.Ladders.{HasStates};
ghost use Rattle.sat_core.specs.Answers.{valuation};
ghost use Rattle.bit_system.specs.Queries.{state_of, input_of};
ghost use Rattle.generalise.specs.Effort.{Uses};
ghost use Rattle.generalise.specs.Frames.{IsLevel};
ghost use Rattle.ic3_frames.specs.Found.{HasValues, IsAnswerOf};
ghost use Rattle.ic3_frames.specs.Queries.{Fails, Hits, Finds};

use crate::solve::{Solved, solve};
use bit_system::{Depth, Lemma, Memory, System, hit_query, step_query};
use generalise::Units;
use sqlite_items::Items;
use std::alloc::Global;

/// What a query finds.
#[derive(Drop)]
pub enum Query {
    /// There is no state and input as it says.
    Refuted,
    /// A state and an input.
    Found(Items<bool>, Items<bool>),
    /// The effort is used.
    Spent,
}

/// The values of the state bits and of the inputs.
fn found(alloc: Global, system: &System, values: &[bool]) -> Result<Query, Memory>
    requires { length values.now ≡ node_count system.now.graph }
    ensures { IfOk result (λ q. q ≡ Query.Found (state_of system.now (valuation values.now)) (input_of system.now (valuation values.now))) }
{
    // Shows that the parts of the system fit.
    let states = system.states().len();
    let first = 1 + system.inputs() as usize;
    let state = Items::from_slice(alloc, &values[first..first + states])?;
    let input = Items::from_slice(alloc, &values[1..first])?;
    Ok(Query::Found(state, input))
}

/// What the answer says of the system.
fn answer(alloc: Global, system: &System, solved: Solved) -> Result<Query, Memory>
    requires { HasValues (node_count system.now.graph) solved }
    ensures { IfOk result (IsAnswerOf system.now solved) }
{
    match solved {
        Solved::Refuted => Ok(Query::Refuted),
        Solved::Values(values) => {
            let query = found(alloc, system, values.as_slice())?;
            Ok(query)
        }
        Solved::Spent => Ok(Query::Spent),
    }
}

/// Looks for a step that makes the lemma at this place false, from a state of the frame before its level.
pub fn query_step(
    alloc: Global,
    system: &System,
    lemmas: &[Lemma],
    at: usize,
    units: &mut Units,
) -> Result<Query, Memory>
    requires at { at < length lemmas.now }
    requires level { HoldsAt (λ l. IsLevel l.level) lemmas.now at }
    requires states { All (HasStates system.now) lemmas.now }
    ensures finds { IfOk result (λ q. HoldsAt (λ l. Finds (Fails system.now lemmas.now l) units.old units.new q) lemmas.now at) }
    ensures uses { Uses units.old units.new }
{
    let clauses = step_query(alloc, system, lemmas, at as u64)?;
    let solved = solve(alloc, &clauses, system.node_count(), units)?;
    let query = answer(alloc, system, solved)?;
    Ok(query)
}

/// Looks for a hit from a state of the frame before this depth.
pub fn query_hit(
    alloc: Global,
    system: &System,
    depth: Depth,
    lemmas: &[Lemma],
    point: u32,
    units: &mut Units,
) -> Result<Query, Memory>
    requires point { point < length system.now.hits }
    requires level { IsLevel depth }
    requires states { All (HasStates system.now) lemmas.now }
    ensures finds { IfOk result (Finds (Hits system.now point lemmas.now depth) units.old units.new) }
    ensures uses { Uses units.old units.new }
{
    let clauses = hit_query(alloc, system, depth, lemmas, point)?;
    let solved = solve(alloc, &clauses, system.node_count(), units)?;
    let query = answer(alloc, system, solved)?;
    Ok(query)
}
