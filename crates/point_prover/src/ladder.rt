//! Ladders made of frames.
ghost use Rattle.std.specs.Prelude.{◌≡◌, ◌<◌, ◌≤◌, All, HoldsAt, IfOk, MatchOption, filter, length, map};
ghost use Rattle.bit_system.specs.Accepted.{IsAccepted, IsRefutedBy};
ghost use Rattle.bit_system.specs.Ladders.{is_at_least};
ghost use Rattle.bit_system.specs.Machine.{IsMachine};
ghost use Rattle.bit_system.specs.Queries.{step_clauses, hit_clauses};
ghost use Rattle.bit_system.specs.declared.ladder.Depth.TheVariants.{Steps, All as Ever};
ghost use Rattle.aig_core.specs.Graph.{node_count};
ghost use Rattle.generalise.specs.Effort.{Uses};
ghost use Rattle.ic3_frames.specs.Rules.{IsKept};
ghost use Rattle.ic3_frames.specs.Turns.{IsClosed};
ghost use Rattle.point_cone.specs.Back.{whole_lemma};
ghost use Rattle.point_cone.specs.Parts.{IsCone};
ghost use Rattle.point_prover.specs.Good.{IsGood, AreProved};
ghost use Rattle.point_prover.specs.Levels.{capped, all_capped, all_for_ever};

use crate::proving::refute;
use bit_system::{Depth, Ladder, Lemma, Memory, Proof, System, hit_query, step_query};
use generalise::Units;
use ic3_frames::Frames;
use point_cone::Cone;
use sqlite_items::Items;
use std::alloc::Global;

/// The lemma at another level.
fn at_level(alloc: Global, lemma: &Lemma, level: Depth) -> Result<Lemma, Memory>
    ensures { IfOk result (λ l. l ≡ record lemma.now { level = level }) }
{
    let lits = Items::from_slice(alloc, lemma.lits.as_slice())?;
    Ok(Lemma { level, lits })
}

/// The lemmas of this level and above, for any number of steps.
fn lemmas_for_ever(alloc: Global, lemmas: &[Lemma], level: u64) -> Result<Items<Lemma>, Memory>
    ensures { IfOk result (λ ls. ls ≡ all_for_ever level lemmas.now) }
{
    let mut kept = Items::new(alloc);
    for lemma in lemmas {
        if lemma.level.is_at_least(Depth::Steps(level)) {
            kept.push(at_level(alloc, lemma, Depth::All)?)?;
        }
    }
    Ok(kept)
}

/// The level, or the top where it is above that.
fn capped(level: Depth, top: u64) -> Depth
    ensures { result ≡ capped top level }
{
    match level {
        Depth::All => Depth::Steps(top),
        Depth::Steps(steps) => Depth::Steps(steps.min(top)),
    }
}

/// The lemmas, with levels up to the top alone.
fn lemmas_capped(alloc: Global, lemmas: &[Lemma], top: u64) -> Result<Items<Lemma>, Memory>
    ensures { IfOk result (λ ls. ls ≡ all_capped top lemmas.now) }
{
    let mut kept = Items::new(alloc);
    if top == 0 {
        return Ok(kept);
    }
    for lemma in lemmas {
        kept.push(at_level(alloc, lemma, capped(lemma.level, top))?)?;
    }
    Ok(kept)
}

/// The lemmas of the cone, about the whole system.
fn whole_lemmas(alloc: Global, cone: &Cone, lemmas: &[Lemma]) -> Result<Items<Lemma>, Memory>
    requires { All (λ k. All (λ l. l.state < length cone.now.states) k.lits) lemmas.now }
    ensures { IfOk result (λ ls. ls ≡ map (whole_lemma cone.now.states) lemmas.now) }
{
    let mut whole = Items::new(alloc);
    for lemma in lemmas {
        whole.push(cone.lemma(alloc, lemma)?)?;
    }
    Ok(whole)
}

/// The proof of the lemma at this place.
fn step_proof(
    alloc: Global,
    system: &System,
    depth: Depth,
    point: u32,
    lemmas: &[Lemma],
    at: usize,
    units: &mut Units,
) -> Result<Option<Proof>, Memory>
    requires good { IsGood system.now point depth lemmas.now }
    requires at { at < length lemmas.now }
    ensures proof { IfOk result (λ p. MatchOption p (units.new.used ≡ units.new.effort)
        (λ p. HoldsAt (λ l. IsRefutedBy (node_count system.now.graph) (step_clauses system.now lemmas.now l) p) lemmas.now at)) }
    ensures uses { Uses units.old units.new }
{
    let clauses = step_query(alloc, system, lemmas, at as u64)?;
    let proof = refute(alloc, &clauses, units)?;
    Ok(proof)
}

/// The proofs of all lemmas. There are none only where the effort is used.
fn step_proofs(
    alloc: Global,
    system: &System,
    depth: Depth,
    point: u32,
    lemmas: &[Lemma],
    units: &mut Units,
) -> Result<Option<Items<Proof>>, Memory>
    requires { IsGood system.now point depth lemmas.now }
    ensures proofs { IfOk result (λ p. MatchOption p (units.new.used ≡ units.new.effort) (AreProved system.now lemmas.now (length lemmas.now))) }
    ensures uses { Uses units.old units.new }
{
    let mut proofs = Items::new(alloc);
    for at in 0..lemmas.len() {
        let Some(proof) = step_proof(alloc, system, depth, point, lemmas, at, units)? else {
            return Ok(None);
        };
        proofs.push(proof)?;
    }
    Ok(Some(proofs))
}

/// The proof that the point isn't hit.
fn hit_proof(
    alloc: Global,
    system: &System,
    depth: Depth,
    point: u32,
    lemmas: &[Lemma],
    units: &mut Units,
) -> Result<Option<Proof>, Memory>
    requires { IsGood system.now point depth lemmas.now }
    ensures proof { IfOk result (λ p. MatchOption p (units.new.used ≡ units.new.effort)
        (IsRefutedBy (node_count system.now.graph) (hit_clauses system.now depth lemmas.now point))) }
    ensures uses { Uses units.old units.new }
{
    let clauses = hit_query(alloc, system, depth, lemmas, point)?;
    let proof = refute(alloc, &clauses, units)?;
    Ok(proof)
}

/// The ladder of these lemmas. There is none only where the effort is used.
fn ladder_of(
    alloc: Global,
    system: &System,
    depth: Depth,
    point: u32,
    lemmas: Items<Lemma>,
    units: &mut Units,
) -> Result<Option<Ladder>, Memory>
    requires { IsGood system.now point depth lemmas }
    ensures ladder { IfOk result (λ l. MatchOption l (units.new.used ≡ units.new.effort) (λ l. (l.depth ≡ depth) × IsAccepted system.now point l)) }
    ensures uses { Uses units.old units.new }
{
    let Some(steps) = step_proofs(alloc, system, depth, point, lemmas.as_slice(), units)? else {
        return Ok(None);
    };
    let Some(hit) = hit_proof(alloc, system, depth, point, lemmas.as_slice(), units)? else {
        return Ok(None);
    };
    Ok(Some(Ladder {
        depth,
        lemmas,
        steps,
        hit: Some(hit),
    }))
}

/// The ladder of frames that are equal from this level on.
pub fn closed_ladder(
    alloc: Global,
    system: &System,
    cone: &Cone,
    frames: &Frames,
    level: u64,
    units: &mut Units,
) -> Result<Option<Ladder>, Memory>
    requires cone { IsCone system.now cone.now }
    requires kept { IsKept cone.now.system frames.now }
    requires point { frames.now.point ≡ 0 }
    requires closed { IsClosed cone.now.system frames.now level }
    ensures ladder { IfOk result (λ l. MatchOption l (units.new.used ≡ units.new.effort) (λ l. (l.depth ≡ Ever) × IsAccepted system.now cone.now.point l)) }
    ensures uses { Uses units.old units.new }
{
    // Shows that the parts of the system fit.
    let _nodes = system.node_count();
    let lemmas = lemmas_for_ever(alloc, frames.lemmas(), level)?;
    let lemmas = whole_lemmas(alloc, cone, lemmas.as_slice())?;
    let ladder = ladder_of(alloc, system, Depth::All, cone.point, lemmas, units)?;
    Ok(ladder)
}

/// The ladder of the frames below their depth.
pub fn depth_ladder(
    alloc: Global,
    system: &System,
    cone: &Cone,
    frames: &Frames,
    units: &mut Units,
) -> Result<Option<Ladder>, Memory>
    requires cone { IsCone system.now cone.now }
    requires kept { IsKept cone.now.system frames.now }
    requires point { frames.now.point ≡ 0 }
    requires depth { 0 < frames.now.depth }
    ensures ladder { IfOk result (λ l. MatchOption l (units.new.used ≡ units.new.effort) (λ l. (l.depth ≡ Steps frames.now.depth) × IsAccepted system.now cone.now.point l)) }
    ensures uses { Uses units.old units.new }
{
    // Shows that the parts of the system fit.
    let _nodes = system.node_count();
    let depth = frames.depth();
    let lemmas = lemmas_capped(alloc, frames.lemmas(), depth - 1)?;
    let lemmas = whole_lemmas(alloc, cone, lemmas.as_slice())?;
    let ladder = ladder_of(
        alloc,
        system,
        Depth::Steps(depth),
        cone.point,
        lemmas,
        units,
    )?;
    Ok(ladder)
}
