//! Ladders: lemmas, and their proofs.

ghost use Rattle.std.specs.Prelude.{◌≡◌, codes};
ghost use Rattle.line_text.specs.Lines.{words};
ghost use Rattle.line_text.specs.Reading.{Gives, line_by};
ghost use Rattle.line_text.specs.Tagged.{alone_of};
ghost use Rattle.cert_text.specs.Ladders.{ladder_at, no_ladder_at, cycles_at};

use crate::cert::NamedLadder;
use crate::lemma::lemmas;
use crate::lrat::{hit, steps};
use line_text::{LineError, Lines, is_alone};
use sqlite_items::Items;
use std::alloc::Global;

fn end_line(lines: &mut Lines<'_>) -> Result<(), LineError>
    ensures { Gives (λ x. x) lines.new result (line_by (alone_of (codes "end")) lines.old) }
{
    let at = lines.line();
    let line = lines.next()?;
    match is_alone(b"end", line) {
        Some(()) => Ok(()),
        None => Err(LineError::BadLine { line: at }),
    }
}

/// Reads a ladder of so many lemmas, whose levels must be `all` where the claim is for all cycles.
#[tactic(auto, unfolding(crate::specs::Ladders::ladder_at))]
pub fn ladder(
    alloc: Global,
    forever: bool,
    count: u64,
    lines: &mut Lines<'_>,
) -> Result<NamedLadder, LineError>
    ensures { Gives (λ x. x) lines.new result (ladder_at forever count lines.old) }
{
    let lemmas = lemmas(alloc, forever, count, lines)?;
    let steps = steps(alloc, count, lines)?;
    let hit = hit(alloc, lines)?;
    end_line(lines)?;
    Ok(NamedLadder {
        lemmas,
        steps,
        hit: Some(hit),
    })
}

#[tactic(auto, unfolding(crate::specs::Ladders::no_ladder_at))]
fn no_ladder(alloc: Global, lines: &mut Lines<'_>) -> Result<NamedLadder, LineError>
    ensures { Gives (λ x. x) lines.new result (no_ladder_at lines.old) }
{
    end_line(lines)?;
    Ok(NamedLadder {
        lemmas: Items::new(alloc),
        steps: Items::new(alloc),
        hit: None,
    })
}

/// Reads the ladder of a claim for the first so many cycles: there is none for no cycles.
pub fn ladder_for(
    alloc: Global,
    cycles: u64,
    count: u64,
    lines: &mut Lines<'_>,
) -> Result<NamedLadder, LineError>
    ensures { Gives (λ x. x) lines.new result (cycles_at cycles count lines.old) }
{
    if cycles == 0 {
        no_ladder(alloc, lines)
    } else {
        ladder(alloc, false, count, lines)
    }
}
