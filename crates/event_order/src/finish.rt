// Steps until all is quiet.

ghost use Rattle.std.specs.Prelude.{◌≡◌, ℕ, ◌<◌, [], List, All, length, false, OnOk, IfOk, MatchOption};
ghost use Rattle.bit_exprs.specs.Values.{bit_at};
ghost use Rattle.design_core.specs.Bounds.{IsWithin};
ghost use Rattle.design_core.specs.Legality.{IsLegal};
ghost use Rattle.event_order.specs.Work.{work};
ghost use Rattle.event_order.specs.Code.{UpdatesBelow, moment, Stepped, Gone};

use crate::pick::{next, pick};
use crate::steps::{run, update};
use bit_exprs::forms::Bit;
use design_core::flat::Design;
use std::alloc::AllocError;

/// The number that names the steps to come, and how many were taken.
#[derive(Clone, Copy)]
pub struct Progress {
    pub number: u64,
    pub turns: u64,
}

/// Takes the step that a number names and gives the number after it, or nothing where all is quiet.
fn step(
    design: &Design,
    number: u64,
    values: &mut [bool],
    pending: &mut [bool],
    waiting: &mut Vec<(Bit, bool)>,
    before: &mut [bool],
) -> Result<Option<u64>, AllocError>
    requires within { All (λ p. IsWithin p.body (length design.now.bits) (length design.now.sites)) design.now.processes }
    requires values { length values.old ≡ length design.now.bits }
    requires pending { length pending.old ≡ length design.now.processes }
    requires waiting { UpdatesBelow waiting.old.items (length design.now.bits) }
    requires before { length before.old ≡ length design.now.bits }
    ensures waiting { OnOk result (UpdatesBelow waiting.new.items (length design.now.bits)) }
    ensures step { IfOk result (λ o. MatchOption o (moment values.new pending.new waiting.new.items ≡ moment values.old pending.old waiting.old.items) (λ y. Stepped design.now number (moment values.old pending.old waiting.old.items) y (moment values.new pending.new waiting.new.items))) }
    ensures quiet { IfOk result (λ o. MatchOption o (((k : ℕ) → bit_at pending.new k ≡ false) × (waiting.new.items ≡ [])) (λ y. Unit {0})) }
    ensures work { IfOk result (λ o. MatchOption o (Unit {0}) (λ y. (order : List ℕ) → IsLegal design.now order → work design.now order pending.new waiting.new.items < work design.now order pending.old waiting.old.items)) }
{
    match pick(pending, number) {
        Some(k) => {
            run(design, k, values, pending, waiting, before)?;
            Ok(Some(next(number)))
        }
        None => {
            if waiting.is_empty() {
                return Ok(None);
            }
            update(design, values, pending, waiting, before);
            Ok(Some(number))
        }
    }
}

/// Takes the steps that a number names until all is quiet. Their number is bounded by the design and its legal order.
pub fn finish(
    design: &Design,
    order: &[u32],
    progress: Progress,
    values: &mut [bool],
    pending: &mut [bool],
    waiting: &mut Vec<(Bit, bool)>,
    before: &mut [bool],
) -> Result<Progress, AllocError>
    requires legal { IsLegal design.now order.now }
    requires values { length values.old ≡ length design.now.bits }
    requires pending { length pending.old ≡ length design.now.processes }
    requires waiting { waiting.old.items ≡ [] }
    requires before { length before.old ≡ length design.now.bits }
    ensures gone { IfOk result (λ q. Gone design.now progress.number (moment values.old pending.old waiting.old.items) progress.turns q.number (moment values.new pending.new waiting.new.items) q.turns) }
    ensures idle { OnOk result ((k : ℕ) → bit_at pending.new k ≡ false) }
    ensures waiting { OnOk result (waiting.new.items ≡ []) }
{
    let mut number = progress.number;
    let mut turns = progress.turns;
    while let Some(more) = step(design, number, values, pending, waiting, before)? {
        number = more;
        turns = turns.saturating_add(1);
    }
    Ok(Progress { number, turns })
}
