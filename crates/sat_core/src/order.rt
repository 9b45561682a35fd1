//! In which order variables are decided, and how.
ghost use Rattle.std.specs.Prelude.{◌≡◌, ◌+◌, ◌≤◌, vec_len, IfOk, OnOk, OnErr, IfSome};
ghost use Rattle.sat_core.specs.Trailed.{IsFree};

use crate::trail::Trail;
use cnf_core::{Lit, Memory};
use std::alloc::Global;
use std::collections::BinaryHeap;

/// By how much the first conflict raises an activity.
const FIRST_STEP: u64 = 1024;

/// From where on all activities are made smaller.
const HIGHEST: u64 = 1 << 62;

/// The greatest variable that a literal has.
const GREATEST: u32 = (1 << 31) - 1;

/// How many binary digits they lose then.
const LOST_DIGITS: u32 = 40;

/// A copy of a list that has `places` items: more of the same item stand behind, or the last ones are left out.
fn resized<T: Copy + Drop>(
    alloc: Global,
    items: &[T],
    more: T,
    places: usize,
) -> Result<Vec<T>, Memory>
    ensures { IfOk result (λ v. vec_len v ≡ places) }
{
    let mut copies = Vec::new(alloc);
    copies.extend_from_slice(items)?;
    copies.resize(places, more)?;
    Ok(copies)
}

/// The activity of each variable, which grows where the variable takes part in a conflict, and the value that it had last.
///
/// Recent conflicts count more: each raises activities by a sixteenth more than the one before. To note that a
/// variable is free again takes logarithmic time, and so does a decision.
#[derive(Drop)]
pub struct Order {
    vars: u32,
    activities: Vec<u64>,
    values: Vec<bool>,
    step: u64,
    /// Variables that may be free, with the activity that they had when they were put there.
    waiting: BinaryHeap<(u64, u32)>,
    is_stale: bool,
    ghost activities_long: { vec_len activities ≡ vars + 1 },
    ghost values_long: { vec_len values ≡ vars + 1 },
}

impl Order {
    pub fn make(alloc: Global, vars: u32) -> Result<Self, Memory>
        ensures { IfOk result (λ o. o.vars ≡ vars) }
    {
        let places = vars as usize + 1;
        Ok(Order {
            vars,
            activities: vec![in alloc; 0; places]?,
            values: vec![in alloc; false; places]?,
            step: FIRST_STEP,
            waiting: BinaryHeap::new(alloc),
            is_stale: true,
        })
    }

    /// Has room for the variables up to `vars`. Those that were there keep their activity and value.
    pub fn grow(&mut self, alloc: Global, vars: u32) -> Result<(), Memory>
        ensures ok { OnOk result (self.new.vars ≡ vars) }
        ensures err { OnErr result (self.new.vars ≡ self.old.vars) }
    {
        let places = vars as usize + 1;
        let activities = resized(alloc, &self.activities, 0, places)?;
        let values = resized(alloc, &self.values, false, places)?;
        self.vars = vars;
        self.activities = activities;
        self.values = values;
        self.is_stale = true;
        Ok(())
    }

    /// Has the next decision look at all variables again.
    pub fn restart(&mut self)
        ensures { self.new.vars ≡ self.old.vars }
    {
        self.is_stale = true;
    }

    /// Notes that a clause has the variable.
    pub fn note(&mut self, variable: u32)
        requires { variable ≤ self.old.vars }
        ensures { self.new.vars ≡ self.old.vars }
    {
        let at = variable as usize;
        self.activities[at] = self.activities[at].saturating_add(1);
    }

    /// Notes that the variable took part in a conflict.
    pub fn bump(&mut self, variable: u32)
        requires { variable ≤ self.old.vars }
        ensures { self.new.vars ≡ self.old.vars }
    {
        let at = variable as usize;
        self.activities[at] = self.activities[at].saturating_add(self.step);
        if self.activities[at] > HIGHEST {
            self.shrink();
        }
    }

    /// Has later conflicts count more.
    pub fn decay(&mut self)
        ensures { self.new.vars ≡ self.old.vars }
    {
        self.step = self.step.saturating_add(self.step / 16);
    }

    /// Makes all activities smaller, and keeps their order but for those that get equal.
    fn shrink(&mut self)
        ensures { self.new.vars ≡ self.old.vars }
    {
        for at in 0..self.activities.len() {
            self.activities[at] >>= LOST_DIGITS;
        }
        self.step = (self.step >> LOST_DIGITS).saturating_add(1);
        self.is_stale = true;
    }

    /// Notes that a literal is no longer false: its variable is free, and had the other value.
    pub fn release(&mut self, falsified: Lit) -> Result<(), Memory>
        requires { falsified.variable ≤ self.old.vars }
        ensures { self.new.vars ≡ self.old.vars }
    {
        let variable = falsified.variable();
        self.values[variable as usize] = !falsified.is_positive();
        if self.is_stale {
            return Ok(());
        }
        if self.waiting.len() > 4 * self.activities.len() {
            self.is_stale = true;
            return Ok(());
        }
        self.waiting
            .push((self.activities[variable as usize], variable))?;
        Ok(())
    }

    /// Has all variables of clauses wait.
    fn refill(&mut self) -> Result<(), Memory>
        ensures { self.new.vars ≡ self.old.vars }
    {
        self.waiting.clear();
        for at in 0..self.activities.len() {
            let activity = self.activities[at];
            if activity > 0 {
                self.waiting.push((activity, at as u32))?;
            }
        }
        self.is_stale = false;
        Ok(())
    }

    /// A free variable of the greatest activity with the value that it had last, as a literal. None where none waits.
    pub fn next(&mut self, trail: &Trail) -> Result<Option<Lit>, Memory>
        ensures vars { self.new.vars ≡ self.old.vars }
        ensures free { IfOk result (λ o. IfSome o (λ l. IsFree trail.now.vars trail.now.falses l)) }
    {
        if self.is_stale {
            self.refill()?;
        }
        while let Some(waiting) = self.waiting.pop() {
            if let Some(literal) = self.free_literal(trail, waiting.1) {
                return Ok(Some(literal));
            }
        }
        Ok(None)
    }

    /// The variable with the value that it had last, as a literal, where it is free.
    fn free_literal(&self, trail: &Trail, variable: u32) -> Option<Lit>
        ensures { IfSome result (λ l. IsFree trail.now.vars trail.now.falses l) }
    {
        if variable == 0 || variable > GREATEST || variable > self.vars || variable > trail.vars() {
            return None;
        }
        let literal = Lit::make(variable, self.values[variable as usize]);
        if trail.is_false(literal) || trail.is_false(literal.negated()) {
            return None;
        }
        Some(literal)
    }
}
