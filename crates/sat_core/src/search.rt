//! The search, one step at a time.
ghost use Rattle.std.specs.Prelude.{◌≡◌, ℕ, true, ◌+◌, ◌*◌, ◌<◌, ◌≤◌, [], ◌∷◌, ◌++◌, List, All, length, map, take, IfOk, OnOk, OnErr, MatchOption};
ghost use Rattle.cnf_core.specs.Literal.{Literal, HaveVarsUpTo, negated};
ghost use Rattle.cnf_core.specs.Lrat.{HasGoodVars};
ghost use Rattle.sat_core.specs.Propagation.{IsComplete};
ghost use Rattle.sat_core.specs.Trailed.{Good, IsQuiet, IsConflict, IsFree, IsLastDecision, AreImplied, is_satisfied};

use crate::analysis::{Shown, explain, explain_all, last_decision, place_to_go_on};
use crate::assignment::Assignment;
use crate::order::Order;
use crate::pace::Pace;
use crate::pick::pick;
use crate::propagate::{enter, propagate};
use crate::trail::Trail;
use crate::values::values;
use crate::watches::Watches;
use cnf_core::{Clauses, Lit, Memory};
use sqlite_items::Items;
use std::alloc::Global;

/// The clauses, those added before those learnt in the last call, the trail, and what finds its way in them.
#[derive(Drop)]
pub struct Search {
    alloc: Global,
    clauses: Clauses,
    added: usize,
    trail: Trail,
    seen: Assignment,
    /// The watched literals of the first clauses.
    watches: Watches,
    /// How many literals of the trail are propagated.
    done: usize,
    order: Order,
    pace: Pace,
    ghost same_vars: { seen.vars ≡ trail.vars },
    ghost ordered_vars: { order.vars ≡ trail.vars },
    ghost all_places: { length watches.lists ≡ 2 * trail.vars + 2 },
    ghost within: { added ≤ length clauses },
    ghost good_vars: { HaveVarsUpTo trail.vars clauses },
}

/// What a step has done.
#[derive(Drop)]
pub enum Step {
    /// A clause with this number was learnt.
    Learnt(u64, Shown),
    /// A clause of negated assumptions follows, which would have this number.
    Refuted(u64, Shown),
    /// A literal was decided.
    Decided,
    /// Each clause has a true literal.
    Satisfied,
}

/// Leaves the added clauses alone.
fn forget_learnt(clauses: &mut Clauses, added: usize)
    ensures { clauses.new ≡ take added clauses.old }
{
    clauses.truncate(added);
}

/// Makes the assumptions true on an empty trail.
fn assume(trail: &mut Trail, assumptions: &[Lit]) -> Result<(), Memory>
    requires empty { trail.old.falses ≡ [] }
    requires no_reasons { trail.old.reasons ≡ [] }
    requires good_vars { HasGoodVars trail.old.vars assumptions.now }
    ensures vars { trail.new.vars ≡ trail.old.vars }
    ensures assumed { OnOk result (trail.new.falses ≡ map negated assumptions.now) }
    ensures good { OnOk result ((clauses : List (List Literal)) → Good clauses trail.new) }
{
    for literal in assumptions {
        trail.push(literal.negated(), None)?;
    }
    Ok(())
}

/// A free literal, by the order or else of a clause without a true literal, if there is such a clause.
fn choose(clauses: &Clauses, order: &mut Order, trail: &Trail) -> Result<Option<Lit>, Memory>
    requires vars { HaveVarsUpTo trail.now.vars clauses.now }
    requires quiet { All (IsQuiet trail.now.falses) clauses.now }
    ensures same_vars { order.new.vars ≡ order.old.vars }
    ensures chosen { IfOk result (λ o. MatchOption o
        (All (λ c. is_satisfied trail.now.falses c ≡ true) clauses.now)
        (λ l. IsFree trail.now.vars trail.now.falses l)) }
{
    if let Some(literal) = order.next(trail)? {
        return Ok(Some(literal));
    }
    Ok(pick(clauses, trail))
}

/// Notes that the literals of the trail from a place on are no longer false.
fn release_all(order: &mut Order, trail: &Trail, from: usize) -> Result<(), Memory>
    requires { trail.now.vars ≡ order.old.vars }
    ensures { order.new.vars ≡ order.old.vars }
{
    for at in from..trail.len() {
        order.release(trail.falsified(at))?;
    }
    Ok(())
}

impl Search {
    ghost use Rattle.sat_core.specs.Answers.{valuation};
    ghost use Rattle.sat_core.specs.Trailed.{Agree};
    ghost use Rattle.sat_core.specs.Search.{added_in, vars_in, Searched, Learns, IsStep};

    pub fn make(alloc: Global, vars: u32) -> Result<Self, Memory>
        ensures vars { IfOk result (λ s. vars_in s ≡ vars) }
        ensures added { IfOk result (λ s. added_in s ≡ []) }
    {
        Ok(Search {
            alloc,
            clauses: Clauses::new(alloc),
            added: 0,
            trail: Trail::make(alloc, vars)?,
            seen: Assignment::make(alloc, vars)?,
            watches: Watches::make(alloc, vars)?,
            done: 0,
            order: Order::make(alloc, vars)?,
            pace: Pace::new(),
        })
    }

    /// Adds a clause, and gives its number.
    pub fn add(&mut self, clause: &[Lit]) -> Result<u64, Memory>
        requires { All (λ l. l.variable ≤ vars_in self.old) clause.now }
        ensures vars { vars_in self.new ≡ vars_in self.old }
        ensures number { IfOk result (λ id. id ≡ length (added_in self.new)) }
        ensures ok { OnOk result (added_in self.new ≡ added_in self.old ++ clause.now ∷ []) }
        ensures err { OnErr result (added_in self.new ≡ added_in self.old) }
    {
        forget_learnt(&mut self.clauses, self.added);
        let number = self.clauses.push(clause)?;
        self.added = self.clauses.len();
        Ok(number)
    }

    /// Has room for the variables up to `vars`. The clauses stay, and what was made true is forgotten.
    pub fn grow(&mut self, vars: u32) -> Result<(), Memory>
        requires { vars_in self.old ≤ vars }
        ensures ok { OnOk result (vars_in self.new ≡ vars) }
        ensures err { OnErr result (vars_in self.new ≡ vars_in self.old) }
        ensures clauses { self.new.clauses ≡ self.old.clauses }
        ensures added { self.new.added ≡ self.old.added }
    {
        let trail = Trail::make(self.alloc, vars)?;
        let seen = Assignment::make(self.alloc, vars)?;
        let watches = Watches::make(self.alloc, vars)?;
        self.order.grow(self.alloc, vars)?;
        self.trail = trail;
        self.seen = seen;
        self.watches = watches;
        self.done = 0;
        Ok(())
    }

    /// Forgets what was learnt, and makes the assumptions true.
    pub fn begin(&mut self, assumptions: &[Lit]) -> Result<(), Memory>
        requires { HasGoodVars (vars_in self.old) assumptions.now }
        ensures vars { vars_in self.new ≡ vars_in self.old }
        ensures added { added_in self.new ≡ added_in self.old }
        ensures clauses { self.new.clauses ≡ added_in self.old }
        ensures begun { OnOk result (Searched assumptions.now self.new) }
    {
        forget_learnt(&mut self.clauses, self.added);
        self.watches.clear();
        self.done = 0;
        self.order.restart();
        self.trail.cut(0);
        assume(&mut self.trail, assumptions)?;
        Ok(())
    }

    fn decide(&mut self, assumptions: &[Lit]) -> Result<Step, Memory>
        requires searched { Searched assumptions.now self.old }
        requires complete { IsComplete self.old.clauses self.old.trail.falses self.old.watches }
        ensures vars { vars_in self.new ≡ vars_in self.old }
        ensures added { added_in self.new ≡ added_in self.old }
        ensures searched { OnOk result (Searched assumptions.now self.new) }
        ensures step { IfOk result (λ step. IsStep assumptions.now self.old self.new step) }
    {
        match choose(&self.clauses, &mut self.order, &self.trail)? {
            None => Ok(Step::Satisfied),
            Some(literal) => {
                self.trail.push(literal.negated(), None)?;
                Ok(Step::Decided)
            }
        }
    }

    fn learn(
        &mut self,
        assumptions: &[Lit],
        conflict: usize,
        decision: usize,
    ) -> Result<Step, Memory>
        requires searched { Searched assumptions.now self.old }
        requires conflict { IsConflict self.old.clauses self.old.trail.falses conflict }
        requires decision { IsLastDecision self.old.trail (length assumptions.now) decision }
        ensures vars { vars_in self.new ≡ vars_in self.old }
        ensures added { added_in self.new ≡ added_in self.old }
        ensures searched { OnOk result (Searched assumptions.now self.new) }
        ensures step { IfOk result (λ step. IsStep assumptions.now self.old self.new step) }
    {
        let explained = explain(
            self.alloc,
            &self.clauses,
            &self.trail,
            &mut self.seen,
            &mut self.order,
            conflict,
            decision,
        )?;
        let cut = place_to_go_on(
            &self.clauses,
            &self.trail,
            &self.seen,
            decision,
            assumptions.len(),
            explained.to,
            self.pace.is_due(),
        );
        let number = self.clauses.push(&explained.shown.lits)?;
        release_all(&mut self.order, &self.trail, cut)?;
        self.trail.cut(cut);
        self.done = cut;
        Ok(Step::Learnt(number, explained.shown))
    }

    fn refute(&mut self, assumptions: &[Lit], conflict: usize) -> Result<Step, Memory>
        requires searched { Searched assumptions.now self.old }
        requires conflict { IsConflict self.old.clauses self.old.trail.falses conflict }
        requires implied { AreImplied self.old.trail (length assumptions.now) }
        ensures vars { vars_in self.new ≡ vars_in self.old }
        ensures added { added_in self.new ≡ added_in self.old }
        ensures searched { OnOk result (Searched assumptions.now self.new) }
        ensures step { IfOk result (λ step. IsStep assumptions.now self.old self.new step) }
    {
        let floor = assumptions.len();
        let shown = explain_all(
            self.alloc,
            &self.clauses,
            &self.trail,
            &mut self.seen,
            conflict,
            floor,
        )?;
        Ok(Step::Refuted(self.clauses.next(), shown))
    }

    fn propagate(&mut self, assumptions: &[Lit]) -> Result<Option<usize>, Memory>
        requires searched { Searched assumptions.now self.old }
        ensures vars { vars_in self.new ≡ vars_in self.old }
        ensures added { added_in self.new ≡ added_in self.old }
        ensures clauses { self.new.clauses ≡ self.old.clauses }
        ensures searched { OnOk result (Searched assumptions.now self.new) }
        ensures longer { length self.old.trail.falses ≤ length self.new.trail.falses }
        ensures found { IfOk result (λ o. MatchOption o
            (IsComplete self.new.clauses self.new.trail.falses self.new.watches)
            (λ k. IsConflict self.new.clauses self.new.trail.falses k)) }
    {
        let entered = enter(
            &self.clauses,
            &mut self.watches,
            &mut self.order,
            &mut self.trail,
        )?;
        if let Some(conflict) = entered {
            return Ok(Some(conflict));
        }
        let found = propagate(&self.clauses, &mut self.watches, &mut self.trail, self.done)?;
        if let Some(conflict) = found {
            return Ok(Some(conflict));
        }
        self.done = self.trail.len();
        Ok(None)
    }

    /// The values, that of variable 1 first.
    pub fn values(&self) -> Result<Items<bool>, Memory>
        ensures long { IfOk result (λ v. length v ≡ vars_in self.now) }
        ensures values { IfOk result (λ v. Agree (vars_in self.now) self.now.trail.falses
            (valuation v)) }
    {
        values(self.alloc, &self.trail)
    }

    /// Propagates, and then decides or learns from the conflict.
    pub fn step(&mut self, assumptions: &[Lit]) -> Result<Step, Memory>
        requires { Searched assumptions.now self.old }
        ensures vars { vars_in self.new ≡ vars_in self.old }
        ensures added { added_in self.new ≡ added_in self.old }
        ensures searched { OnOk result (Searched assumptions.now self.new) }
        ensures step { IfOk result (λ step. IsStep assumptions.now self.old self.new step) }
    {
        let Some(conflict) = self.propagate(assumptions)? else {
            return self.decide(assumptions);
        };
        match last_decision(&self.clauses, &self.trail, assumptions.len()) {
            None => self.refute(assumptions, conflict),
            Some(decision) => self.learn(assumptions, conflict, decision),
        }
    }
}
