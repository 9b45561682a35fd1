//! Unit propagation: a clause is looked at where a watched literal of it became false.
ghost use Rattle.std.specs.Prelude.{◌≡◌, ℕ, true, false, ◌+◌, ◌*◌, ◌<◌, ◌≤◌, [], ◌∷◌, ◌++◌, All, length, take, IfOk, OnOk, IfNone, IfSome, MatchOption};
ghost use Rattle.cnf_core.specs.Literal.{HaveVarsUpTo, same_literal};
ghost use Rattle.cnf_core.specs.Lrat.{is_false, open_lits};
ghost use Rattle.sat_core.specs.Assigned.{place_of};
ghost use Rattle.sat_core.specs.Open.{IsOpen, IsSettlement, IsLook, IsNext};
ghost use Rattle.sat_core.specs.Propagation.{Propagates};
ghost use Rattle.sat_core.specs.Trailed.{Good, IsConflict, clause_in};
ghost use Rattle.sat_core.specs.Watching.{AreOpen, IsOff, IsOneOf, StandsFrom, AreListed, AreWatched, Rewatches, IsEntered, ends_of, listed, list_at, pair_at};

use crate::order::Order;
use crate::trail::Trail;
use crate::watches::{Pair, Watches};
use cnf_core::{Clauses, Lit, Memory};

/// What of a clause isn't false.
#[derive(Clone, Copy)]
pub enum Open {
    Nothing,
    One(Lit),
    Two(Pair),
}

/// How many literals of a clause aren't false, and the last two of them.
///
/// It looks from the end on: there a learnt clause has the literals that were the last to become false.
pub fn scan(trail: &Trail, clause: &[Lit]) -> Open
    requires { All (λ l. l.variable ≤ trail.now.vars) clause.now }
    ensures { IsOpen trail.now.falses clause.now result }
{
    let mut only: Option<Lit> = None;
    let mut at = clause.len();
    while at > 0 {
        at -= 1;
        let literal = clause[at];
        if !trail.is_false(literal) {
            if let Some(second) = only {
                return Open::Two(Pair {
                    first: literal,
                    second,
                });
            }
            only = Some(literal);
        }
    }
    match only {
        Some(literal) => Open::One(literal),
        None => Open::Nothing,
    }
}

/// What was made of a clause.
#[derive(Clone, Copy)]
pub enum Settled {
    /// All its literals are false.
    Falsified,
    /// One is true.
    Satisfied,
    /// These aren't false.
    Left(Pair),
}

/// Makes the one literal true that the clause at a place leaves, if it leaves one.
fn settle(clauses: &Clauses, trail: &mut Trail, at: usize) -> Result<Settled, Memory>
    requires vars { HaveVarsUpTo trail.old.vars clauses.now }
    requires good { Good clauses.now trail.old }
    requires there { at < length clauses.now }
    ensures propagates { Propagates clauses.now trail.old trail.new }
    ensures settled { IfOk result (λ s. IsSettlement clauses.now trail.new.falses at s) }
{
    match scan(trail, clauses.get(at)) {
        Open::Nothing => Ok(Settled::Falsified),
        Open::Two(pair) => Ok(Settled::Left(pair)),
        Open::One(literal) => {
            if trail.is_false(literal.negated()) {
                return Ok(Settled::Satisfied);
            }
            trail.push(literal.negated(), Some(at))?;
            Ok(Settled::Satisfied)
        }
    }
}

/// Whether two literals are the same.
fn is_same(left: Lit, right: Lit) -> bool
    ensures { result ≡ same_literal left right }
{
    left.variable() == right.variable() && left.is_positive() == right.is_positive()
}

/// The last two literals of a clause that has some.
fn ends(clause: &[Lit]) -> Pair
    requires { 0 < length clause.now }
    ensures { result ≡ ends_of clause.now }
{
    let last = clause.len() - 1;
    Pair {
        first: clause[last.saturating_sub(1)],
        second: clause[last],
    }
}

/// Notes the variables of a clause.
fn note_all(order: &mut Order, clause: &[Lit])
    requires { All (λ l. l.variable ≤ order.old.vars) clause.now }
    ensures { order.new.vars ≡ order.old.vars }
{
    for literal in clause {
        order.note(literal.variable());
    }
}

/// Watches the next clause, and makes true what it leaves. False where it is falsified.
fn enter_next(
    clauses: &Clauses,
    watches: &mut Watches,
    trail: &mut Trail,
    at: usize,
) -> Result<bool, Memory>
    requires vars { HaveVarsUpTo trail.old.vars clauses.now }
    requires good { Good clauses.now trail.old }
    requires places { length watches.old.lists ≡ 2 * trail.old.vars + 2 }
    requires next { at ≡ length watches.old.pairs }
    requires there { at < length clauses.now }
    ensures propagates { Propagates clauses.now trail.old trail.new }
    ensures places { length watches.new.lists ≡ length watches.old.lists }
    ensures entered { OnOk result (IsEntered clauses.now trail.old.falses trail.new.falses watches.old watches.new) }
    ensures next { IfOk result (λ b. IsNext clauses.now trail.new.falses at watches.new.pairs b) }
{
    match settle(clauses, trail, at)? {
        Settled::Falsified => Ok(false),
        Settled::Satisfied => {
            watches.add(ends(clauses.get(at)))?;
            Ok(true)
        }
        Settled::Left(pair) => {
            watches.add(pair)?;
            Ok(true)
        }
    }
}

/// Watches the clauses that aren't watched yet, and makes true what they leave, or gives the place of a falsified clause.
pub fn enter(
    clauses: &Clauses,
    watches: &mut Watches,
    order: &mut Order,
    trail: &mut Trail,
) -> Result<Option<usize>, Memory>
    requires vars { HaveVarsUpTo trail.old.vars clauses.now }
    requires good { Good clauses.now trail.old }
    requires places { length watches.old.lists ≡ 2 * trail.old.vars + 2 }
    requires same_vars { order.old.vars ≡ trail.old.vars }
    requires known { length watches.old.pairs ≤ length clauses.now }
    ensures same_vars { order.new.vars ≡ order.old.vars }
    ensures propagates { Propagates clauses.now trail.old trail.new }
    ensures places { length watches.new.lists ≡ length watches.old.lists }
    ensures entered { OnOk result (IsEntered clauses.now trail.old.falses trail.new.falses watches.old watches.new) }
    ensures found { IfOk result (λ o. MatchOption o
        (length watches.new.pairs ≡ length clauses.now)
        (λ k. IsConflict clauses.now trail.new.falses k)) }
{
    for at in watches.len()..clauses.len() {
        note_all(order, clauses.get(at));
        if !enter_next(clauses, watches, trail, at)? {
            return Ok(Some(at));
        }
    }
    Ok(None)
}

/// What became of a clause in the list of a literal that is false.
#[derive(Clone, Copy)]
pub enum Look {
    /// It has a true literal.
    Kept,
    /// The literal isn't watched.
    Gone,
    /// All its literals are false.
    Ended,
}

/// Watches two literals of a clause that aren't false, the other watched one among them if it isn't.
fn turn(
    clauses: &Clauses,
    watches: &mut Watches,
    trail: &Trail,
    literal: Lit,
    clause: usize,
    other: Lit,
    left: Pair,
) -> Result<(), Memory>
    requires vars { HaveVarsUpTo trail.now.vars clauses.now }
    requires places { length watches.old.lists ≡ 2 * trail.now.vars + 2 }
    requires known { clause < length watches.old.pairs }
    requires there { clause < length clauses.now }
    requires left { AreOpen trail.now.falses (clause_in clauses.now clause) left }
    requires literal { is_false trail.now.falses literal ≡ true }
    requires other_in { is_false (clause_in clauses.now clause) other ≡ true }
    requires other_listed { StandsFrom 0 clause (list_at watches.old.lists (place_of other)) }
    ensures places { length watches.new.lists ≡ length watches.old.lists }
    ensures rewatches { OnOk result (Rewatches clauses.now trail.now.falses watches.old watches.new) }
    ensures same_list { OnOk result (list_at watches.new.lists (place_of literal)
        ≡ list_at watches.old.lists (place_of literal)) }
    ensures off { OnOk result (IsOff (place_of literal) (pair_at watches.new.pairs clause)) }
{
    if is_same(left.first, other) {
        watches.list(left.second, clause)?;
        watches.set(clause, left);
    } else if trail.is_false(other) {
        watches.list(left.first, clause)?;
        watches.list(left.second, clause)?;
        watches.set(clause, left);
    } else {
        watches.list(left.first, clause)?;
        watches.set(
            clause,
            Pair {
                first: left.first,
                second: other,
            },
        );
    }
    Ok(())
}

/// The watched literal beside this one. None where this one isn't watched.
fn other_of(pair: Pair, literal: Lit) -> Option<Lit>
    ensures { MatchOption result (IsOff (place_of literal) pair) (λ l. IsOneOf pair l) }
{
    if is_same(pair.first, literal) {
        return Some(pair.second);
    }
    if is_same(pair.second, literal) {
        return Some(pair.first);
    }
    None
}

/// Looks at a clause in the list of a literal that is false.
fn look_at(
    clauses: &Clauses,
    watches: &mut Watches,
    trail: &mut Trail,
    literal: Lit,
    clause: usize,
) -> Result<Look, Memory>
    requires vars { HaveVarsUpTo trail.old.vars clauses.now }
    requires good { Good clauses.now trail.old }
    requires places { length watches.old.lists ≡ 2 * trail.old.vars + 2 }
    requires listed { AreListed clauses.now watches.old }
    requires literal { is_false trail.old.falses literal ≡ true }
    ensures propagates { Propagates clauses.now trail.old trail.new }
    ensures places { length watches.new.lists ≡ length watches.old.lists }
    ensures rewatches { OnOk result (Rewatches clauses.now trail.new.falses watches.old watches.new) }
    ensures same_list { OnOk result (list_at watches.new.lists (place_of literal)
        ≡ list_at watches.old.lists (place_of literal)) }
    ensures look { IfOk result (λ r. IsLook clauses.now trail.new.falses (place_of literal) watches.new clause r) }
{
    if clause >= watches.len() || clause >= clauses.len() {
        return Ok(Look::Gone);
    }
    let Some(other) = other_of(watches.pair(clause), literal) else {
        return Ok(Look::Gone);
    };
    if trail.is_false(other.negated()) {
        return Ok(Look::Kept);
    }
    match settle(clauses, trail, clause)? {
        Settled::Falsified => Ok(Look::Ended),
        Settled::Satisfied => Ok(Look::Kept),
        Settled::Left(left) => {
            turn(clauses, watches, trail, literal, clause, other, left)?;
            Ok(Look::Gone)
        }
    }
}

/// Makes true what is left by the clauses that watch the literal at a place of the trail, or gives the place of a falsified clause.
fn visit(
    clauses: &Clauses,
    watches: &mut Watches,
    trail: &mut Trail,
    done: usize,
) -> Result<Option<usize>, Memory>
    requires vars { HaveVarsUpTo trail.old.vars clauses.now }
    requires good { Good clauses.now trail.old }
    requires places { length watches.old.lists ≡ 2 * trail.old.vars + 2 }
    requires there { done < length trail.old.falses }
    requires listed { AreListed clauses.now watches.old }
    requires watched { AreWatched clauses.now watches.old.pairs (take done trail.old.falses) trail.old.falses }
    ensures propagates { Propagates clauses.now trail.old trail.new }
    ensures places { length watches.new.lists ≡ length watches.old.lists }
    ensures rewatches { OnOk result (Rewatches clauses.now trail.old.falses watches.old watches.new) }
    ensures watched { OnOk result (AreWatched clauses.now watches.new.pairs (take done trail.new.falses) trail.new.falses) }
    ensures found { IfOk result (λ o. MatchOption o
        (AreWatched clauses.now watches.new.pairs (take (done + 1) trail.new.falses) trail.new.falses)
        (λ k. IsConflict clauses.now trail.new.falses k)) }
{
    let literal = trail.falsified(done);
    let mut at = 0;
    while at < watches.count(literal) {
        let clause = watches.clause(literal, at);
        match look_at(clauses, watches, trail, literal, clause)? {
            Look::Kept => at += 1,
            Look::Gone => watches.unlist(literal, at),
            Look::Ended => return Ok(Some(clause)),
        }
    }
    Ok(None)
}

/// Propagates the literals from a place of the trail on to the end, or to a falsified clause, whose place it gives.
///
/// It takes time in the clauses that watch the literals that it propagates.
pub fn propagate(
    clauses: &Clauses,
    watches: &mut Watches,
    trail: &mut Trail,
    from: usize,
) -> Result<Option<usize>, Memory>
    requires vars { HaveVarsUpTo trail.old.vars clauses.now }
    requires good { Good clauses.now trail.old }
    requires places { length watches.old.lists ≡ 2 * trail.old.vars + 2 }
    requires there { from ≤ length trail.old.falses }
    requires listed { AreListed clauses.now watches.old }
    requires watched { AreWatched clauses.now watches.old.pairs (take from trail.old.falses) trail.old.falses }
    ensures propagates { Propagates clauses.now trail.old trail.new }
    ensures places { length watches.new.lists ≡ length watches.old.lists }
    ensures rewatches { OnOk result (Rewatches clauses.now trail.old.falses watches.old watches.new) }
    ensures watched { OnOk result (AreWatched clauses.now watches.new.pairs (take from trail.new.falses) trail.new.falses) }
    ensures found { IfOk result (λ o. MatchOption o
        (AreWatched clauses.now watches.new.pairs trail.new.falses trail.new.falses)
        (λ k. IsConflict clauses.now trail.new.falses k)) }
{
    let mut done = from;
    while done < trail.len() {
        if let Some(conflict) = visit(clauses, watches, trail, done)? {
            return Ok(Some(conflict));
        }
        done += 1;
    }
    Ok(None)
}
