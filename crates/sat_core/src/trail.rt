//! What was made true, in order, and why.
ghost use Rattle.std.specs.Prelude.{◌≡◌, ◌≢◌, ℕ, ◌+◌, ◌*◌, ◌<◌, ◌≤◌, false, [], length, IfOk, OnOk, OnErr};
ghost use Rattle.cnf_core.specs.Lrat.{is_false};
ghost use Rattle.sat_core.specs.Assigned.{negative};
ghost use Rattle.sat_core.specs.Trailed.{falsified_at, reason_at, pushed, cut_to};

use crate::assignment::Assignment;
use cnf_core::{Lit, Memory};
use std::alloc::Global;
use std::marker::Model;

/// The false literals in the order in which they became so, each with the clause that made it so.
#[derive(Drop)]
pub struct Trail {
    falses: Assignment,
    reasons: Vec<Option<usize>>,
}

impl Model for Trail {
    ghost use Rattle.sat_core.specs.Assigned.{negative};
    ghost use Rattle.sat_core.specs.Trailed.{Trailed};

    ghost Value = { Trailed };

    ghost view = { λ t. record { vars = t.falses.vars; falses = t.falses.falses; reasons = t.reasons.items } };
}

impl Trail {
    pub fn make(alloc: Global, vars: u32) -> Result<Self, Memory>
        ensures { IfOk result (λ t. t ≡ record { vars = vars; falses = []; reasons = [] }) }
    {
        Ok(Trail {
            falses: Assignment::make(alloc, vars)?,
            reasons: Vec::new(alloc),
        })
    }

    /// The largest variable.
    pub fn vars(&self) -> u32
        ensures { result ≡ self.now.vars }
    {
        self.falses.vars()
    }

    pub fn len(&self) -> usize
        ensures value { result ≡ length self.now.falses }
        ensures bounded { result ≤ 2 * self.now.vars + 2 }
    {
        self.falses.len()
    }

    pub fn is_false(&self, literal: Lit) -> bool
        requires { literal.variable ≤ self.now.vars }
        ensures { result ≡ is_false self.now.falses literal }
    {
        self.falses.is_false(literal)
    }

    /// Whether the negation of a variable is false.
    pub fn is_set(&self, variable: u32) -> bool
        requires { variable ≤ self.now.vars }
        ensures { result ≡ is_false self.now.falses (negative variable) }
    {
        self.falses.is_set(variable)
    }

    /// The false literal at a place.
    pub fn falsified(&self, at: usize) -> Lit
        requires { at < length self.now.falses }
        ensures value { result ≡ falsified_at self.now at }
        ensures within { result.variable ≤ self.now.vars }
    {
        self.falses.get(at)
    }

    /// The place of the clause that made the literal at a place false, if one did.
    pub fn reason(&self, at: usize) -> Option<usize>
        requires { at < length self.now.reasons }
        ensures { result ≡ reason_at self.now at }
    {
        self.reasons[at]
    }

    /// Makes a literal false.
    pub fn push(&mut self, falsified: Lit, reason: Option<usize>) -> Result<(), Memory>
        requires within { falsified.variable ≤ self.old.vars }
        requires not_yet { is_false self.old.falses falsified ≡ false }
        ensures ok { OnOk result (self.new ≡ pushed self.old falsified reason) }
        ensures err { OnErr result (self.new ≡ self.old) }
        ensures room { OnOk result (length self.old.falses < 2 * self.old.vars + 2) }
        ensures positive { OnOk result (0 < falsified.variable) }
    {
        self.reasons.push(reason)?;
        self.falses.set_false(falsified);
        Ok(())
    }

    /// Leaves the first `to` literals false.
    pub fn cut(&mut self, to: usize)
        ensures { self.new ≡ cut_to to self.old }
    {
        self.falses.cut(to);
        self.reasons.truncate(to);
    }
}
