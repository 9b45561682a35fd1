//! The literals that are false while a line is checked.
ghost use Rattle.std.specs.Prelude.{◌≡◌, ℕ, ◌+◌, ◌≤◌, false, [], ◌∷◌, ◌++◌, ◌<◌, ◌*◌, ◌-◌, take, length, slice_index_or, IfOk};
ghost use Rattle.cnf_core.specs.Lrat.{is_false};
ghost use Rattle.sat_core.specs.Assigned.{place_of, no_literal, negative};

use cnf_core::{Lit, Memory};
use std::alloc::Global;
use std::marker::Model;

/// The false literals: a mark for each literal, and a trail of those that are marked.
#[derive(Drop)]
pub struct Assignment {
    vars: u32,
    marks: Vec<bool>,
    trail: Vec<Lit>,
}

impl Model for Assignment {
    ghost use Rattle.std.specs.Prelude.{vec_capacity};
    ghost use Rattle.sat_core.specs.Assigned.{Assigned, Kept};

    ghost Value = { Assigned };

    ghost view = { λ a. record { vars = a.vars; falses = a.trail.items } };

    ghost invariant = { λ a. Kept a.vars a.marks.items a.trail.items (vec_capacity a.trail) };
}

/// Where a literal's mark is.
pub fn place(literal: Lit) -> usize
    ensures value { result ≡ place_of literal }
    ensures positive { 0 < literal.variable }
{
    let twice = 2 * literal.variable() as usize;
    if literal.is_positive() {
        twice
    } else {
        twice + 1
    }
}

impl Assignment {
    pub fn make(alloc: Global, vars: u32) -> Result<Self, Memory>
        ensures vars { IfOk result (λ a. a.vars ≡ vars) }
        ensures falses { IfOk result (λ a. a.falses ≡ []) }
    {
        let places = 2 * vars as usize + 2;
        let marks = vec![in alloc; false; places]?;
        let trail = Vec::with_capacity(alloc, places)?;
        Ok(Assignment { vars, marks, trail })
    }

    /// The largest variable.
    pub fn vars(&self) -> u32
        ensures { result ≡ self.now.vars }
    {
        self.vars
    }

    pub fn is_false(&self, literal: Lit) -> bool
        requires { literal.variable ≤ self.now.vars }
        ensures { result ≡ is_false self.now.falses literal }
    {
        self.marks[place(literal)]
    }

    /// Whether the negation of a variable is false.
    pub fn is_set(&self, variable: u32) -> bool
        requires { variable ≤ self.now.vars }
        ensures { result ≡ is_false self.now.falses (negative variable) }
    {
        self.marks[2 * variable as usize + 1]
    }

    /// Makes a literal false. It takes no memory.
    pub fn set_false(&mut self, literal: Lit)
        requires within { literal.variable ≤ self.old.vars }
        requires not_yet { is_false self.old.falses literal ≡ false }
        ensures falses { self.new ≡ record self.old { falses = self.old.falses ++ literal ∷ [] } }
        ensures room { length self.old.falses < 2 * self.old.vars + 2 }
        ensures positive { 0 < literal.variable }
    {
        self.marks[place(literal)] = true;
        self.trail.push_reserved(literal);
    }

    /// How many literals are false.
    pub fn len(&self) -> usize
        ensures value { result ≡ length self.now.falses }
        ensures bounded { result ≤ 2 * self.now.vars + 2 }
    {
        self.trail.len()
    }

    /// The false literal at a place.
    pub fn get(&self, at: usize) -> Lit
        requires { at < length self.now.falses }
        ensures value { result ≡ slice_index_or self.now.falses at no_literal }
        ensures within { result.variable ≤ self.now.vars }
    {
        self.trail[at]
    }

    fn pop(&mut self)
        ensures { self.new ≡ record self.old
            { falses = take (length self.old.falses - 1) self.old.falses } }
    {
        if let Some(literal) = self.trail.pop() {
            self.marks[place(literal)] = false;
        }
    }

    /// Leaves the first `to` literals false.
    pub fn cut(&mut self, to: usize)
        ensures { self.new ≡ record self.old { falses = take to self.old.falses } }
    {
        while self.len() > to {
            self.pop();
        }
    }

    /// Leaves no literal false.
    pub fn clear(&mut self)
        ensures { self.new ≡ record self.old { falses = [] } }
    {
        while let Some(literal) = self.trail.pop() {
            self.marks[place(literal)] = false;
        }
    }
}
