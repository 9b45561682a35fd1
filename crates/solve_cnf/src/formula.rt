//! A formula as it is read.
use cnf_core::{Clauses, Lit};
use std::alloc::{AllocError, Global};

/// How many conflicts are enough where no line says so.
const LIMIT: u64 = 1000000000;

/// Clauses, the greatest variable in them, and how they are to be solved.
#[derive(Drop)]
pub struct Formula {
    pub name: String,
    pub vars: u32,
    pub clauses: Clauses,
    pub assumptions: Vec<Lit>,
    pub limit: u64,
    /// Whether the lines go to a sink whose first put fails.
    pub sink_fails: bool,
    /// The clause that is being read.
    clause: Vec<Lit>,
}

impl Formula {
    pub fn new(alloc: Global) -> Self {
        Formula {
            name: String::new(alloc),
            vars: 0,
            clauses: Clauses::new(alloc),
            assumptions: Vec::new(alloc),
            limit: LIMIT,
            sink_fails: false,
            clause: Vec::new(alloc),
        }
    }

    pub fn is_empty(&self) -> bool {
        self.clauses.len() == 0
    }

    /// Forgets all but the name.
    pub fn clear(&mut self) {
        self.vars = 0;
        self.clauses.truncate(0);
        self.assumptions.clear();
        self.limit = LIMIT;
        self.sink_fails = false;
        self.clause.clear();
    }

    pub fn set_name(&mut self, alloc: Global, name: &str) -> Result<(), AllocError> {
        self.name = String::from_str(alloc, name)?;
        Ok(())
    }

    /// Reads a line that is no comment and no heading. What is no number is left out.
    pub fn read_line(&mut self, line: &str) -> Result<(), AllocError> {
        if let Some(rest) = line.strip_prefix("a ") {
            return self.read_assumptions(rest);
        }
        if let Some(rest) = line.strip_prefix("l ") {
            self.limit = rest.parse::<u64>().unwrap_or(LIMIT).max(1);
            return Ok(());
        }
        if line == "f" {
            self.sink_fails = true;
            return Ok(());
        }
        for word in line.split_whitespace() {
            if let Ok(number) = word.parse::<i32>() {
                self.read_number(number)?;
            }
        }
        Ok(())
    }

    fn read_assumptions(&mut self, line: &str) -> Result<(), AllocError> {
        for word in line.split_whitespace() {
            if let Some(literal) = literal_of(word) {
                self.vars = self.vars.max(literal.variable());
                self.assumptions.push(literal)?;
            }
        }
        Ok(())
    }

    /// A literal of the clause that is being read, or its end.
    fn read_number(&mut self, number: i32) -> Result<(), AllocError> {
        match Lit::new(number) {
            Some(literal) => {
                self.vars = self.vars.max(literal.variable());
                self.clause.push(literal)?;
            }
            None => {
                self.clauses.push(&self.clause)?;
                self.clause.clear();
            }
        }
        Ok(())
    }
}

fn literal_of(word: &str) -> Option<Lit> {
    match word.parse::<i32>() {
        Ok(number) => Lit::new(number),
        Err(_) => None,
    }
}
