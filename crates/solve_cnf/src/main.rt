//! Solves formulas in DIMACS form from standard input, one after another, and has each refutation checked.
//!
//! A line `c NAME` names the formulas that follow it. With the word `figures` it also prints the number of conflicts,
//! and of a refutation the number of its lines and of the bytes of its text.
#![tactic(auto)]

mod formula;
mod solve;

use formula::Formula;
use solve::solve;
use std::env;
use std::io::{BufRead, BufReader};

fn main(rt: HostRuntime) -> anyhow::Result<()> {
    let alloc = rt.alloc();
    let mut figures = false;
    for word in env::args(&rt)?.skip(1) {
        figures = figures || word.as_str() == "figures";
    }
    let mut formula = Formula::new(alloc);
    for line in BufReader::new(alloc, rt.reader())?.lines(alloc) {
        let line = line?;
        let text = line.as_str();
        if text.starts_with("p ") {
            if !formula.is_empty() {
                solve(&rt, alloc, &formula, figures)?;
            }
            formula.clear();
        } else if let Some(name) = text.strip_prefix("c ") {
            if !formula.is_empty() {
                solve(&rt, alloc, &formula, figures)?;
            }
            formula.clear();
            formula.set_name(alloc, name)?;
        } else {
            formula.read_line(text)?;
        }
    }
    if !formula.is_empty() {
        solve(&rt, alloc, &formula, figures)?;
    }
    Ok(())
}
