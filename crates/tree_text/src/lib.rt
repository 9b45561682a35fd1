//! Syntax trees written as texts, which have the same trees again but for places.
#![tactic(auto)]

mod exprs;
mod modules;
mod separators;
mod stmts;
mod tree;

pub use tree::print_tree;
