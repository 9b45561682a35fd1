//! Verilog texts to syntax trees.
#![tactic(auto)]

mod error;
mod items;
mod ports;
mod stmts;
mod targets;
mod text;

pub use error::TextError;
pub use text::parse;
pub use vlog_expr::ParseError;
