//! The syntax tree of a Verilog text of the whole language: one type for each rule of the grammar.
//!
//! The fields of a type are the parts of its rule, in order, and `at` is the place of the rule's first token.
//! Alternatives of a rule are variants. A rule that hands on its one part makes no node.
#![tactic(auto)]

mod expr;
mod module;
mod stmt;

pub use expr::{BinaryOp, Expr, Ident, Number, Operand, PartKind, Select, UnaryOp};
pub use module::{Always, Direction, Edge, Event, Item, Module, NetKind, Port, Range, Tree};
pub use stmt::{Stmt, Target};
