use crate::expr::{Expr, Ident};
use crate::stmt::Stmt;
use sqlite_items::Items;
use word_core::Place;

/// A text: its modules, in the order in which they stand.
#[derive(Debug, Drop)]
pub struct Tree {
    pub modules: Items<Module>,
}

/// `module NAME ( PORTS ) ; ITEMS endmodule` (IEEE 1364-2001 clause 12.1).
#[derive(Debug, Drop)]
pub struct Module {
    pub at: Place,
    pub name: Ident,
    pub ports: Items<Port>,
    pub items: Items<Item>,
}

/// Which way a port leads.
#[derive(Clone, Copy, Debug, PartialEq, Eq)]
pub enum Direction {
    Input,
    Output,
}

/// What holds a value.
#[derive(Clone, Copy, Debug, PartialEq, Eq)]
pub enum NetKind {
    Wire,
    Reg,
}

/// `[ LEFT : RIGHT ]`: the indices of a vector's most and least significant bits (IEEE 1364-2001 clause 3.3).
#[derive(Debug, Drop)]
pub struct Range {
    pub at: Place,
    pub left: Expr,
    pub right: Expr,
}

/// A port that is declared in the list of ports (IEEE 1364-2001 clause 12.3.4).
#[derive(Debug, Drop)]
pub struct Port {
    pub at: Place,
    pub direction: Direction,
    /// None where no kind is written.
    pub kind: Option<NetKind>,
    /// None where the port is one bit.
    pub range: Option<Range>,
    pub name: Ident,
    /// The value that it starts with, behind `=`.
    pub value: Option<Expr>,
}

/// What stands in a module behind its ports.
#[derive(Debug, Drop)]
pub enum Item {
    Always(Always),
}

/// `always @ ( EVENTS ) BODY` (IEEE 1364-2001 clause 9.9.2).
#[derive(Debug, Drop)]
pub struct Always {
    pub at: Place,
    pub events: Items<Event>,
    pub body: Stmt,
}

/// What an `always` waits for (IEEE 1364-2001 clause 9.7).
#[derive(Debug, Drop)]
pub struct Event {
    pub at: Place,
    /// None where any change is meant.
    pub edge: Option<Edge>,
    pub name: Ident,
}

/// A change of a signal in one direction.
#[derive(Clone, Copy, Debug, PartialEq, Eq)]
pub enum Edge {
    /// To 1.
    Posedge,
}
