use crate::expr::{Expr, Ident, Select};
use sqlite_items::{Boxed, Items};
use word_core::Place;

/// A statement.
#[derive(Debug, Drop)]
#[cycle(stmt)]
pub enum Stmt {
    /// `TARGET <= VALUE ;` (IEEE 1364-2001 clause 9.2.2).
    Nonblocking {
        at: Place,
        target: Target,
        value: Expr,
    },
    /// `if ( CONDITION ) YES [ else NO ]` (IEEE 1364-2001 clause 9.4).
    If {
        at: Place,
        condition: Expr,
        yes: Boxed<Stmt>,
        no: Option<Boxed<Stmt>>,
    },
    /// `begin STATEMENTS end` (IEEE 1364-2001 clause 9.8.1).
    Block {
        at: Place,
        statements: Items<Stmt>,
    },
}

/// The left side of an assignment (IEEE 1364-2001 clause 6).
#[derive(Debug, Drop)]
#[cycle(target)]
pub enum Target {
    /// `NAME [ SELECT ]`
    Name {
        name: Ident,
        /// None where the whole name is meant.
        select: Option<Select>,
    },
    /// `{ PARTS }`: the parts side by side, the first one most significant.
    Concat {
        at: Place,
        /// One part or more.
        parts: Items<Target>,
    },
}
