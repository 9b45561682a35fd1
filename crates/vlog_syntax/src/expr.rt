use sqlite_items::{Boxed, Items};
use word_core::{Name, Place};

/// An identifier (IEEE 1364-2001 clause 2.7).
#[derive(Debug, Drop)]
pub struct Ident {
    pub at: Place,
    pub name: Name,
}

/// A number, as it is written (IEEE 1364-2001 clause 2.5).
#[derive(Debug, Drop)]
pub struct Number {
    pub at: Place,
    pub text: Name,
}

/// An expression (IEEE 1364-2001 clause 4).
#[derive(Debug, Drop)]
#[cycle(expr)]
pub enum Expr {
    Number(Number),
    /// `NAME [ SELECT ]`
    Name {
        name: Ident,
        /// None where the whole name is meant.
        select: Option<Select>,
    },
    /// `( INNER )`
    Paren {
        at: Place,
        inner: Boxed<Expr>,
    },
    /// `{ FIRST , .. }`: the values side by side, the first one most significant (clause 4.1.14).
    Concat {
        at: Place,
        first: Boxed<Expr>,
        others: Items<Expr>,
    },
    /// `{ COUNT { VALUES } }`: the concatenation of the values, that many times (clause 4.1.14).
    Repeat {
        at: Place,
        count: Boxed<Expr>,
        /// One value or more.
        values: Items<Expr>,
    },
    Unary {
        at: Place,
        op: UnaryOp,
        value: Boxed<Expr>,
    },
    /// Two operands or more, with operators of one level between them. It is evaluated from the left.
    Row {
        at: Place,
        first: Boxed<Expr>,
        /// One operand or more.
        others: Items<Operand>,
    },
    /// `CONDITION ? YES : NO` (clause 4.1.13)
    Choice {
        at: Place,
        condition: Boxed<Expr>,
        yes: Boxed<Expr>,
        no: Boxed<Expr>,
    },
}

/// What stands in brackets behind a name (IEEE 1364-2001 clause 4.2.1).
#[derive(Debug, Drop)]
#[cycle(expr)]
pub enum Select {
    /// `[ INDEX ]`
    Bit {
        at: Place,
        index: Boxed<Expr>,
    },
    /// `[ LEFT : RIGHT ]`, or with `+:` or `-:`
    Part {
        at: Place,
        left: Boxed<Expr>,
        kind: PartKind,
        right: Boxed<Expr>,
    },
}

/// What the two expressions of a part select say (IEEE 1364-2001 clause 4.2.1).
#[derive(Clone, Copy, Debug, PartialEq, Eq)]
pub enum PartKind {
    /// `:`: the first index and the last one.
    Bounds,
    /// `+:`: the lowest index, and how many bits there are.
    Upwards,
    /// `-:`: the highest index, and how many bits there are.
    Downwards,
}

/// An operator of a row, and the operand behind it.
#[derive(Debug, Drop)]
#[cycle(expr)]
pub struct Operand {
    pub op: BinaryOp,
    pub value: Expr,
}

/// An operator on one operand (IEEE 1364-2001 clause 4.1).
#[derive(Clone, Copy, Debug, PartialEq, Eq)]
pub enum UnaryOp {
    /// `+`
    Plus,
    /// `-`
    Minus,
    /// `!`
    LogicalNot,
    /// `~`
    Not,
    /// `&`
    And,
    /// `~&`
    Nand,
    /// `|`
    Or,
    /// `~|`
    Nor,
    /// `^`
    Xor,
    /// `~^`
    TildeXor,
    /// `^~`, which means the same as `~^`
    XorTilde,
}

/// An operator between operands (IEEE 1364-2001 clause 4.1).
#[derive(Clone, Copy, Debug, PartialEq, Eq)]
pub enum BinaryOp {
    /// `*`
    Times,
    /// `/`
    Divide,
    /// `%`
    Remainder,
    /// `+`
    Plus,
    /// `-`
    Minus,
    /// `<<`
    ShiftLeft,
    /// `>>`
    ShiftRight,
    /// `<`
    Less,
    /// `<=`
    AtMost,
    /// `>`
    Greater,
    /// `>=`
    AtLeast,
    /// `==`
    Equal,
    /// `!=`
    NotEqual,
    /// `&`
    And,
    /// `^`
    Xor,
    /// `^~`, which means the same as `~^`
    XorTilde,
    /// `~^`
    TildeXor,
    /// `|`
    Or,
    /// `&&`
    LogicalAnd,
    /// `||`
    LogicalOr,
}
