// The forms of expressions and of targets.

use sqlite_items::{Boxed, Items};
use word_core::Word;

/// A bit, by its number.
pub type Bit = u32;

/// An expression over bits. Its value is a word.
///
/// An operand that a context brings to its width stands in an `Extend`; so the operands of an operator
/// have the widths that it wants. A row of operators is nested to the left, as `(a + b) - c`.
#[derive(Drop)]
#[cycle(expr)]
pub enum Expr {
    /// A number; it is signed where it is written as a plain decimal.
    Const {
        word: Word,
        signed: bool,
    },
    /// Some bits, the least significant first: a name, or a select with constant indices.
    Read(Items<Bit>),
    /// A select of a vector, whose bits are given with the least significant one first.
    Select {
        vector: Items<Bit>,
        window: Window,
        index: Boxed<Expr>,
    },
    Unary {
        op: UnaryOp,
        value: Boxed<Expr>,
    },
    Binary {
        op: BinaryOp,
        left: Boxed<Expr>,
        right: Boxed<Expr>,
    },
    /// `cond ? yes : no`
    Choose {
        cond: Boxed<Expr>,
        yes: Boxed<Expr>,
        no: Boxed<Expr>,
    },
    /// A row of `&&`, where `and` is true, or of `||`. `chain` is its site where it counts as a chain.
    Logical {
        and: bool,
        chain: Option<u32>,
        operands: Items<Expr>,
    },
}

/// Which bits of a vector a select with an index names: `[b +: count]`, or with `down` `[b -: count]`.
/// `[b]` is `[b +: 1]`.
#[derive(Clone, Copy, Debug, PartialEq, Eq)]
pub struct Window {
    /// The vector's indices rise towards its least significant bit, as in `[0:7]`.
    pub rising: bool,
    /// The index of the vector's least significant bit.
    pub right: u64,
    pub down: bool,
    pub count: u8,
}

/// An operator on one word.
#[derive(Clone, Copy, Debug, PartialEq, Eq)]
pub enum UnaryOp {
    /// `~`
    Not,
    /// `-`
    Neg,
    /// Brought to this width, which is not narrower, by its sign or by zeros.
    Extend { width: u8, signed: bool },
    /// `{count{a}}`
    Repeat { count: u8 },
    /// `&`
    All,
    /// `~&`
    NotAll,
    /// `|`
    Any,
    /// `~|` and `!`
    NotAny,
    /// `^`
    Odd,
    /// `~^` and `^~`
    NotOdd,
}

/// An operator on two words.
#[derive(Clone, Copy, Debug, PartialEq, Eq)]
pub enum BinaryOp {
    Add,
    Sub,
    Mul,
    And,
    Or,
    Xor,
    Xnor,
    Equal,
    NotEqual,
    Less,
    LessEqual,
    Greater,
    GreaterEqual,
    /// Shifts: the right word is a number of places, of any width.
    Shl,
    Shr,
    /// `{left, right}`
    Join,
}

/// What is assigned: its parts, in the order in which they are written, the most significant first.
#[derive(Drop)]
pub struct Target {
    pub parts: Items<Part>,
}

/// A part of a target.
#[derive(Drop)]
pub enum Part {
    /// Some bits, the least significant first.
    Bits(Items<Bit>),
    /// A select of a vector. What lies outside the vector is not written.
    Select {
        vector: Items<Bit>,
        window: Window,
        index: Expr,
    },
    /// So many places outside of a vector, which are not written.
    Outside(u8),
}
