use sqlite_items::Items;
use vlog_syntax::Expr;

/// The rows of operators, from the one that binds tightest (IEEE 1364-2001 clause 4.1.2).
#[derive(Clone, Copy, Debug, PartialEq, Eq)]
pub enum Rows {
    /// `*`, `/`, `%`
    Product,
    /// `+`, `-`
    Sum,
    /// `<<`, `>>`
    Shift,
    /// `<`, `<=`, `>`, `>=`
    Order,
    /// `==`, `!=`
    Equality,
    /// `&`
    And,
    /// `^`, `^~`, `~^`
    Xor,
    /// `|`
    Or,
    /// `&&`
    Conjunction,
    /// `||`
    Disjunction,
}

/// How tightly an expression binds.
#[derive(Clone, Copy, Debug, PartialEq, Eq)]
pub enum Level {
    Primary,
    Unary,
    Row(Rows),
    /// With `?:`, which binds least.
    Whole,
}

/// The parts that nest in one another: what a rule of the grammar is for.
#[derive(Clone, Copy, Debug, PartialEq, Eq)]
pub enum Sort {
    Expr(Level),
    Target,
    Stmt,
}

/// What stands in braces behind the first expression.
#[derive(Debug, Drop)]
pub enum Braced {
    /// What is repeated, in braces of its own.
    Repeated(Items<Expr>),
    /// Further expressions.
    Further(Items<Expr>),
}
