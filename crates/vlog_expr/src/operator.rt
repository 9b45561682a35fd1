ghost use Rattle.std.specs.Prelude.{◌≡◌, if◌then◌else◌};
ghost use Rattle.vlog_rules.specs.Grammar as grammar;

use vlog_rules::{Level, Rows};
use vlog_syntax::{BinaryOp, Expr, PartKind, UnaryOp};
use vlog_tokens::Word;
use word_core::Place;

/// The level of the operands of a row.
#[tactic(auto, unfolding(vlog_rules::specs::Grammar::tighter))]
pub fn tighter(rows: Rows) -> Level
    ensures { result ≡ grammar.tighter rows }
{
    match rows {
        Rows::Product => Level::Unary,
        Rows::Sum => Level::Row(Rows::Product),
        Rows::Shift => Level::Row(Rows::Sum),
        Rows::Order => Level::Row(Rows::Shift),
        Rows::Equality => Level::Row(Rows::Order),
        Rows::And => Level::Row(Rows::Equality),
        Rows::Xor => Level::Row(Rows::And),
        Rows::Or => Level::Row(Rows::Xor),
        Rows::Conjunction => Level::Row(Rows::Or),
        Rows::Disjunction => Level::Row(Rows::Conjunction),
    }
}

/// The one operator where the word is this one, and otherwise the other.
#[tactic(auto, unfolding(vlog_rules::specs::Grammar::same))]
fn where_it_is(word: Word, this: Word, one: BinaryOp, other: BinaryOp) -> BinaryOp
    ensures { result ≡ (if grammar.same word this then one else other) }
{
    if word == this { one } else { other }
}

/// The operator of the row that such a word is.
#[tactic(auto, unfolding(vlog_rules::specs::Grammar::operator_of))]
pub fn operator_of(rows: Rows, word: Word) -> BinaryOp
    ensures { result ≡ grammar.operator_of rows word }
{
    match rows {
        Rows::Product => {
            let other = where_it_is(word, Word::Slash, BinaryOp::Divide, BinaryOp::Remainder);
            where_it_is(word, Word::Star, BinaryOp::Times, other)
        }
        Rows::Sum => where_it_is(word, Word::Plus, BinaryOp::Plus, BinaryOp::Minus),
        Rows::Shift => {
            let (left, right) = (BinaryOp::ShiftLeft, BinaryOp::ShiftRight);
            where_it_is(word, Word::ShiftLeft, left, right)
        }
        Rows::Order => {
            let greater = where_it_is(word, Word::Greater, BinaryOp::Greater, BinaryOp::AtLeast);
            let other = where_it_is(word, Word::AtMost, BinaryOp::AtMost, greater);
            where_it_is(word, Word::Less, BinaryOp::Less, other)
        }
        Rows::Equality => {
            where_it_is(
                word,
                Word::EqualsEquals,
                BinaryOp::Equal,
                BinaryOp::NotEqual,
            )
        }
        Rows::And => BinaryOp::And,
        Rows::Xor => {
            let other = where_it_is(
                word,
                Word::CaretTilde,
                BinaryOp::XorTilde,
                BinaryOp::TildeXor,
            );
            where_it_is(word, Word::Caret, BinaryOp::Xor, other)
        }
        Rows::Or => BinaryOp::Or,
        Rows::Conjunction => BinaryOp::LogicalAnd,
        Rows::Disjunction => BinaryOp::LogicalOr,
    }
}

/// The bitwise operator of one operand that such a word is, but for `~` and `&`.
#[tactic(auto, unfolding(vlog_rules::specs::Grammar::same))]
fn bitwise_of(word: Word) -> UnaryOp
    ensures { result ≡ grammar.bitwise_of word }
{
    if word == Word::TildeAmpersand {
        UnaryOp::Nand
    } else if word == Word::Bar {
        UnaryOp::Or
    } else if word == Word::TildeBar {
        UnaryOp::Nor
    } else if word == Word::Caret {
        UnaryOp::Xor
    } else if word == Word::TildeCaret {
        UnaryOp::TildeXor
    } else {
        UnaryOp::XorTilde
    }
}

/// The operator of one operand that such a word is.
#[tactic(auto, unfolding(vlog_rules::specs::Grammar::same, vlog_rules::specs::Grammar::sign_of))]
pub fn sign_of(word: Word) -> UnaryOp
    ensures { result ≡ grammar.sign_of word }
{
    if word == Word::Plus {
        UnaryOp::Plus
    } else if word == Word::Minus {
        UnaryOp::Minus
    } else if word == Word::Exclamation {
        UnaryOp::LogicalNot
    } else if word == Word::Tilde {
        UnaryOp::Not
    } else if word == Word::Ampersand {
        UnaryOp::And
    } else {
        bitwise_of(word)
    }
}

/// What such a mark between two expressions of a select says.
#[tactic(auto, unfolding(vlog_rules::specs::Grammar::same, vlog_rules::specs::Grammar::kind_of_part))]
pub fn kind_of_part(word: Word) -> PartKind
    ensures { result ≡ grammar.kind_of_part word }
{
    if word == Word::PlusColon {
        PartKind::Upwards
    } else if word == Word::MinusColon {
        PartKind::Downwards
    } else {
        PartKind::Bounds
    }
}

/// Where the expression starts.
#[tactic(auto, unfolding(vlog_rules::specs::Grammar::starts))]
pub fn starts(tree: &Expr) -> Place
    ensures { result ≡ grammar.starts tree.now }
{
    match tree {
        Expr::Number(number) => number.at,
        Expr::Name { name, .. } => name.at,
        Expr::Paren { at, .. } => *at,
        Expr::Concat { at, .. } => *at,
        Expr::Repeat { at, .. } => *at,
        Expr::Unary { at, .. } => *at,
        Expr::Row { at, .. } => *at,
        Expr::Choice { at, .. } => *at,
    }
}
