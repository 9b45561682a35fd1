//! Expressions: how tightly operators bind, what is refused, and how deep parentheses may stand.
use std::alloc::{AllocError, Global};
use std::test::Fail;
use vlog_expr::{ParseError, expression};
use vlog_syntax::Expr;
use vlog_tokens::{MAX_BYTES, START, past, tokens};

/// The forms of expressions.
#[derive(Clone, Copy, Debug, PartialEq, Eq)]
enum Form {
    Number,
    Name,
    Paren,
    Concat,
    Repeat,
    Unary,
    Row,
    Choice,
}

fn form_of(e: &Expr) -> Form {
    match e {
        Expr::Number(_) => Form::Number,
        Expr::Name { .. } => Form::Name,
        Expr::Paren { .. } => Form::Paren,
        Expr::Concat { .. } => Form::Concat,
        Expr::Repeat { .. } => Form::Repeat,
        Expr::Unary { .. } => Form::Unary,
        Expr::Row { .. } => Form::Row,
        Expr::Choice { .. } => Form::Choice,
    }
}

/// The form of an expression's first part, where it has one.
fn first_form(e: &Expr) -> Option<Form> {
    match e {
        Expr::Number(_) => None,
        Expr::Name { .. } => None,
        Expr::Paren { inner, .. } => Some(form_of(inner.get())),
        Expr::Concat { first, .. } => Some(form_of(first.get())),
        Expr::Repeat { count, .. } => Some(form_of(count.get())),
        Expr::Unary { value, .. } => Some(form_of(value.get())),
        Expr::Row { first, .. } => Some(form_of(first.get())),
        Expr::Choice { condition, .. } => Some(form_of(condition.get())),
    }
}

/// Expressions, with their form and that of their first part.
const FORMS: [(&[u8], Form, Option<Form>); 18] = [
    (b"a", Form::Name, None),
    (b"8'hF_f", Form::Number, None),
    (b"(a)", Form::Paren, Some(Form::Name)),
    (b"{a, b[1]}", Form::Concat, Some(Form::Name)),
    (b"{2{a, b}}", Form::Repeat, Some(Form::Number)),
    (b"~&a[3:0]", Form::Unary, Some(Form::Name)),
    (b"~a & b", Form::Row, Some(Form::Unary)),
    (b"a + b * c", Form::Row, Some(Form::Name)),
    (b"a * b + c", Form::Row, Some(Form::Row)),
    (b"a << b + c", Form::Row, Some(Form::Name)),
    (b"a == b & c", Form::Row, Some(Form::Row)),
    (b"a & b == c", Form::Row, Some(Form::Name)),
    (b"a | b ^ c", Form::Row, Some(Form::Name)),
    (b"a && b || c", Form::Row, Some(Form::Row)),
    (b"a || b ? c : d", Form::Choice, Some(Form::Row)),
    (b"a ? b : c || d", Form::Choice, Some(Form::Name)),
    (b"a ? b : c ? d : e", Form::Choice, Some(Form::Name)),
    (b"(a ? b : c) ? d : e", Form::Choice, Some(Form::Paren)),
];

#[test]
fn operators_bind_by_their_levels(rt: HostRuntime) -> Result<(), Fail> {
    for (text, whole, first) in FORMS {
        let found = tokens(rt.alloc(), text)?;
        match expression(rt.alloc(), found.as_slice(), past(START, text)) {
            Ok(e) => {
                assert!(rt; form_of(&e) == whole);
                assert!(rt; first_form(&e) == first);
            }
            Err(_) => return Err("refused".into()),
        }
    }
    Ok(())
}

/// Why tokens are refused, and the column.
#[derive(Clone, Copy, Debug, PartialEq, Eq)]
enum Refusal {
    Expected(u32),
    NotInProfile(u32),
    TooDeep(u32),
    Memory,
}

fn refusal_of(error: &ParseError) -> Refusal {
    match error {
        ParseError::Expected { at, .. } => Refusal::Expected(at.col),
        ParseError::NotInProfile { at } => Refusal::NotInProfile(at.col),
        ParseError::TooDeep { at } => Refusal::TooDeep(at.col),
        ParseError::Memory => Refusal::Memory,
    }
}

/// What is no expression, and why.
const REFUSED: [(&[u8], Refusal); 9] = [
    (b"", Refusal::Expected(1)),
    (b"a -> b", Refusal::NotInProfile(3)),
    (b"$x", Refusal::NotInProfile(1)),
    (b"a === b", Refusal::NotInProfile(3)),
    (b"a b", Refusal::Expected(3)),
    (b"a +", Refusal::Expected(4)),
    (b"- -a", Refusal::Expected(3)),
    (b"(a", Refusal::Expected(3)),
    (b"a ? b", Refusal::Expected(6)),
];

#[test]
fn others_are_refused_at_their_first_wrong_token(rt: HostRuntime) -> Result<(), Fail> {
    for (text, wanted) in REFUSED {
        let found = tokens(rt.alloc(), text)?;
        match expression(rt.alloc(), found.as_slice(), past(START, text)) {
            Ok(_) => return Err("not refused".into()),
            Err(error) => assert!(rt; refusal_of(&error) == wanted),
        }
    }
    Ok(())
}

/// A name in so many pairs of parentheses.
fn nested(alloc: Global, pairs: u32) -> Result<Vec<u8>, AllocError> {
    let mut text = Vec::new(alloc);
    for _ in 0..pairs {
        text.push(b'(')?;
    }
    text.push(b'a')?;
    for _ in 0..pairs {
        text.push(b')')?;
    }
    Ok(text)
}

/// Numbers of pairs of parentheses. Of more than 255 the one at column 256 would need level 257 in it.
const DEPTHS: [(u32, Option<Refusal>); 5] = [
    (1, None),
    (100, None),
    (255, None),
    (256, Some(Refusal::TooDeep(256))),
    (600, Some(Refusal::TooDeep(256))),
];

#[test]
fn parentheses_stand_up_to_255_deep(rt: HostRuntime) -> Result<(), Fail> {
    for (pairs, wanted) in DEPTHS {
        let text = nested(rt.alloc(), pairs)?;
        assert!(rt; text.len() <= MAX_BYTES);
        let found = tokens(rt.alloc(), text.as_slice())?;
        match expression(rt.alloc(), found.as_slice(), past(START, text.as_slice())) {
            Ok(_) => assert!(rt; wanted.is_none()),
            Err(error) => assert!(rt; wanted == Some(refusal_of(&error))),
        }
    }
    Ok(())
}
