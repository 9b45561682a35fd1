ghost use Rattle.std.specs.Prelude.{◌≡◌};
ghost use Rattle.vlog_expr.specs.Answers as spec;

use crate::error::ParseError;
use parsing::Fault;
use std::alloc::Global;
use vlog_tokens::{Token, Word};
use word_core::{Name, Place};

/// The last so many tokens.
fn last<'a, 't>(tokens: &'a [Token<'t>], left: usize) -> &'a [Token<'t>]
    ensures { result.now ≡ spec.last tokens.now left }
{
    &tokens[tokens.len().saturating_sub(left)..]
}

/// Where the rest starts.
fn start_of(rest: &[Token<'_>], end: Place) -> Place
    ensures { result ≡ spec.start_of rest.now end }
{
    match rest {
        [token, ..] => token.at(),
        [] => end,
    }
}

/// Whether the next token is a word that the grammar leaves out.
#[tactic(auto, unfolding(vlog_rules::specs::Grammar::same))]
fn left_out(rest: &[Token<'_>]) -> bool
    ensures { result ≡ spec.left_out rest.now }
{
    match rest {
        [token, ..] => token.word() == Word::LeftOut,
        [] => false,
    }
}

/// The refusal of the first token of the rest, where this was expected.
fn refused(alloc: Global, rest: &[Token<'_>], end: Place, what: &[u8]) -> ParseError
    ensures { spec.IsRefusalOf rest.now end result }
{
    let at = start_of(rest, end);
    if left_out(rest) {
        return ParseError::NotInProfile { at };
    }
    match Name::make(alloc, what) {
        Ok(what) => ParseError::Expected { at, what },
        Err(_) => ParseError::Memory,
    }
}

/// Why the tokens were not read, where this was expected last. The place `end` is the one behind the tokens.
pub fn error_of(
    alloc: Global,
    tokens: &[Token<'_>],
    end: Place,
    fault: Fault,
    what: &[u8],
) -> ParseError
    ensures { spec.IsErrorOf tokens.now end fault result }
{
    match fault {
        Fault::Memory => ParseError::Memory,
        Fault::Expected(left) => refused(alloc, last(tokens, left), end, what),
        Fault::TooDeep(left) => ParseError::TooDeep {
            at: start_of(last(tokens, left), end),
        },
    }
}
