ghost use Rattle.parsing.specs.Reading.{Reads};
ghost use Rattle.vlog_rules.specs.Grammar.{IsSource, source};
ghost use Rattle.vlog_expr.specs.Reading.{all_read};
ghost use Rattle.vlog_expr.specs.Answers.{Answers};
ghost use Rattle.vlog_modules.specs.Answers.{TextAnswers, IsLexical, IsGrammatical};

use crate::error::TextError;
use crate::items::source;
use parsing::Fault;
use std::alloc::Global;
use vlog_expr::{Cursor, ParseError, error_of};
use vlog_syntax::Tree;
use vlog_tokens::{LexError, MAX_BYTES, START, Token, past, tokens};
use word_core::Place;

#[tactic(auto, unfolding(vlog_expr::specs::Reading::all_read))]
fn all_of(alloc: Global, cursor: &mut Cursor<'_, '_>) -> Result<Tree, Fault>
    ensures { Reads (all_read source cursor.old) result cursor.new }
{
    let found = source(alloc, cursor)?;
    if cursor.left() != 0 {
        return Err(cursor.refuse(b"end of text"));
    }
    Ok(found)
}

/// The tree of the tokens, of which the place `end` is the one behind the text.
fn tree_of(alloc: Global, tokens: &[Token<'_>], end: Place) -> Result<Tree, ParseError>
    ensures { Answers IsSource tokens.now end result }
{
    let mut cursor = Cursor::new(tokens);
    match all_of(alloc, &mut cursor) {
        Ok(found) => Ok(found),
        Err(fault) => Err(error_of(alloc, tokens, end, fault, cursor.wanted())),
    }
}

/// Why the text has no tree, where it doesn't divide into tokens.
fn lexical(error: LexError) -> TextError
    ensures { IsLexical error result }
{
    match error {
        LexError::Memory => TextError::Memory,
        LexError::BadDirective { at } => TextError::Lex(LexError::BadDirective { at }),
        LexError::BadChar { at } => TextError::Lex(LexError::BadChar { at }),
        LexError::BadNumber { at } => TextError::Lex(LexError::BadNumber { at }),
        LexError::Unclosed { at } => TextError::Lex(LexError::Unclosed { at }),
    }
}

/// Why the text has no tree, where its tokens are refused.
fn grammatical(error: ParseError) -> TextError
    ensures { IsGrammatical error result }
{
    match error {
        ParseError::Memory => TextError::Memory,
        ParseError::Expected { at, what } => TextError::Parse(ParseError::Expected { at, what }),
        ParseError::NotInProfile { at } => TextError::Parse(ParseError::NotInProfile { at }),
        ParseError::TooDeep { at } => TextError::Parse(ParseError::TooDeep { at }),
    }
}

/// The tree of a text, and otherwise why there is none. The time is linear in the text.
#[tactic(auto, using(crate::proofs::Causes::lexical_answers, crate::proofs::Causes::grammatical_answers))]
pub fn parse(alloc: Global, bytes: &[u8]) -> Result<Tree, TextError>
    ensures { TextAnswers bytes.now result }
{
    if MAX_BYTES < bytes.len() {
        return Err(TextError::TooLong {
            length: MAX_BYTES as u64 + 1,
        });
    }
    match tokens(alloc, bytes) {
        Err(error) => Err(lexical(error)),
        Ok(found) => match tree_of(alloc, found.as_slice(), past(START, bytes)) {
            Ok(tree) => Ok(tree),
            Err(error) => Err(grammatical(error)),
        },
    }
}
