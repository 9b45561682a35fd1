ghost use Rattle.std.specs.Prelude.{◌≡◌, ◌≤◌, length, IfOk};
ghost use Rattle.vlog_tokens.specs.Reads as spec;
ghost use Rattle.vlog_tokens.specs.Directives.{LexAnswers, OnlyAnswer, AreSlices};

use crate::directive::first_backquote;
use crate::error::LexError;
use crate::place::{START, past};
use crate::token::Token;
use crate::turn::{Turn, turn_of};
use sqlite_items::Items;
use std::alloc::Global;

/// The greatest length of a text, in bytes.
pub const MAX_BYTES: usize = 4_194_304;

/// The tokens of a text in which no directive is looked for, in order. The time is linear in the text.
fn divided<'a>(alloc: Global, text: &'a [u8]) -> Result<Items<Token<'a>>, LexError>
    requires { length text.now ≤ 4194304 }
    ensures { spec.Divided text.now result }
{
    let mut found = Items::new(alloc);
    let mut rest = text;
    let mut at = START;
    let mut from = 0u32;
    while let [_, ..] = rest {
        match turn_of(rest) {
            Turn::Pass(length) => {
                let (taken, behind) = rest.split_at(length);
                at = past(at, taken);
                from += length as u32;
                rest = behind;
            }
            Turn::Take(length) => {
                let (taken, behind) = rest.split_at(length);
                found.push(Token::new(taken, at, from))?;
                at = past(at, taken);
                from += length as u32;
                rest = behind;
            }
            Turn::NoEnd => return Err(LexError::Unclosed { at }),
            Turn::NoValue => return Err(LexError::BadNumber { at }),
            Turn::Nothing => return Err(LexError::BadChar { at }),
        }
    }
    Ok(found)
}

/// The tokens of the text, where it has no backquote outside comments.
fn answered<'a>(alloc: Global, text: &'a [u8]) -> Result<Items<Token<'a>>, LexError>
    requires { length text.now ≤ 4194304 }
    ensures { LexAnswers text.now result }
{
    match first_backquote(text) {
        Some(at) => Err(LexError::BadDirective { at }),
        None => divided(alloc, text),
    }
}

/// The tokens of the text, in order, or the first place from which it can't be read on. Directives are not read: a backquote outside comments is
/// refused before the text is divided. The time is linear in the text.
pub fn tokens<'a>(alloc: Global, text: &'a [u8]) -> Result<Items<Token<'a>>, LexError>
    requires { length text.now ≤ 4194304 }
    ensures answers { LexAnswers text.now result }
    ensures only { OnlyAnswer text.now result }
    ensures slices { IfOk result (λ found. AreSlices text.now 0 found) }
{
    answered(alloc, text)
}
