ghost use Rattle.std.specs.Prelude.{◌≡◌, List, ℕ, Ok, IfOk};
ghost use Rattle.vlog_tokens.specs.Directives.{LexAnswers};
ghost use Rattle.token_text.specs.Printing as spec;
ghost use Rattle.token_text.specs.Again.{AreTokens, DividesInto};

use crate::writer::TokenText;
use std::alloc::{AllocError, Global};
use vlog_tokens::Token;

/// The tokens, written.
#[tactic(auto, unfolding(crate::specs::Printing::with_tokens))]
fn written<'a>(alloc: Global, tokens: &[Token<'a>]) -> Result<Vec<u8>, AllocError>
    ensures { IfOk result (λ bytes. bytes.items ≡ spec.printed (spec.texts tokens.now)) }
{
    let mut out = TokenText::new(alloc);
    let mut rest = tokens;
    while let [token, more @ ..] = rest {
        out.push(token.text())?;
        rest = more;
    }
    Ok(out.into_bytes())
}

/// The text of the tokens: one space between neighbours, and a line feed in its place behind each `;` and `endmodule`. It divides into tokens with the
/// same bytes, where each of these is a token of some text. The time is linear in their bytes.
pub fn print_tokens<'a>(alloc: Global, tokens: &[Token<'a>]) -> Result<Vec<u8>, AllocError>
    ensures bytes { IfOk result (λ bytes. bytes.items ≡ spec.printed (spec.texts tokens.now)) }
    ensures divides { AreTokens (spec.texts tokens.now) → IfOk result (λ bytes. DividesInto bytes.items (spec.texts tokens.now)) }
    ensures again { (text : List ℕ) → LexAnswers text (Ok tokens.now) → IfOk result (λ bytes. DividesInto bytes.items (spec.texts tokens.now)) }
{
    written(alloc, tokens)
}
