ghost use Rattle.std.specs.Prelude.{◌≡◌, OnOk};
ghost use Rattle.token_text.specs.Printing as spec;

use std::alloc::{AllocError, Global};
use std::marker::Model;

/// A text that is being written, token by token.
#[derive(Debug, Drop)]
pub struct TokenText {
    bytes: Vec<u8>,
    /// Whether the next token is the first of its line.
    is_fresh: bool,
}

impl Model for TokenText {
    ghost use Rattle.token_text.specs.Printing.{Written};

    ghost Value = { Written };

    ghost view = { λ t. record { bytes = t.bytes.items; is_fresh = t.is_fresh } };
}

/// Whether a line ends behind the token.
#[tactic(auto, unfolding(crate::specs::Printing::ends_line))]
fn ends_line(text: &[u8]) -> bool
    ensures { result ≡ spec.ends_line text.now }
{
    text == b";".as_slice() || text == b"endmodule".as_slice()
}

/// What stands before a token.
fn space_before(is_fresh: bool) -> &'static [u8]
    ensures { result.now ≡ spec.space_before is_fresh }
{
    if is_fresh { b"" } else { b" " }
}

/// What stands behind a token.
fn feed_behind(is_last: bool) -> &'static [u8]
    ensures { result.now ≡ spec.feed_behind is_last }
{
    if is_last { b"\n" } else { b"" }
}

impl TokenText {
    /// A text without a token.
    pub fn new(alloc: Global) -> TokenText
        ensures { result ≡ spec.nothing }
    {
        TokenText {
            bytes: Vec::new(alloc),
            is_fresh: true,
        }
    }

    /// Writes one token more. The time is linear in its length, but for the room that is made. Where memory runs out the text is of no use.
    pub fn push(&mut self, text: &[u8]) -> Result<(), AllocError>
        ensures { OnOk result (self.new ≡ spec.with_token self.old text.now) }
    {
        let is_last = ends_line(text);
        self.bytes.extend_from_slice(space_before(self.is_fresh))?;
        self.bytes.extend_from_slice(text)?;
        self.bytes.extend_from_slice(feed_behind(is_last))?;
        self.is_fresh = is_last;
        Ok(())
    }

    /// The text.
    pub fn into_bytes(self) -> Vec<u8>
        ensures { result.items ≡ self.bytes }
    {
        let TokenText { bytes, is_fresh: _ } = self;
        bytes
    }
}
