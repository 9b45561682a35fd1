ghost use Rattle.std.specs.Prelude.{◌≡◌};
ghost use Rattle.vlog_tokens.specs.Words.{word_of, kind_of};

use crate::word::{Kind, Word, kind_of, word_of};
use std::marker::Model;
use word_core::Place;

/// A token: a slice of the text, and where it stands.
#[derive(Debug, Drop)]
pub struct Token<'a> {
    word: Word,
    text: &'a [u8],
    at: Place,
    from: u32,
}

impl<'a> Model for Token<'a> {
    ghost use Rattle.std.specs.Prelude.{◌≡◌};
    ghost use Rattle.vlog_tokens.specs.Tokens.{Token};
    ghost use Rattle.vlog_tokens.specs.Words.{word_of};

    ghost Value = { Token };

    ghost view = { λ t. record { text = t.text.now; at = t.at; from = t.from } };

    ghost invariant = { λ t. t.word ≡ word_of t.text.now };
}

impl<'a> Token<'a> {
    pub fn new(text: &'a [u8], at: Place, from: u32) -> Token<'a>
        ensures { result ≡ record { text = text.now; at = at; from = from } }
    {
        Token {
            word: word_of(text),
            text,
            at,
            from,
        }
    }

    /// What the token is to the grammar.
    pub fn word(&self) -> Word
        ensures { result ≡ word_of self.now.text }
    {
        self.word
    }

    /// Which kind of token it is. The time is linear in its length.
    pub fn kind(&self) -> Kind
        ensures { result ≡ kind_of self.now.text }
    {
        kind_of(self.text)
    }

    /// The token's bytes.
    pub fn text(&self) -> &'a [u8]
        ensures { result.now ≡ self.now.text }
    {
        self.text
    }

    /// The place of the token's first byte.
    pub fn at(&self) -> Place
        ensures { result ≡ self.now.at }
    {
        self.at
    }

    /// How many bytes of the text stand before the token.
    pub fn from(&self) -> u32
        ensures { result ≡ self.now.from }
    {
        self.from
    }
}
