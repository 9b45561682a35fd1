ghost use Rattle.std.specs.Prelude.{◌≡◌, map};
ghost use Rattle.vlog_tokens.specs.Words as spec;

use crate::bytes::{begins_name, is_decimal};

/// What a token is to the grammar: each keyword and mark that a rule uses, and what is no keyword and no mark.
#[derive(Clone, Copy, Debug, PartialEq, Eq)]
pub enum Word {
    Name,
    /// The text of the token says which number.
    Number,
    /// `module`
    Module,
    /// `endmodule`
    Endmodule,
    /// `input`
    Input,
    /// `output`
    Output,
    /// `wire`
    Wire,
    /// `reg`
    Reg,
    /// `parameter`
    Parameter,
    /// `localparam`
    Localparam,
    /// `generate`
    Generate,
    /// `endgenerate`
    Endgenerate,
    /// `integer`
    Integer,
    /// `genvar`
    Genvar,
    /// `assign`
    Assign,
    /// `always`
    Always,
    /// `for`
    For,
    /// `begin`
    Begin,
    /// `end`
    End,
    /// `if`
    If,
    /// `else`
    Else,
    /// `or`
    Or,
    /// `posedge`
    Posedge,
    /// `negedge`
    Negedge,
    /// `case`
    Case,
    /// `casez`
    Casez,
    /// `endcase`
    Endcase,
    /// `default`
    Default,
    /// `#`
    Hash,
    /// `(`
    OpenParen,
    /// `)`
    CloseParen,
    /// `,`
    Comma,
    /// `;`
    Semicolon,
    /// `=`
    Equals,
    /// `[`
    OpenBracket,
    /// `]`
    CloseBracket,
    /// `:`
    Colon,
    /// `@`
    At,
    /// `*`
    Star,
    /// `.`
    Dot,
    /// `<=`
    AtMost,
    /// `+`
    Plus,
    /// `-`
    Minus,
    /// `!`
    Exclamation,
    /// `~`
    Tilde,
    /// `&`
    Ampersand,
    /// `~&`
    TildeAmpersand,
    /// `|`
    Bar,
    /// `~|`
    TildeBar,
    /// `^`
    Caret,
    /// `~^`
    TildeCaret,
    /// `^~`
    CaretTilde,
    /// `+:`
    PlusColon,
    /// `-:`
    MinusColon,
    /// `{`
    OpenBrace,
    /// `}`
    CloseBrace,
    /// `?`
    Question,
    /// `||`
    BarBar,
    /// `&&`
    AmpersandAmpersand,
    /// `==`
    EqualsEquals,
    /// `!=`
    NotEquals,
    /// `<`
    Less,
    /// `>`
    Greater,
    /// `>=`
    AtLeast,
    /// `<<`
    ShiftLeft,
    /// `>>`
    ShiftRight,
    /// `/`
    Slash,
    /// `%`
    Percent,
    /// A keyword or a mark that no rule uses. The text of the token says which.
    LeftOut,
}

/// Which kind of token it is.
#[derive(Clone, Copy, Debug, PartialEq, Eq)]
pub enum Kind {
    Name,
    Keyword,
    Number,
    Mark,
}

/// The keywords, and what each of them is to the grammar.
pub const KEYWORDS: [(&[u8], Word); 53] = [
    (b"module", Word::Module),
    (b"endmodule", Word::Endmodule),
    (b"input", Word::Input),
    (b"output", Word::Output),
    (b"wire", Word::Wire),
    (b"reg", Word::Reg),
    (b"parameter", Word::Parameter),
    (b"localparam", Word::Localparam),
    (b"generate", Word::Generate),
    (b"endgenerate", Word::Endgenerate),
    (b"integer", Word::Integer),
    (b"genvar", Word::Genvar),
    (b"assign", Word::Assign),
    (b"always", Word::Always),
    (b"for", Word::For),
    (b"begin", Word::Begin),
    (b"end", Word::End),
    (b"if", Word::If),
    (b"else", Word::Else),
    (b"or", Word::Or),
    (b"posedge", Word::Posedge),
    (b"negedge", Word::Negedge),
    (b"case", Word::Case),
    (b"casez", Word::Casez),
    (b"endcase", Word::Endcase),
    (b"default", Word::Default),
    (b"initial", Word::LeftOut),
    (b"task", Word::LeftOut),
    (b"function", Word::LeftOut),
    (b"fork", Word::LeftOut),
    (b"join", Word::LeftOut),
    (b"wait", Word::LeftOut),
    (b"while", Word::LeftOut),
    (b"repeat", Word::LeftOut),
    (b"forever", Word::LeftOut),
    (b"casex", Word::LeftOut),
    (b"inout", Word::LeftOut),
    (b"tri", Word::LeftOut),
    (b"tri0", Word::LeftOut),
    (b"tri1", Word::LeftOut),
    (b"supply0", Word::LeftOut),
    (b"supply1", Word::LeftOut),
    (b"real", Word::LeftOut),
    (b"time", Word::LeftOut),
    (b"event", Word::LeftOut),
    (b"signed", Word::LeftOut),
    (b"force", Word::LeftOut),
    (b"release", Word::LeftOut),
    (b"deassign", Word::LeftOut),
    (b"disable", Word::LeftOut),
    (b"defparam", Word::LeftOut),
    (b"specify", Word::LeftOut),
    (b"primitive", Word::LeftOut),
];

/// The marks, and what each of them is to the grammar.
pub const MARKS: [(&[u8], Word); 46] = [
    (b"#", Word::Hash),
    (b"(", Word::OpenParen),
    (b")", Word::CloseParen),
    (b",", Word::Comma),
    (b";", Word::Semicolon),
    (b"=", Word::Equals),
    (b"[", Word::OpenBracket),
    (b"]", Word::CloseBracket),
    (b":", Word::Colon),
    (b"@", Word::At),
    (b"*", Word::Star),
    (b".", Word::Dot),
    (b"<=", Word::AtMost),
    (b"+", Word::Plus),
    (b"-", Word::Minus),
    (b"!", Word::Exclamation),
    (b"~", Word::Tilde),
    (b"&", Word::Ampersand),
    (b"~&", Word::TildeAmpersand),
    (b"|", Word::Bar),
    (b"~|", Word::TildeBar),
    (b"^", Word::Caret),
    (b"~^", Word::TildeCaret),
    (b"^~", Word::CaretTilde),
    (b"+:", Word::PlusColon),
    (b"-:", Word::MinusColon),
    (b"{", Word::OpenBrace),
    (b"}", Word::CloseBrace),
    (b"?", Word::Question),
    (b"||", Word::BarBar),
    (b"&&", Word::AmpersandAmpersand),
    (b"==", Word::EqualsEquals),
    (b"!=", Word::NotEquals),
    (b"<", Word::Less),
    (b">", Word::Greater),
    (b">=", Word::AtLeast),
    (b"<<", Word::ShiftLeft),
    (b">>", Word::ShiftRight),
    (b"/", Word::Slash),
    (b"%", Word::Percent),
    (b"===", Word::LeftOut),
    (b"!==", Word::LeftOut),
    (b"**", Word::LeftOut),
    (b"<<<", Word::LeftOut),
    (b">>>", Word::LeftOut),
    (b"->", Word::LeftOut),
];

/// The entry of the table with this text.
fn lookup(mut table: &[(&[u8], Word)], text: &[u8]) -> Option<Word>
    ensures { result ≡ spec.lookup (map (λ entry. (entry.0.now, entry.1)) table.entry.now) text.now }
{
    while let [entry, rest @ ..] = table {
        if entry.0 == text {
            return Some(entry.1);
        }
        table = rest;
    }
    None
}

/// The keyword with this text.
#[tactic(auto, using(crate::proofs::Tables::keywords_are), unfolding(crate::specs::Words::keyword))]
fn keyword(text: &[u8]) -> Option<Word>
    ensures { result ≡ spec.keyword text.now }
{
    lookup(&KEYWORDS, text)
}

/// The mark with this text.
#[tactic(auto, using(crate::proofs::Tables::marks_are), unfolding(crate::specs::Words::mark))]
pub fn mark(text: &[u8]) -> Option<Word>
    ensures { result ≡ spec.mark text.now }
{
    lookup(&MARKS, text)
}

/// Whether a number begins with the byte.
pub fn begins_number(byte: u8) -> bool
    ensures { result ≡ spec.begins_number byte }
{
    is_decimal(byte) || byte == b'\''
}

/// What a token is that is no keyword and no mark.
fn unspelled(text: &[u8]) -> Word
    ensures { result ≡ spec.unspelled text.now }
{
    match text {
        [first, ..] => {
            if begins_number(*first) {
                Word::Number
            } else if begins_name(*first) {
                Word::Name
            } else {
                Word::LeftOut
            }
        }
        [] => Word::LeftOut,
    }
}

/// What a token is that is no keyword.
fn no_keyword(text: &[u8]) -> Word
    ensures { result ≡ spec.or_unspelled text.now (spec.mark text.now) }
{
    match mark(text) {
        Some(word) => word,
        None => unspelled(text),
    }
}

/// What a token with this text is to the grammar. The time is linear in the text.
#[tactic(auto, unfolding(crate::specs::Words::word_of))]
pub fn word_of(text: &[u8]) -> Word
    ensures { result ≡ spec.word_of text.now }
{
    match keyword(text) {
        Some(word) => word,
        None => no_keyword(text),
    }
}

/// The kind of a token that is no keyword and no mark.
fn unspelled_kind(text: &[u8]) -> Kind
    ensures { result ≡ spec.unspelled_kind text.now }
{
    match text {
        [first, ..] => {
            if begins_number(*first) {
                Kind::Number
            } else if begins_name(*first) {
                Kind::Name
            } else {
                Kind::Keyword
            }
        }
        [] => Kind::Keyword,
    }
}

/// The kind of a token with this text.
#[tactic(auto, unfolding(crate::specs::Words::kind_of))]
pub fn kind_of(text: &[u8]) -> Kind
    ensures { result ≡ spec.kind_of text.now }
{
    if keyword(text).is_some() {
        return Kind::Keyword;
    }
    if mark(text).is_some() {
        return Kind::Mark;
    }
    unspelled_kind(text)
}
