//! What a byte may begin.

ghost use Rattle.std.specs.Prelude.{◌≡◌};
ghost use Rattle.cil_model.specs.Words.{begins_segment, is_word_byte};
ghost use Rattle.cil_model.specs.Lexemes.{is_white, is_plain, escape};
ghost use Rattle.ilasm_tokens.specs.Lexing.{kind_of};

use cil_model::tokens::Symbol;

/// What a byte may begin.
#[derive(Clone, Copy)]
pub enum Kind {
    /// A word: a letter, `_` or `.`.
    Word,
    /// An integer.
    Digit,
    /// An integer, by its sign.
    Minus,
    /// A string literal.
    Quote,
    /// One colon or two.
    Colon,
    /// A symbol of this byte alone.
    Single(Symbol),
    /// No token.
    Nothing,
}

/// What a byte may begin.
#[tactic(auto, unfolding(crate::specs::Lexing::kind_of))]
pub fn kind_of(byte: u8) -> Kind
    ensures { result ≡ kind_of byte }
{
    match byte {
        b'A'..=b'Z' | b'a'..=b'z' | b'_' | b'.' => Kind::Word,
        b'0'..=b'9' => Kind::Digit,
        b'-' => Kind::Minus,
        b'"' => Kind::Quote,
        b':' => Kind::Colon,
        b'{' => Kind::Single(Symbol::OpenBrace),
        b'}' => Kind::Single(Symbol::CloseBrace),
        b'(' => Kind::Single(Symbol::OpenParenthesis),
        b')' => Kind::Single(Symbol::CloseParenthesis),
        b'[' => Kind::Single(Symbol::OpenBracket),
        b']' => Kind::Single(Symbol::CloseBracket),
        b',' => Kind::Single(Symbol::Comma),
        _ => Kind::Nothing,
    }
}

/// A letter or `_`.
pub fn begins_segment(byte: u8) -> bool
    ensures { result ≡ begins_segment byte }
{
    matches!(byte, b'A'..=b'Z' | b'a'..=b'z' | b'_')
}

/// A letter, a digit, `_` or `.`.
pub fn is_word_byte(byte: u8) -> bool
    ensures { result ≡ is_word_byte byte }
{
    matches!(byte, b'A'..=b'Z' | b'a'..=b'z' | b'0'..=b'9' | b'_' | b'.')
}

/// Tab, line feed, carriage return or space.
pub fn is_white(byte: u8) -> bool
    ensures { result ≡ is_white byte }
{
    matches!(byte, b'\t' | b'\n' | b'\r' | b' ')
}

/// A byte of a string literal that represents itself.
pub fn is_plain(byte: u8) -> bool
    ensures { result ≡ is_plain byte }
{
    byte >= b' ' && byte <= b'~' && byte != b'"' && byte != b'\\'
}

/// The byte that a backslash and this byte represent.
pub fn escape(byte: u8) -> Option<u8>
    ensures { result ≡ escape byte }
{
    match byte {
        b'n' => Some(b'\n'),
        b't' => Some(b'\t'),
        b'\\' => Some(b'\\'),
        b'"' => Some(b'"'),
        _ => None,
    }
}
