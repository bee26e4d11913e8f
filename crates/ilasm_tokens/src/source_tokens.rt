//! Tokens that borrow their bytes from the source.

ghost use Rattle.std.specs.Prelude.{◌≡◌, ◌<◌, All, IfOk, option_map, is_some};
ghost use Rattle.cil_model.specs.declared.tokens.Token.TheVariants.{Reserved, Name, Integer, Quoted, Symbol as OfSymbol};
ghost use Rattle.ilasm_tokens.specs.Parts.{characters_of, reserved_in, name_in, integer_in, quoted_in, symbol_in};

use crate::lexemes::{text_of, text_of_literal};
use cil_model::texts::Text;
use cil_model::tokens::Symbol;
use std::alloc::{AllocError, Global};
use std::marker::Model;

/// A token that borrows its bytes from the source. Contracts see it as the token of the definition.
#[derive(Drop)]
pub struct SourceToken<'s> {
    part: Part<'s>,
}

/// Tokens that are still to be read.
pub type Tokens<'s> = &'s [SourceToken<'s>];

/// How a token is written in the source.
#[derive(Clone, Copy)]
enum Part<'s> {
    Reserved(&'s [u8]),
    Name(&'s [u8]),
    Integer(i64),
    /// A string literal, from after its first quote on to the source's end.
    Quoted(&'s [u8]),
    Symbol(Symbol),
}

impl<'s> Model for SourceToken<'s> {
    ghost use Rattle.cil_model.specs.declared.tokens.Token.{Token};

    ghost Value = { Token };

    ghost use Rattle.ilasm_tokens.specs.Parts.{token_of, HasAsciiName};

    ghost view = { λ t. token_of t.part };

    ghost invariant = { λ t. HasAsciiName t.part };
}

impl<'s> SourceToken<'s> {
    /// A reserved word.
    pub fn of_reserved(word: &'s [u8]) -> Self
        ensures { result ≡ Reserved word.now }
    {
        SourceToken {
            part: Part::Reserved(word),
        }
    }

    /// A name.
    pub fn of_name(name: &'s [u8]) -> Self
        requires { All (λ b. b < 128) name.now }
        ensures { result ≡ Name name.now }
    {
        SourceToken {
            part: Part::Name(name),
        }
    }

    /// An integer.
    pub fn of_integer(value: i64) -> Self
        ensures { result ≡ Integer value }
    {
        SourceToken {
            part: Part::Integer(value),
        }
    }

    /// A string literal, from after its first quote on; what is after its last quote is no part of it.
    pub fn of_literal(bytes: &'s [u8]) -> Self
        ensures { result ≡ Quoted (characters_of bytes.now) }
    {
        SourceToken {
            part: Part::Quoted(bytes),
        }
    }

    /// A mark.
    pub fn of_symbol(symbol: Symbol) -> Self
        ensures { result ≡ OfSymbol symbol }
    {
        SourceToken {
            part: Part::Symbol(symbol),
        }
    }

    /// The bytes of a reserved word; `None` for any other token.
    pub fn reserved_word(&self) -> Option<&'s [u8]>
        ensures { option_map (λ w. w.now) result ≡ reserved_in self.now }
    {
        match self.part {
            Part::Reserved(word) => Some(word),
            _ => None,
        }
    }

    /// Whether it is a name.
    pub fn is_name(&self) -> bool
        ensures { result ≡ is_some (name_in self.now) }
    {
        matches!(self.part, Part::Name(_))
    }

    /// A name, in memory of its own; `None` for any other token.
    pub fn name(&self, alloc: Global) -> Result<Option<Text>, AllocError>
        ensures { IfOk result (λ name. name ≡ name_in self.now) }
    {
        match self.part {
            Part::Name(name) => Ok(Some(text_of(alloc, name)?)),
            _ => Ok(None),
        }
    }

    /// The value of an integer; `None` for any other token.
    pub fn integer(&self) -> Option<i64>
        ensures { result ≡ integer_in self.now }
    {
        match self.part {
            Part::Integer(value) => Some(value),
            _ => None,
        }
    }

    /// The characters of a string literal, in memory of their own; `None` for any other token.
    pub fn quoted_text(&self, alloc: Global) -> Result<Option<Text>, AllocError>
        ensures { IfOk result (λ text. text ≡ quoted_in self.now) }
    {
        match self.part {
            Part::Quoted(bytes) => Ok(Some(text_of_literal(alloc, bytes)?)),
            _ => Ok(None),
        }
    }

    /// A mark; `None` for any other token.
    pub fn symbol(&self) -> Option<Symbol>
        ensures { result ≡ symbol_in self.now }
    {
        match self.part {
            Part::Symbol(symbol) => Some(symbol),
            _ => None,
        }
    }
}
