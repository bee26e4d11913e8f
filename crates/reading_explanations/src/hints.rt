//! What the grammar has at a position, in words.

use source_positions::cil_model::tokens::Symbol;
use source_positions::ilasm_tokens::expected::Expected;
use std::{fmt, str};

/// What the grammar has at a position: `a name`, or a word or a mark in backquotes.
#[derive(Clone, Copy)]
pub(crate) struct ExpectedText(pub Expected);

impl fmt::Display for ExpectedText {
    fn fmt<W: fmt::Write>(&self, f: &mut fmt::Formatter<W>) -> fmt::Result {
        match quoted_names(self.0) {
            None => f.write_str(words_of(self.0)),
            Some((before, quoted)) => write!(f, "{before}`{quoted}`"),
        }
    }
}

/// A word or a mark that is shown in backquotes, and what stands before it.
fn quoted_names(expected: Expected) -> Option<(&'static str, &'static str)> {
    match expected {
        Expected::Word(word) => Some(("", str::from_utf8(word).unwrap_or("?"))),
        Expected::Symbol(symbol) => Some(("", mark_of(symbol))),
        Expected::ListEnd(symbol) => Some(("`,` or ", mark_of(symbol))),
        _ => None,
    }
}

fn mark_of(symbol: Symbol) -> &'static str {
    match symbol {
        Symbol::OpenBrace => "{",
        Symbol::CloseBrace => "}",
        Symbol::OpenParenthesis => "(",
        Symbol::CloseParenthesis => ")",
        Symbol::OpenBracket => "[",
        Symbol::CloseBracket => "]",
        Symbol::Comma => ",",
        Symbol::Colon => ":",
        Symbol::DoubleColon => "::",
    }
}

/// The parts of declarations and of operands.
fn words_of(expected: Expected) -> &'static str {
    match expected {
        Expected::Token => "a token",
        Expected::Name => "a name",
        Expected::ClassName => "the name of a class",
        Expected::MemberName => "the name of a member",
        Expected::LabelName => "the name of a label",
        Expected::Integer => "an integer",
        Expected::Int32 => "an integer of 32 bits",
        Expected::StringLiteral => "a string literal",
        Expected::Type => "a type",
        Expected::ReturnType => "`void` or a type",
        Expected::CalledMethod => "`instance`, `void` or a type",
        Expected::VirtualMethod => "a method that is no constructor",
        Expected::Constructor => "`instance void` with a constructor",
        _ => words_of_blocks(expected),
    }
}

/// The beginnings of declarations, and what stands in blocks.
fn words_of_blocks(expected: Expected) -> &'static str {
    match expected {
        Expected::AssemblyName => "`extern` or a name",
        Expected::Declaration => "an assembly, a class or the end of the source",
        Expected::Class => "a class or the end of the source",
        Expected::ClassHead => "`interface` or `public`",
        Expected::ClassAttributes => "`abstract` or `auto`",
        Expected::Member => "a field, a method or `}`",
        Expected::InterfaceMember => "a method or `}`",
        Expected::MethodKind => {
            "`static`, `instance`, `virtual`, `newslot`, `abstract` or `specialname`"
        }
        Expected::VirtualWords => "`virtual` or `abstract virtual`",
        Expected::CilManaged => "`cil managed`",
        Expected::CodeStart => "`.entrypoint` or `.maxstack`",
        Expected::Line => "an instruction, a label with its `:`, or `}`",
        Expected::LabelledLine => "an instruction, or a label with its `:`",
        _ => "`:`",
    }
}
