//! Tokens that begin classes, methods and instructions.

ghost use Rattle.std.specs.Prelude.{◌≡◌, drop};
ghost use Rattle.source_lines.specs.Lines.{begins, index_from, is_first_word, names_instruction};

use ilasm_tokens::source_tokens::{SourceToken, Tokens};
use ilasm_tokens::words::{WordUse, use_of};

/// A part of a source that begins with a reserved word of its own.
#[derive(Clone, Copy)]
pub(crate) enum Part {
    Class,
    Method,
    Instruction,
}

/// Whether a token begins such a part.
fn begins(token: &SourceToken, part: Part) -> bool
    ensures { result ≡ begins part token.now }
{
    match token.reserved_word() {
        None => false,
        Some(word) => is_first_word(word, part),
    }
}

/// Whether such a part begins with this word.
fn is_first_word(word: &[u8], part: Part) -> bool
    ensures { result ≡ is_first_word part word.now }
{
    match part {
        Part::Class => word == b".class".as_slice(),
        Part::Method => word == b".method".as_slice(),
        Part::Instruction => names_instruction(use_of(word)),
    }
}

fn names_instruction(used: Option<WordUse>) -> bool
    ensures { result ≡ names_instruction used }
{
    matches!(used, Some(WordUse::Instruction(_)))
}

/// The index of the first token, of those from an index on, that begins such a part after the given number of others that do. None if fewer do.
pub(crate) fn index_from(tokens: Tokens, from: usize, part: Part, others: usize) -> Option<usize>
    ensures { result ≡ index_from part others from (drop from tokens.now) }
{
    let mut left = others;
    for index in from..tokens.len() {
        if begins(&tokens[index], part) {
            if left == 0 {
                return Some(index);
            }
            left -= 1;
        }
    }
    None
}
