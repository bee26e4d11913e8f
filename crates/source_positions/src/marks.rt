//! The tokens by which parts of a source are found. Each of these words occurs at only one position of the grammar, so to count them is to
//! count the parts that they begin.

use crate::lexemes::token_at;
use crate::tokens::{directive_from, token_after, token_from};
use ilasm_tokens::words::{WordUse, use_of};

/// What a token is looked for as.
#[derive(Clone, Copy)]
pub(crate) enum Mark {
    /// This reserved word or symbol.
    Token(&'static [u8]),
    /// Any name.
    Name,
    /// `.field` or `.method`, with which a member begins.
    Member,
    /// What follows a field: the next member, or the end of the class.
    FieldEnd,
    /// The name of an instruction, in a long form or a short one.
    Instruction,
}

fn is_text(token: &[u8], text: &[u8]) -> bool {
    token == text
}

fn is_member(token: &[u8]) -> bool {
    is_text(token, b".field") || is_text(token, b".method")
}

/// Whether a token is a word that is not reserved.
fn is_name(token: &[u8]) -> bool {
    match token {
        [b'A'..=b'Z' | b'a'..=b'z' | b'_', ..] => use_of(token).is_none(),
        _ => false,
    }
}

fn is_marked(token: &[u8], mark: Mark) -> bool {
    match mark {
        Mark::Token(text) => is_text(token, text),
        Mark::Name => is_name(token),
        Mark::Member => is_member(token),
        Mark::FieldEnd => is_member(token) || is_text(token, b"}"),
        Mark::Instruction => matches!(use_of(token), Some(WordUse::Instruction(_))),
    }
}

/// A token of a source, from which others are found; none where a step before found none.
#[derive(Clone, Copy)]
pub(crate) struct Walk<'t> {
    text: &'t [u8],
    at: Option<usize>,
    /// The token to which a look back goes at most, and how many tokens there are from it on before this one.
    first: usize,
    distance: usize,
}

impl<'t> Walk<'t> {
    /// The token at an offset of a source.
    pub fn at(text: &'t [u8], offset: usize) -> Self {
        Walk {
            text,
            at: Some(offset),
            first: offset,
            distance: 0,
        }
    }

    /// The first token of a source.
    pub fn at_first(text: &'t [u8]) -> Self {
        Walk::at(text, token_from(text, 0))
    }

    /// The offset of the token in the source.
    pub fn offset(self) -> Option<usize> {
        self.at
    }

    /// No token.
    fn nowhere(self) -> Self {
        Walk { at: None, ..self }
    }

    /// The token with a mark, from this one on, after `others` more with the mark.
    pub fn to(self, mark: Mark, others: usize) -> Self {
        let Some(from) = self.at else {
            return self;
        };
        let mut at = from;
        let mut left = others;
        for passed in 0..self.text.len() {
            let token = token_at(self.text, at);
            if token.is_empty() {
                return self.nowhere();
            }
            if is_marked(token, mark) {
                if left == 0 {
                    return self.further(at, passed);
                }
                left -= 1;
            }
            at = token_from(self.text, at.saturating_add(token.len()));
        }
        self.nowhere()
    }

    /// The directive with a mark, at this token or after it, after `others` more with the mark. A look back from there goes to it at most.
    pub fn to_directive(self, mark: Mark, others: usize) -> Self {
        let Some(from) = self.at else {
            return self;
        };
        let mut at = from;
        let mut left = others;
        for _ in 0..self.text.len() {
            let Some(found) = directive_from(self.text, at) else {
                return self.nowhere();
            };
            let token = token_at(self.text, found);
            if is_marked(token, mark) {
                if left == 0 {
                    return Walk::at(self.text, found);
                }
                left -= 1;
            }
            at = found.saturating_add(token.len());
        }
        self.nowhere()
    }

    /// The token at an offset, `passed` tokens further on.
    fn further(self, at: usize, passed: usize) -> Self {
        Walk {
            at: Some(at),
            distance: self.distance.saturating_add(passed),
            ..self
        }
    }

    /// The token `distance` tokens further on.
    pub fn forward(self, distance: usize) -> Self {
        let Some(from) = self.at else {
            return self;
        };
        let mut at = from;
        for _ in 0..distance.min(self.text.len()) {
            at = token_after(self.text, at);
        }
        self.further(at, distance)
    }

    /// The token `distance` tokens before, by those from the one on that a walk began at. None where it began further on.
    pub fn back(self, distance: usize) -> Self {
        match self.distance.checked_sub(distance) {
            None => self.nowhere(),
            Some(left) => Walk::at(self.text, self.first).forward(left),
        }
    }

    /// Whether the token has a mark.
    pub fn is(self, mark: Mark) -> bool {
        match self.at {
            None => false,
            Some(at) => is_marked(token_at(self.text, at), mark),
        }
    }
}
