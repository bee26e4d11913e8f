//! A token with those beside it.

use source_positions::ilasm_tokens::words::use_of;
use source_positions::{token_after, token_at, token_before};
use std::str;

/// A token that stands where the grammar has no such, and its neighbours; each is empty where there is none.
#[derive(Clone, Copy)]
pub(crate) struct Spot<'a> {
    pub before: &'a str,
    pub found: &'a str,
    pub after: &'a str,
}

/// What a token may be.
#[derive(Clone, Copy)]
pub(crate) enum Form {
    Name,
    /// A reserved word that has the form of a name.
    Reserved,
    Number,
    /// `[`
    Bracket,
    Other,
}

pub(crate) fn form_of(token: &str) -> Form {
    match token.as_bytes() {
        [b'A'..=b'Z' | b'a'..=b'z' | b'_', ..] => match use_of(token.as_bytes()) {
            None => Form::Name,
            Some(_) => Form::Reserved,
        },
        [b'0'..=b'9' | b'-', ..] => Form::Number,
        [b'['] => Form::Bracket,
        _ => Form::Other,
    }
}

pub(crate) fn is_name(token: &str) -> bool {
    matches!(form_of(token), Form::Name)
}

/// The token at an offset of a text; empty where its bytes are no text.
pub(crate) fn word_at(text: &[u8], offset: usize) -> &str {
    str::from_utf8(token_at(text, offset)).unwrap_or("")
}

/// The token that begins at an offset of a text, and its neighbours.
pub(crate) fn spot_at(text: &[u8], offset: usize) -> Spot<'_> {
    let before = match token_before(text, offset) {
        None => "",
        Some(before) => word_at(text, before),
    };
    Spot {
        before,
        found: word_at(text, offset),
        after: word_at(text, token_after(text, offset)),
    }
}
