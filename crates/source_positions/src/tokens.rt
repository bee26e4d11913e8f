//! Steps from token to token in a text that has a list of tokens: to the one after an offset, to the one before it, and to the next directive.

use crate::lexemes::{is_word_byte, token_at};
use crate::lines::line_start;

/// The state between two tokens, after the bytes so far.
#[derive(Clone, Copy)]
enum Gap {
    /// Outside of comments.
    Blank,
    /// After a `/` there.
    Slash,
    /// In a comment to the end of the line.
    Line,
    /// In a comment to the next `*/`.
    Block,
    /// After a `*` in such a comment.
    Star,
}

/// The state after one byte more; None where the byte begins a token, or the `/` before it does.
fn gap_after(gap: Gap, byte: u8) -> Option<Gap> {
    match gap {
        Gap::Blank => match byte {
            b'\t' | b'\n' | b'\r' | b' ' => Some(Gap::Blank),
            b'/' => Some(Gap::Slash),
            _ => None,
        },
        Gap::Slash => match byte {
            b'/' => Some(Gap::Line),
            b'*' => Some(Gap::Block),
            _ => None,
        },
        Gap::Line => Some(if byte == b'\n' { Gap::Blank } else { Gap::Line }),
        Gap::Block | Gap::Star => Some(match byte {
            b'*' => Gap::Star,
            b'/' if matches!(gap, Gap::Star) => Gap::Blank,
            _ => Gap::Block,
        }),
    }
}

/// How many bytes of white space and comments these begin with (ECMA-335 II.5.2).
fn gap_length(bytes: &[u8]) -> usize {
    match bytes {
        [] => 0,
        [b' ' | b'\n', b'.' | b'A'..=b'Z' | b'a'..=b'z', ..] => 1,
        [b'\t' | b'\n' | b'\r' | b' ' | b'/', ..] => long_gap_length(bytes),
        _ => 0,
    }
}

/// The same, byte by byte.
fn long_gap_length(bytes: &[u8]) -> usize {
    let mut gap = Gap::Blank;
    for (length, byte) in bytes.iter().enumerate() {
        match gap_after(gap, *byte) {
            Some(next) => gap = next,
            None if matches!(gap, Gap::Slash) => return length.saturating_sub(1),
            None => return length,
        }
    }
    bytes.len()
}

/// The offset of the first token at an offset or after it, which is not inside of a token or a comment; the text's length where there is none.
pub(crate) fn token_from(text: &[u8], offset: usize) -> usize {
    let rest = text.get(offset..).unwrap_or(&[]);
    offset.saturating_add(gap_length(rest))
}

/// How many bytes these begin with at which no literal, comment or directive can begin.
fn plain_length(bytes: &[u8]) -> usize {
    bytes
        .iter()
        .take_while(|byte| !matches!(**byte, b'.' | b'"' | b'/'))
        .count()
}

/// Whether the byte before an offset is one of a word, so that a word continues there.
fn is_in_word(text: &[u8], offset: usize) -> bool {
    match text.get(offset.saturating_sub(1)) {
        None => false,
        Some(byte) => offset > 0 && is_word_byte(*byte),
    }
}

/// The offset of the first word with a `.` before it, as `.class`, at an offset or after it, which is not inside of a literal or a comment. None where
/// there is none.
pub(crate) fn directive_from(text: &[u8], offset: usize) -> Option<usize> {
    let mut at = offset;
    for _ in offset..text.len() {
        let rest = text.get(at..)?;
        at = at.saturating_add(plain_length(rest));
        let passed = match *text.get(at)? {
            b'.' if !is_in_word(text, at) => return Some(at),
            b'.' => 1,
            b'"' => token_at(text, at).len(),
            _ => gap_length(text.get(at..)?).max(1),
        };
        at = at.saturating_add(passed);
    }
    None
}

/// The offset of the token after the one at an offset; the text's length where there is none.
pub fn token_after(text: &[u8], offset: usize) -> usize {
    let length = token_at(text, offset).len();
    token_from(text, offset.saturating_add(length))
}

/// The offset of the last token before an offset, of those from `from` on, which is not inside of a token or a comment. None where there is none.
fn last_token(text: &[u8], from: usize, offset: usize) -> Option<usize> {
    let mut last = None;
    let mut at = token_from(text, from);
    for _ in from..offset {
        if at >= offset {
            return last;
        }
        last = Some(at);
        at = token_after(text, at);
    }
    last
}

/// Whether a comment to the next `*/` may end in these bytes.
fn may_end_comment(bytes: &[u8]) -> bool {
    let mut is_star = false;
    for byte in bytes {
        if is_star && *byte == b'/' {
            return true;
        }
        is_star = *byte == b'*';
    }
    false
}

/// How far back a token is looked for before it is looked for from the beginning of the text.
const NEAR: usize = 4096;

/// The offset of the token before an offset, at which a token begins or the text ends. None where there is none.
pub fn token_before(text: &[u8], offset: usize) -> Option<usize> {
    let near = line_start(text, offset.saturating_sub(NEAR));
    // A line begins in a token or a comment only if that is a comment to the next `*/`, which then stands before the offset.
    if !may_end_comment(text.get(near..offset).unwrap_or(&[])) {
        if let Some(last) = last_token(text, near, offset) {
            return Some(last);
        }
    }
    last_token(text, 0, offset)
}
