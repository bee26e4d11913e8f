//! The bytes of the token at an offset.

/// Letters, digits, `_` and `.`.
pub(crate) fn is_word_byte(byte: u8) -> bool {
    matches!(byte, b'A'..=b'Z' | b'a'..=b'z' | b'0'..=b'9' | b'_' | b'.')
}

/// How many letters, digits, `_` and `.` stand together where these bytes begin.
fn run_length(bytes: &[u8]) -> usize {
    for (length, byte) in bytes.iter().enumerate() {
        if !is_word_byte(*byte) {
            return length;
        }
    }
    bytes.len()
}

/// How many bytes stand before the end of a string literal, its quote counted, or before the end of the line.
fn literal_length(bytes: &[u8]) -> usize {
    let mut is_escaped = false;
    for (index, byte) in bytes.iter().enumerate() {
        if *byte == b'\n' {
            return index;
        }
        if *byte == b'"' && !is_escaped {
            return index.saturating_add(1);
        }
        is_escaped = *byte == b'\\' && !is_escaped;
    }
    bytes.len()
}

/// How many bytes the token has with which these begin; one where none begins, and none where there is no byte.
fn token_length(bytes: &[u8]) -> usize {
    match bytes {
        [] => 0,
        [b'"', rest @ ..] => literal_length(rest).saturating_add(1),
        [b'-', rest @ ..] => run_length(rest).saturating_add(1),
        [b':', b':', ..] => 2,
        _ => run_length(bytes).max(1),
    }
}

/// The bytes of the token that begins at an offset of a text; one byte where none begins there, and none at the end.
pub fn token_at(text: &[u8], offset: usize) -> &[u8] {
    let rest = text.get(offset..).unwrap_or(&[]);
    rest.get(..token_length(rest)).unwrap_or(rest)
}
