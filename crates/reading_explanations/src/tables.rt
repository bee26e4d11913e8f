//! Tables of words.

/// Words, and what to write in their place.
#[derive(Clone, Copy)]
pub(crate) struct Entry {
    /// With a blank between two. One that ends in `.` matches all that begin so.
    pub words: &'static str,
    /// A sentence without an end.
    pub advice: &'static str,
}

/// Whether a word of a table matches this one.
fn matches(listed: &str, word: &str) -> bool {
    listed == word || (listed.ends_with('.') && word.starts_with(listed))
}

/// Whether one of the words, with a blank between two, matches this one.
pub(crate) fn is_listed(words: &str, word: &str) -> bool {
    for listed in words.split(' ') {
        if matches(listed, word) {
            return true;
        }
    }
    false
}

/// What a table says of a word.
pub(crate) fn advice_in(table: &[Entry], word: &str) -> Option<&'static str> {
    for entry in table {
        if is_listed(entry.words, word) {
            return Some(entry.advice);
        }
    }
    None
}
