//! The texts of cases, as the bytes, words and numbers that they represent.

use cil_model::limits::Limits;
use std::alloc::{AllocError, Global};

/// The bytes of a text of lines, each of which ends in a line feed. A line `@NUMBER TEXT` represents NUMBER lines of the text, in
/// which `#` is the line's number from 0 and `#+1` the next one, and `@@NUMBER TEXT` represents the same without line feeds.
pub fn expand(alloc: Global, text: &str) -> Result<Vec<u8>, AllocError> {
    let mut bytes = Vec::new(alloc);
    for line in text.split('\n') {
        add_line(alloc, &mut bytes, line)?;
    }
    Ok(bytes)
}

/// Adds the lines that a line represents.
fn add_line(alloc: Global, bytes: &mut Vec<u8>, line: &str) -> Result<(), AllocError> {
    if let Some(repeated) = line.strip_prefix("@@") {
        return add_repeated(alloc, bytes, repeated, "");
    }
    if let Some(repeated) = line.strip_prefix("@") {
        return add_repeated(alloc, bytes, repeated, "\n");
    }
    bytes.extend_from_slice(line.as_bytes())?;
    bytes.push(b'\n')?;
    Ok(())
}

/// Adds the text of `NUMBER TEXT` NUMBER times, with the end after each.
fn add_repeated(
    alloc: Global,
    bytes: &mut Vec<u8>,
    repeated: &str,
    end: &str,
) -> Result<(), AllocError> {
    let (count, text) = repeated.split_once(" ").unwrap_or(("", ""));
    for number in 0..number_of(Some(count)) {
        add_number_suffix(alloc, bytes, text, number)?;
        bytes.extend_from_slice(end.as_bytes())?;
    }
    Ok(())
}

/// Adds the text with a number in place of each `#`, and the next one in that of each `#+1`.
fn add_number_suffix(
    alloc: Global,
    bytes: &mut Vec<u8>,
    text: &str,
    number: u32,
) -> Result<(), AllocError> {
    let next = number.wrapping_add(1).to_string(alloc)?;
    let text = text.replace(alloc, "#+1", next.as_str())?;
    let own = number.to_string(alloc)?;
    let text = text.replace(alloc, "#", own.as_str())?;
    bytes.extend_from_slice(text.as_bytes())
}

/// The words of a command: blanks separate them, and a part between two `'` is one word.
pub fn words_of<'a>(alloc: Global, command: &'a str) -> Result<Vec<&'a str>, AllocError> {
    let mut words = Vec::new(alloc);
    let mut is_quoted = false;
    for part in command.split('\'') {
        if is_quoted {
            words.push(part)?;
        } else {
            add_words(&mut words, part)?;
        }
        is_quoted = !is_quoted;
    }
    Ok(words)
}

fn add_words<'a>(words: &mut Vec<&'a str>, part: &'a str) -> Result<(), AllocError> {
    for word in part.split_whitespace() {
        words.push(word)?;
    }
    Ok(())
}

/// The limits that three numbers give, with the most words of a space by a fourth number, which is the first where it is missing. Another missing
/// one is 0.
pub fn limits_of(text: &str) -> Limits {
    let mut words = text.split_whitespace();
    let first = number_of(words.next());
    let budget = number_of(words.next());
    let depth = number_of(words.next());
    let most = words.next();
    Limits {
        words: first,
        max_words: if most.is_none() {
            first
        } else {
            number_of(most)
        },
        budget,
        depth,
    }
}

fn number_of(word: Option<&str>) -> u32 {
    match word {
        None => 0,
        Some(word) => word.parse::<u32>().unwrap_or(0),
    }
}
