//! Parts of the text of a picture.

use picture_scene::Part;
use std::alloc::AllocError;
use std::fmt::Display;

/// Appends words, and returns where they are.
pub(crate) fn write_part<W: Display>(text: &mut String, words: &W) -> Result<Part, AllocError> {
    let from = text.len();
    write!(text, "{words}")?;
    let to = text.len();
    Ok(Part { from, to })
}

/// Appends the name of a member after that of its class, as `Program::sum`, and returns where they are.
pub(crate) fn write_member<O: Display, N: Display>(
    text: &mut String,
    owner: &O,
    name: &N,
) -> Result<Part, AllocError> {
    let from = text.len();
    write!(text, "{owner}::{name}")?;
    let to = text.len();
    Ok(Part { from, to })
}
