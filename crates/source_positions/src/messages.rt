//! How a message is laid out.

use crate::excerpts::push_excerpt;
use crate::lexemes::token_at;
use crate::lines::{Position, line_at};
use cil_model::memory::NoMemory;
use std::alloc::Global;

/// A text of which messages speak, and the name of its file. Each line of a message ends with a line feed.
#[derive(Clone, Copy)]
pub struct Named<'a> {
    pub file: &'a str,
    pub text: &'a [u8],
}

impl Named<'_> {
    /// Adds a sentence on `length` bytes at an offset, with the line and carets below them. Fails only when out of memory.
    pub fn push_on(
        self,
        message: &mut String,
        offset: usize,
        length: usize,
        sentence: &str,
    ) -> Result<(), NoMemory> {
        let file = self.file;
        let shown = line_at(self.text, offset);
        let Position { line, column } = shown.position_of(offset);
        writeln!(message, "{file}:{line}:{column}: {sentence}")?;
        push_excerpt(message, shown, offset, length)
    }

    /// Adds a sentence of the token at an offset, if there is one, and else of the whole file. Fails only when out of memory.
    pub fn push_where(
        self,
        message: &mut String,
        offset: Option<usize>,
        sentence: &str,
    ) -> Result<(), NoMemory> {
        if let Some(offset) = offset {
            let length = token_at(self.text, offset).len();
            return self.push_on(message, offset, length, sentence);
        }
        let file = self.file;
        writeln!(message, "{file}: {sentence}")?;
        Ok(())
    }

    /// A sentence of the token at an offset, if there is one, and else of the whole file. Fails only when out of memory.
    pub fn message(
        self,
        alloc: Global,
        offset: Option<usize>,
        sentence: &str,
    ) -> Result<String, NoMemory> {
        let mut message = String::new(alloc);
        self.push_where(&mut message, offset, sentence)?;
        Ok(message)
    }
}
