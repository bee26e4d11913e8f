//! Lines of a source.

ghost use Rattle.std.specs.Prelude.{◌≡◌, ◌≤◌, ◌==◌, IfOk, length};
ghost use Rattle.std.specs.List.{count_by};
ghost use Rattle.source_lines.specs.Lines.{instruction_line, instruction_token, line_of_byte, line_of_token, tokens_of};

use crate::finding::{Part, index_from};
use cil_model::memory::NoMemory;
use cil_model::sequences::Sequence;
use ilasm_tokens::failure::Failure;
use ilasm_tokens::source::{token_offset, tokens};
use ilasm_tokens::source_tokens::SourceToken;
use std::alloc::Global;
use std::marker::Model;

/// A source in which lines are looked up. Contracts see it as the source.
#[derive(Drop)]
pub struct SourceLines<'s> {
    source: &'s [u8],
    tokens: Sequence<SourceToken<'s>>,
}

impl<'s> Model for SourceLines<'s> {
    ghost use Rattle.std.specs.Prelude.{◌≡◌, List, ℕ};
    ghost use Rattle.source_lines.specs.Lines.{tokens_of};

    ghost Value = { List ℕ };

    ghost view = { λ l. l.source.now };

    ghost invariant = { λ l. l.tokens ≡ tokens_of l.source.now };
}

impl<'s> SourceLines<'s> {
    /// The lines of a source. Takes memory for its tokens; the only error is out of memory.
    pub fn new(alloc: Global, source: &'s [u8]) -> Result<SourceLines<'s>, NoMemory>
        ensures { IfOk result (λ lines. lines ≡ source.now) }
    {
        Ok(SourceLines {
            source,
            tokens: source_tokens(alloc, source)?,
        })
    }

    /// The line, from 1, of an instruction of a method. Classes count from 0 in source order, methods from 0 in their class, abstract ones too, and
    /// instructions from 0 in their method. None if the source has no such instruction. The only error is out of memory.
    pub fn line(
        &self,
        class: usize,
        method: usize,
        instruction: usize,
    ) -> Result<Option<usize>, NoMemory>
        ensures { IfOk result (λ line. line ≡ instruction_line self.now class method instruction) }
    {
        match self.token(class, method, instruction) {
            None => Ok(None),
            Some(token) => line_of_token(self.source, token),
        }
    }

    /// The index of the token that names an instruction of a method.
    fn token(&self, class: usize, method: usize, instruction: usize) -> Option<usize>
        ensures { result ≡ instruction_token (tokens_of self.now) class method instruction }
    {
        let tokens = self.tokens.as_slice();
        let class = index_from(tokens, 0, Part::Class, class)?;
        let method = index_from(tokens, class, Part::Method, method)?;
        index_from(tokens, method, Part::Instruction, instruction)
    }
}

/// The tokens of a source. None if it is refused.
fn source_tokens(alloc: Global, source: &[u8]) -> Result<Sequence<SourceToken<'_>>, NoMemory>
    ensures { IfOk result (λ tokens. tokens ≡ tokens_of source.now) }
{
    match tokens(alloc, source) {
        Ok(tokens) => Ok(tokens),
        Err(Failure::Refused { .. }) => Ok(Sequence::new(Vec::new(alloc))),
        Err(Failure::OutOfMemory) => Err(NoMemory),
    }
}

/// The line of the token of a number. None if a source has no such token.
fn line_of_token(source: &[u8], token: usize) -> Result<Option<usize>, NoMemory>
    ensures { IfOk result (λ line. line ≡ line_of_token source.now token) }
{
    match token_offset(source, token) {
        Ok(offset) => Ok(Some(line_of_byte(source, offset))),
        Err(Failure::Refused { .. }) => Ok(None),
        Err(Failure::OutOfMemory) => Err(NoMemory),
    }
}

/// The line, from 1, of the byte at an offset: one more than the line feeds before it. For an offset after the end it is the last line.
pub fn line_of_byte(source: &[u8], offset: usize) -> usize
    ensures { result ≡ line_of_byte source.now offset }
{
    let before = offset.min(source.len());
    line_feeds(&source[..before]) + 1
}

/// The most bytes that are counted together: a byte holds their count, so that many are compared at once.
const CHUNK: usize = 128;

/// How many line feeds these bytes have.
fn line_feeds(bytes: &[u8]) -> usize
    ensures within { result ≤ length bytes.now }
    ensures value { result ≡ count_by (λ byte. byte == 10) bytes.now }
{
    let mut feeds = 0;
    let mut rest = bytes;
    while rest.len() > CHUNK {
        let (chunk, after) = rest.split_at(CHUNK);
        feeds += usize::from(feeds_in_chunk(chunk));
        rest = after;
    }
    feeds + usize::from(feeds_in_chunk(rest))
}

/// How many line feeds a chunk has.
fn feeds_in_chunk(chunk: &[u8]) -> u8
    requires { length chunk.now ≤ 128 }
    ensures { result ≡ count_by (λ byte. byte == 10) chunk.now }
{
    let mut feeds = 0;
    for byte in chunk {
        if *byte == b'\n' {
            feeds += 1;
        }
    }
    feeds
}
