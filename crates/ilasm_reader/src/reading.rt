//! Reading a whole source.

ghost use Rattle.std.specs.Prelude.{◌≡◌};
ghost use Rattle.cil_model.specs.Sources.{has_foreign_byte};
ghost use Rattle.ilasm_reader.specs.Answers.{error_number, IsReadAnswer};

use crate::classes::tree;
use cil_model::limits::MOST_SOURCE_BYTES;
use cil_model::trees::Tree;
use ilasm_tokens::expected::Expected;
use ilasm_tokens::failure::Failure;
use ilasm_tokens::source::{token_offset, tokens};
use std::alloc::Global;
use std::error::Error;
use std::fmt;

/// Why a source has no tree. Offsets are in bytes, from 0.
#[derive(Clone, Copy, Debug, PartialEq, Eq)]
pub enum ReadError {
    /// It has more than `MOST_SOURCE_BYTES` bytes.
    TooLong,
    /// A byte is above 127; the first is at this offset.
    NotAscii { offset: usize },
    /// No token begins at this offset, so the source has no list of tokens (ECMA-335 II.5.2).
    NoToken { offset: usize },
    /// The source has tokens, but they are no sentence of the grammar; what begins at this offset is not what the grammar has there.
    NoTree { offset: usize, expected: Expected },
    /// Memory ran out for the tokens or the tree.
    OutOfMemory,
}

impl ReadError {
    /// The number by which a user knows the refusal (this profile): 101 for a byte above 127, 102 where no token begins,
    /// 103 for no sentence, 104 for too many bytes, 105 for out of memory.
    pub fn number(&self) -> u16
        ensures { result ≡ error_number self.now }
    {
        match self {
            ReadError::NotAscii { .. } => 101,
            ReadError::NoToken { .. } => 102,
            ReadError::NoTree { .. } => 103,
            ReadError::TooLong => 104,
            ReadError::OutOfMemory => 105,
        }
    }
}

/// What is wrong, and at which byte. The number is not in it.
impl fmt::Display for ReadError {
    fn fmt<W: fmt::Write>(&self, f: &mut fmt::Formatter<W>) -> fmt::Result {
        match self {
            ReadError::TooLong => write!(f, "the source has more than {MOST_SOURCE_BYTES} bytes"),
            ReadError::NotAscii { offset } => write!(f, "the byte at {offset} is above 127"),
            ReadError::NoToken { offset } => write!(f, "no token begins at byte {offset}"),
            ReadError::NoTree { offset, .. } => {
                write!(f, "what begins at byte {offset} is not expected there")
            }
            ReadError::OutOfMemory => write!(f, "out of memory"),
        }
    }
}

impl Error for ReadError {}

/// Whether a byte is above 127. It looks at all bytes, so that many can be looked at together.
fn has_foreign_byte(source: &[u8]) -> bool
    ensures { result ≡ has_foreign_byte source.now }
{
    let mut found = false;
    for byte in source {
        if *byte > 127 {
            found = true;
        }
    }
    found
}

/// The tree of a source (ECMA-335 II.5; the grammar is this profile's).
///
/// The first refusal that holds is returned: its length is looked at first, then its bytes, then its tokens, and then its
/// tree. Out of memory may be returned in place of a tree, of `NoToken` and of `NoTree`, and never of `TooLong` and `NotAscii`,
/// which are decided before any memory is taken. The time is linear in the length of the source, and no call is as deep as
/// a list is long.
pub fn read(alloc: Global, source: &[u8]) -> Result<Tree, ReadError>
    ensures { IsReadAnswer source.now result }
{
    if source.len() > MOST_SOURCE_BYTES {
        return Err(ReadError::TooLong);
    }
    if has_foreign_byte(source) {
        let offset = source.iter().take_while(|byte| **byte <= 127).count();
        return Err(ReadError::NotAscii { offset });
    }
    let tokens = match tokens(alloc, source) {
        Ok(tokens) => tokens,
        Err(Failure::Refused { left, .. }) => {
            let offset = source.len().saturating_sub(left);
            return Err(ReadError::NoToken { offset });
        }
        Err(Failure::OutOfMemory) => return Err(ReadError::OutOfMemory),
    };
    match tree(alloc, tokens.as_slice()) {
        Ok(tree) => Ok(tree),
        Err(Failure::Refused { left, expected }) => {
            let number = tokens.as_slice().len().saturating_sub(left);
            let offset = token_offset(source, number).unwrap_or(source.len());
            Err(ReadError::NoTree { offset, expected })
        }
        Err(Failure::OutOfMemory) => Err(ReadError::OutOfMemory),
    }
}
