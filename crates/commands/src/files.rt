//! Reads the files that a command names.
ghost use Rattle.std.specs.Prelude.{◌≡◌, ◌++◌, IfOk, IfSome, codes, string_bytes};
ghost use Rattle.commands.specs.Orders.{Refines};

use cil_model::limits::MOST_SOURCE_BYTES;
use std::alloc::{AllocError, Global};
use std::io;
use std::io::Read;

/// The bytes of a source. A longer one than the limit is refused by its length alone, so no more of it is
/// read than shows that it is longer. An error is the reader's, or out of memory.
pub fn read_source<R: Read + Drop>(alloc: Global, reader: R) -> io::Result<Vec<u8>>
    ensures { IfOk result (λ bytes. IfSome (R.remaining reader) (Refines bytes.items)) }
{
    read_text(alloc, reader.take(MOST_SOURCE_BYTES as u64 + 1))
}

/// The whole text that a reader has left. An error is the reader's, or out of memory.
pub fn read_text<R: Read + Drop>(alloc: Global, mut reader: R) -> io::Result<Vec<u8>>
    ensures { IfOk result (λ bytes. IfSome (R.remaining reader) (λ left. bytes.items ≡ left)) }
{
    let mut bytes = Vec::new(alloc);
    reader.read_to_end(&mut bytes)?;
    Ok(bytes)
}

/// The name of the `.run` file of a record. Fails only if memory runs out.
pub fn run_file_name(alloc: Global, record: &str) -> Result<String, AllocError>
    ensures { IfOk result (λ name. string_bytes name ≡ record.now ++ codes ".run") }
{
    format!(in alloc; "{record}.run")
}
