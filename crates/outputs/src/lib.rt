//! Writes bytes whole, and reports what a failed write leaves.
//! An `Out` takes a prefix of the bytes that it is given. A call that takes none of them, though there are some, fails, and is counted.
//! `write_whole` calls it until all bytes are taken or a call fails. A `WriterOut` is an `Out` over any writer of std.
#![tactic(auto)]

ghost use Rattle.std.specs.Prelude.{◌≡◌, ◌≤◌, false, flat_map, length, IfSome, OnErr, OnOk, Option, true};
ghost use Rattle.std.specs.Io.KnownBytes.{Appends};
ghost use Rattle.outputs.specs.Streams.{Fails, HasGrown, StreamState, Takes, is_failure, prefix_of};

use std::io::{ErrorKind, Write};
use std::marker::Model;

/// A write failed. Only `write_whole` makes one, and none can be copied: who holds one has seen a write fail.
#[derive(Debug, Drop)]
pub struct Device(());

/// What takes bytes, and counts the calls that failed.
pub trait Out {
    // The bytes that it has taken, where they are known, and how many of its calls failed.
    ghost taken: { Self → StreamState };

    /// Takes a prefix of these bytes, and returns its length. A call fails where it returns None, or 0 of some bytes: then it took none. The
    /// count of failures grows where it fails, and otherwise stays.
    fn put(&mut self, bytes: &[u8]) -> Option<usize>
        ensures bound { IfSome result (λ count. count ≤ length bytes.now) }
        ensures prefix { Appends (taken self.old).contents (taken self.new).contents (prefix_of result bytes.now) }
        ensures failed { is_failure result bytes.now ≡ true → HasGrown (taken self.old).failures (taken self.new).failures }
        ensures kept { is_failure result bytes.now ≡ false → (taken self.new).failures ≡ (taken self.old).failures };

    /// Has it take all of these bytes, in one call or several. After a call that failed, a prefix of them is taken.
    final fn write_whole(&mut self, bytes: &[u8]) -> Result<(), Device>
        ensures whole { OnOk result (Takes (taken self.old) (taken self.new) bytes.now) }
        ensures cut { OnErr result (Fails (taken self.old) (taken self.new) bytes.now) }
    {
        let mut rest = bytes;
        while !rest.is_empty() {
            match self.put(rest) {
                Some(count) if count > 0 => rest = &rest[count..],
                _ => return Err(Device(())),
            }
        }
        Ok(())
    }

    /// Has it take all of these texts, one after another, as `write_whole` takes each.
    final fn write_texts(&mut self, texts: &[&str]) -> Result<(), Device>
        ensures whole { OnOk result (Takes (taken self.old) (taken self.new) (flat_map (λ text. text.now) texts.now)) }
        ensures cut { OnErr result (Fails (taken self.old) (taken self.new) (flat_map (λ text. text.now) texts.now)) }
    {
        for text in texts {
            self.write_whole(text.as_bytes())?;
        }
        Ok(())
    }
}

/// An `Out` over a writer.
#[derive(Drop)]
pub struct WriterOut<W> {
    writer: W,
    failures: u64,
}

impl<W> Model for WriterOut<W> {
    ghost use Rattle.std.specs.Prelude.{ℕ};

    ghost Value = { W × ℕ };

    ghost view = { λ out. (out.writer, out.failures) };
}

impl<W: Write> WriterOut<W> {
    /// An `Out` to which nothing was written yet.
    pub fn new(writer: W) -> WriterOut<W>
        ensures { result ≡ (writer, 0) }
    {
        WriterOut {
            writer,
            failures: 0,
        }
    }

    /// Gives back the writer.
    pub fn into_inner(self) -> W
        ensures { result ≡ self.0 }
    {
        self.writer
    }
}

/// A call of the writer that a signal interrupts is made again.
impl<W: Write> Out for WriterOut<W> {
    ghost taken = { λ out. record { contents = W.contents out.0; failures = out.1 } };

    fn put(&mut self, bytes: &[u8]) -> Option<usize> {
        let taken = write_once(&mut self.writer, bytes);
        if is_failure(taken, bytes) {
            self.failures = self.failures.saturating_add(1);
        }
        taken
    }
}

/// Whether a call that returned this length, or none, for these bytes has failed.
fn is_failure(taken: Option<usize>, bytes: &[u8]) -> bool
    ensures { result ≡ is_failure taken bytes.now }
{
    match taken {
        None => true,
        Some(count) => count == 0 && !bytes.is_empty(),
    }
}

/// Has a writer take a prefix of these bytes, and returns its length. The call is made again where a signal interrupts it. None where it fails
/// otherwise.
fn write_once<W: Write>(out: &mut W, bytes: &[u8]) -> Option<usize>
    ensures bound { IfSome result (λ count. count ≤ length bytes.now) }
    ensures prefix { Appends (W.contents out.old) (W.contents out.new) (prefix_of result bytes.now) }
{
    for _ in 0..u64::MAX {
        match out.write(bytes) {
            Ok(count) => return Some(count),
            Err(error) => {
                if error.kind() != ErrorKind::Interrupted {
                    return None;
                }
            }
        }
    }
    None
}
