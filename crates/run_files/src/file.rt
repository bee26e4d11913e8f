//! What a `.run` file says.

ghost use Rattle.std.specs.Prelude.{◌≡◌, ◌≤◌, true};
ghost use Rattle.run_files.specs.RunFiles.{IsRunFile, run_file};
ghost use Rattle.cil_model.specs.Ranges.{are_in_range};

use cil_model::limits::Limits;
use sha2::{Digest, Sha256};

/// Bytes of a checksum.
pub const CHECKSUM_BYTES: usize = 32;

/// The most workers of a run.
pub(crate) const MOST_WORKERS: u32 = 16;

/// What a `.run` file says of the run of a record.
#[derive(Clone, Copy)]
pub struct RunFile {
    /// The SHA-256 checksum of the source.
    pub source: [u8; CHECKSUM_BYTES],
    /// The limits of the run.
    pub limits: Limits,
    /// The number of its workers.
    pub workers: u32,
    /// The SHA-256 checksum of all bytes that it printed.
    pub output: [u8; CHECKSUM_BYTES],
}

impl RunFile {
    /// What the file of a run says: a run of this source within these limits by this number of workers, which has printed these bytes. Where
    /// the limits are in range and there are 1 to 16 workers, its text is read again.
    pub fn of(source: &[u8], limits: Limits, workers: u32, printed: &[u8]) -> RunFile
        ensures says { result ≡ run_file source.now limits workers printed.now }
        ensures readable { are_in_range limits ≡ true → 1 ≤ workers → workers ≤ MOST_WORKERS → IsRunFile result }
    {
        RunFile {
            source: Sha256::digest(source),
            limits,
            workers,
            output: Sha256::digest(printed),
        }
    }
}
