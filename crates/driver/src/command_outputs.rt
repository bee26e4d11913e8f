//! The outputs of a command.

ghost use Rattle.std.specs.Prelude.{◌≡◌, None};

use crate::recording::RecordFiles;
use std::time::Instant;

/// What a command writes to, and what it leaves to its caller.
#[derive(Drop)]
pub struct Outputs<W, E> {
    /// The standard output.
    pub out: W,
    /// The standard error.
    pub err: E,
    /// The files that are to be written: those of a record, or of an outcome that is saved.
    pub files: Option<RecordFiles>,
    /// The moment when a run has ended, if the clock can be read.
    pub ended: Option<Instant>,
}

impl<W, E> Outputs<W, E> {
    /// Those of a command that is not carried out yet: no files, and no run has ended.
    pub fn new(out: W, err: E) -> Outputs<W, E>
        ensures { (result.out ≡ out) × (result.err ≡ err) × (result.files ≡ None) × (result.ended ≡ None) }
    {
        Outputs {
            out,
            err,
            files: None,
            ended: None,
        }
    }
}
