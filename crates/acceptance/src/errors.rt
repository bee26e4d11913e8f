//! Why a source is not accepted, with the evidence.

ghost use Rattle.std.specs.Prelude.{◌≡◌};
ghost use Rattle.acceptance.specs.Errors.{failure_of_source};

use crate::failure::Failure;
use cil_model::trees::Tree;
use ilasm_reader::ReadError;
use metadata::Program;
use metadata::violations::Violation;
use verifier::failures::FailurePoint;

/// Why a source is not accepted, with the evidence: the tree or the program that was refused, and what is wrong with it.
pub enum SourceError {
    /// Its bytes have no tree.
    Unread(ReadError),
    /// Its tree is no legal program: this violation is of the rule with the least number among those broken.
    Illegal {
        tree: Tree,
        violation: Violation,
    },
    /// Its program is legal, and a method has no typing: the first one in source order, by its index, and the point where the search failed.
    Untyped {
        program: Program,
        method: usize,
        failure: FailurePoint,
    },
    /// Memory ran out.
    OutOfMemory,
}

/// Drops the tree or the program, and the evidence.
impl Drop for SourceError {
    fn drop(self) {
        match self {
            SourceError::Unread(_) | SourceError::OutOfMemory => (),
            SourceError::Illegal {
                tree: _tree,
                violation: _,
            } => (),
            SourceError::Untyped {
                program: _program,
                method: _,
                failure: _failure,
            } => (),
        }
    }
}

impl SourceError {
    /// The failure that reports it: its number, or out of memory.
    pub fn failure(&self) -> Failure
        ensures { result ≡ failure_of_source self.now }
    {
        match self {
            SourceError::Unread(error) => Failure::Refused(error.number()),
            SourceError::Illegal { violation, .. } => Failure::Refused(violation.rule().number()),
            SourceError::Untyped { .. } => Failure::Refused(301),
            SourceError::OutOfMemory => Failure::Memory,
        }
    }
}
