//! Why a part of a source could not be read.

ghost use Rattle.std.specs.Prelude.{◌≡◌};
ghost use Rattle.ilasm_tokens.specs.declared.expected.Expected.TheVariants.{Token};
ghost use Rattle.ilasm_tokens.specs.declared.failure.Failure.TheVariants.{Refused, OutOfMemory};

use crate::expected::Expected;
use std::alloc::{AllocError, AllocFailed};

/// Why a part of a source could not be read.
#[derive(Clone, Copy, Debug)]
pub enum Failure {
    /// What was read is not of the form that is expected here. It began where `left` items, bytes or tokens, were left.
    Refused { left: usize, expected: Expected },
    OutOfMemory,
}

impl Failure {
    /// No token begins where this number of items is left.
    pub fn no_token(left: usize) -> Self
        ensures { result ≡ Refused left Token }
    {
        Failure::Refused {
            left,
            expected: Expected::Token,
        }
    }
}

impl From<AllocError> for Failure {
    ghost from_gives = { λ _ e. e ≡ OutOfMemory };

    fn from(_refused: AllocError) -> Failure {
        Failure::OutOfMemory
    }
}

impl<T: Drop> From<AllocFailed<T>> for Failure {
    ghost from_gives = { λ _ e. e ≡ OutOfMemory };

    fn from(_refused: AllocFailed<T>) -> Failure {
        Failure::OutOfMemory
    }
}
