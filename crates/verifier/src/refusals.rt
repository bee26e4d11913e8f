//! Why a program is not accepted.

ghost use Rattle.std.specs.Prelude.{◌≡◌};
ghost use Rattle.verifier.specs.declared.failures.TypingError.TheVariants as OfMethod;
ghost use Rattle.verifier.specs.Numbers.{typing_number_of};
ghost use Rattle.verifier.specs.Verdicts.{IsRefusalOf};
ghost use Rattle.verifier.specs.declared.refusals.VerifyError.TheVariants.{NoTyping, OutOfMemory};

use crate::failures::{FailurePoint, TypingError};
use cil_model::memory::NoMemory;
use std::alloc::AllocFailed;
use thiserror::Error;

/// Why a program was not accepted.
#[derive(Debug, Drop, Error)]
pub enum VerifyError {
    /// The first method in source order without a typing, by its number from 0, with the pc of the instruction at which it fails,
    /// from 0, why, and the stacks of types there.
    #[error("method {method} has no typing at instruction {}", .failure.pc)]
    NoTyping {
        method: usize,
        failure: FailurePoint,
    },
    #[error("out of memory")]
    OutOfMemory,
}

impl VerifyError {
    /// The number that the program prints: 301, or 302 for out of memory.
    pub fn number(&self) -> u16
        ensures { result ≡ typing_number_of self.now }
    {
        match self {
            VerifyError::NoTyping { .. } => 301,
            VerifyError::OutOfMemory => 302,
        }
    }
}

impl From<NoMemory> for VerifyError {
    ghost from_gives = { λ _ error. error ≡ OutOfMemory };

    fn from(_error: NoMemory) -> VerifyError {
        VerifyError::OutOfMemory
    }
}

impl<T: Drop> From<AllocFailed<T>> for VerifyError {
    ghost from_gives = { λ _ error. error ≡ OutOfMemory };

    fn from(_error: AllocFailed<T>) -> VerifyError {
        VerifyError::OutOfMemory
    }
}

/// The refusal of the method of this number.
pub(crate) fn refusal_in(method: usize, error: TypingError) -> VerifyError
    ensures { IsRefusalOf method error result }
{
    match error {
        TypingError::Untyped(failure) => VerifyError::NoTyping { method, failure },
        TypingError::OutOfMemory => VerifyError::OutOfMemory,
    }
}
