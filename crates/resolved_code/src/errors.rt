//! Why names could not be resolved.

ghost use Rattle.std.specs.Prelude.{◌≡◌};
ghost use Rattle.resolved_code.specs.declared.errors.ResolveError.TheVariants.{OutOfMemory};

use cil_model::memory::NoMemory;
use std::alloc::AllocFailed;

/// Why names could not be resolved.
#[derive(Clone, Copy)]
pub enum ResolveError {
    /// A name refers to nothing in the tree.
    Unresolved,
    OutOfMemory,
}

impl From<NoMemory> for ResolveError {
    ghost from_gives = { λ _ e. e ≡ OutOfMemory };

    fn from(_refused: NoMemory) -> ResolveError {
        ResolveError::OutOfMemory
    }
}

/// Drops what could not be stored.
impl<T: Drop> From<AllocFailed<T>> for ResolveError {
    ghost from_gives = { λ _ e. e ≡ OutOfMemory };

    fn from(_refused: AllocFailed<T>) -> ResolveError {
        ResolveError::OutOfMemory
    }
}
