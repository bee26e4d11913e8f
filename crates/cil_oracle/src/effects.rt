//! The outcome of an instruction.

use crate::values::Value;
use cil_model::reports::Fault;
use std::alloc::{AllocError, AllocFailed};

/// Where the thread continues.
#[derive(Clone, Copy)]
pub enum Effect {
    /// At the next instruction.
    Next,
    /// At the instruction at this pc.
    Jump(usize),
    /// At the beginning of the method that is called, whose frame is the state's `callee`.
    Call,
    /// In the caller, with the value that is returned.
    Return(Option<Value>),
}

/// Why it does not.
#[derive(Clone, Copy)]
pub enum Halt {
    /// The thread waits. Nothing was changed.
    Blocks,
    /// The thread ends by a fault.
    Raises(Fault),
    /// An operand is missing or of the wrong kind, or a name refers to nothing.
    Sticks,
    /// Memory ran out.
    NoMemory,
}

/// The outcome of an instruction.
pub type Done = Result<Effect, Halt>;

impl From<AllocError> for Halt {
    fn from(_error: AllocError) -> Halt {
        Halt::NoMemory
    }
}

impl<T: Drop> From<AllocFailed<T>> for Halt {
    fn from(_error: AllocFailed<T>) -> Halt {
        Halt::NoMemory
    }
}
