//! The outcome of an instruction for the thread that executed it.

use cil_model::reports::Fault;

/// The outcome of an instruction for its thread (this profile). A step of the thread reports it, unless it was the last of its budget.
#[derive(Clone, Copy, PartialEq, Eq)]
pub enum Effect {
    /// The thread continues with its frames.
    Continues,
    /// Its first method has returned.
    Returns,
    /// It waits, and nothing has changed.
    Blocks,
    /// It ends by a fault.
    Raises(Fault),
}
