//! The outcome of an instruction.

use object_memory::Addr;
use threads_monitors::Effect;

/// The outcome of an instruction for its machine: an effect on its own thread, or a start of a thread on an object or a wait for
/// one, which need the other threads.
#[derive(Clone, Copy)]
pub enum InstructionOutcome {
    OwnEffect(Effect),
    Starts(Addr),
    Joins(Addr),
}
