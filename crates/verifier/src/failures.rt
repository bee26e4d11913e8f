//! Why a method has no typing.

ghost use Rattle.std.specs.Prelude.{◌≡◌};
ghost use Rattle.verifier.specs.declared.failures.TypingError.TheVariants.{OutOfMemory};

use crate::merging::StackMismatch;
use cil_model::memory::NoMemory;
use cil_model::sequences::Sequence;
use flow_rules::entries::StackEntry;
use flow_rules::mismatches::Mismatch;
use std::fmt;

/// Why there can be no stack before an instruction.
#[derive(Clone, Copy)]
pub enum Reason {
    /// The instruction has no result on the stack that reaches it.
    NoResult(Mismatch),
    /// What reaches it has no stack above it and above what reached it before.
    NoMerge(StackMismatch),
    /// This number of values is more than `.maxstack` allows.
    TooHigh(usize),
    /// There is no instruction: control would run off the end.
    NoInstruction,
}

/// The stack of types after an instruction, the top first.
#[derive(Drop)]
pub struct IncomingStack {
    /// The pc of the instruction.
    pub from: usize,
    pub stack: Sequence<StackEntry>,
}

/// Where the search for a typing fails, why, and with what on the stack. Pcs are counted from 0.
#[derive(Drop)]
pub struct FailurePoint {
    /// The pc before which there can be no stack.
    pub pc: usize,
    pub reason: Reason,
    /// The pc of the instruction at fault: the same one, or that from which control goes there, where it runs off the end or brings
    /// more values than `.maxstack` allows.
    pub instruction: usize,
    /// The stack of types before the instruction at fault, the top first; empty where control never gets to one.
    pub stack: Sequence<StackEntry>,
    /// What control brings to the pc; none where the instruction there has no result, and where control never gets to one.
    pub incoming: Option<IncomingStack>,
}

/// The pc alone.
impl fmt::Debug for FailurePoint {
    fn fmt<W: fmt::Write>(&self, f: &mut fmt::Formatter<W>) -> fmt::Result {
        let pc = self.pc;
        write!(f, "FailurePoint at {pc}")
    }
}

/// Why there is no typing of a method: a search fails; or nothing is known, since memory ran out.
#[derive(Drop)]
pub enum TypingError {
    Untyped(FailurePoint),
    OutOfMemory,
}

impl From<NoMemory> for TypingError {
    ghost from_gives = { λ _ error. error ≡ OutOfMemory };

    fn from(_error: NoMemory) -> TypingError {
        TypingError::OutOfMemory
    }
}
