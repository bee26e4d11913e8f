//! Why an instruction has no result on a stack.

use crate::entries::StackEntry;
use cil_model::memory::NoMemory;
use resolved_code::types::ResolvedType;

/// Why an instruction is not allowed on a stack (ECMA-335 III.1.8 and the verifiability parts of III.3 and III.4).
#[derive(Clone, Copy)]
pub enum Mismatch {
    /// The stack holds fewer operands than the instruction takes.
    OperandMissing,
    /// The instruction takes no operand of this type.
    OperandType(StackEntry),
    /// The instruction takes no two operands of these types together.
    OperandTypes(StackEntry, StackEntry),
    /// The first can't be given where the second is expected.
    NotAssignable(StackEntry, ResolvedType),
    /// The method has no argument or no local of this number.
    NoSuchVariable(i64),
    /// `castclass` and `isinst` take no such type.
    NoReference(ResolvedType),
    /// The code names a member that is not there.
    NoSuchMember,
    /// `call` of a method without code of the class with this number.
    AbstractMethod(usize),
    /// `newobj` of the abstract class with this number.
    AbstractClass(usize),
    /// `ret` leaves this below what it returns.
    LeftOnStack(StackEntry),
}

/// Why there is no stack after an instruction.
#[derive(Clone, Copy)]
pub enum FlowError {
    Mismatch(Mismatch),
    OutOfMemory,
}
