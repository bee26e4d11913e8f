//! Branches.

ghost use Rattle.std.specs.Prelude.{◌≡◌, IsSome, Some, slice_get};
ghost use Rattle.std.specs.Int.{w32, cast_unsigned};
ghost use Rattle.cil_model.specs.declared.instructions.BranchCondition.TheVariants as conditions;
ghost use Rattle.instructions.specs.Frames.{branch_transition, branch_test, switch_transition, is_set};
ghost use Rattle.instructions.specs.LocalTransitions.{local_branch_transition, integers_branch};

use crate::control::{advance, branch_if, jump};
use crate::integers::Integer;
use cil_model::instructions::{BranchComparison, BranchCondition};
use cil_model::phases::Phase;
use object_memory::{Heap, Value};
use threads_monitors::{Effect, FrameMemory};

/// `brtrue` (ECMA-335 III.3.18).
fn branch_true(frames: &mut FrameMemory, pc: usize) -> Effect
    requires { IsSome (local_branch_transition conditions.IfTrue pc frames.old) }
    ensures { Some (frames.new, result) ≡ local_branch_transition conditions.IfTrue pc frames.old }
{
    let value = frames.pop();
    branch_if(frames, is_set(value), pc)
}

/// `brfalse` (ECMA-335 III.3.17).
fn branch_false(frames: &mut FrameMemory, pc: usize) -> Effect
    requires { IsSome (local_branch_transition conditions.IfFalse pc frames.old) }
    ensures { Some (frames.new, result) ≡ local_branch_transition conditions.IfFalse pc frames.old }
{
    let value = frames.pop();
    branch_if(frames, !is_set(value), pc)
}

/// Whether a value is neither zero nor null.
fn is_set(value: Value) -> bool
    requires { IsSome (is_set value) }
    ensures { is_set value ≡ Some result }
{
    match value {
        Value::Int32(x) => !Integer::is_zero(x),
        Value::Int64(x) => !Integer::is_zero(x),
        Value::Ref(x) => !x.is_null(),
        Value::Native(_) => unreachable!(),
    }
}

/// `beq`, `bne.un`, `bge`, `bgt`, `ble` and `blt` (ECMA-335 III.3.5 to III.3.14). Of references the heap determines whether they are equal.
fn branch_compare(
    frames: &mut FrameMemory,
    heap: &Heap,
    phase: Phase,
    operation: BranchComparison,
    pc: usize,
) -> Effect
    requires { IsSome (branch_transition phase (conditions.Compare operation) pc frames.old heap.now) }
    ensures { Some (frames.new, result) ≡ branch_transition phase (conditions.Compare operation) pc frames.old heap.now }
{
    let second = frames.pop();
    let first = frames.pop();
    branch_if(frames, is_taken(heap, phase, operation, first, second), pc)
}

/// Whether a branch that compares two integers of one size, or two references, is taken.
fn is_taken(
    heap: &Heap,
    phase: Phase,
    operation: BranchComparison,
    first: Value,
    second: Value,
) -> bool
    requires { IsSome (branch_test phase heap.now operation first second) }
    ensures { branch_test phase heap.now operation first second ≡ Some result }
{
    match (first, second) {
        (Value::Int32(x), Value::Int32(y)) => Integer::branches(operation, x, y),
        (Value::Int64(x), Value::Int64(y)) => Integer::branches(operation, x, y),
        (Value::Ref(x), Value::Ref(y)) => match operation {
            BranchComparison::Equal => barriers::same(heap, phase, x, y),
            BranchComparison::NotEqual => !barriers::same(heap, phase, x, y),
            _ => unreachable!(),
        },
        _ => unreachable!(),
    }
}

/// `bge`, `bgt`, `ble` and `blt` (ECMA-335 III.3.6 to III.3.13), of two integers of one size. It asks no heap.
fn branch_integers(frames: &mut FrameMemory, operation: BranchComparison, pc: usize) -> Effect
    requires { IsSome (local_branch_transition (conditions.Compare operation) pc frames.old) }
    ensures { Some (frames.new, result) ≡ local_branch_transition (conditions.Compare operation) pc frames.old }
{
    let second = frames.pop();
    let first = frames.pop();
    branch_if(frames, integers_branch(operation, first, second), pc)
}

/// Whether a branch that compares two integers of one size is taken.
fn integers_branch(operation: BranchComparison, first: Value, second: Value) -> bool
    requires { IsSome (integers_branch operation first second) }
    ensures { integers_branch operation first second ≡ Some result }
{
    match (first, second) {
        (Value::Int32(x), Value::Int32(y)) => Integer::branches(operation, x, y),
        (Value::Int64(x), Value::Int64(y)) => Integer::branches(operation, x, y),
        _ => unreachable!(),
    }
}

/// A branch (ECMA-335 III.3.5 to III.3.18).
pub fn branch(
    frames: &mut FrameMemory,
    heap: &Heap,
    phase: Phase,
    condition: BranchCondition,
    pc: usize,
) -> Effect
    requires { IsSome (branch_transition phase condition pc frames.old heap.now) }
    ensures { Some (frames.new, result) ≡ branch_transition phase condition pc frames.old heap.now }
{
    match condition {
        BranchCondition::Always => jump(frames, pc),
        BranchCondition::IfTrue => branch_true(frames, pc),
        BranchCondition::IfFalse => branch_false(frames, pc),
        BranchCondition::Compare(operation) => branch_compare(frames, heap, phase, operation, pc),
    }
}

/// A branch that compares no references. It asks no heap.
pub fn local_branch(frames: &mut FrameMemory, condition: BranchCondition, pc: usize) -> Effect
    requires { IsSome (local_branch_transition condition pc frames.old) }
    ensures { Some (frames.new, result) ≡ local_branch_transition condition pc frames.old }
{
    match condition {
        BranchCondition::Always => jump(frames, pc),
        BranchCondition::IfTrue => branch_true(frames, pc),
        BranchCondition::IfFalse => branch_false(frames, pc),
        BranchCondition::Compare(operation) => branch_integers(frames, operation, pc),
    }
}

/// The pc at that index, read as unsigned. None where there is no such index.
fn index_of_operand(pcs: &[usize], number: i32) -> Option<usize>
    ensures { result ≡ slice_get pcs.now (cast_unsigned w32 number) }
{
    pcs.get(number.cast_unsigned() as usize).copied()
}

/// `switch` (ECMA-335 III.3.66).
pub fn switch(frames: &mut FrameMemory, pcs: &[usize]) -> Effect
    requires { IsSome (switch_transition pcs.now frames.old) }
    ensures { Some (frames.new, result) ≡ switch_transition pcs.now frames.old }
{
    match frames.pop() {
        Value::Int32(number) => match index_of_operand(pcs, number) {
            Some(pc) => jump(frames, pc),
            None => advance(frames),
        },
        _ => unreachable!(),
    }
}
