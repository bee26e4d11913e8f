//! Arithmetic, comparisons and conversions.

ghost use Rattle.std.specs.Prelude.{◌≡◌, ◌==◌, IsSome, Some, true, false};
ghost use Rattle.instructions.specs.Frames.{binary_result, binary_transition, unary_transition, shift_transition, compare_transition, convert_32_transition, convert_64_transition, comparison, in_32_bits, in_64_bits, one_or_zero};
ghost use Rattle.instructions.specs.LocalTransitions.{IsFaulty, compare_integers_transition, integers_compared};
ghost use Rattle.threads_monitors.specs.declared.effects.Effect.TheVariants.{Continues as ContinuesOf};

use crate::control::{push_and_advance, push_and_advance_result};
use crate::conversions::{sign_extended, truncate};
use crate::integers::Integer;
use cil_model::instructions::{BinaryOperation, Comparison, ShiftOperation, UnaryOperation};
use cil_model::phases::Phase;
use cil_model::reports::Fault;
use object_memory::{Heap, Value};
use threads_monitors::{Effect, FrameMemory};

/// `add`, `sub`, `mul`, their forms with `.ovf`, `div`, `rem`, `and`, `or`, `xor` (ECMA-335 III.1.5, table 2). The faults are
/// those of `Integer::binary`.
pub fn binary(frames: &mut FrameMemory, operation: BinaryOperation) -> Effect
    requires { IsSome (binary_transition operation frames.old) }
    ensures { Some (frames.new, result) ≡ binary_transition operation frames.old }
{
    let second = frames.pop();
    let first = frames.pop();
    push_and_advance_result(frames, binary_result(operation, first, second))
}

/// Does the same where it raises no fault, and returns true. Otherwise it returns false and nothing changes.
pub fn binary_unless_faulty(frames: &mut FrameMemory, operation: BinaryOperation) -> bool
    requires { IsSome (binary_transition operation frames.old) }
    ensures done { result ≡ true → binary_transition operation frames.old ≡ Some (frames.new, ContinuesOf) }
    ensures stays { result ≡ false → (frames.new ≡ frames.old) × IsFaulty (binary_transition operation frames.old) }
{
    let second = frames.operand(0);
    let first = frames.operand(1);
    match binary_result(operation, first, second) {
        Ok(value) => {
            frames.pop();
            frames.pop();
            push_and_advance(frames, value);
            true
        }
        Err(_) => false,
    }
}

/// What an operation gives on two integers of one size.
fn binary_result(operation: BinaryOperation, first: Value, second: Value) -> Result<Value, Fault>
    requires { IsSome (binary_result operation first second) }
    ensures { binary_result operation first second ≡ Some result }
{
    match (first, second) {
        (Value::Int32(x), Value::Int32(y)) => Integer::binary(operation, x, y).map(Value::Int32),
        (Value::Int64(x), Value::Int64(y)) => Integer::binary(operation, x, y).map(Value::Int64),
        _ => unreachable!(),
    }
}

/// `neg` and `not` (ECMA-335 III.1.5, table 3).
pub fn unary(frames: &mut FrameMemory, operation: UnaryOperation) -> Effect
    requires { IsSome (unary_transition operation frames.old) }
    ensures { Some (frames.new, result) ≡ unary_transition operation frames.old }
{
    match frames.pop() {
        Value::Int32(x) => push_and_advance(frames, Value::Int32(Integer::unary(operation, x))),
        Value::Int64(x) => push_and_advance(frames, Value::Int64(Integer::unary(operation, x))),
        _ => unreachable!(),
    }
}

/// `shl`, `shr` and `shr.un` (ECMA-335 III.1.5, table 6).
pub fn shift(frames: &mut FrameMemory, operation: ShiftOperation) -> Effect
    requires { IsSome (shift_transition operation frames.old) }
    ensures { Some (frames.new, result) ≡ shift_transition operation frames.old }
{
    let amount = frames.pop();
    let shifted = frames.pop();
    match (shifted, amount) {
        (Value::Int32(x), Value::Int32(y)) => {
            push_and_advance(frames, Value::Int32(Integer::shift(operation, x, y)))
        }
        (Value::Int64(x), Value::Int32(y)) => {
            push_and_advance(frames, Value::Int64(Integer::shift(operation, x, y)))
        }
        _ => unreachable!(),
    }
}

/// `ceq`, `cgt` and `clt` (ECMA-335 III.3.21, III.3.22, III.3.25). Of references the heap determines whether they are equal.
pub fn compare(frames: &mut FrameMemory, heap: &Heap, phase: Phase, operation: Comparison) -> Effect
    requires { IsSome (compare_transition phase operation frames.old heap.now) }
    ensures { Some (frames.new, result) ≡ compare_transition phase operation frames.old heap.now }
{
    let second = frames.pop();
    let first = frames.pop();
    let holds = holds(heap, phase, operation, first, second);
    push_and_advance(frames, one_or_zero(holds))
}

/// Whether a comparison of two integers of one size, or of two references, holds.
fn holds(heap: &Heap, phase: Phase, operation: Comparison, first: Value, second: Value) -> bool
    requires { IsSome (comparison phase heap.now operation first second) }
    ensures { comparison phase heap.now operation first second ≡ Some result }
{
    match (first, second) {
        (Value::Int32(x), Value::Int32(y)) => Integer::compare(operation, x, y),
        (Value::Int64(x), Value::Int64(y)) => Integer::compare(operation, x, y),
        (Value::Ref(x), Value::Ref(y)) => barriers::same(heap, phase, x, y),
        _ => unreachable!(),
    }
}

/// `cgt` and `clt` (ECMA-335 III.3.22, III.3.25), of two integers of one size. It asks no heap.
pub fn compare_integers(frames: &mut FrameMemory, operation: Comparison) -> Effect
    requires { IsSome (compare_integers_transition operation frames.old) }
    ensures { Some (frames.new, result) ≡ compare_integers_transition operation frames.old }
{
    let second = frames.pop();
    let first = frames.pop();
    let holds = integers_compared(operation, first, second);
    push_and_advance(frames, one_or_zero(holds))
}

/// Whether a comparison of two integers of one size holds.
fn integers_compared(operation: Comparison, first: Value, second: Value) -> bool
    requires { IsSome (integers_compared operation first second) }
    ensures { integers_compared operation first second ≡ Some result }
{
    match (first, second) {
        (Value::Int32(left), Value::Int32(right)) => Integer::compare(operation, left, right),
        (Value::Int64(left), Value::Int64(right)) => Integer::compare(operation, left, right),
        _ => unreachable!(),
    }
}

/// What a comparison leaves: 1 where it holds, else 0.
fn one_or_zero(holds: bool) -> Value
    ensures { result ≡ one_or_zero holds }
{
    Value::Int32(i32::from(holds))
}

/// `conv.i4` (ECMA-335 III.3.27).
pub fn convert_to_32(frames: &mut FrameMemory) -> Effect
    requires { IsSome (convert_32_transition frames.old) }
    ensures { Some (frames.new, result) ≡ convert_32_transition frames.old }
{
    let value = frames.pop();
    push_and_advance(frames, in_32_bits(value))
}

fn in_32_bits(value: Value) -> Value
    requires { IsSome (in_32_bits value) }
    ensures { in_32_bits value ≡ Some result }
{
    match value {
        Value::Int32(x) => Value::Int32(x),
        Value::Int64(x) => Value::Int32(truncate(x)),
        Value::Native(x) => Value::Int32(truncate(x)),
        Value::Ref(_) => unreachable!(),
    }
}

/// `conv.i8` (ECMA-335 III.3.27).
pub fn convert_to_64(frames: &mut FrameMemory) -> Effect
    requires { IsSome (convert_64_transition frames.old) }
    ensures { Some (frames.new, result) ≡ convert_64_transition frames.old }
{
    let value = frames.pop();
    push_and_advance(frames, in_64_bits(value))
}

fn in_64_bits(value: Value) -> Value
    requires { IsSome (in_64_bits value) }
    ensures { in_64_bits value ≡ Some result }
{
    match value {
        Value::Int32(x) => Value::Int64(sign_extended(x)),
        Value::Int64(x) => Value::Int64(x),
        Value::Native(x) => Value::Int64(x),
        Value::Ref(_) => unreachable!(),
    }
}
