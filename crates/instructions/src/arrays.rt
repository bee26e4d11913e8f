//! Arrays.

ghost use Rattle.std.specs.Prelude.{◌≡◌, IsSome, Some};
ghost use Rattle.instructions.specs.ObjectTransitions.{load_length_transition, load_element_transition, store_element_transition, new_array_transition, object_pushed, index_in, checked_index};

use crate::control::push_and_advance;
use crate::fields::{load_slot, store_slot};
use cil_model::phases::Phase;
use cil_model::reports::Fault;
use object_memory::{Addr, ArrayElement, Heap, Kind, Value, ValueKind};
use threads_monitors::{Effect, FrameMemory};

/// A length or an index: an integer of 32 bits or of the native size (ECMA-335 III.4.8, III.4.20).
pub fn index(value: Value) -> i64
    requires { IsSome (index_in value) }
    ensures { index_in value ≡ Some result }
{
    match value {
        Value::Int32(number) => i64::from(number),
        Value::Native(number) => number,
        _ => unreachable!(),
    }
}

/// The index of an element among the given number of elements. None where there is no such element.
pub fn checked_index(index: i64, count: u32) -> Option<u32>
    ensures { result ≡ checked_index index count }
{
    if 0 <= index && index < i64::from(count) {
        Some(index as u32)
    } else {
        None
    }
}

/// `ldlen` (ECMA-335 III.4.12). Null raises `NullReference`.
pub fn load_length(frames: &mut FrameMemory, heap: &mut Heap) -> Effect
    requires { IsSome (load_length_transition frames.old heap.old) }
    ensures { Some (frames.new, heap.new, result) ≡ load_length_transition frames.old heap.old }
{
    match frames.pop() {
        Value::Ref(array) if array.is_null() => Effect::Raises(Fault::NullReference),
        Value::Ref(array) => push_and_advance(frames, Value::Native(i64::from(heap.slots(array)))),
        _ => unreachable!(),
    }
}

/// `ldelem.i4`, `ldelem.i8` and `ldelem.ref` (ECMA-335 III.4.8). Null raises `NullReference`, then an index that the array
/// doesn't have `IndexOutOfRange`.
pub fn load_element(frames: &mut FrameMemory, heap: &mut Heap, kind: ValueKind) -> Effect
    requires { IsSome (load_element_transition kind frames.old heap.old) }
    ensures { Some (frames.new, heap.new, result) ≡ load_element_transition kind frames.old heap.old }
{
    let operand = frames.pop();
    let Value::Ref(array) = frames.pop() else {
        unreachable!()
    };
    if array.is_null() {
        return Effect::Raises(Fault::NullReference);
    }
    match checked_index(index(operand), heap.slots(array)) {
        Some(slot) => load_slot(frames, heap, kind, array, slot),
        None => Effect::Raises(Fault::IndexOutOfRange),
    }
}

/// `stelem.i4` and `stelem.i8` (ECMA-335 III.4.27). The faults are those of `load_element`.
pub fn store_element(frames: &mut FrameMemory, heap: &mut Heap, phase: Phase) -> Effect
    requires { IsSome (store_element_transition phase frames.old heap.old) }
    ensures { Some (frames.new, heap.new, result) ≡ store_element_transition phase frames.old heap.old }
{
    let value = frames.pop();
    let operand = frames.pop();
    let Value::Ref(array) = frames.pop() else {
        unreachable!()
    };
    if array.is_null() {
        return Effect::Raises(Fault::NullReference);
    }
    match checked_index(index(operand), heap.slots(array)) {
        Some(slot) => store_slot(frames, heap, phase, value, array, slot),
        None => Effect::Raises(Fault::IndexOutOfRange),
    }
}

/// `newarr` (ECMA-335 III.4.20). A negative length raises `Overflow`, then a birth that is refused `OutOfMemory`.
pub fn new_array(
    frames: &mut FrameMemory,
    heap: &mut Heap,
    phase: Phase,
    element: ArrayElement,
) -> Effect
    requires { IsSome (new_array_transition phase element frames.old heap.old) }
    ensures { Some (frames.new, heap.new, result) ≡ new_array_transition phase element frames.old heap.old }
{
    let length = index(frames.pop());
    if length < 0 {
        return Effect::Raises(Fault::Overflow);
    }
    let address = barriers::birth(heap, phase, Kind::Array(element), length.cast_unsigned());
    push_and_advance_born(frames, address)
}

/// Leaves an object that was born. Where its birth was refused, it raises `OutOfMemory`.
pub fn push_and_advance_born(frames: &mut FrameMemory, object: Option<Addr>) -> Effect
    requires { IsSome (object_pushed object frames.old) }
    ensures { Some (frames.new, result) ≡ object_pushed object frames.old }
{
    match object {
        Some(object) => push_and_advance(frames, Value::Ref(object)),
        None => Effect::Raises(Fault::OutOfMemory),
    }
}
