//! Fields of objects.

ghost use Rattle.std.specs.Prelude.{◌≡◌, IsSome, Some};
ghost use Rattle.instructions.specs.ObjectTransitions.{load_field_transition, store_field_transition, load_slot, store_slot};

use crate::control::{advance, push_and_advance};
use cil_model::phases::Phase;
use cil_model::reports::Fault;
use object_memory::{Addr, Heap, Value, ValueKind};
use threads_monitors::{Effect, FrameMemory};

/// Leaves the value of a slot of an object.
pub fn load_slot(
    frames: &mut FrameMemory,
    heap: &mut Heap,
    kind: ValueKind,
    object: Addr,
    slot: u32,
) -> Effect
    requires { IsSome (load_slot kind slot object frames.old heap.old) }
    ensures { Some (frames.new, heap.new, result) ≡ load_slot kind slot object frames.old heap.old }
{
    let word = heap.slot(object, slot);
    push_and_advance(frames, Value::of_word(kind, word))
}

/// Stores a value to a slot of an object.
pub fn store_slot(
    frames: &mut FrameMemory,
    heap: &mut Heap,
    phase: Phase,
    value: Value,
    object: Addr,
    slot: u32,
) -> Effect
    requires { IsSome (store_slot phase value slot object frames.old heap.old) }
    ensures { Some (frames.new, heap.new, result) ≡ store_slot phase value slot object frames.old heap.old }
{
    barriers::store_value(heap, phase, object, slot, value);
    advance(frames)
}

/// `ldfld` (ECMA-335 III.4.10). Null raises `NullReference`.
pub fn load_field(frames: &mut FrameMemory, heap: &mut Heap, kind: ValueKind, slot: u32) -> Effect
    requires { IsSome (load_field_transition kind slot frames.old heap.old) }
    ensures { Some (frames.new, heap.new, result) ≡ load_field_transition kind slot frames.old heap.old }
{
    match frames.pop() {
        Value::Ref(object) if object.is_null() => Effect::Raises(Fault::NullReference),
        Value::Ref(object) => load_slot(frames, heap, kind, object, slot),
        _ => unreachable!(),
    }
}

/// `stfld` (ECMA-335 III.4.28). Null raises `NullReference`.
pub fn store_field(frames: &mut FrameMemory, heap: &mut Heap, phase: Phase, slot: u32) -> Effect
    requires { IsSome (store_field_transition phase slot frames.old heap.old) }
    ensures { Some (frames.new, heap.new, result) ≡ store_field_transition phase slot frames.old heap.old }
{
    let value = frames.pop();
    match frames.pop() {
        Value::Ref(object) if object.is_null() => Effect::Raises(Fault::NullReference),
        Value::Ref(object) => store_slot(frames, heap, phase, value, object, slot),
        _ => unreachable!(),
    }
}
