//! Casts, and stores of references to arrays.

ghost use Rattle.std.specs.Prelude.{◌≡◌, IsSome, Some};
ghost use Rattle.class_layout.specs.Layouts.{IsLayout};
ghost use Rattle.instructions.specs.TypeTransitions.{cast_class_transition, is_instance_transition, store_reference_transition, store_admitted, element_at, held_type};

use crate::arrays::{checked_index, index};
use crate::control::push_and_advance;
use crate::fields::store_slot;
use crate::types::{may_be_used, resolved_element};
use cil_model::phases::Phase;
use cil_model::reports::Fault;
use class_layout::Layout;
use object_memory::{Addr, ArrayElement, Heap, Kind, Value};
use resolved_code::Program;
use resolved_code::types::ResolvedType;
use threads_monitors::{Effect, FrameMemory};

/// `castclass` (ECMA-335 III.4.3). An object whose type does not fit raises `InvalidCast`; null fits.
pub fn cast_class(
    program: &Program,
    layout: &Layout,
    frames: &mut FrameMemory,
    heap: &mut Heap,
    to: ResolvedType,
) -> Effect
    requires layout { IsLayout program.now layout.now }
    requires there { IsSome (cast_class_transition program.now to frames.old heap.old) }
    ensures { Some (frames.new, heap.new, result) ≡ cast_class_transition program.now to frames.old heap.old }
{
    let value = frames.pop();
    if may_be_used(program, layout, heap, value, to) {
        push_and_advance(frames, value)
    } else {
        Effect::Raises(Fault::InvalidCast)
    }
}

/// `isinst` (ECMA-335 III.4.6). An object whose type does not fit becomes null.
pub fn is_instance(
    program: &Program,
    layout: &Layout,
    frames: &mut FrameMemory,
    heap: &mut Heap,
    to: ResolvedType,
) -> Effect
    requires layout { IsLayout program.now layout.now }
    requires there { IsSome (is_instance_transition program.now to frames.old heap.old) }
    ensures { Some (frames.new, heap.new, result) ≡ is_instance_transition program.now to frames.old heap.old }
{
    let value = frames.pop();
    if may_be_used(program, layout, heap, value, to) {
        push_and_advance(frames, value)
    } else {
        push_and_advance(frames, Value::Ref(Addr::null()))
    }
}

/// The type of what an array holds.
fn held_type(array: ArrayElement) -> ResolvedType
    ensures { result ≡ held_type array }
{
    ResolvedType {
        element: resolved_element(array.element),
        brackets: u32::from(array.brackets),
    }
}

/// What an array holds. It is an array.
fn element(heap: &Heap, array: Addr) -> ArrayElement
    requires { IsSome (element_at heap.now array) }
    ensures { element_at heap.now array ≡ Some result }
{
    match heap.kind(array) {
        Kind::Array(element) => element,
        Kind::Instance(_) => unreachable!(),
    }
}

/// Stores a reference to an element of an array that is there, where the array's own elements admit it; else it raises
/// `ArrayTypeMismatch`.
fn store_admitted(
    program: &Program,
    layout: &Layout,
    frames: &mut FrameMemory,
    heap: &mut Heap,
    phase: Phase,
    value: Value,
    array: Addr,
    slot: u32,
) -> Effect
    requires layout { IsLayout program.now layout.now }
    requires there { IsSome (store_admitted phase program.now value slot array frames.old heap.old) }
    ensures { Some (frames.new, heap.new, result) ≡ store_admitted phase program.now value slot array frames.old heap.old }
{
    let held = held_type(element(heap, array));
    if may_be_used(program, layout, heap, value, held) {
        store_slot(frames, heap, phase, value, array, slot)
    } else {
        Effect::Raises(Fault::ArrayTypeMismatch)
    }
}

/// `stelem.ref` (ECMA-335 III.4.27). Null raises `NullReference`, then an index that the array doesn't have `IndexOutOfRange`, then an
/// object that the array's own elements don't admit `ArrayTypeMismatch`.
pub fn store_reference(
    program: &Program,
    layout: &Layout,
    frames: &mut FrameMemory,
    heap: &mut Heap,
    phase: Phase,
) -> Effect
    requires layout { IsLayout program.now layout.now }
    requires there { IsSome (store_reference_transition phase program.now frames.old heap.old) }
    ensures { Some (frames.new, heap.new, result) ≡ store_reference_transition phase program.now frames.old heap.old }
{
    let value = frames.pop();
    let operand = frames.pop();
    let Value::Ref(array) = frames.pop() else {
        unreachable!()
    };
    if array.is_null() {
        return Effect::Raises(Fault::NullReference);
    }
    match checked_index(index(operand), heap.slots(array)) {
        Some(element) => store_admitted(
            program, layout, frames, heap, phase, value, array, element,
        ),
        None => Effect::Raises(Fault::IndexOutOfRange),
    }
}
