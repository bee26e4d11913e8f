//! Stores to slots of objects, to monitors and to static fields.

ghost use Rattle.std.specs.Prelude.{◌≡◌, ◌<◌, true, IsSome, length};
ghost use Rattle.object_memory.specs.Cells.{store_slot};
ghost use Rattle.object_memory.specs.declared.values.Value.TheVariants.{Ref};
ghost use Rattle.object_memory.specs.Objects.{monitor_at, object_cell, object_slots};
ghost use Rattle.barriers.specs.Barriers.{other_has_slot, is_other_in_heap, is_static_storable, is_storable, is_value_in_heap, is_word_storable, is_monitor_storable, forward_value, reaches_both, stored_int, stored_monitor, stored_ref, stored_static, stored_value, with_both, with_both_monitors, with_marked};

use cil_model::phases::Phase;
use object_memory::{Addr, Heap, Monitor, Value};

/// Stores a value to a field or an element, for a thread in this phase. In `Mark` the object of a reference is marked; from `Copy` to
/// `ThreadFlip` both copies of the object get the value, and up to `HeapFlip` the new one gets the forward of a reference. Slots
/// count from 0. Nothing else changes.
pub fn store_value(heap: &mut Heap, phase: Phase, object: Addr, slot: u32, value: Value)
    requires inside { slot < length (object_slots heap.old object) }
    requires ready { is_storable phase heap.old object slot value ≡ true }
    ensures { heap.new ≡ stored_value phase heap.old object slot value }
{
    if phase == Phase::Idle {
        heap.set_slot(object, slot, value.word());
    } else {
        store_in_cycle(heap, phase, object, slot, value);
    }
}

/// The same in any phase. Apart from what is done between cycles, so that a step is short.
#[cold]
fn store_in_cycle(heap: &mut Heap, phase: Phase, object: Addr, slot: u32, value: Value)
    requires inside { slot < length (object_slots heap.old object) }
    requires ready { is_storable phase heap.old object slot value ≡ true }
    ensures { heap.new ≡ stored_value phase heap.old object slot value }
{
    match phase {
        Phase::Idle | Phase::Allocate | Phase::Reclaim => {
            heap.set_slot(object, slot, value.word());
        }
        Phase::Mark => {
            mark(heap, value);
            heap.set_slot(object, slot, value.word());
        }
        Phase::Copy | Phase::PreFlip | Phase::HeapFlip => {
            let copied = forward(heap, value);
            set_both_slots(heap, object, slot, value.word(), copied.word());
        }
        Phase::ThreadFlip => set_both_slots(heap, object, slot, value.word(), value.word()),
    }
}

/// Stores a reference to a field or an element, as `store_value` does. Slots count from 0. Nothing else changes.
pub fn store_ref(heap: &mut Heap, phase: Phase, object: Addr, slot: u32, reference: Addr)
    requires inside { slot < length (object_slots heap.old object) }
    requires ready { is_storable phase heap.old object slot (Ref reference) ≡ true }
    ensures { heap.new ≡ stored_ref phase heap.old object slot reference }
{
    store_value(heap, phase, object, slot, Value::Ref(reference));
}

/// Stores a word that is no reference to a slot: the bits of an integer, or which thread was started on the object. From `Copy` to
/// `ThreadFlip` both copies of the object get it. Slots count from 0. Nothing else changes.
pub fn store_int(heap: &mut Heap, phase: Phase, object: Addr, slot: u32, word: u64)
    requires inside { slot < length (object_slots heap.old object) }
    requires ready { is_word_storable phase heap.old object slot ≡ true }
    ensures { heap.new ≡ stored_int phase heap.old object slot word }
{
    if reaches_both(phase) {
        set_both_slots(heap, object, slot, word, word);
    } else {
        heap.set_slot(object, slot, word);
    }
}

/// Sets the monitor of an object or a literal. From `Copy` to `ThreadFlip` both copies of the object get it. Nothing else changes.
pub fn store_monitor(heap: &mut Heap, phase: Phase, object: Addr, monitor: Monitor)
    requires there { IsSome (monitor_at heap.old object) }
    requires ready { is_monitor_storable phase heap.old object ≡ true }
    ensures { heap.new ≡ stored_monitor phase heap.old object monitor }
{
    if reaches_both(phase) && object.literal_number().is_none() {
        set_both_monitors(heap, object, monitor);
    } else {
        heap.set_monitor(object, monitor);
    }
}

/// Stores a value to a static field, by its number, for a thread in this phase. In `Mark` the object of a reference is marked; in
/// `PreFlip` and `HeapFlip` the field gets the forward of a reference. The other fields stay.
pub fn store_static(
    heap: &mut Heap,
    phase: Phase,
    statics: &mut [Value],
    number: usize,
    value: Value,
)
    requires inside { number < length statics.old }
    requires ready { is_static_storable phase heap.old value ≡ true }
    ensures { (heap.new, statics.new) ≡ stored_static phase heap.old statics.old number value }
{
    match phase {
        Phase::Mark => {
            mark(heap, value);
            statics[number] = value;
        }
        Phase::PreFlip | Phase::HeapFlip => statics[number] = forward(heap, value),
        Phase::Idle | Phase::Allocate | Phase::Copy | Phase::ThreadFlip | Phase::Reclaim => {
            statics[number] = value;
        }
    }
}

/// Whether a store of a thread in this phase reaches both copies of an object.
fn reaches_both(phase: Phase) -> bool
    ensures { result ≡ reaches_both phase }
{
    match phase {
        Phase::Copy | Phase::PreFlip | Phase::HeapFlip | Phase::ThreadFlip => true,
        Phase::Idle | Phase::Mark | Phase::Allocate | Phase::Reclaim => false,
    }
}

/// Marks the object of a reference, and puts it on the grey list where it wasn't marked. An integer has none. Nothing else changes.
#[cold]
pub fn mark(heap: &mut Heap, value: Value)
    requires open { heap.old.spaces.is_open ≡ true }
    requires there { is_value_in_heap heap.old value ≡ true }
    ensures { heap.new ≡ with_marked heap.old value }
{
    match value {
        Value::Ref(address) => {
            heap.mark(address);
        }
        Value::Int32(_) | Value::Int64(_) | Value::Native(_) => {}
    }
}

/// The reference of the other copy, in place of an old object's. Any other value is itself.
#[cold]
pub fn forward(heap: &Heap, value: Value) -> Value
    requires { is_value_in_heap heap.now value ≡ true }
    ensures { result ≡ forward_value heap.now value }
{
    match value {
        Value::Ref(address) => Value::Ref(heap.forward(address)),
        Value::Int32(_) | Value::Int64(_) | Value::Native(_) => value,
    }
}

/// Stores a word to the slot of the old copy of an object, and another to that of the new copy.
#[cold]
fn set_both_slots(heap: &mut Heap, object: Addr, slot: u32, old: u64, new: u64)
    requires inside { slot < length (object_slots heap.old object) }
    requires copies { other_has_slot heap.old object slot ≡ true }
    ensures { heap.new ≡ with_both (store_slot slot old) (store_slot slot new) heap.old object }
{
    let copy = heap.other(object);
    if heap.is_old(object) {
        heap.set_slot(object, slot, old);
        if let Some(other) = copy {
            heap.set_slot(other, slot, new);
        }
    } else {
        heap.set_slot(object, slot, new);
        if let Some(other) = copy {
            heap.set_slot(other, slot, old);
        }
    }
}

/// Sets the monitor of both copies of an object.
#[cold]
fn set_both_monitors(heap: &mut Heap, object: Addr, monitor: Monitor)
    requires there { IsSome (object_cell heap.old object) }
    requires copies { is_other_in_heap heap.old object ≡ true }
    ensures { heap.new ≡ with_both_monitors heap.old object monitor }
{
    let copy = heap.other(object);
    heap.set_cell_monitor(object, monitor);
    if let Some(other) = copy {
        heap.set_cell_monitor(other, monitor);
    }
}
