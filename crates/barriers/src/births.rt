//! Births of objects.

ghost use Rattle.std.specs.Prelude.{◌≡◌, ◌≤◌, ◌^◌, true};
ghost use Rattle.barriers.specs.Barriers.{can_allocate, object_born};

use cil_model::phases::Phase;
use object_memory::{Addr, Heap, Kind};

/// Makes an object with the given number of slots, which all hold 0 or null, for a thread in this phase, and returns its address: in the old space in
/// `Idle` and `Mark`, in both from `Allocate` to `HeapFlip`, with the address of the old copy, and then in the new one alone. None exactly
/// where it exceeds the room; nothing is changed then.
pub fn birth(heap: &mut Heap, phase: Phase, kind: Kind, slots: u64) -> Option<Addr>
    requires { can_allocate phase heap.old ≡ true }
    ensures { (heap.new, result) ≡ object_born phase heap.old kind slots }
{
    match u32::try_from(slots) {
        Ok(slots) => heap.birth(kind, slots, phase),
        Err(_) => refuse(heap, phase, kind, slots),
    }
}

/// The birth of an object with more slots than any heap has words, which is refused.
#[cold]
fn refuse(heap: &mut Heap, phase: Phase, kind: Kind, slots: u64) -> Option<Addr>
    requires { 2 ^ 32 ≤ slots }
    ensures { (heap.new, result) ≡ object_born phase heap.old kind slots }
{
    let _room = heap.room(phase);
    None
}
