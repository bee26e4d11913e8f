//! `newobj`.

ghost use Rattle.std.specs.Prelude.{◌≡◌, IsSome, Some};
ghost use Rattle.instructions.specs.Calls.{call_of, new_object_transition, new_plain_object_transition};

use crate::arrays::push_and_advance_born;
use crate::calls::{Callee, construct};
use cil_model::phases::Phase;
use cil_model::reports::Fault;
use object_memory::{Heap, Kind};
use threads_monitors::{Effect, FrameMemory};

/// `newobj` (ECMA-335 III.4.21) of a class, by its number and the number of its slots, with a constructor that has code. Where the number of frames
/// is at its limit, it raises `StackOverflow`, and then, where the birth is refused, `OutOfMemory`.
pub fn new_object(
    frames: &mut FrameMemory,
    heap: &mut Heap,
    phase: Phase,
    class: u16,
    slots: u32,
    callee: Callee,
) -> Effect
    requires { IsSome (new_object_transition phase class slots (call_of callee) frames.old heap.old) }
    ensures { Some (frames.new, heap.new, result) ≡ new_object_transition phase class slots (call_of callee.entry) frames.old heap.old }
{
    if frames.is_full() {
        return Effect::Raises(Fault::StackOverflow);
    }
    match barriers::birth(heap, phase, Kind::Instance(class), u64::from(slots)) {
        Some(object) => construct(frames, callee, object),
        None => Effect::Raises(Fault::OutOfMemory),
    }
}

/// `newobj` (ECMA-335 III.4.21) with a constructor that is built in. Where the birth is refused, it raises `OutOfMemory`.
pub fn new_plain_object(
    frames: &mut FrameMemory,
    heap: &mut Heap,
    phase: Phase,
    class: u16,
    slots: u32,
) -> Effect
    requires { IsSome (new_plain_object_transition phase class slots frames.old heap.old) }
    ensures { Some (frames.new, heap.new, result) ≡ new_plain_object_transition phase class slots frames.old heap.old }
{
    let object = barriers::birth(heap, phase, Kind::Instance(class), u64::from(slots));
    push_and_advance_born(frames, object)
}
