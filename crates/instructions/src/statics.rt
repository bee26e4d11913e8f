//! Static fields.

ghost use Rattle.std.specs.Prelude.{◌≡◌, IsSome, Some};
ghost use Rattle.instructions.specs.ObjectTransitions.{load_static_transition, store_static_transition};

use crate::control::{advance, push_and_advance};
use cil_model::phases::Phase;
use object_memory::{Heap, Value};
use threads_monitors::{Effect, FrameMemory};

/// `ldsfld` (ECMA-335 III.4.14), by the number of the static field.
pub fn load_static(frames: &mut FrameMemory, statics: &[Value], number: u32) -> Effect
    requires { IsSome (load_static_transition number frames.old statics.now) }
    ensures { Some (frames.new, result) ≡ load_static_transition number frames.old statics.now }
{
    push_and_advance(frames, statics[number as usize])
}

/// `stsfld` (ECMA-335 III.4.30), by the number of the static field, for a thread in this phase. The other fields stay.
pub fn store_static(
    frames: &mut FrameMemory,
    heap: &mut Heap,
    phase: Phase,
    statics: &mut [Value],
    number: u32,
) -> Effect
    requires { IsSome (store_static_transition phase number frames.old heap.old statics.old) }
    ensures { Some (frames.new, (heap.new, statics.new), result) ≡ store_static_transition phase number frames.old heap.old statics.old }
{
    let value = frames.pop();
    barriers::store_static(heap, phase, statics, number as usize, value);
    advance(frames)
}
