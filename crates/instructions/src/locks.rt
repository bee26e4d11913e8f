//! `Monitor.Enter` and `Monitor.Exit`.

ghost use Rattle.std.specs.Prelude.{◌≡◌, IsSome, Some};
ghost use Rattle.instructions.specs.BuiltInTransitions.{enter_transition, exit_transition};

use crate::control::advance;
use object_memory::{Heap, Value};
use threads_monitors::{Effect, FrameMemory, Mutator};

/// `Monitor.Enter` (ECMA-335 I.12.6.5) by a thread. Another thread's monitor blocks, and nothing changes. Null raises `ArgumentNull`.
pub fn enter(frames: &mut FrameMemory, heap: &mut Heap, mutator: Mutator) -> Effect
    requires { IsSome (enter_transition mutator frames.old heap.old) }
    ensures { Some (frames.new, heap.new, result) ≡ enter_transition mutator frames.old heap.old }
{
    let Value::Ref(object) = frames.operand(0) else {
        unreachable!()
    };
    match threads_monitors::enter(heap, mutator, object) {
        Effect::Continues => {
            frames.pop();
            advance(frames)
        }
        other => other,
    }
}

/// `Monitor.Exit` (ECMA-335 I.12.6.5) by a thread. Any thread but the owner raises `SynchronizationLock`, and null `ArgumentNull`.
pub fn exit(frames: &mut FrameMemory, heap: &mut Heap, mutator: Mutator) -> Effect
    requires { IsSome (exit_transition mutator frames.old heap.old) }
    ensures { Some (frames.new, heap.new, result) ≡ exit_transition mutator frames.old heap.old }
{
    let Value::Ref(object) = frames.operand(0) else {
        unreachable!()
    };
    match threads_monitors::exit(heap, mutator, object) {
        Effect::Continues => {
            frames.pop();
            advance(frames)
        }
        other => other,
    }
}
