//! Arguments, locals and the stack.

ghost use Rattle.std.specs.Prelude.{◌≡◌, IsSome, Some};
ghost use Rattle.instructions.specs.Frames.{argument_transition, local_transition, store_argument_transition, store_local_transition, duplicate_transition, pop_transition};

use crate::control::{advance, push_and_advance};
use threads_monitors::{Effect, FrameMemory};

/// `ldarg` (ECMA-335 III.3.38).
pub fn load_argument(frames: &mut FrameMemory, index: i64) -> Effect
    requires { IsSome (argument_transition index frames.old) }
    ensures { Some (frames.new, result) ≡ argument_transition index frames.old }
{
    let value = frames.argument(index as usize);
    push_and_advance(frames, value)
}

/// `starg` (ECMA-335 III.3.61).
pub fn store_argument(frames: &mut FrameMemory, index: i64) -> Effect
    requires { IsSome (store_argument_transition index frames.old) }
    ensures { Some (frames.new, result) ≡ store_argument_transition index frames.old }
{
    let value = frames.pop();
    frames.set_argument(index as usize, value);
    advance(frames)
}

/// `ldloc` (ECMA-335 III.3.43).
pub fn load_local(frames: &mut FrameMemory, index: i64) -> Effect
    requires { IsSome (local_transition index frames.old) }
    ensures { Some (frames.new, result) ≡ local_transition index frames.old }
{
    let value = frames.local(index as usize);
    push_and_advance(frames, value)
}

/// `stloc` (ECMA-335 III.3.63).
pub fn store_local(frames: &mut FrameMemory, index: i64) -> Effect
    requires { IsSome (store_local_transition index frames.old) }
    ensures { Some (frames.new, result) ≡ store_local_transition index frames.old }
{
    let value = frames.pop();
    frames.set_local(index as usize, value);
    advance(frames)
}

/// `dup` (ECMA-335 III.3.34).
pub fn duplicate(frames: &mut FrameMemory) -> Effect
    requires { IsSome (duplicate_transition frames.old) }
    ensures { Some (frames.new, result) ≡ duplicate_transition frames.old }
{
    let value = frames.pop();
    frames.push(value);
    push_and_advance(frames, value)
}

/// `pop` (ECMA-335 III.3.54).
pub fn pop(frames: &mut FrameMemory) -> Effect
    requires { IsSome (pop_transition frames.old) }
    ensures { Some (frames.new, result) ≡ pop_transition frames.old }
{
    frames.pop();
    advance(frames)
}
