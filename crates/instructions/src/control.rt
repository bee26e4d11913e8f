//! Where a frame continues, and what it leaves on its stack.

ghost use Rattle.std.specs.Prelude.{◌≡◌, IsSome, Some};
ghost use Rattle.instructions.specs.Frames.{jump, onward, branch_if, value_pushed, result_pushed};

use cil_model::reports::Fault;
use object_memory::Value;
use threads_monitors::{Effect, FrameMemory};

/// Continues at a pc of the running method.
pub fn jump(frames: &mut FrameMemory, pc: usize) -> Effect
    requires { IsSome (jump pc frames.old) }
    ensures { Some (frames.new, result) ≡ jump pc frames.old }
{
    frames.set_pc(pc as u32);
    Effect::Continues
}

/// Advances to the next instruction.
pub fn advance(frames: &mut FrameMemory) -> Effect
    requires { IsSome (onward frames.old) }
    ensures { Some (frames.new, result) ≡ onward frames.old }
{
    frames.set_pc(frames.pc() + 1);
    Effect::Continues
}

/// Continues at the given pc where the test holds, and otherwise advances to the next instruction.
pub fn branch_if(frames: &mut FrameMemory, holds: bool, pc: usize) -> Effect
    requires { IsSome (branch_if holds pc frames.old) }
    ensures { Some (frames.new, result) ≡ branch_if holds pc frames.old }
{
    if holds {
        jump(frames, pc)
    } else {
        advance(frames)
    }
}

/// Pushes a value and advances.
pub fn push_and_advance(frames: &mut FrameMemory, value: Value) -> Effect
    requires { IsSome (value_pushed value frames.old) }
    ensures { Some (frames.new, result) ≡ value_pushed value frames.old }
{
    frames.push(value);
    advance(frames)
}

/// Pushes a result and advances, or raises its fault.
pub fn push_and_advance_result(frames: &mut FrameMemory, outcome: Result<Value, Fault>) -> Effect
    requires { IsSome (result_pushed frames.old outcome) }
    ensures { Some (frames.new, result) ≡ result_pushed frames.old outcome }
{
    match outcome {
        Ok(value) => push_and_advance(frames, value),
        Err(fault) => Effect::Raises(fault),
    }
}
