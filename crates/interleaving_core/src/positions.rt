//! Where threads are in the program.

ghost use Rattle.std.specs.Prelude.{◌≡◌, IsSome};
ghost use Rattle.simulation.specs.interpreter.Instructions.{line_at};
ghost use Rattle.interleaving_core.specs.Positions.{position_of};

use name_tables::ids::MethodId;
use simulation::interpreter_code::loaded_code::LoadedProgram;
use threads_monitors::FrameMemory;

/// Where a live thread is.
#[derive(Clone, Copy)]
pub struct Position {
    /// The method that runs.
    pub method: MethodId,
    /// The pc of the next instruction in that method, from 0.
    pub pc: u32,
    /// How many frames the thread has: 1 and, for each call that has not returned, one more.
    pub frames: usize,
    /// How many values the running frame has on its stack.
    pub height: usize,
}

/// Where the running frame of a thread is in the program.
pub(crate) fn position_of(program: &LoadedProgram, frames: &FrameMemory) -> Position
    requires { IsSome (line_at program.now frames.now) }
    ensures { result ≡ position_of program.now frames.now }
{
    Position {
        method: program.method(frames.method()).member,
        pc: frames.pc(),
        frames: frames.frame_count(),
        height: frames.stack_height(),
    }
}
