//! The instruction at a frame's pc.

ghost use Rattle.std.specs.Prelude.{◌≡◌, IsSome, IfOk, OnErr};
ghost use Rattle.resolved_code.specs.declared.operations.Operation.{Operation as AnyOperation};
ghost use Rattle.interpreter.specs.Instructions.{HasSmallConstant, IsAt, IsDone, Prints, line_at, operation_transition, answer_of};
ghost use Rattle.interpreter.specs.Stores.{HoldSame};

use crate::execution::execute;
use crate::outcomes::InstructionOutcome;
use crate::stores::Store;
use cil_model::memory::NoMemory;
use loaded_program::LoadedProgram;
use resolved_code::classes::body_of;
use resolved_code::operations::Operation;
use threads_monitors::{FrameMemory, Mutator};

/// The resolved instruction at the running frame's pc. It takes no memory, and constant time.
pub fn operation_at<'a>(program: &'a LoadedProgram, frames: &FrameMemory) -> &'a Operation
    requires { IsSome (line_at program.now frames.now) }
    ensures { IsAt program.now frames.now result.now }
{
    let member = program.method(frames.method()).member;
    let Some(method) = program.program().method(member) else {
        unreachable!()
    };
    let Some(body) = body_of(&method.kind) else {
        unreachable!()
    };
    &body.operations.as_slice()[frames.pc() as usize]
}

/// Does the instruction at the running frame's pc (ECMA-335 III.3, III.4). `NoMemory` of a print alone, where nothing is
/// changed; no other instruction takes memory.
pub fn instruction(
    program: &LoadedProgram,
    mutator: Mutator,
    frames: &mut FrameMemory,
    store: &mut Store,
) -> Result<InstructionOutcome, NoMemory>
    requires pc { IsSome (line_at program.now frames.old) }
    requires there { (op : AnyOperation) → IsAt program.now frames.old op → HasSmallConstant op → IsSome (operation_transition program.now mutator op frames.old store.old.heap store.old.statics.items store.old.console.items) }
    ensures done { IfOk result (λ outcome. IsDone program.now mutator frames.old store.old.heap store.old.statics.items store.old.console.items (answer_of frames.new store.new.heap store.new.statics.items store.new.console.items outcome)) }
    ensures refused { OnErr result ((frames.new ≡ frames.old) × HoldSame store.old store.new) }
    ensures prints { OnErr result (Prints program.now mutator frames.old store.old.heap store.old.statics.items store.old.console.items) }
{
    let instruction = program.instruction(frames.method(), frames.pc());
    execute(program, mutator, instruction, frames, store)
}
