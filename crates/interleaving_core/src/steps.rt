//! The parts of a step of one thread.

ghost use Rattle.std.specs.Prelude.{◌≡◌, ◌<◌, IsSome, IfOk, OnErr, length, true};
ghost use Rattle.cil_model.specs.declared.limits.TheConstants.{MOST_INSTRUCTIONS};
ghost use Rattle.resolved_code.specs.declared.operations.Operation.{Operation as AnyOperation};
ghost use Rattle.threads_monitors.specs.Frames.{Frames};
ghost use Rattle.threads_monitors.specs.Threads.{is_live, charge};
ghost use Rattle.threads_monitors.specs.declared.threads.ThreadStatus.TheVariants.{Live};
ghost use Rattle.simulation.specs.interpreter.Instructions.{HasSmallConstant, IsAt, IsDone, Prints, line_at, operation_transition, answer_of};
ghost use Rattle.simulation.specs.interpreter.Stores.{HoldSame};
ghost use Rattle.simulation.specs.Transitions.{after_request, seat_thread, seats_after};

use cil_model::memory::NoMemory;
use cil_model::reports::Report;
use phase_handshake::Posts;
use simulation::interpreter_code::fetch::instruction;
use simulation::interpreter_code::loaded_code::LoadedProgram;
use simulation::interpreter_code::outcomes::InstructionOutcome;
use simulation::interpreter_code::stores::Store;
use threads_monitors::{Effect, FrameMemory, Mutator, Thread, ThreadStatus};

/// The instruction at a live thread's pc. `NoMemory` of a print alone, where nothing is changed.
pub(crate) fn instruct(
    thread: &mut Thread,
    mutator: Mutator,
    program: &LoadedProgram,
    store: &mut Store,
) -> Result<InstructionOutcome, NoMemory>
    requires live { is_live thread.old ≡ true }
    requires pc { (m : Frames) → thread.old.thread_status ≡ Live m → IsSome (line_at program.now m) }
    requires there { (m : Frames) → thread.old.thread_status ≡ Live m → (op : AnyOperation) → IsAt program.now m op → HasSmallConstant op → IsSome (operation_transition program.now mutator op m store.old.heap store.old.statics.items store.old.console.items) }
    ensures done { IfOk result (λ outcome. (m : Frames) → thread.old.thread_status ≡ Live m → (n : Frames) × (thread.new ≡ record thread.old { thread_status = Live n }) × IsDone program.now mutator m store.old.heap store.old.statics.items store.old.console.items (answer_of n store.new.heap store.new.statics.items store.new.console.items outcome)) }
    ensures prints { OnErr result ((m : Frames) → thread.old.thread_status ≡ Live m → Prints program.now mutator m store.old.heap store.old.statics.items store.old.console.items) }
    ensures refused { OnErr result ((thread.new ≡ thread.old) × HoldSame store.old store.new) }
{
    let ThreadStatus::Live(frames) = &mut thread.thread_status else {
        unreachable!()
    };
    instruction(program, mutator, frames, store)
}

/// Takes the operand of what was asked for, once that is done, and advances to the next instruction. Otherwise all stays.
fn take_operand(frames: &mut FrameMemory, effect: Effect)
    requires operand { 0 < length frames.old.running.stack }
    requires following { frames.old.running.pc < MOST_INSTRUCTIONS }
    ensures { frames.new ≡ after_request effect frames.old }
{
    if effect == Effect::Continues {
        frames.pop();
        frames.set_pc(frames.pc() + 1);
    }
}

/// Counts the step of a live thread that asked for something of another thread, and reports it.
pub(crate) fn answer(thread: &mut Thread, effect: Effect) -> Report
    requires live { is_live thread.old ≡ true }
    requires operand { (m : Frames) → thread.old.thread_status ≡ Live m → 0 < length m.running.stack }
    requires following { (m : Frames) → thread.old.thread_status ≡ Live m → m.running.pc < MOST_INSTRUCTIONS }
    ensures { (m : Frames) → thread.old.thread_status ≡ Live m → (thread.new, result) ≡ charge effect (record thread.old { thread_status = Live (after_request effect m) }) }
{
    let ThreadStatus::Live(frames) = &mut thread.thread_status else {
        unreachable!()
    };
    take_operand(frames, effect);
    thread.charge_step(effect)
}

/// Takes the seat of a thread whose step, of this report, was its last. Otherwise all stays.
#[inline(always)]
pub(crate) fn leave_if_ended(posts: &mut Posts, number: u8, report: Report)
    ensures { posts.new ≡ seats_after posts.old number report }
{
    if let Report::Ended(_) = report {
        posts.leave(number);
    }
}

/// Gives a thread its starter's seat, where the start was done. Otherwise all stays.
pub(crate) fn seat_started(posts: &mut Posts, effect: Effect, thread: usize, starter: u8)
    ensures { posts.new ≡ seat_thread effect posts.old thread starter }
{
    if effect == Effect::Continues {
        posts.join(thread, starter);
    }
}
