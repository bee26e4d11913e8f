//! What threads wait for.

ghost use Rattle.std.specs.Prelude.{◌≡◌, ◌≢◌, ◌<◌, ◌≤◌, Some, IsSome, length, option_map, true};
ghost use Rattle.cil_model.specs.declared.limits.TheConstants.{MOST_THREADS};
ghost use Rattle.resolved_code.specs.declared.operations.Operation.{Operation as AnyOperation};
ghost use Rattle.object_memory.specs.Cells.{null};
ghost use Rattle.object_memory.specs.Objects.{monitor_at, object_slots};
ghost use Rattle.simulation.specs.loaded_program.LocalKinds.{action_named};
ghost use Rattle.simulation.specs.interpreter.Calls.{class_at, top_reference};
ghost use Rattle.simulation.specs.interpreter.Instructions.{IsAt, line_at};
ghost use Rattle.interleaving_core.specs.Views.{machine_state_of};
ghost use Rattle.interleaving_core.specs.Waits.{HasObject, action_at, called_member, join_wait, monitor_wait, wait_in};

use crate::engine::Engine;
use name_tables::ids::MethodId;
use object_memory::{Addr, Heap, Monitor, Value};
use resolved_code::operations::Operation;
use simulation::interpreter_code::calls::class_id;
use simulation::interpreter_code::fetch::operation_at;
use simulation::interpreter_code::loaded_code::{Action, LoadedProgram};
use threads_monitors::{FrameMemory, Thread, is_live, thread_on};

/// What a live thread waits for whose next step is blocked.
#[derive(Clone, Copy)]
pub enum Wait {
    /// For a monitor that another thread holds (ECMA-335 I.12.6.5).
    Monitor {
        /// The number of the class of the monitor's object among all classes, the built-in ones first. None of an array.
        class: Option<usize>,
        /// The number of the thread that holds it, which may have ended.
        owner: u8,
    },
    /// For the end of a live thread, which may be the waiting one itself (`Cilvm.Thread.Join`, this profile).
    Join {
        /// The number of that thread.
        thread: u8,
    },
}

/// The method that an instruction calls. None of an instruction that is no call.
fn called_member(operation: &Operation) -> Option<MethodId>
    ensures { result ≡ called_member operation.now }
{
    match operation {
        Operation::Call { method, .. } | Operation::CallVirtual { method, .. } => Some(*method),
        _ => None,
    }
}

/// The built-in member that the running frame is about to call, by what it does. None where its next instruction calls no such member.
pub(crate) fn action_at(program: &LoadedProgram, frames: &FrameMemory) -> Option<Action>
    requires pc { IsSome (line_at program.now frames.now) }
    ensures action { option_map action_named result ≡ action_at program.now frames.now }
    ensures at { (operation : AnyOperation) × IsAt program.now frames.now operation }
{
    let operation = operation_at(program, frames);
    let method = called_member(operation)?;
    program.method(program.number(method)).action
}

/// The topmost value of the running frame's stack, where it is a reference. None where there is none.
pub(crate) fn top_reference(frames: &FrameMemory) -> Option<Addr>
    ensures { result ≡ top_reference frames.now.running.stack }
{
    if frames.stack_height() == 0 {
        return None;
    }
    match frames.operand(0) {
        Value::Ref(address) => Some(address),
        _ => None,
    }
}

/// The number of an object's class. None of an array.
fn class_number(heap: &Heap, object: Addr) -> Option<usize>
    requires { IsSome (class_at heap.now object) }
    ensures { class_at heap.now object ≡ Some result }
{
    match class_id(heap, object) {
        None => None,
        Some(class) => Some(class.number()),
    }
}

/// What a thread waits for that is about to enter the monitor of an object. None where the monitor is free or the thread's own, and of
/// null.
fn monitor_wait(heap: &Heap, thread: u8, object: Addr) -> Option<Wait>
    requires { object ≢ null → IsSome (monitor_at heap.now object) }
    ensures { result ≡ monitor_wait heap.now thread object }
{
    if object.is_null() {
        return None;
    }
    match heap.monitor(object) {
        Monitor::Held { owner, .. } if owner != thread => Some(Wait::Monitor {
            class: class_number(heap, object),
            owner,
        }),
        _ => None,
    }
}

/// What a thread waits for that is about to wait for the end of the thread of an object. None where none was started on it or that has
/// ended, and of null.
fn join_wait(threads: &[Thread], heap: &Heap, object: Addr) -> Option<Wait>
    requires slot { object ≢ null → 0 < length (object_slots heap.now object) }
    requires few { length threads.now ≤ MOST_THREADS }
    ensures { result ≡ join_wait threads.now heap.now object }
{
    if object.is_null() {
        return None;
    }
    match thread_on(heap, object) {
        Some(number) if is_live(threads, number) => Some(Wait::Join {
            thread: number as u8,
        }),
        _ => None,
    }
}

/// What a live thread with these frames waits for.
pub(crate) fn wait_in(engine: &Engine, thread: u8, frames: &FrameMemory) -> Option<Wait>
    requires object { HasObject engine.now.program engine.now.store.heap frames.now }
    requires few { length engine.now.threads.items ≤ MOST_THREADS }
    ensures { result ≡ wait_in (machine_state_of engine.now) thread frames.now }
{
    let heap = &engine.store.heap;
    match action_at(&engine.program, frames)? {
        Action::Enter => monitor_wait(heap, thread, top_reference(frames)?),
        Action::Join => join_wait(&engine.threads, heap, top_reference(frames)?),
        _ => None,
    }
}
