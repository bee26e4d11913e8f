//! What threads begin with.

ghost use Rattle.std.specs.Prelude.{◌≡◌, ◌≤◌, ◌<◌, ◌+◌, ◌*◌, ◌^◌, IsSome, Some, [], ◌∷◌, ℕ, List, true, length, slice_get};
ghost use Rattle.cil_model.specs.Ranges.{are_in_range};
ghost use Rattle.cil_model.specs.declared.types.ClassName.{ClassName};
ghost use Rattle.cil_model.specs.declared.trees.Method.{Method as NamedMethod};
ghost use Rattle.simulation.specs.loaded_program.AllMethods.{all_methods};
ghost use Rattle.simulation.specs.loaded_program.LocalKinds.{local_kinds};
ghost use Rattle.object_memory.specs.declared.values.Value.{Value as AnyValue};
ghost use Rattle.object_memory.specs.declared.values.Value.TheVariants.{Ref};
ghost use Rattle.simulation.specs.MachineStates.{frame_room};
ghost use Rattle.simulation.specs.Transitions.{run_member, thread_at, thread_for};
ghost use Rattle.simulation.specs.interpreter.Calls.{chosen_at};
ghost use Rattle.threads_monitors.specs.Threads.{new_thread};

use cil_model::limits::{Limits, MOST_ARGUMENTS, MOST_LOCALS, MOST_STACK};
use name_tables::ids::{MethodId, THREAD};
use object_memory::{Addr, Heap};
use simulation::interpreter_code::calls::class_id;
use simulation::interpreter_code::loaded_code::LoadedProgram;
use threads_monitors::ThreadStart;

/// How many values a frame may hold: arguments, locals, the stack, and a new object beneath the operands of its constructor.
pub(crate) const FRAME_ROOM: usize = MOST_ARGUMENTS + MOST_LOCALS + MOST_STACK as usize + 1;

/// `Cilvm.Thread`'s `Run`: its second method.
const RUN: MethodId = MethodId {
    class: THREAD,
    index: 1,
};

/// What a thread begins with that runs the method of a flat number first.
pub(crate) fn thread_start(program: &LoadedProgram, limits: Limits, method: u32) -> ThreadStart<'_>
    requires there { IsSome (slice_get (all_methods program.now) method) }
    requires limits { are_in_range limits ≡ true }
    ensures depth { 0 < result.depth }
    ensures limits { result.depth * result.room < 2 ^ 32 }
    ensures fits { 16 + length result.locals.now ≤ result.room }
    ensures method { result.method ≡ method }
    ensures begins { (found : ClassName × NamedMethod) → slice_get (all_methods program.now) method ≡ Some found → (arguments : List AnyValue) → new_thread result arguments ≡ thread_at limits found arguments method }
{
    // For the prover alone: it brings in that the program is legal.
    let _legal = program.program().tree();
    ThreadStart {
        method,
        locals: program.method(method).locals.as_slice(),
        depth: limits.depth as usize,
        room: FRAME_ROOM,
        budget: limits.budget,
    }
}

/// What a thread begins with that is started on an object: its `Run`.
pub(crate) fn thread_start_on<'a>(
    program: &'a LoadedProgram,
    limits: Limits,
    heap: &Heap,
    object: Addr,
) -> ThreadStart<'a>
    requires limits { are_in_range limits ≡ true }
    requires there { IsSome (thread_for program.now limits heap.now object) }
    ensures depth { 0 < result.depth }
    ensures limits { result.depth * result.room < 2 ^ 32 }
    ensures fits { 16 + length result.locals.now ≤ result.room }
    ensures begins { thread_for program.now limits heap.now object ≡ Some (new_thread result (Ref object ∷ [])) }
{
    // For the prover alone: it brings in that the program is legal.
    let _legal = program.program().tree();
    let class = class_id(heap, object);
    let method = program.target(program.number(RUN), class);
    thread_start(program, limits, method)
}
