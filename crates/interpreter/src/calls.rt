//! Calls and `newobj`.

ghost use Rattle.std.specs.Prelude.{◌≡◌, IsSome, Some, IfOk, OnErr, true};
ghost use Rattle.loaded_program.specs.LocalKinds.{action_named};
ghost use Rattle.interpreter.specs.Calls.{act_transition, call_answer, call_by_id, class_at, made_by_id, grows_console, receiver, top_reference, virtual_by_id};
ghost use Rattle.interpreter.specs.Stores.{HoldSame};

use crate::outcomes::InstructionOutcome;
use crate::stores::Store;
use cil_model::memory::NoMemory;
use cil_model::reports::Fault;
use instructions::births::{new_object, new_plain_object};
use instructions::calls::call;
use instructions::{Callee, locks, printing, stack};
use loaded_program::{Action, LoadedProgram};
use name_tables::ids::{ClassId, STRING};
use object_memory::{Addr, Heap, Kind, Value};
use threads_monitors::{Effect, FrameMemory, Mutator};

/// The reference on top of the running frame's stack. It stays there.
fn top_reference(frames: &FrameMemory) -> Addr
    requires { IsSome (top_reference frames.now.running.stack) }
    ensures { top_reference frames.now.running.stack ≡ Some result }
{
    match frames.operand(0) {
        Value::Ref(address) => address,
        _ => unreachable!(),
    }
}

/// What a built-in member without code does (ECMA-335 Partition IV). `NoMemory` of a print alone, where nothing is changed.
fn act(
    program: &LoadedProgram,
    mutator: Mutator,
    action: Action,
    frames: &mut FrameMemory,
    store: &mut Store,
) -> Result<InstructionOutcome, NoMemory>
    requires { IsSome (act_transition program.now mutator (action_named action) frames.old store.old.heap store.old.console.items) }
    ensures done { IfOk result (λ outcome. Some (call_answer frames.new store.new.heap store.new.console.items outcome) ≡ act_transition program.now mutator (action_named action) frames.old store.old.heap store.old.console.items) }
    ensures statics { store.new.statics.items ≡ store.old.statics.items }
    ensures refused { OnErr result ((frames.new ≡ frames.old) × HoldSame store.old store.new) }
    ensures prints { OnErr result (grows_console store.old.console.items (act_transition program.now mutator (action_named action) frames.old store.old.heap store.old.console.items) ≡ true) }
{
    match action {
        Action::Construct => Ok(InstructionOutcome::OwnEffect(stack::pop(frames))),
        Action::Write => Ok(InstructionOutcome::OwnEffect(printing::write(
            frames,
            &mut store.console,
            program.program().literals(),
        )?)),
        Action::Enter => Ok(InstructionOutcome::OwnEffect(locks::enter(
            frames,
            &mut store.heap,
            mutator,
        ))),
        Action::Exit => Ok(InstructionOutcome::OwnEffect(locks::exit(
            frames,
            &mut store.heap,
            mutator,
        ))),
        Action::Start => Ok(InstructionOutcome::Starts(top_reference(frames))),
        Action::Join => Ok(InstructionOutcome::Joins(top_reference(frames))),
    }
}

/// Calls the method of a flat number (ECMA-335 III.3.19): a built-in member without code does its action, another gets a frame.
/// `NoMemory` of a print alone, where nothing is changed.
#[inline(always)]
pub(crate) fn run(
    program: &LoadedProgram,
    mutator: Mutator,
    number: u32,
    frames: &mut FrameMemory,
    store: &mut Store,
) -> Result<InstructionOutcome, NoMemory>
    requires { IsSome (call_by_id program.now mutator number frames.old store.old.heap store.old.console.items) }
    ensures done { IfOk result (λ outcome. Some (call_answer frames.new store.new.heap store.new.console.items outcome) ≡ call_by_id program.now mutator number frames.old store.old.heap store.old.console.items) }
    ensures statics { store.new.statics.items ≡ store.old.statics.items }
    ensures refused { OnErr result ((frames.new ≡ frames.old) × HoldSame store.old store.new) }
    ensures prints { OnErr result (grows_console store.old.console.items (call_by_id program.now mutator number frames.old store.old.heap store.old.console.items) ≡ true) }
{
    let loaded = program.method(number);
    match loaded.action {
        Some(action) => act(program, mutator, action, frames, store),
        None => {
            let callee = Callee {
                method: number,
                arguments: loaded.arguments,
                locals: loaded.locals.as_slice(),
            };
            Ok(InstructionOutcome::OwnEffect(call(frames, callee)))
        }
    }
}

/// The object on which a method with the given number of operands is called, `this` counted. It stays on the stack.
fn receiver(frames: &FrameMemory, operands: usize) -> Addr
    requires { IsSome (receiver frames.now.running.stack operands) }
    ensures { receiver frames.now.running.stack operands ≡ Some result }
{
    match frames.operand(operands - 1) {
        Value::Ref(address) => address,
        _ => unreachable!(),
    }
}

/// An object's class. None for an array.
pub fn class_id(heap: &Heap, object: Addr) -> Option<ClassId>
    requires { IsSome (class_at heap.now object) }
    ensures { class_at heap.now object ≡ Some result }
{
    match object.literal_number() {
        Some(_) => Some(STRING),
        None => match heap.kind(object) {
            Kind::Instance(class) => Some(ClassId::new(usize::from(class))),
            Kind::Array(_) => None,
        },
    }
}

/// Calls the method that an object has for the one of a flat number, which takes the given number of operands (ECMA-335 III.4.2). Null raises
/// `NullReference`. `NoMemory` of a print alone, where nothing is changed.
pub(crate) fn run_virtual(
    program: &LoadedProgram,
    mutator: Mutator,
    number: u32,
    operands: usize,
    frames: &mut FrameMemory,
    store: &mut Store,
) -> Result<InstructionOutcome, NoMemory>
    requires { IsSome (virtual_by_id program.now mutator number operands frames.old store.old.heap store.old.console.items) }
    ensures done { IfOk result (λ outcome. Some (call_answer frames.new store.new.heap store.new.console.items outcome) ≡ virtual_by_id program.now mutator number operands frames.old store.old.heap store.old.console.items) }
    ensures statics { store.new.statics.items ≡ store.old.statics.items }
    ensures refused { OnErr result ((frames.new ≡ frames.old) × HoldSame store.old store.new) }
    ensures prints { OnErr result (grows_console store.old.console.items (virtual_by_id program.now mutator number operands frames.old store.old.heap store.old.console.items) ≡ true) }
{
    let object = receiver(frames, operands);
    if object.is_null() {
        return Ok(InstructionOutcome::OwnEffect(Effect::Raises(Fault::NullReference)));
    }
    let target = program.target(number, class_id(&store.heap, object));
    run(program, mutator, target, frames, store)
}

/// `newobj` (ECMA-335 III.4.21) of a class, by its number and how many slots its objects have, with the constructor of a flat number.
pub(crate) fn create(
    program: &LoadedProgram,
    mutator: Mutator,
    class: u16,
    slots: u32,
    number: u32,
    frames: &mut FrameMemory,
    heap: &mut Heap,
) -> Effect
    requires { IsSome (made_by_id program.now mutator class slots number frames.old heap.old) }
    ensures { Some (frames.new, heap.new, result) ≡ made_by_id program.now mutator class slots number frames.old heap.old }
{
    let loaded = program.method(number);
    match loaded.action {
        Some(_) => new_plain_object(frames, heap, mutator.phase, class, slots),
        None => {
            let callee = Callee {
                method: number,
                arguments: loaded.arguments,
                locals: loaded.locals.as_slice(),
            };
            new_object(frames, heap, mutator.phase, class, slots, callee)
        }
    }
}
