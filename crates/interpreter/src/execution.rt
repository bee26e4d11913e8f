//! One linked instruction.

ghost use Rattle.std.specs.Prelude.{◌≡◌, IsSome, Some, IfOk, OnErr, true};
ghost use Rattle.interpreter.specs.Instructions.{is_printing, answer_of, linked_transition};
ghost use Rattle.interpreter.specs.Stores.{HoldSame};

use crate::calls::{create, run, run_virtual};
use crate::outcomes::InstructionOutcome;
use crate::stores::Store;
use cil_model::instructions::ElementKind;
use cil_model::memory::NoMemory;
use instructions::{arithmetic, arrays, branches, casts, control, fields, returns, stack, statics};
use loaded_program::{LinkedInstruction, LoadedProgram};
use object_memory::{Addr, Value, ValueKind};
use threads_monitors::{FrameMemory, Mutator};

/// Does a linked instruction of a thread (ECMA-335 III.3, III.4). `NoMemory` of a print alone, where nothing is changed; no other
/// instruction takes memory.
pub(crate) fn execute(
    program: &LoadedProgram,
    mutator: Mutator,
    instruction: &LinkedInstruction,
    frames: &mut FrameMemory,
    store: &mut Store,
) -> Result<InstructionOutcome, NoMemory>
    requires { IsSome (linked_transition program.now mutator instruction.now frames.old store.old.heap store.old.statics.items store.old.console.items) }
    ensures done { IfOk result (λ outcome. Some (answer_of frames.new store.new.heap store.new.statics.items store.new.console.items outcome) ≡ linked_transition program.now mutator instruction.now frames.old store.old.heap store.old.statics.items store.old.console.items) }
    ensures refused { OnErr result ((frames.new ≡ frames.old) × HoldSame store.old store.new) }
    ensures prints { OnErr result (is_printing store.old.console.items (linked_transition program.now mutator instruction.now frames.old store.old.heap store.old.statics.items store.old.console.items) ≡ true) }
{
    let effect = match instruction {
        LinkedInstruction::NoOperation => control::advance(frames),
        LinkedInstruction::LoadInt32(number) => control::push_and_advance(
            frames,
            Value::Int32(*number),
        ),
        LinkedInstruction::LoadInt64(number) => control::push_and_advance(
            frames,
            Value::Int64(*number),
        ),
        LinkedInstruction::LoadNull => control::push_and_advance(frames, Value::Ref(Addr::null())),
        LinkedInstruction::LoadString(literal) => control::push_and_advance(
            frames,
            Value::Ref(*literal),
        ),
        LinkedInstruction::LoadArgument(index) => stack::load_argument(frames, *index),
        LinkedInstruction::StoreArgument(index) => stack::store_argument(frames, *index),
        LinkedInstruction::LoadLocal(index) => stack::load_local(frames, *index),
        LinkedInstruction::StoreLocal(index) => stack::store_local(frames, *index),
        LinkedInstruction::Duplicate => stack::duplicate(frames),
        LinkedInstruction::Pop => stack::pop(frames),
        LinkedInstruction::Binary(operation) => arithmetic::binary(frames, *operation),
        LinkedInstruction::Unary(operation) => arithmetic::unary(frames, *operation),
        LinkedInstruction::Shift(operation) => arithmetic::shift(frames, *operation),
        LinkedInstruction::Compare(comparison) => arithmetic::compare(
            frames,
            &store.heap,
            mutator.phase,
            *comparison,
        ),
        LinkedInstruction::ConvertInt32 => arithmetic::convert_to_32(frames),
        LinkedInstruction::ConvertInt64 => arithmetic::convert_to_64(frames),
        LinkedInstruction::Branch(condition, pc) => branches::branch(
            frames,
            &store.heap,
            mutator.phase,
            *condition,
            *pc,
        ),
        LinkedInstruction::Switch(pcs) => branches::switch(frames, pcs.as_slice()),
        LinkedInstruction::LoadField { slot, kind } => fields::load_field(
            frames,
            &mut store.heap,
            *kind,
            *slot,
        ),
        LinkedInstruction::StoreField { slot } => fields::store_field(
            frames,
            &mut store.heap,
            mutator.phase,
            *slot,
        ),
        LinkedInstruction::LoadStaticField(number) => statics::load_static(
            frames,
            &store.statics,
            *number,
        ),
        LinkedInstruction::StoreStaticField(number) => statics::store_static(
            frames,
            &mut store.heap,
            mutator.phase,
            &mut store.statics,
            *number,
        ),
        LinkedInstruction::NewArray(element) => arrays::new_array(
            frames,
            &mut store.heap,
            mutator.phase,
            *element,
        ),
        LinkedInstruction::LoadLength => arrays::load_length(frames, &mut store.heap),
        LinkedInstruction::LoadElement(kind) => arrays::load_element(
            frames,
            &mut store.heap,
            ValueKind::of_elements(*kind),
        ),
        LinkedInstruction::StoreElement(ElementKind::Reference) => casts::store_reference(
            program.program(),
            program.layout(),
            frames,
            &mut store.heap,
            mutator.phase,
        ),
        LinkedInstruction::StoreElement(ElementKind::Int32 | ElementKind::Int64) => {
            arrays::store_element(frames, &mut store.heap, mutator.phase)
        }
        LinkedInstruction::CastClass(to) => casts::cast_class(
            program.program(),
            program.layout(),
            frames,
            &mut store.heap,
            *to,
        ),
        LinkedInstruction::IsInstance(to) => casts::is_instance(
            program.program(),
            program.layout(),
            frames,
            &mut store.heap,
            *to,
        ),
        LinkedInstruction::Call(number) => {
            return run(program, mutator, *number, frames, store);
        }
        LinkedInstruction::CallVirtual { method, operands } => {
            return run_virtual(program, mutator, *method, *operands, frames, store);
        }
        LinkedInstruction::NewObject {
            class,
            slots,
            method,
        } => create(
            program,
            mutator,
            *class,
            *slots,
            *method,
            frames,
            &mut store.heap,
        ),
        LinkedInstruction::Return { has_value } => returns::return_from(frames, *has_value),
    };
    Ok(InstructionOutcome::OwnEffect(effect))
}
