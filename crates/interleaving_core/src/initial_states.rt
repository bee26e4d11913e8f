//! What a machine holds before its first event.

ghost use Rattle.std.specs.Prelude.{◌≡◌, ◌++◌, [], Some, IfOk, OnErr, OnOk, true, length, map, filter, replicate};
ghost use Rattle.std.specs.List.{flat_map};
ghost use Rattle.cil_model.specs.Ranges.{are_in_range};
ghost use Rattle.cil_model.specs.Typings.{IsAccepted};
ghost use Rattle.cil_model.specs.Fields.{static_fields};
ghost use Rattle.cil_model.specs.Mentions.{literals_of};
ghost use Rattle.object_memory.specs.Objects.{no_objects};
ghost use Rattle.simulation.specs.Transitions.{initial_machine_state};
ghost use Rattle.interleaving_core.specs.Views.{machine_state_of};
ghost use Rattle.interleaving_core.specs.InitialStates.{initial_machine_state_of};
ghost use Rattle.interleaving_core.specs.Statics.{declared_fields, zeros_of};

use crate::engine::Engine;
use crate::thread_starts::thread_start;
use cil_model::limits::{Limits, MOST_WORDS};
use cil_model::memory::NoMemory;
use cil_model::trees::{Class, ClassKind, Field};
use name_tables::classes::field_members;
use object_memory::{Heap, Value};
use phase_handshake::Posts;
use simulation::collector_code::Progress;
use simulation::interpreter_code::loaded_code::LoadedProgram;
use simulation::interpreter_code::stores::Store;
use space_block::Block;
use std::alloc::Global;
use threads_monitors::{Thread, zero_value};
use verifier::Verified;

/// Appends what the static fields among these hold at first.
fn push_zeros(statics: &mut Vec<Value>, fields: &[&Field]) -> Result<(), NoMemory>
    ensures { OnOk result (statics.new.items ≡ statics.old.items ++ zeros_of (map (λ f. f.now) fields.now)) }
{
    for field in fields {
        if field.is_static {
            statics.push(zero_value(field.field_type.kind()))?;
        }
    }
    Ok(())
}

/// Appends what the static fields of a class hold at first. An interface has none, whatever its text lists.
fn push_statics(alloc: Global, statics: &mut Vec<Value>, class: &Class) -> Result<(), NoMemory>
    ensures { OnOk result (statics.new.items ≡ statics.old.items ++ zeros_of (declared_fields class.now)) }
{
    match &class.kind {
        ClassKind::Interface => Ok(()),
        ClassKind::Class { .. } => push_zeros(statics, field_members(alloc, class)?.as_slice()),
    }
}

/// What all static fields hold at first, class by class, in source order.
fn initial_statics(alloc: Global, classes: &[Class]) -> Result<Vec<Value>, NoMemory>
    ensures { IfOk result (λ v. v.items ≡ flat_map (λ class. zeros_of (declared_fields class)) classes.now) }
{
    let mut statics = Vec::new(alloc);
    for class in classes {
        push_statics(alloc, &mut statics, class)?;
    }
    Ok(statics)
}

/// A heap without objects, beside the given number of literals.
fn initial_heap(alloc: Global, words: u32, literals: usize) -> Result<Heap, NoMemory>
    ensures { IfOk result (λ h. h ≡ no_objects words literals) }
{
    let Ok(literals) = u32::try_from(literals) else {
        return Err(NoMemory);
    };
    if words > MOST_WORDS {
        return Err(NoMemory);
    }
    let block = Block::new(alloc, words as usize)?;
    Heap::new(alloc, block, literals)
}

/// Takes a heap back to one without objects, in a block of `words` words, beside `literals` literals. `NoMemory` if it needs a new block and there is no memory for it; nothing is
/// changed then.
pub(crate) fn reset_heap(
    heap: &mut Heap,
    alloc: Global,
    words: u32,
    literals: usize,
) -> Result<(), NoMemory>
    ensures done { OnOk result (heap.new ≡ no_objects words literals) }
    ensures refused { OnErr result (heap.new ≡ heap.old) }
{
    if !heap.reset(words as usize, literals) {
        *heap = initial_heap(alloc, words, literals)?;
    }
    Ok(())
}

/// The first thread of a program, which is at its entry point, and the initial values of all static fields, within limits that are in range.
pub(crate) fn initial_parts(
    alloc: Global,
    program: &LoadedProgram,
    limits: Limits,
) -> Result<(Vec<Thread>, Vec<Value>), NoMemory>
    requires limits { are_in_range limits ≡ true }
    ensures alone { IfOk result (λ x. length x.0.items ≡ 1) }
    ensures initial_state { IfOk result (λ x. initial_machine_state program.now limits ≡ Some (initial_machine_state_of program.now limits x.0.items (no_objects limits.words (length (literals_of program.now))) x.1.items [])) }
{
    let statics = initial_statics(alloc, program.program().tree().classes.as_slice())?;
    let entry = program.number(program.program().entry_point());
    let first = Thread::new(alloc, thread_start(program, limits, entry), &[])?;
    let mut threads = Vec::new(alloc);
    threads.push(first)?;
    Ok((threads, statics))
}

/// A machine before its first event, within limits that are in range. Its thread is at the entry point.
pub(crate) fn open_engine(
    alloc: Global,
    program: Verified,
    limits: Limits,
) -> Result<Engine, NoMemory>
    requires limits { are_in_range limits ≡ true }
    ensures program { IfOk result (λ e. (e.program ≡ program) × (e.limits ≡ limits)) }
    ensures accepted { IfOk result (λ _. IsAccepted program) }
    ensures alone { IfOk result (λ e. length e.threads.items ≡ 1) }
    ensures initial_state { IfOk result (λ e. initial_machine_state program limits ≡ Some (machine_state_of e)) }
{
    let (program, layout) = program.into_parts();
    let program = LoadedProgram::new(alloc, program, layout)?;
    let (threads, statics) = initial_parts(alloc, &program, limits)?;
    let heap = initial_heap(alloc, limits.words, program.program().literals().len())?;
    Ok(Engine {
        program,
        limits,
        threads,
        posts: Posts::new(),
        progress: Progress::none(),
        store: Store {
            heap,
            statics,
            console: Vec::new(alloc),
        },
        spare: None,
    })
}
