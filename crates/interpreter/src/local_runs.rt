//! Local instructions of a frame, one after another.

ghost use Rattle.std.specs.Prelude.{◌≡◌, ◌⊎◌, ◌<◌, ◌≤◌, ℕ, List, IsSome, Some, length, slice_get, true, false};
ghost use Rattle.cil_model.specs.declared.trees.Tree.{Tree};
ghost use Rattle.loaded_program.specs.LoadedPrograms.{IsCode, IsLinkedAt, line_in};
ghost use Rattle.threads_monitors.specs.Frames.{Frame, with_running};
ghost use Rattle.threads_monitors.specs.declared.effects.Effect.TheVariants.{Continues};
ghost use Rattle.instructions.specs.LocalTransitions.{IsFaulty, is_local_branch, is_ordered, is_ordered_branch};
ghost use Rattle.interpreter.specs.Local.{AreLocalSteps, EndsLocal, IsNextLocal, IsReadySomewhere, is_local_link, local_link_transition};

use cil_model::instructions::{BranchComparison, BranchCondition, Comparison};
use instructions::{arithmetic, branches, control, stack};
use loaded_program::{LinkedInstruction, LoadedProgram};
use object_memory::{Addr, Value};
use threads_monitors::{Effect, FrameMemory};

/// Whether integers alone have the comparison.
fn is_ordered(comparison: Comparison) -> bool
    ensures { result ≡ is_ordered comparison }
{
    match comparison {
        Comparison::Equal => false,
        Comparison::Greater | Comparison::Less => true,
    }
}

/// Whether integers alone have the comparison of a branch.
fn is_ordered_branch(comparison: BranchComparison) -> bool
    ensures { result ≡ is_ordered_branch comparison }
{
    match comparison {
        BranchComparison::Equal | BranchComparison::NotEqual => false,
        BranchComparison::GreaterOrEqual
        | BranchComparison::Greater
        | BranchComparison::LessOrEqual
        | BranchComparison::Less => true,
    }
}

/// Whether a branch compares no references.
fn is_local_branch(condition: BranchCondition) -> bool
    ensures { result ≡ is_local_branch condition }
{
    match condition {
        BranchCondition::Compare(comparison) => is_ordered_branch(comparison),
        BranchCondition::Always | BranchCondition::IfTrue | BranchCondition::IfFalse => true,
    }
}

/// Whether an instruction needs nothing but the frame that runs.
fn is_local(instruction: &LinkedInstruction) -> bool
    ensures { result ≡ is_local_link instruction.now }
{
    match instruction {
        LinkedInstruction::NoOperation
        | LinkedInstruction::LoadInt32(_)
        | LinkedInstruction::LoadInt64(_)
        | LinkedInstruction::LoadNull
        | LinkedInstruction::LoadArgument(_)
        | LinkedInstruction::StoreArgument(_)
        | LinkedInstruction::LoadLocal(_)
        | LinkedInstruction::StoreLocal(_)
        | LinkedInstruction::Duplicate
        | LinkedInstruction::Pop
        | LinkedInstruction::Binary(_)
        | LinkedInstruction::Unary(_)
        | LinkedInstruction::Shift(_)
        | LinkedInstruction::ConvertInt32
        | LinkedInstruction::ConvertInt64
        | LinkedInstruction::Switch(_) => true,
        LinkedInstruction::Compare(comparison) => is_ordered(*comparison),
        LinkedInstruction::Branch(condition, _) => is_local_branch(*condition),
        _ => false,
    }
}

/// Does a local instruction.
fn execute_local(instruction: &LinkedInstruction, frames: &mut FrameMemory) -> Effect
    requires local { is_local_link instruction.now ≡ true }
    requires there { IsSome (local_link_transition instruction.now frames.old) }
    ensures { Some (frames.new, result) ≡ local_link_transition instruction.now frames.old }
{
    match instruction {
        LinkedInstruction::NoOperation => control::advance(frames),
        LinkedInstruction::LoadInt32(number) => control::push_and_advance(
            frames,
            Value::Int32(*number),
        ),
        LinkedInstruction::LoadInt64(number) => control::push_and_advance(
            frames,
            Value::Int64(*number),
        ),
        LinkedInstruction::LoadNull => control::push_and_advance(frames, Value::Ref(Addr::null())),
        LinkedInstruction::LoadArgument(index) => stack::load_argument(frames, *index),
        LinkedInstruction::StoreArgument(index) => stack::store_argument(frames, *index),
        LinkedInstruction::LoadLocal(index) => stack::load_local(frames, *index),
        LinkedInstruction::StoreLocal(index) => stack::store_local(frames, *index),
        LinkedInstruction::Duplicate => stack::duplicate(frames),
        LinkedInstruction::Pop => stack::pop(frames),
        LinkedInstruction::Binary(operation) => arithmetic::binary(frames, *operation),
        LinkedInstruction::Unary(operation) => arithmetic::unary(frames, *operation),
        LinkedInstruction::Shift(operation) => arithmetic::shift(frames, *operation),
        LinkedInstruction::Compare(comparison) => {
            arithmetic::compare_integers(frames, *comparison)
        }
        LinkedInstruction::ConvertInt32 => arithmetic::convert_to_32(frames),
        LinkedInstruction::ConvertInt64 => arithmetic::convert_to_64(frames),
        LinkedInstruction::Branch(condition, pc) => branches::local_branch(frames, *condition, *pc),
        LinkedInstruction::Switch(pcs) => branches::switch(frames, pcs.as_slice()),
        _ => unreachable!(),
    }
}

/// Does an instruction where it is local and raises no fault, and returns true. Otherwise it returns false and nothing changes.
#[inline(always)]
fn do_local(instruction: &LinkedInstruction, frames: &mut FrameMemory) -> bool
    requires { is_local_link instruction.now ≡ true → IsSome (local_link_transition instruction.now frames.old) }
    ensures done { result ≡ true → (is_local_link instruction.now ≡ true) × (local_link_transition instruction.now frames.old ≡ Some (frames.new, Continues)) }
    ensures stays { result ≡ false → (frames.new ≡ frames.old) × ((is_local_link instruction.now ≡ false) ⊎ ((is_local_link instruction.now ≡ true) × IsFaulty (local_link_transition instruction.now frames.old))) }
{
    if !is_local(instruction) {
        return false;
    }
    if let LinkedInstruction::Binary(operation) = instruction {
        return arithmetic::binary_unless_faulty(frames, *operation);
    }
    execute_local(instruction, frames);
    true
}

/// The instruction at a pc of a method's code.
fn line_of(code: &[LinkedInstruction], pc: u32) -> &LinkedInstruction
    requires { (tree : Tree) × (method : ℕ) × IsCode tree method code.now × IsSome (line_in tree method pc) }
    ensures { (tree : Tree) (method : ℕ) → IsCode tree method code.now → IsSome (line_in tree method pc) → IsLinkedAt tree method pc result.now }
{
    &code[pc as usize]
}

/// Whether the next instruction of the frame that runs is a local one.
pub fn is_next_local(program: &LoadedProgram, frames: &FrameMemory) -> bool
    requires { IsReadySomewhere program.now frames.now.room frames.now.running }
    ensures { IsNextLocal program.now frames.now.room frames.now.running result }
{
    is_local(program.instruction(frames.method(), frames.pc()))
}

/// Does local instructions of the frame that runs, at most the given number, and returns how many it did. It stops before one that is not local or
/// that would raise a fault. The frames below stay. It takes no memory, and reads nothing but the program and the frame that runs.
pub fn run_local(program: &LoadedProgram, frames: &mut FrameMemory, most: u32) -> u32
    requires ready { (k : ℕ) (f : Frame) → k < most → AreLocalSteps program.now frames.old.room k frames.old.running f → IsReadySomewhere program.now frames.old.room f }
    ensures ran { AreLocalSteps program.now frames.old.room result frames.old.running frames.new.running }
    ensures below { frames.new ≡ with_running frames.old frames.new.running }
    ensures most { result ≤ most }
    ensures ends { result < most → EndsLocal program.now frames.old.room frames.new.running }
{
    if most == 0 {
        return 0;
    }
    let code = program.code(frames.method());
    for count in 0..most {
        if !do_local(line_of(code, frames.pc()), frames) {
            return count;
        }
    }
    most
}
