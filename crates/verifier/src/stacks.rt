//! The stack after an instruction, from the entries before it.

ghost use Rattle.std.specs.Prelude.{◌≡◌, IfOk, IfErr, OnOk, ◌++◌, ◌∷◌, [], List};
ghost use Rattle.cil_model.specs.declared.trees.Line.{Line};
ghost use Rattle.cil_model.specs.declared.instructions.Instruction.{Instruction};
ghost use Rattle.resolved_code.specs.ResolvedPrograms.{IsOperation};
ghost use Rattle.flow_rules.specs.Flow.{flow_of};
ghost use Rattle.verifier.specs.Answers.{IsResult};
ghost use Rattle.flow_rules.specs.declared.mismatches.FlowError.TheVariants.{OutOfMemory};

use crate::kept_stacks::KeptStack;
use cil_model::sequences::Sequence;
use flow_rules::entries::StackEntry;
use flow_rules::flow::flow;
use flow_rules::method_types::MethodTypes;
use flow_rules::mismatches::FlowError;
use flow_rules::type_stack::TypeStack;
use resolved_code::operations::Operation;
use std::alloc::Global;

/// A stack that is kept, to work on. The only error is out of memory.
fn stack_of(kept: &KeptStack, alloc: Global) -> Result<TypeStack, FlowError>
    ensures stack { IfOk result (λ stack. stack ≡ kept.now) }
    ensures err { IfErr result (λ e. e ≡ OutOfMemory) }
{
    let mut stack = TypeStack::new(alloc);
    for pc in (0..kept.len()).rev() {
        stack.push(kept.entry(pc))?;
    }
    Ok(stack)
}

/// Appends an entry. The only error is out of memory.
fn append(entry: StackEntry, entries: &mut Vec<StackEntry>) -> Result<(), FlowError>
    ensures appended { OnOk result (entries.new.items ≡ entries.old.items ++ entry ∷ []) }
    ensures err { IfErr result (λ e. e ≡ OutOfMemory) }
{
    match entries.push(entry) {
        Ok(()) => Ok(()),
        Err(_) => Err(FlowError::OutOfMemory),
    }
}

/// The entries of a stack, the top first. The only error is out of memory.
fn entries_of(mut stack: TypeStack, alloc: Global) -> Result<Sequence<StackEntry>, FlowError>
    ensures entries { IfOk result (λ entries. entries ≡ stack) }
    ensures err { IfErr result (λ e. e ≡ OutOfMemory) }
{
    let mut entries = Vec::new(alloc);
    while let Some(top) = stack.take() {
        append(top, &mut entries)?;
    }
    Ok(Sequence::new(entries))
}

/// The entries of a stack that is kept, the top first. The only error is out of memory.
pub(crate) fn copy_of(kept: &KeptStack, alloc: Global) -> Result<Sequence<StackEntry>, FlowError>
    ensures { IfOk result (λ copy. copy ≡ kept.now) }
{
    let stack = stack_of(kept, alloc)?;
    entries_of(stack, alloc)
}

/// The stack after the instruction that an operation represents, by the flow rule (ECMA-335 III.1.8), both with the top first. At a
/// mismatch the rule has no result.
pub fn stack_after(
    method: &MethodTypes,
    operation: &Operation,
    before: &KeptStack,
    alloc: Global,
) -> Result<Sequence<StackEntry>, FlowError>
    ensures { (lines : List Line) (i : Instruction) → IsOperation method.now.types.now lines i operation.now → IsResult method.now.types.now result (flow_of method.now i before.now) }
{
    let mut stack = stack_of(before, alloc)?;
    flow(method, operation, &mut stack)?;
    entries_of(stack, alloc)
}
