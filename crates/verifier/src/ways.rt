//! Where control continues after an instruction (ECMA-335 III.1.7.2).

ghost use Rattle.std.specs.Prelude.{◌≡◌, ◌+◌, ◌++◌, ◌∷◌, [], IfOk, OnOk};
ghost use Rattle.verifier.specs.Ways.{targets, falls, ways_on};

use cil_model::instructions::BranchCondition;
use cil_model::memory::NoMemory;
use resolved_code::operations::Operation;
use std::alloc::Global;

/// Whether control may advance to the next instruction.
fn falls(operation: &Operation) -> bool
    ensures { result ≡ falls operation.now }
{
    !matches!(
        operation,
        Operation::Branch(BranchCondition::Always, _) | Operation::Return
    )
}

/// Appends the pcs that an operation names.
fn add_targets(operation: &Operation, ways: &mut Vec<usize>) -> Result<(), NoMemory>
    ensures { OnOk result (ways.new.items ≡ ways.old.items ++ targets operation.now) }
{
    match operation {
        Operation::Branch(_, pc) => ways.push(*pc)?,
        Operation::Switch(pcs) => ways.extend_from_slice(pcs.as_slice())?,
        _ => {}
    }
    Ok(())
}

/// The pcs at which control may continue after an operation, the next one last.
pub fn ways_on(operation: &Operation, next: usize, alloc: Global) -> Result<Vec<usize>, NoMemory>
    ensures { IfOk result (λ ways. ways.items ≡ ways_on operation.now next) }
{
    let mut ways = Vec::new(alloc);
    add_targets(operation, &mut ways)?;
    if falls(operation) {
        ways.push(next)?;
    }
    Ok(ways)
}
