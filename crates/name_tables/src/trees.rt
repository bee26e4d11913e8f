//! The methods and the instructions of a whole tree.

ghost use Rattle.std.specs.Prelude.{◌≡◌, ◌++◌, IfOk, map};
ghost use Rattle.cil_model.specs.Mentions.{instructions_of, methods_of_tree, instructions_of_tree};

use crate::bodies::lines_of;
use crate::classes::method_members;
use cil_model::instructions::Instruction;
use cil_model::memory::NoMemory;
use cil_model::trees::{Method, Tree};
use std::alloc::Global;

/// The methods of all classes, in source order. The only error is out of memory.
pub fn methods_of_tree(alloc: Global, tree: &Tree) -> Result<Vec<&Method>, NoMemory>
    ensures { IfOk result (λ v. map (λ m. m.now) v.items ≡ methods_of_tree tree.now) }
{
    let mut all = Vec::new(alloc);
    for class in tree.classes.as_slice() {
        let mut methods = method_members(alloc, class)?;
        all.append(&mut methods)?;
    }
    Ok(all)
}

fn add_instructions<'a>(
    instructions: &mut Vec<&'a Instruction>,
    method: &'a Method,
) -> Result<(), NoMemory>
    ensures { IfOk result (λ _. map (λ i. i.now) instructions.new.items ≡ map (λ i. i.now) instructions.old.items ++ instructions_of method.now) }
{
    for line in lines_of(method) {
        instructions.push(&line.instruction)?;
    }
    Ok(())
}

/// Every instruction of the tree, in source order. The only error is out of memory.
pub fn instructions_of_tree(alloc: Global, tree: &Tree) -> Result<Vec<&Instruction>, NoMemory>
    ensures { IfOk result (λ v. map (λ i. i.now) v.items ≡ instructions_of_tree tree.now) }
{
    let methods = methods_of_tree(alloc, tree)?;
    let mut instructions = Vec::new(alloc);
    for method in methods.as_slice() {
        add_instructions(&mut instructions, method)?;
    }
    Ok(instructions)
}
