//! The flat numbers of a program's methods.

ghost use Rattle.std.specs.Prelude.{◌≡◌, ◌+◌, ◌<◌, ◌^◌, IfOk, Some, length, map, slice_get};
ghost use Rattle.std.specs.List.{sum_by};
ghost use Rattle.cil_model.specs.declared.types.ClassName.{ClassName};
ghost use Rattle.cil_model.specs.declared.trees.Method.{Method};
ghost use Rattle.cil_model.specs.declared.trees.Tree.{Tree};
ghost use Rattle.name_tables.specs.Numbers.{method_at};
ghost use Rattle.loaded_program.specs.AllMethods.{flat_number};
ghost use Rattle.loaded_program.specs.ResolvedKinds.{running_counts};

use cil_model::memory::NoMemory;
use name_tables::ids::{ClassId, MethodId};
use resolved_code::Program;
use resolved_code::classes::ResolvedClass;
use std::alloc::Global;

/// The flat numbers of a program's methods: class by class, in the order of the classes' numbers, those of a class in their order.
/// Contracts say whose numbers they are by `AreMethodNumbers`.
#[derive(Drop)]
pub(crate) struct MethodNumbers {
    first: Vec<u32>,
}

/// The flat number that follows the given number of methods from one on.
fn number_after(first: u32, count: usize) -> u32
    requires { first + count < 2 ^ 32 }
    ensures { result ≡ first + count }
{
    first + count as u32
}

/// The flat number of each class's first method. The only error is out of memory.
fn first_numbers(alloc: Global, classes: &[ResolvedClass]) -> Result<Vec<u32>, NoMemory>
    requires { sum_by (λ r. length r.methods) classes.now < 2 ^ 32 }
    ensures { IfOk result (λ v. v.items ≡ running_counts 0 (map (λ r. length r.methods) classes.now)) }
{
    let mut first = Vec::with_capacity(alloc, classes.len())?;
    let mut next = 0;
    for class in classes {
        first.push(next)?;
        next = number_after(next, class.methods.as_slice().len());
    }
    Ok(first)
}

/// The flat number that comes the given number of methods after another.
fn number_from(first: u32, index: usize) -> u32
    ensures { first + index < 2 ^ 32 → result ≡ first + index }
{
    match u32::try_from(index) {
        Ok(index) => first.saturating_add(index),
        Err(_) => u32::MAX,
    }
}

fn first_at(first: &[u32], class: ClassId) -> Option<u32>
    ensures { result ≡ slice_get first.now class }
{
    first.get(class.number()).copied()
}

impl MethodNumbers {
    ghost use Rattle.loaded_program.specs.LoadedPrograms.{AreMethodNumbers};

    /// The numbers of a program's methods. The only error is out of memory.
    pub fn new(alloc: Global, program: &Program) -> Result<Self, NoMemory>
        ensures { IfOk result (AreMethodNumbers program.now) }
    {
        // For the prover alone: the tree is legal, so it has fewer methods than there are flat numbers.
        let _legal = program.tree();
        Ok(MethodNumbers {
            first: first_numbers(alloc, program.classes())?,
        })
    }

    /// The flat number of a method, by its class and its index in it. Where there is no such method, any number. Takes constant time, and
    /// no memory.
    pub fn number(&self, member: MethodId) -> u32
        ensures { (tree : Tree) → AreMethodNumbers tree self.now → (found : ClassName × Method) → method_at tree (member.class, member.index) ≡ Some found → result ≡ flat_number tree member.class member.index }
    {
        match first_at(self.first.as_slice(), member.class) {
            None => u32::MAX,
            Some(first) => number_from(first, member.index),
        }
    }
}
