//! The classes of a program by their ids, with their chains of bases (ECMA-335 I.8.9.9).

ghost use Rattle.std.specs.Prelude.{◌≡◌, [], IfOk, Some, length, map, slice_get, unwrap_or};
ghost use Rattle.cil_model.specs.declared.trees.Tree.{Tree};
ghost use Rattle.cil_model.specs.Chains.{longest_chain};
ghost use Rattle.cil_model.specs.Legality.{IsLegal};
ghost use Rattle.name_tables.specs.Numbers.{chain_numbers, declarations};
ghost use Rattle.resolved_code.specs.ResolvedPrograms.{AreResolved};
ghost use Rattle.class_layout.specs.ByClass.{by_class, base_at, chain_by, interface_numbers};
ghost use Rattle.class_layout.specs.Targets.{chain_at};

use crate::rows::row_at;
use cil_model::memory::NoMemory;
use cil_model::trees::Tree;
use name_tables::ids::ClassId;
use resolved_code::Program;
use resolved_code::classes::ResolvedClass;
use std::alloc::Global;

/// The classes of a program, each with its chain: itself, its base, and so on.
#[derive(Drop)]
pub struct Classes<'p> {
    pub program: &'p Program,
    pub all: &'p [ResolvedClass],
    chains: Vec<Vec<ClassId>>,
    ghost legal: { IsLegal program.now },
    ghost counted: { length all.now ≡ length (declarations program.now) },
    ghost listed_are: { map (λ r. r.interfaces) all.now ≡ by_class program.now (interface_numbers program.now) },
    ghost chains_are: { map (λ chain. chain.items) chains.items ≡ by_class program.now (chain_numbers program.now) },
}

/// No chain of a legal program has more classes: those of the source, and three built-in ones.
fn longest_chain(tree: &Tree) -> usize
    ensures { result ≡ longest_chain tree.now }
{
    tree.classes.as_slice().len() + 3
}

/// The base of a class.
fn base_at(classes: &[ResolvedClass], class: ClassId) -> Option<ClassId>
    ensures { result ≡ base_at (map (λ r. r.base) classes.now) class }
{
    match classes.get(class.number()) {
        None => None,
        Some(resolved) => resolved.base,
    }
}

/// A class's chain, the class itself first, up to `longest` classes.
fn chain(
    alloc: Global,
    classes: &[ResolvedClass],
    longest: usize,
    class: ClassId,
) -> Result<Vec<ClassId>, NoMemory>
    ensures { IfOk result (λ v. v.items ≡ chain_by (map (λ r. r.base) classes.now) longest (Some class)) }
{
    let mut chain = Vec::new(alloc);
    let mut next = Some(class);
    let mut left = longest;
    while left > 0 {
        let Some(here) = next else {
            return Ok(chain);
        };
        chain.push(here)?;
        next = base_at(classes, here);
        left -= 1;
    }
    Ok(chain)
}

/// The chain of each class.
fn chains(
    alloc: Global,
    classes: &[ResolvedClass],
    longest: usize,
) -> Result<Vec<Vec<ClassId>>, NoMemory>
    ensures { IfOk result (λ v. (tree : Tree) → IsLegal tree → AreResolved tree classes.now → longest ≡ longest_chain tree → map (λ chain. chain.items) v.items ≡ by_class tree (chain_numbers tree)) }
{
    let mut chains = Vec::new(alloc);
    for class in 0..classes.len() {
        chains.push(chain(alloc, classes, longest, ClassId::new(class))?)?;
    }
    Ok(chains)
}

impl<'p> Classes<'p> {
    /// The classes of a program. The only error is out of memory.
    pub fn new(alloc: Global, program: &'p Program) -> Result<Self, NoMemory>
        ensures program { IfOk result (λ classes. classes.program.now ≡ program.now) }
        ensures resolved { IfOk result (λ classes. AreResolved classes.program.now classes.all.now) }
    {
        let longest = longest_chain(program.tree());
        let all = program.classes();
        let chains = chains(alloc, all, longest)?;
        Ok(Classes {
            program,
            all,
            chains,
        })
    }

    /// How many classes there are.
    pub fn count(&self) -> usize
        ensures { result ≡ length (declarations self.now.program.now) }
    {
        self.all.len()
    }

    /// The chain of a class.
    pub fn chain(&self, class: ClassId) -> &[ClassId]
        ensures { result.now ≡ chain_at self.now.program.now class }
    {
        row_at(self.chains.as_slice(), class)
    }

    /// The interfaces that a class lists itself (ECMA-335 II.12.1).
    pub fn interfaces(&self, class: ClassId) -> &[ClassId]
        ensures { result.now ≡ unwrap_or (slice_get (map (λ r. r.interfaces) self.now.all.now) class) [] }
    {
        match self.all.get(class.number()) {
            None => &[],
            Some(resolved) => resolved.interfaces.as_slice(),
        }
    }
}
