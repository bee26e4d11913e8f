//! Where the methods of a program are declared, by their ids.

ghost use Rattle.std.specs.Prelude.{◌≡◌, IfOk, map, option_and_then, option_map, slice_get};
ghost use Rattle.name_tables.specs.BuiltInTable.{built_in_entry};
ghost use Rattle.name_tables.specs.Numbers.{method_at};
ghost use Rattle.event_trace.specs.MethodPositions.{built_in_method, class_and_method, method_indices, source_method};

use crate::owned_methods::{OwnedMethod, Owner};
use cil_model::memory::NoMemory;
use cil_model::sequences::Sequence;
use cil_model::trees::{Class, Member, Tree};
use name_tables::built_in::BuiltInClass;
use name_tables::ids::{FIRST_OF_SOURCE, MethodId};
use std::alloc::Global;

/// Where the methods of a program are declared: those of the built-in classes, and for each class of the source the indices of its methods among its
/// members. It keeps nothing of the tree.
#[derive(Drop)]
pub struct MethodPositions {
    built_ins: Sequence<BuiltInClass>,
    source: Vec<Vec<usize>>,
}

impl MethodPositions {
    ghost use Rattle.event_trace.specs.MethodPositions.{ArePositionsOf};

    /// The positions of the methods of a tree. The only error is out of memory.
    pub fn new(alloc: Global, tree: &Tree) -> Result<Self, NoMemory>
        ensures { IfOk result (ArePositionsOf tree.now) }
    {
        Ok(MethodPositions {
            built_ins: BuiltInClass::all(alloc)?,
            source: source_indices(alloc, tree.classes.as_slice())?,
        })
    }

    /// The method with this id, in the tree that the positions were made of. None where no method has it. Takes constant time, and no memory.
    pub fn method<'a>(&'a self, tree: &'a Tree, id: MethodId) -> Option<OwnedMethod<'a>>
        requires { ArePositionsOf tree.now self.now }
        ensures { option_map class_and_method result ≡ method_at tree.now (id.class, id.index) }
    {
        let MethodId { class, index } = id;
        let number = class.number();
        match number.checked_sub(FIRST_OF_SOURCE) {
            None => self.built_in(number, index),
            Some(number) => self.of_source(tree, number, index),
        }
    }

    /// The built-in classes, by their numbers.
    pub(crate) fn built_ins(&self) -> &[BuiltInClass]
        ensures { result.now ≡ self.now.built_ins }
    {
        self.built_ins.as_slice()
    }

    /// The method at an index of the built-in class with this index.
    fn built_in(&self, class: usize, index: usize) -> Option<OwnedMethod<'_>>
        ensures { option_map class_and_method result ≡ option_and_then (built_in_method index) (slice_get (map built_in_entry self.now.built_ins) class) }
    {
        built_in_method(self.built_ins.as_slice().get(class)?, index)
    }

    /// The method at an index of the class of the source with this index.
    fn of_source<'a>(
        &'a self,
        tree: &'a Tree,
        class: usize,
        index: usize,
    ) -> Option<OwnedMethod<'a>>
        ensures { option_map class_and_method result ≡ option_and_then (λ i. option_and_then (source_method i) (slice_get tree.now.classes class)) (option_and_then (λ row. slice_get row.items index) (slice_get self.now.source.items class)) }
    {
        let member = self.member(class, index)?;
        source_method(tree.classes.as_slice().get(class)?, member)
    }

    /// The index of a method among the members of a class of the source.
    fn member(&self, class: usize, index: usize) -> Option<usize>
        ensures { result ≡ option_and_then (λ row. slice_get row.items index) (slice_get self.now.source.items class) }
    {
        self.source.get(class)?.get(index).copied()
    }
}

/// The method at an index of a built-in class.
fn built_in_method(class: &BuiltInClass, index: usize) -> Option<OwnedMethod<'_>>
    ensures { option_map class_and_method result ≡ built_in_method index (built_in_entry class.now) }
{
    let method = class.methods.as_slice().get(index)?;
    Some(OwnedMethod {
        owner: Owner::BuiltIn(&class.name),
        method,
    })
}

/// The method at an index among the members of a class of the source. None where there is a field.
fn source_method(class: &Class, index: usize) -> Option<OwnedMethod<'_>>
    ensures { option_map class_and_method result ≡ source_method index class.now }
{
    match class.members.as_slice().get(index)? {
        Member::Field(_) => None,
        Member::Method(method) => Some(OwnedMethod {
            owner: Owner::Source(class),
            method,
        }),
    }
}

/// For each class of a source the indices of its methods among its members.
fn source_indices(alloc: Global, classes: &[Class]) -> Result<Vec<Vec<usize>>, NoMemory>
    ensures { IfOk result (λ rows. map (λ row. row.items) rows.items ≡ map (λ c. method_indices 0 c.members) classes.now) }
{
    let mut rows = Vec::with_capacity(alloc, classes.len())?;
    for class in classes {
        rows.push(method_indices(alloc, class.members.as_slice())?)?;
    }
    Ok(rows)
}

/// The indices of the methods among the members of a class.
fn method_indices(alloc: Global, members: &[Member]) -> Result<Vec<usize>, NoMemory>
    ensures { IfOk result (λ indices. indices.items ≡ method_indices 0 members.now) }
{
    let mut indices = Vec::new(alloc);
    for (index, member) in members.iter().enumerate() {
        if let Member::Method(_) = member {
            indices.push(index)?;
        }
    }
    Ok(indices)
}
