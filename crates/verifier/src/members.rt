//! The ids of the methods of a source.

ghost use Rattle.std.specs.Prelude.{◌≡◌, ◌++◌, map, IfOk, OnOk, Some, slice_get};
ghost use Rattle.cil_model.specs.declared.trees.Tree.{Tree as SourceTree};
ghost use Rattle.cil_model.specs.declared.trees.Class.{Class as SourceClass};
ghost use Rattle.cil_model.specs.Bodies.{source_methods};
ghost use Rattle.cil_model.specs.Declarations.{method_members};
ghost use Rattle.name_tables.specs.Numbers.{declarations, source_entry};
ghost use Rattle.verifier.specs.Members.{methods_at, own_methods};

use cil_model::memory::NoMemory;
use cil_model::trees::{Class, Method, Tree};
use name_tables::classes::method_members;
use name_tables::ids::{ClassId, FIRST_OF_SOURCE, MethodId};
use std::alloc::Global;

/// Appends the ids of the methods of a class.
fn add_ids(class: ClassId, methods: &[&Method], members: &mut Vec<MethodId>) -> Result<(), NoMemory>
    ensures { (tree : SourceTree) (c : SourceClass) → slice_get (declarations tree) class ≡ Some (source_entry c) → map (λ m. m.now) methods.now ≡ method_members c →
        OnOk result (methods_at tree members.new.items ≡ methods_at tree members.old.items ++ map Some (own_methods c)) }
{
    for (index, _method) in methods.iter().enumerate() {
        members.push(MethodId { class, index })?;
    }
    Ok(())
}

/// Appends the ids of the methods of the class at an index of the source.
#[tactic(auto, using(crate::proofs::MethodIds::source_class))]
fn add_class(
    alloc: Global,
    index: usize,
    class: &Class,
    members: &mut Vec<MethodId>,
) -> Result<(), NoMemory>
    ensures { (tree : SourceTree) → slice_get tree.classes index ≡ Some class.now →
        OnOk result (methods_at tree members.new.items ≡ methods_at tree members.old.items ++ map Some (own_methods class.now)) }
{
    let Some(number) = index.checked_add(FIRST_OF_SOURCE) else {
        return Err(NoMemory);
    };
    let methods = method_members(alloc, class)?;
    add_ids(ClassId::new(number), methods.as_slice(), members)
}

/// The id of each method of the source, in source order.

pub(crate) fn source_members(alloc: Global, tree: &Tree) -> Result<Vec<MethodId>, NoMemory>
    ensures { IfOk result (λ members. methods_at tree.now members.items ≡ map Some (source_methods tree.now)) }
{
    let mut members = Vec::new(alloc);
    for (index, class) in tree.classes.as_slice().iter().enumerate() {
        add_class(alloc, index, class, &mut members)?;
    }
    Ok(members)
}
