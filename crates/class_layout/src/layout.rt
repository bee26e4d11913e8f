//! The layout of a program.

ghost use Rattle.std.specs.Prelude.{◌≡◌, IfOk, Some, true, false, length, option_map, slice_get};
ghost use Rattle.std.specs.Option.{option_map_or};
ghost use Rattle.cil_model.specs.declared.trees.Tree.{Tree};
ghost use Rattle.cil_model.specs.declared.types.ClassName.{ClassName};
ghost use Rattle.cil_model.specs.declared.types.DeclaredType.{DeclaredType};
ghost use Rattle.cil_model.specs.Assignable.{is_assignable};
ghost use Rattle.cil_model.specs.Fields.{slot_types, is_reference_slot, instance_slot, static_slot};
ghost use Rattle.cil_model.specs.declared.trees.Field.{Field};
ghost use Rattle.cil_model.specs.declared.trees.Method.{Method};
ghost use Rattle.cil_model.specs.Slots.{target};
ghost use Rattle.name_tables.specs.Numbers.{field_at, method_at};
ghost use Rattle.resolved_code.specs.ById.{class_name, type_at};
ghost use Rattle.resolved_code.specs.ResolvedPrograms.{AreResolved};

use crate::ancestry::Ancestry;
use crate::classes::Classes;
use crate::fields::{all_kinds, all_own_kinds, is_reference_at, kind_at};
use crate::kinds::SlotKind;
use crate::rows::row_at;
use crate::slots::{all_fields, number_at};
use crate::targets::{Targets, all_targets, target_at};
use cil_model::memory::NoMemory;
use name_tables::ids::{ClassId, FieldId, MethodId};
use resolved_code::types::ResolvedType;
use std::alloc::Global;

/// Where the fields of a program lie, which methods its virtual calls run, and which types may be given for others. Contracts say whose
/// layout it is by `IsLayout`.
pub struct Layout {
    ancestry: Ancestry,
    kinds: Vec<Vec<SlotKind>>,
    fields: Vec<Vec<usize>>,
    targets: Vec<Vec<Targets>>,
}

/// Each part is dropped.
impl Drop for Layout {
    fn drop(self) {
        let Layout {
            ancestry: _ancestry,
            kinds: _kinds,
            fields: _fields,
            targets: _targets,
        } = self;
    }
}

impl Layout {
    ghost use Rattle.class_layout.specs.Layouts.{IsLayout};
    ghost use Rattle.class_layout.specs.Kinds.{kind_of};

    /// The layout of a program. The only error is out of memory.
    pub(crate) fn new(alloc: Global, classes: &Classes) -> Result<Self, NoMemory>
        requires { AreResolved classes.now.program.now classes.now.all.now }
        ensures { IfOk result (λ layout. IsLayout classes.now.program.now layout) }
    {
        let own = all_own_kinds(alloc, classes.all)?;
        let kinds = all_kinds(alloc, classes, own.as_slice())?;
        let fields = all_fields(alloc, classes, own.as_slice(), kinds.as_slice())?;
        Ok(Layout {
            ancestry: Ancestry::new(alloc, classes)?,
            kinds,
            fields,
            targets: all_targets(alloc, classes)?,
        })
    }

    /// Whether a value of the first type may be given where the second is expected (ECMA-335 I.8.7). An array may be given for one with the same number of
    /// brackets where its element may be given for the other's, and for `object` with fewer.
    pub fn assignable(&self, from: ResolvedType, to: ResolvedType) -> bool
        ensures { (tree : Tree) → IsLayout tree self.now → (a b : DeclaredType) → type_at tree from ≡ Some a → type_at tree to ≡ Some b → result ≡ is_assignable tree a b }
    {
        self.ancestry.is_assignable(from, to)
    }

    /// How many slots an object of a class has: the hidden field of a `Cilvm.Thread`, and its instance fields with those of its bases.
    pub fn slots(&self, class: ClassId) -> usize
        ensures { (tree : Tree) → IsLayout tree self.now → (c : ClassName) → class_name tree class ≡ Some c → result ≡ length (slot_types tree c) }
    {
        row_at(self.kinds.as_slice(), class).len()
    }

    /// What a slot of an object of a class holds; none from `slots` on.
    pub fn kind(&self, class: ClassId, slot: usize) -> Option<SlotKind>
        ensures { (tree : Tree) → IsLayout tree self.now → (c : ClassName) → class_name tree class ≡ Some c → result ≡ option_map kind_of (slice_get (slot_types tree c) slot) }
    {
        kind_at(row_at(self.kinds.as_slice(), class), slot)
    }

    /// Whether a slot of an object of a class holds a reference; false where there is no such class.
    pub fn is_reference(&self, class: ClassId, slot: usize) -> bool
        ensures { (tree : Tree) → IsLayout tree self.now → result ≡ option_map_or (λ c. is_reference_slot tree c slot) (class_name tree class) false }
    {
        is_reference_at(row_at(self.kinds.as_slice(), class), slot)
    }

    /// The slot of an instance field, the same in objects of its class and of every class below, or the number of a static field among
    /// all static fields (this profile). The id has to be that of a field, which has one.
    pub fn slot(&self, field: FieldId) -> Option<usize>
        ensures instance { (tree : Tree) → IsLayout tree self.now → (c : ClassName) (f : Field) → field_at tree (field.class, field.index) ≡ Some (c, f) → f.is_static ≡ false → result ≡ instance_slot tree (record { declared_in = c; name = f.name }) }
        ensures static_field { (tree : Tree) → IsLayout tree self.now → (c : ClassName) (f : Field) → field_at tree (field.class, field.index) ≡ Some (c, f) → f.is_static ≡ true → result ≡ static_slot tree (record { declared_in = c; name = f.name }) }
    {
        number_at(row_at(self.fields.as_slice(), field.class), field.index)
    }

    /// The method that runs where a method is called on an object of a class (ECMA-335 II.10.3, II.12.2; where an interface is listed
    /// again, this profile); a method that is not virtual is its own. None where no method of the class fills the slot. The ids
    /// have to be those of a class and of a method.
    pub fn target(&self, class: ClassId, method: MethodId) -> Option<MethodId>
        ensures { (tree : Tree) → IsLayout tree self.now → (c d : ClassName) (m : Method) → class_name tree class ≡ Some d → method_at tree (method.class, method.index) ≡ Some (c, m) → option_map (λ n. method_at tree (n.class, n.index)) result ≡ option_map Some (target tree d c m) }
    {
        target_at(self.targets.as_slice(), class, method)
    }
}
