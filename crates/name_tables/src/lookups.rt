//! What the references of a tree find, by numbers.

ghost use Rattle.std.specs.Prelude.{◌≡◌, ◌↔◌, ◌∷◌, [], IfOk, IsTrue, map, option_map, Some, true};
ghost use Rattle.inheritance.specs.Lines.{base_in, line_within};
ghost use Rattle.std.specs.List.{cons_option};
ghost use Rattle.cil_model.specs.Bodies.{virtual_reference, constructor_reference};
ghost use Rattle.cil_model.specs.Chains.{find_field, find_method, longest_chain};
ghost use Rattle.inheritance.specs.ScopedTables.{pair_of};
ghost use Rattle.name_tables.specs.BuiltInTable.{built_in_entry};
ghost use Rattle.cil_model.specs.Declarations.{built_ins};
ghost use Rattle.name_tables.specs.Keys.{class_of_key, field_of_key, call_identity_of_key, reference_of_keys};
ghost use Rattle.name_tables.specs.Members.{base_numbers, field_key_number, field_index, EndsIn, IsMemberTable};
ghost use Rattle.name_tables.specs.Methods.{call_number, call_of, call_index, identity_number, line_of, IsMethodTable};
ghost use Rattle.name_tables.specs.Numbers.{chain_numbers, nearest_number, index_in, field_at, method_at, field_number, method_number, class_number};
ghost use Rattle.name_tables.specs.Sameness.{same_field, same_call_identity, call_identity_of};

use crate::built_in::BuiltInClass;
use crate::ids::{ClassId, FieldId, MethodId};
use crate::inherited::{Inherited, number_of};
use crate::keys::{CallKey, CallNumber, ClassKey, FieldKey, MethodKey};
use crate::members::{all_calls, all_fields, all_methods, base_numbers};
use crate::tables::ClassTables;
use cil_model::instructions::{FieldReference, MethodReference};
use cil_model::memory::NoMemory;
use cil_model::texts::Text;
use cil_model::trees::Tree;
use cil_model::types::{ClassName, DeclaredType, Signature};
use inheritance::Declared;
use std::alloc::Global;

/// The tables of a tree, with what each class inherits.
pub struct NameTables<'a> {
    pub classes: ClassTables<'a>,
    fields: Inherited<FieldKey<'a>>,
    pub(crate) methods: Inherited<MethodKey<'a>>,
    calls: Inherited<CallNumber>,
    ghost fields_are: { IsMemberTable classes.tree.now fields.inheritance.forest (field_key_number fields.keys) (field_index classes.tree.now) },
    ghost methods_are: { IsMethodTable classes.tree.now methods.keys methods.inheritance.forest },
    ghost calls_are: { IsMemberTable classes.tree.now calls.inheritance.forest (call_number methods.keys calls.keys) (call_index classes.tree.now) },
}

/// Each part is dropped.
impl Drop for NameTables<'_> {
    fn drop(self) {
        let NameTables {
            classes: _classes,
            fields: _fields,
            methods: _methods,
            calls: _calls,
        } = self;
    }
}

/// A declaration as a field.
fn field_id(found: Option<Declared>) -> Option<FieldId>
    ensures { option_map (λ f. (f.class, f.index)) result ≡ pair_of found }
{
    match found {
        None => None,
        Some(declared) => Some(FieldId {
            class: ClassId::new(declared.class),
            index: declared.index,
        }),
    }
}

/// A declaration as a method.
pub(crate) fn method_id(found: Option<Declared>) -> Option<MethodId>
    ensures { option_map (λ m. (m.class, m.index)) result ≡ pair_of found }
{
    match found {
        None => None,
        Some(declared) => Some(MethodId {
            class: ClassId::new(declared.class),
            index: declared.index,
        }),
    }
}

impl<'a> NameTables<'a> {
    /// Makes the tables of a tree from it and the built-in classes. The only error is out of memory.
    pub fn new(alloc: Global, tree: &'a Tree, table: &'a [BuiltInClass]) -> Result<Self, NoMemory>
        requires { map built_in_entry table.now ≡ built_ins }
        ensures { IfOk result (λ t. t.classes.tree.now ≡ tree.now) }
    {
        let classes = ClassTables::new(alloc, tree, table)?;
        let bases = base_numbers(alloc, &classes)?;
        let fields = all_fields(alloc, &classes, bases.as_slice())?;
        let methods = all_methods(alloc, &classes, bases.as_slice())?;
        let calls = all_calls(alloc, &classes, bases.as_slice(), &methods)?;
        Ok(NameTables {
            classes,
            fields,
            methods,
            calls,
        })
    }

    /// The number of the base of each class.
    pub fn bases(&self) -> &[Option<usize>]
        ensures { result.now ≡ base_numbers self.now.classes.tree.now }
    {
        self.fields.inheritance.forest.bases.as_slice()
    }

    /// The base of a class.
    pub fn base(&self, class: ClassId) -> Option<ClassId>
        ensures { result ≡ base_in (base_numbers self.now.classes.tree.now) class }
    {
        match self.bases().get(class.number()) {
            Some(Some(base)) => Some(ClassId::new(*base)),
            _ => None,
        }
    }

    /// Whether the bases of a class end.
    pub fn ends(&self, class: ClassId) -> bool
        ensures { IsTrue result ↔ EndsIn self.now.classes.tree.now class }
    {
        self.fields.inheritance.ends(class.number())
    }

    /// A class and those along its bases. The only error is out of memory.
    pub fn line(&self, alloc: Global, class: ClassId) -> Result<Vec<ClassId>, NoMemory>
        ensures { IfOk result (λ v. v.items ≡ line_within (base_numbers self.now.classes.tree.now) (longest_chain self.now.classes.tree.now) (Some class)) }
    {
        let mut line = Vec::new(alloc);
        let mut next = Some(class);
        let mut left = self.classes.longest_chain();
        while left > 0 {
            let Some(class) = next else {
                return Ok(line);
            };
            line.push(class)?;
            next = self.base(class);
            left -= 1;
        }
        Ok(line)
    }

    /// The classes of a declared class's chain; none where the name refers to nothing. The only error is out of memory.
    pub fn chain(&self, alloc: Global, name: ClassKey) -> Result<Vec<ClassId>, NoMemory>
        ensures { IfOk result (λ v. v.items ≡ chain_numbers self.now.classes.tree.now (class_of_key name.entry)) }
    {
        match self.classes.id(name) {
            None => Ok(Vec::new(alloc)),
            Some(class) => self.line(alloc, class),
        }
    }

    /// The nearest field of a class's chain.
    fn nearest_field(&self, owner: ClassKey, key: FieldKey) -> Option<FieldId>
        ensures { option_map (λ m. (m.class, m.index)) result ≡ nearest_number (field_index self.now.classes.tree.now key.entry) (chain_numbers self.now.classes.tree.now (class_of_key owner.entry)) }
    {
        let Some(class) = self.classes.id(owner) else {
            return None;
        };
        field_id(self.fields.find(class, key))
    }

    /// The number of a method's name and signature, with its staticness.
    fn call_number(&self, key: CallKey) -> CallNumber
        ensures { result ≡ call_of (identity_number self.now.methods.keys) (call_identity_of_key key.entry) }
    {
        CallNumber {
            number: number_of(&self.methods.keys, key.method),
            is_static: key.is_static,
        }
    }

    /// The nearest method from a class on.
    fn call_from(&self, class: ClassId, key: CallKey) -> Option<MethodId>
        ensures { option_map (λ m. (m.class, m.index)) result ≡ nearest_number (call_index self.now.classes.tree.now (call_identity_of_key key.entry)) (line_of self.now.classes.tree.now (Some class)) }
    {
        method_id(self.calls.find(class, self.call_number(key)))
    }

    /// The nearest method of a class's chain.
    fn nearest_call(&self, owner: ClassKey, key: CallKey) -> Option<MethodId>
        ensures { option_map (λ m. (m.class, m.index)) result ≡ nearest_number (call_index self.now.classes.tree.now (call_identity_of_key key.entry)) (chain_numbers self.now.classes.tree.now (class_of_key owner.entry)) }
    {
        let Some(class) = self.classes.id(owner) else {
            return None;
        };
        self.call_from(class, key)
    }

    /// The method that a class itself declares, by its id.
    fn own_call_of(&self, class: ClassId, key: CallKey) -> Option<MethodId>
        ensures { option_map (λ m. (m.class, m.index)) result ≡ nearest_number (call_index self.now.classes.tree.now (call_identity_of_key key.entry)) (class ∷ []) }
    {
        match self.call_from(class, key) {
            None => None,
            Some(found) => {
                if found.class == class {
                    Some(found)
                } else {
                    None
                }
            }
        }
    }

    /// The method that a class itself declares.
    fn own_call(&self, owner: ClassKey, key: CallKey) -> Option<MethodId>
        ensures { option_map (λ m. (m.class, m.index)) result ≡ nearest_number (index_in (λ d. d.methods) (λ m. same_call_identity (call_identity_of_key key.entry) (call_identity_of m)) self.now.classes.tree.now) (cons_option (class_number self.now.classes.tree.now (class_of_key owner.entry)) []) }
    {
        match self.classes.id(owner) {
            None => None,
            Some(class) => self.own_call_of(class, key),
        }
    }

    /// The field of this name, type and staticness in the nearest class of the owner's chain (ECMA-335 II.16, this profile).
    pub fn find_field(&self, is_static: bool, reference: &FieldReference) -> Option<FieldId>
        ensures number { option_map (λ m. (m.class, m.index)) result ≡ field_number self.now.classes.tree.now is_static reference.now }
        ensures member { option_map (λ m. field_at self.now.classes.tree.now (m.class, m.index)) result ≡ option_map Some (find_field self.now.classes.tree.now is_static reference.now) }
    {
        let key = FieldKey {
            is_static,
            field_type: &reference.field_type,
            name: &reference.name,
        };
        self.nearest_field(ClassKey::of(&reference.owner), key)
    }

    /// The method of this name, signature and staticness in the nearest class of the owner's chain, a constructor in the owner
    /// alone (ECMA-335 II.15.1.3, II.10.5.1).
    fn find_call(&self, owner: ClassKey, method: MethodKey, is_instance: bool) -> Option<MethodId>
        ensures number { option_map (λ m. (m.class, m.index)) result ≡ method_number self.now.classes.tree.now is_instance (reference_of_keys owner.entry method.entry) }
        ensures member { option_map (λ m. method_at self.now.classes.tree.now (m.class, m.index)) result ≡ option_map Some (find_method self.now.classes.tree.now is_instance (reference_of_keys owner.entry method.entry)) }
    {
        let key = CallKey {
            method,
            is_static: !is_instance,
        };
        match method.name {
            None => self.own_call(owner, key),
            Some(_) => self.nearest_call(owner, key),
        }
    }

    /// The method that a reference finds: of its name, signature and staticness in the nearest class of the owner's chain, a
    /// constructor in the owner alone (ECMA-335 II.15.1.3, II.10.5.1).
    pub fn find_method(&self, is_instance: bool, reference: &MethodReference) -> Option<MethodId>
        ensures number { option_map (λ m. (m.class, m.index)) result ≡ method_number self.now.classes.tree.now is_instance reference.now }
        ensures member { option_map (λ m. method_at self.now.classes.tree.now (m.class, m.index)) result ≡ option_map Some (find_method self.now.classes.tree.now is_instance reference.now) }
    {
        let owner = ClassKey::of(&reference.owner);
        let method = MethodKey::new(&reference.name, &reference.signature);
        self.find_call(owner, method, is_instance)
    }

    /// The instance method that `callvirt` names (ECMA-335 III.4.2).
    pub fn find_virtual(
        &self,
        owner: &ClassName,
        name: &Text,
        signature: &Signature,
    ) -> Option<MethodId>
        ensures number { option_map (λ m. (m.class, m.index)) result ≡ method_number self.now.classes.tree.now true (virtual_reference owner.now name.now signature.now) }
        ensures member { option_map (λ m. method_at self.now.classes.tree.now (m.class, m.index)) result ≡ option_map Some (find_method self.now.classes.tree.now true (virtual_reference owner.now name.now signature.now)) }
    {
        self.find_call(
            ClassKey::of(owner),
            MethodKey::by_name(name, signature),
            true,
        )
    }

    /// The constructor that `newobj` names (ECMA-335 III.4.21).
    pub fn find_constructor(
        &self,
        class: &ClassName,
        parameters: &[DeclaredType],
    ) -> Option<MethodId>
        ensures number { option_map (λ m. (m.class, m.index)) result ≡ method_number self.now.classes.tree.now true (constructor_reference class.now parameters.now) }
        ensures member { option_map (λ m. method_at self.now.classes.tree.now (m.class, m.index)) result ≡ option_map Some (find_method self.now.classes.tree.now true (constructor_reference class.now parameters.now)) }
    {
        self.find_call(
            ClassKey::of(class),
            MethodKey::constructor(parameters),
            true,
        )
    }
}
