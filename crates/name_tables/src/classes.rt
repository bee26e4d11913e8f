//! Classes with what they declare, each found by its name or its number.

ghost use Rattle.std.specs.Prelude.{◌≡◌, IfOk, map};
ghost use Rattle.cil_model.specs.Declarations.{field_members, method_members};

use crate::built_in::BuiltInClass;
use crate::keys::ClassKey;
use cil_model::memory::NoMemory;
use cil_model::trees::{Class, ClassKind, Field, Member, Method};
use cil_model::types::ClassName;
use std::alloc::Global;

/// A class with what it declares. It borrows from the tree, or from the table of built-in classes.
#[derive(Drop)]
pub struct DeclaredClass<'a> {
    pub name: ClassKey<'a>,
    pub is_interface: bool,
    pub is_abstract: bool,
    pub base: Option<&'a ClassName>,
    pub interfaces: &'a [ClassName],
    pub fields: Vec<&'a Field>,
    pub methods: Vec<&'a Method>,
}

/// The fields among the members of a class, in source order.
pub fn field_members(alloc: Global, class: &Class) -> Result<Vec<&Field>, NoMemory>
    ensures { IfOk result (λ v. map (λ f. f.now) v.items ≡ field_members class.now) }
{
    let mut fields = Vec::new(alloc);
    for member in class.members.as_slice() {
        let Member::Field(field) = member else {
            continue;
        };
        fields.push(field)?;
    }
    Ok(fields)
}

/// The methods among the members of a class, in source order.
pub fn method_members(alloc: Global, class: &Class) -> Result<Vec<&Method>, NoMemory>
    ensures { IfOk result (λ v. map (λ f. f.now) v.items ≡ method_members class.now) }
{
    let mut methods = Vec::new(alloc);
    for member in class.members.as_slice() {
        let Member::Method(method) = member else {
            continue;
        };
        methods.push(method)?;
    }
    Ok(methods)
}

/// The methods by reference, in their order.
fn references_to(alloc: Global, methods: &[Method]) -> Result<Vec<&Method>, NoMemory>
    ensures { IfOk result (λ v. map (λ m. m.now) v.items ≡ methods.now) }
{
    Ok(methods.iter().collect(alloc)?)
}

impl<'a> DeclaredClass<'a> {
    ghost use Rattle.name_tables.specs.Entries.{entry_of};
    ghost use Rattle.name_tables.specs.Numbers.{source_entry};
    ghost use Rattle.name_tables.specs.BuiltInTable.{built_in_entry};

    /// A class of the source. The only error is out of memory.
    pub fn of_source(alloc: Global, class: &'a Class) -> Result<Self, NoMemory>
        ensures { IfOk result (λ d. entry_of d ≡ source_entry class.now) }
    {
        let name = ClassKey::of_source(class);
        let methods = method_members(alloc, class)?;
        Ok(match &class.kind {
            ClassKind::Interface => DeclaredClass {
                name,
                is_interface: true,
                is_abstract: true,
                base: None,
                interfaces: &[],
                fields: Vec::new(alloc),
                methods,
            },
            ClassKind::Class {
                is_abstract,
                base,
                interfaces,
            } => DeclaredClass {
                name,
                is_interface: false,
                is_abstract: *is_abstract,
                base: Some(base),
                interfaces: interfaces.as_slice(),
                fields: field_members(alloc, class)?,
                methods,
            },
        })
    }

    /// A built-in class. The only error is out of memory.
    pub fn of_built_in(alloc: Global, class: &'a BuiltInClass) -> Result<Self, NoMemory>
        ensures { IfOk result (λ d. entry_of d ≡ built_in_entry class.now) }
    {
        let methods = references_to(alloc, class.methods.as_slice())?;
        Ok(DeclaredClass {
            name: ClassKey::of(&class.name),
            is_interface: false,
            is_abstract: false,
            base: class.base.as_ref(),
            interfaces: &[],
            fields: Vec::new(alloc),
            methods,
        })
    }
}
