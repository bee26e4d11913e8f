//! The fields and methods that the classes of a tree have and inherit.

ghost use Rattle.std.specs.Prelude.{◌≡◌, ℕ, IfOk, length, map, option_and_then, option_map, slice_get};
ghost use Rattle.name_tables.specs.Entries.{declaration_in};
ghost use Rattle.name_tables.specs.Keys.{field_of_key, method_of_key};
ghost use Rattle.name_tables.specs.Members.{base_numbers, field_key_number, field_index, IsMemberTable};
ghost use Rattle.name_tables.specs.Methods.{call_number, call_of, call_index, IsMethodTable};
ghost use Rattle.name_tables.specs.Numbers.{declarations, class_number};
ghost use Rattle.name_tables.specs.Sameness.{MethodIdentity, identity_of, call_identity_of};

use crate::class_tables::{ClassTable, method_keys};
use crate::ids::ClassId;
use crate::inherited::Inherited;
use crate::keys::{CallNumber, ClassKey, FieldKey, MethodKey};
use crate::kinds::is_static;
use crate::tables::ClassTables;
use cil_model::memory::NoMemory;
use cil_model::trees::{Field, Method};
use std::alloc::Global;

/// The number of the base of the class of a number.
fn base_number(classes: &ClassTables, class: usize) -> Option<usize>
    ensures { result ≡ option_and_then (class_number classes.now.tree.now) (option_and_then (λ e. e.1.base) (slice_get (declarations classes.now.tree.now) class)) }
{
    match classes.base_id(ClassId::new(class)) {
        None => None,
        Some(base) => Some(base.number()),
    }
}

/// The number of the base of each class.
pub(crate) fn base_numbers(
    alloc: Global,
    classes: &ClassTables,
) -> Result<Vec<Option<usize>>, NoMemory>
    ensures { IfOk result (λ v. v.items ≡ base_numbers classes.now.tree.now) }
{
    let mut bases = Vec::new(alloc);
    for class in 0..classes.all().len() {
        bases.push(base_number(classes, class))?;
    }
    Ok(bases)
}

fn field_keys<'a>(alloc: Global, fields: &[&'a Field]) -> Result<Vec<FieldKey<'a>>, NoMemory>
    ensures { IfOk result (λ v. map field_of_key v.items ≡ map (λ f. f.now) fields.now) }
{
    let mut keys = Vec::with_capacity(alloc, fields.len())?;
    for field in fields {
        keys.push(FieldKey::of(field))?;
    }
    Ok(keys)
}

/// The methods of a class by the numbers of their names and signatures, and their staticness.
fn call_numbers(
    alloc: Global,
    methods: &[&Method],
    numbers: &[usize],
) -> Result<Vec<CallNumber>, NoMemory>
    requires { length numbers.now ≡ length methods.now }
    ensures { IfOk result (λ v. (number : MethodIdentity → ℕ) → numbers.now ≡ map (λ m. number (identity_of m.now)) methods.now → v.items ≡ map (λ m. call_of number (call_identity_of m.now)) methods.now) }
{
    let mut keys = Vec::with_capacity(alloc, methods.len())?;
    for index in 0..methods.len() {
        keys.push(CallNumber {
            number: numbers[index],
            is_static: is_static(&methods[index].kind),
        })?;
    }
    Ok(keys)
}

fn field_rows<'a>(
    alloc: Global,
    tables: &[ClassTable<'a>],
) -> Result<Vec<Vec<FieldKey<'a>>>, NoMemory>
    ensures { IfOk result (λ v. map (λ row. map field_of_key row.items) v.items ≡ map (λ t. (declaration_in t.class).fields) tables.now) }
{
    let mut rows = Vec::with_capacity(alloc, tables.len())?;
    for table in tables {
        rows.push(field_keys(alloc, table.class.fields.as_slice())?)?;
    }
    Ok(rows)
}

fn call_rows(
    alloc: Global,
    tables: &[ClassTable],
    numbers: &[Vec<usize>],
) -> Result<Vec<Vec<CallNumber>>, NoMemory>
    requires { map (λ r. length r.items) numbers.now ≡ map (λ t. length (declaration_in t.class).methods) tables.now }
    ensures { IfOk result (λ v. (number : MethodIdentity → ℕ) → map (λ r. r.items) numbers.now ≡ map (λ t. map (λ m. number (identity_of m)) (declaration_in t.class).methods) tables.now → map (λ r. r.items) v.items ≡ map (λ t. map (λ m. call_of number (call_identity_of m)) (declaration_in t.class).methods) tables.now) }
{
    let mut rows = Vec::with_capacity(alloc, tables.len())?;
    for index in 0..tables.len() {
        let methods = tables[index].class.methods.as_slice();
        rows.push(call_numbers(alloc, methods, numbers[index].as_slice())?)?;
    }
    Ok(rows)
}

/// The fields of all classes by name, type and staticness. The only error is out of memory.
pub(crate) fn all_fields<'a>(
    alloc: Global,
    classes: &ClassTables<'a>,
    bases: &[Option<usize>],
) -> Result<Inherited<FieldKey<'a>>, NoMemory>
    requires { bases.now ≡ base_numbers classes.now.tree.now }
    ensures { IfOk result (λ t. IsMemberTable classes.now.tree.now t.inheritance.forest (field_key_number t.keys) (field_index classes.now.tree.now)) }
{
    let rows = field_rows(alloc, classes.all())?;
    Inherited::new(alloc, bases, rows.as_slice(), classes.longest_chain())
}

fn method_rows<'a>(
    alloc: Global,
    tables: &[ClassTable<'a>],
) -> Result<Vec<Vec<MethodKey<'a>>>, NoMemory>
    ensures { IfOk result (λ v. map (λ row. map method_of_key row.items) v.items ≡ map (λ t. map identity_of (declaration_in t.class).methods) tables.now) }
{
    let mut rows = Vec::with_capacity(alloc, tables.len())?;
    for table in tables {
        rows.push(method_keys(alloc, table.class.methods.as_slice())?)?;
    }
    Ok(rows)
}

/// The methods of all classes by name and signature. The only error is out of memory.
pub(crate) fn all_methods<'a>(
    alloc: Global,
    classes: &ClassTables<'a>,
    bases: &[Option<usize>],
) -> Result<Inherited<MethodKey<'a>>, NoMemory>
    requires { bases.now ≡ base_numbers classes.now.tree.now }
    ensures { IfOk result (λ t. IsMethodTable classes.now.tree.now t.keys t.inheritance.forest) }
{
    let rows = method_rows(alloc, classes.all())?;
    Inherited::new(alloc, bases, rows.as_slice(), classes.longest_chain())
}

/// The methods of all classes by name, signature and staticness. The only error is out of memory.
pub(crate) fn all_calls(
    alloc: Global,
    classes: &ClassTables,
    bases: &[Option<usize>],
    methods: &Inherited<MethodKey>,
) -> Result<Inherited<CallNumber>, NoMemory>
    requires bases { bases.now ≡ base_numbers classes.now.tree.now }
    requires methods { IsMethodTable classes.now.tree.now methods.now.keys methods.now.inheritance.forest }
    ensures { IfOk result (λ t. IsMemberTable classes.now.tree.now t.inheritance.forest (call_number methods.now.keys t.keys) (call_index classes.now.tree.now)) }
{
    let numbers = methods.inheritance.forest.declared.as_slice();
    let rows = call_rows(alloc, classes.all(), numbers)?;
    Inherited::new(alloc, bases, rows.as_slice(), classes.longest_chain())
}
