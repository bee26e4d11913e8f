//! Slots of fields, and what each slot of an object holds (ECMA-335 II.16; the hidden field is this profile's).

ghost use Rattle.std.specs.Prelude.{◌≡◌, ◌==◌, IfOk, false, map, filter_map, reverse, slice_get};
ghost use Rattle.std.specs.List.{list_any};
ghost use Rattle.std.specs.Option.{option_map_or};
ghost use Rattle.cil_model.specs.declared.trees.Tree.{Tree};
ghost use Rattle.class_layout.specs.ByClass.{by_class};
ghost use Rattle.class_layout.specs.Kinds.{own_kinds, hidden_kinds, chain_kinds, slot_kinds, holds_reference, resolved_kind};

use crate::classes::Classes;
use crate::kinds::SlotKind;
use crate::rows::row_at;
use cil_model::memory::NoMemory;
use cil_model::values::ValueKind;
use name_tables::ids::{ClassId, THREAD};
use resolved_code::classes::{ResolvedClass, ResolvedField};
use std::alloc::Global;

fn instance_kind(field: ResolvedField) -> Option<SlotKind>
    ensures { (tree : Tree) → result ≡ resolved_kind tree field }
{
    if field.is_static {
        None
    } else {
        Some(SlotKind::Declared(field.field_type.kind()))
    }
}

fn instance_kinds(alloc: Global, fields: &[ResolvedField]) -> Result<Vec<SlotKind>, NoMemory>
    ensures { IfOk result (λ v. (tree : Tree) → v.items ≡ filter_map (resolved_kind tree) fields.now) }
{
    let mut kinds = Vec::new(alloc);
    for field in fields {
        let Some(kind) = instance_kind(*field) else {
            continue;
        };
        kinds.push(kind)?;
    }
    Ok(kinds)
}

/// What the instance fields that each class itself declares hold.
pub fn all_own_kinds(
    alloc: Global,
    classes: &[ResolvedClass],
) -> Result<Vec<Vec<SlotKind>>, NoMemory>
    ensures { IfOk result (λ v. (tree : Tree) → map (λ row. row.items) v.items ≡ map (λ r. filter_map (resolved_kind tree) r.fields) classes.now) }
{
    let mut rows = Vec::new(alloc);
    for class in classes {
        rows.push(instance_kinds(alloc, class.fields.as_slice())?)?;
    }
    Ok(rows)
}

fn is_thread_class(chain: &[ClassId]) -> bool
    ensures { result ≡ list_any (λ n. n == 4) chain.now }
{
    chain.contains(&THREAD)
}

/// The chain from its last class to the first.
fn bases_first(alloc: Global, chain: &[ClassId]) -> Result<Vec<ClassId>, NoMemory>
    ensures { IfOk result (λ v. v.items ≡ reverse chain.now) }
{
    let mut bases = Vec::new(alloc);
    bases.extend_from_slice(chain)?;
    bases.reverse();
    Ok(bases)
}

/// The hidden field, where the chain is of a class of threads.
fn hidden_kinds(alloc: Global, chain: &[ClassId]) -> Result<Vec<SlotKind>, NoMemory>
    ensures { IfOk result (λ v. v.items ≡ hidden_kinds chain.now) }
{
    let mut kinds = Vec::new(alloc);
    if !is_thread_class(chain) {
        return Ok(kinds);
    }
    kinds.push(SlotKind::Hidden)?;
    Ok(kinds)
}

/// The slots of a chain of classes, those of its bases first.
fn chain_kinds(
    alloc: Global,
    own: &[Vec<SlotKind>],
    chain: &[ClassId],
) -> Result<Vec<SlotKind>, NoMemory>
    ensures { IfOk result (λ v. v.items ≡ chain_kinds (map (λ row. row.items) own.now) chain.now) }
{
    let order = bases_first(alloc, chain)?;
    let mut kinds = hidden_kinds(alloc, chain)?;
    for class in order.as_slice() {
        kinds.extend_from_slice(row_at(own, *class))?;
    }
    Ok(kinds)
}

/// What each slot of an object of each class holds.
pub fn all_kinds(
    alloc: Global,
    classes: &Classes,
    own: &[Vec<SlotKind>],
) -> Result<Vec<Vec<SlotKind>>, NoMemory>
    requires { map (λ row. row.items) own.now ≡ by_class classes.now.program.now (own_kinds classes.now.program.now) }
    ensures { IfOk result (λ v. map (λ row. row.items) v.items ≡ by_class classes.now.program.now (slot_kinds classes.now.program.now)) }
{
    let mut rows = Vec::new(alloc);
    for class in 0..classes.count() {
        rows.push(chain_kinds(alloc, own, classes.chain(ClassId::new(class)))?)?;
    }
    Ok(rows)
}

/// What a slot holds.
pub fn kind_at(kinds: &[SlotKind], slot: usize) -> Option<SlotKind>
    ensures { result ≡ slice_get kinds.now slot }
{
    kinds.get(slot).copied()
}

/// Whether a slot holds a reference.
pub fn is_reference_at(kinds: &[SlotKind], slot: usize) -> bool
    ensures { result ≡ option_map_or holds_reference (slice_get kinds.now slot) false }
{
    matches!(
        kind_at(kinds, slot),
        Some(SlotKind::Declared(ValueKind::Ref))
    )
}
