//! The numbers of static fields and the slots of instance fields (ECMA-335 II.16; the numbers are this profile's).

ghost use Rattle.std.specs.Prelude.{◌≡◌, ◌+◌, ◌<◌, ◌^◌, [], IfOk, if◌then◌else◌, length, map, slice_get, unwrap_or};
ghost use Rattle.resolved_code.specs.ResolvedPrograms.{AreResolved};
ghost use Rattle.class_layout.specs.ByClass.{by_class};
ghost use Rattle.class_layout.specs.Kinds.{own_kinds, slot_kinds};
ghost use Rattle.class_layout.specs.FieldSlots.{number_after, slot_after, static_by_id, statics_by_flag, slots_by_flag, following_slot, field_rows, class_names};

use crate::classes::Classes;
use crate::kinds::SlotKind;
use crate::rows::row_at;
use cil_model::memory::NoMemory;
use name_tables::ids::ClassId;
use resolved_code::classes::ResolvedField;
use std::alloc::Global;

/// The first free number after a field that is counted, or one that is not.
fn number_after(is_counted: bool, next: usize) -> usize
    requires { number_after is_counted next < 2 ^ 64 }
    ensures { result ≡ number_after is_counted next }
{
    if is_counted { next + 1 } else { next }
}

fn slot_after(is_static: bool, next: usize) -> usize
    requires { slot_after is_static next < 2 ^ 64 }
    ensures { result ≡ slot_after is_static next }
{
    if is_static { next } else { next + 1 }
}

fn own_number(is_static: bool, next_static: usize, next_slot: usize) -> usize
    ensures { result ≡ (if is_static then next_static else next_slot) }
{
    if is_static { next_static } else { next_slot }
}

/// The fields of one class in source order, from the first free number of a static field and the first free slot of an object.
fn field_row(
    alloc: Global,
    first_static: usize,
    first_slot: usize,
    fields: &[ResolvedField],
) -> Result<Vec<usize>, NoMemory>
    requires statics { statics_by_flag first_static (map (λ f. f.is_static) fields.now) < 2 ^ 64 }
    requires slots { slots_by_flag first_slot (map (λ f. f.is_static) fields.now) < 2 ^ 64 }
    ensures { IfOk result (λ v. v.items ≡ static_by_id first_static first_slot (map (λ f. f.is_static) fields.now)) }
{
    let mut numbers = Vec::new(alloc);
    let mut next_static = first_static;
    let mut next_slot = first_slot;
    for field in fields {
        numbers.push(own_number(field.is_static, next_static, next_slot))?;
        next_static = number_after(field.is_static, next_static);
        next_slot = slot_after(field.is_static, next_slot);
    }
    Ok(numbers)
}

/// The first free number after the static ones among some fields.
fn statics_after(first: usize, fields: &[ResolvedField]) -> usize
    requires { statics_by_flag first (map (λ f. f.is_static) fields.now) < 2 ^ 64 }
    ensures { result ≡ statics_by_flag first (map (λ f. f.is_static) fields.now) }
{
    let mut next = first;
    for field in fields {
        next = number_after(field.is_static, next);
    }
    next
}

/// The slot of the first instance field that a class itself declares: after those that it inherits.
fn first_slot(own: &[Vec<SlotKind>], kinds: &[Vec<SlotKind>], class: ClassId) -> usize
    ensures following { result ≡ following_slot (map (λ row. row.items) kinds.now) (map (λ row. row.items) own.now) class }
    ensures fits { result + length (unwrap_or (slice_get (map (λ row. row.items) own.now) class) []) < 2 ^ 64 }
{
    let all = row_at(kinds, class).len();
    all.saturating_sub(row_at(own, class).len())
}

/// The number of each static field and the slot of each instance field, by its class and its index.
pub fn all_fields(
    alloc: Global,
    classes: &Classes,
    own: &[Vec<SlotKind>],
    kinds: &[Vec<SlotKind>],
) -> Result<Vec<Vec<usize>>, NoMemory>
    requires resolved { AreResolved classes.now.program.now classes.now.all.now }
    requires own { map (λ row. row.items) own.now ≡ by_class classes.now.program.now (own_kinds classes.now.program.now) }
    requires kinds { map (λ row. row.items) kinds.now ≡ by_class classes.now.program.now (slot_kinds classes.now.program.now) }
    ensures { IfOk result (λ v. map (λ row. row.items) v.items ≡ field_rows classes.now.program.now 0 (class_names classes.now.program.now)) }
{
    let all = classes.all;
    let mut rows = Vec::new(alloc);
    let mut next = 0;
    for class in 0..all.len() {
        let fields = all[class].fields.as_slice();
        rows.push(field_row(
            alloc,
            next,
            first_slot(own, kinds, ClassId::new(class)),
            fields,
        )?)?;
        next = statics_after(next, fields);
    }
    Ok(rows)
}

/// The number or slot at an index of a row.
pub fn number_at(numbers: &[usize], index: usize) -> Option<usize>
    ensures { result ≡ slice_get numbers.now index }
{
    numbers.get(index).copied()
}
