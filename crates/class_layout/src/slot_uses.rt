//! What methods are to the slots of their names and signatures (ECMA-335 II.10.3).

ghost use Rattle.std.specs.Prelude.{◌≡◌, ◌==◌, ◌&&◌, not, IfOk, find, map, option_map};
ghost use Rattle.std.specs.List.{position_from};
ghost use Rattle.class_layout.specs.SlotUses.{slot_use_by_id, is_virtual_use, is_static_by_id, slot_use_in, own_index};

use cil_model::memory::NoMemory;
use resolved_code::classes::{ResolvedClass, ResolvedKind, ResolvedMethod};
use std::alloc::Global;

/// What a method is to the slots of its name and signature.
#[derive(Clone, Copy)]
pub enum SlotUse {
    /// It fills none: it is not virtual.
    Plain,
    /// It fills the slot that its class inherits, or its own where there is none.
    ReuseSlot,
    /// It fills a slot of its own.
    NewSlot,
}

fn slot_use_of(kind: &ResolvedKind) -> SlotUse
    ensures { result ≡ slot_use_by_id kind.now }
{
    match kind {
        ResolvedKind::Static(_) | ResolvedKind::Instance(_) => SlotUse::Plain,
        ResolvedKind::Virtual { is_new_slot, .. } | ResolvedKind::Abstract { is_new_slot } => {
            if *is_new_slot {
                SlotUse::NewSlot
            } else {
                SlotUse::ReuseSlot
            }
        }
    }
}

/// Whether a method is virtual; an abstract one is too (ECMA-335 II.15.4.2).
pub fn is_virtual(kind: &ResolvedKind) -> bool
    ensures { result ≡ is_virtual_use (slot_use_by_id kind.now) }
{
    match slot_use_of(kind) {
        SlotUse::Plain => false,
        SlotUse::ReuseSlot | SlotUse::NewSlot => true,
    }
}

/// The slot use of the first of these methods with a name and signature.
fn slot_use_in(methods: &[ResolvedMethod], identity: usize) -> Option<SlotUse>
    ensures { result ≡ slot_use_in identity methods.now }
{
    for method in methods {
        if identity == method.identity {
            return Some(slot_use_of(&method.kind));
        }
    }
    None
}

/// The slot use of the first method of each class with a name and signature.
pub fn uses_by_class(
    alloc: Global,
    classes: &[ResolvedClass],
    identity: usize,
) -> Result<Vec<Option<SlotUse>>, NoMemory>
    ensures { IfOk result (λ v. v.items ≡ map (λ r. slot_use_in identity r.methods) classes.now) }
{
    let mut slot_uses = Vec::new(alloc);
    for class in classes {
        slot_uses.push(slot_use_in(class.methods.as_slice(), identity))?;
    }
    Ok(slot_uses)
}

fn is_own(method: &ResolvedMethod, identity: usize) -> bool
    ensures { result ≡ ((identity == method.now.identity) && not (is_static_by_id method.now.kind)) }
{
    identity == method.identity && !matches!(method.kind, ResolvedKind::Static(_))
}

/// The index of the first of these methods with a name and signature that has an object.
pub fn own_index(methods: &[ResolvedMethod], identity: usize) -> Option<usize>
    ensures { result ≡ own_index identity methods.now }
{
    for index in 0..methods.len() {
        if is_own(&methods[index], identity) {
            return Some(index);
        }
    }
    None
}
