//! Methods whose kinds do not fit.

ghost use Rattle.std.specs.Prelude.{◌≡◌, ◌==◌, ◌&&◌, ◌||◌, not, false, true, Some, IfOk, is_none, is_some, map, option_and_then};
ghost use Rattle.std.specs.List.{list_any, list_all};
ghost use Rattle.std.specs.Option.{option_map_or};
ghost use Rattle.cil_model.specs.Chains.{base_of, is_virtual, is_abstract_method};
ghost use Rattle.cil_model.specs.Declarations.{source_name};
ghost use Rattle.cil_model.specs.Legality.{is_interface_method, has_abstract_slot, overrides_no_virtual, kinds_fit, has_kind_mismatch};
ghost use Rattle.resolved_code.specs.VirtualSlots.{slot_filled_at, slot_from_base, slot_by_id, abstract_from_base, abstract_by_id, is_slot_abstract, method_slot_is_abstract, class_has_abstract_slot, concrete_by_id};
ghost use Rattle.name_tables.specs.Keys.{class_of_key, method_of_key};
ghost use Rattle.name_tables.specs.Methods.{line_of};
ghost use Rattle.name_tables.specs.Numbers.{class_number, method_found};
ghost use Rattle.name_tables.specs.Sameness.{identity_of};

use crate::open_slots::OpenSlots;
use crate::violations::{KindFault, KindMismatch};
use cil_model::memory::NoMemory;
use cil_model::trees::{Class, ClassKind, Method};
use inheritance::Cyclic;
use name_tables::classes::method_members;
use name_tables::ids::{ClassId, MethodId};
use name_tables::keys::{ClassKey, MethodKey};
use name_tables::kinds::{is_abstract_method, is_new_slot_method, is_virtual};
use name_tables::lookups::NameTables;
use name_tables::methods::MethodTables;
use std::alloc::Global;

// ---- slots along a chain: each is known by the class that introduced it

/// The slot that a method of a class fills over the one that it inherits (ECMA-335 II.10.3).
fn slot_filled(class: ClassId, inherited: Option<ClassId>, method: &Method) -> Option<ClassId>
    ensures { result ≡ slot_filled_at class inherited method.now }
{
    if !is_virtual(&method.kind) {
        return None;
    }
    if is_new_slot_method(&method.kind) {
        return Some(class);
    }
    Some(inherited.unwrap_or(class))
}

/// The slot of this name and signature as seen from a class, where it is known as seen from its base.
fn slot_from_base(
    names: &NameTables,
    key: MethodKey,
    class: ClassId,
    inherited: Option<ClassId>,
) -> Option<ClassId>
    ensures { result ≡ slot_from_base names.now.classes.tree.now (method_of_key key.entry) class inherited }
{
    match names.classes.method(class, key) {
        None => inherited,
        Some(method) => slot_filled(class, inherited, method),
    }
}

/// The slot that the nearest method of this name and signature along a chain fills.
fn slot_along(names: &NameTables, key: MethodKey, chain: &[ClassId]) -> Option<ClassId>
    ensures { result ≡ slot_by_id names.now.classes.tree.now (method_of_key key.entry) chain.now }
{
    let mut slot = None;
    for index in (0..chain.len()).rev() {
        slot = slot_from_base(names, key, chain[index], slot);
    }
    slot
}

fn is_slot(slot: &Option<ClassId>, required: ClassId) -> bool
    ensures { result ≡ option_map_or (λ n. n == required) slot.now false }
{
    match slot {
        None => false,
        Some(class) => *class == required,
    }
}

/// Whether an abstract method fills a slot as seen from a class, where it is known as seen from its base. `fills` says
/// whether the class's method of the slot's name and signature fills that very slot.
fn abstract_from_base(
    names: &NameTables,
    key: MethodKey,
    class: ClassId,
    fills: bool,
    is_open: bool,
) -> bool
    ensures { result ≡ abstract_from_base names.now.classes.tree.now (method_of_key key.entry) class fills is_open }
{
    if !fills {
        return is_open;
    }
    match names.classes.method(class, key) {
        None => is_open,
        Some(method) => is_abstract_method(&method.kind),
    }
}

/// Whether the nearest method along a chain that fills a slot is abstract.
fn is_open(names: &NameTables, key: MethodKey, chain: &[ClassId], required: ClassId) -> bool
    ensures { result ≡ abstract_by_id names.now.classes.tree.now (method_of_key key.entry) required chain.now }
{
    let mut slot = None;
    let mut is_open = false;
    for index in (0..chain.len()).rev() {
        slot = slot_from_base(names, key, chain[index], slot);
        is_open = abstract_from_base(names, key, chain[index], is_slot(&slot, required), is_open);
    }
    is_open
}

/// Whether a slot that is known along one chain is filled by an abstract method along another.
fn is_slot_abstract(
    names: &NameTables,
    key: MethodKey,
    chain: &[ClassId],
    introduced: &[ClassId],
) -> bool
    ensures { result ≡ is_slot_abstract names.now.classes.tree.now (method_of_key key.entry) chain.now introduced.now }
{
    match slot_along(names, key, introduced) {
        None => false,
        Some(slot) => is_open(names, key, chain, slot),
    }
}

fn method_slot_is_abstract(
    names: &NameTables,
    chain: &[ClassId],
    introduced: &[ClassId],
    method: &Method,
) -> bool
    ensures { result ≡ method_slot_is_abstract names.now.classes.tree.now chain.now introduced.now method.now }
{
    if !is_virtual(&method.kind) {
        return false;
    }
    let key = MethodKey::new(&method.name, &method.signature);
    is_slot_abstract(names, key, chain, introduced)
}

/// The first of a class's methods whose slot is filled by an abstract method along a chain.
fn method_left_open(
    names: &NameTables,
    chain: &[ClassId],
    introduced: &[ClassId],
    methods: &[&Method],
) -> Option<usize>
    ensures { is_some result ≡ list_any (method_slot_is_abstract names.now.classes.tree.now chain.now introduced.now) (map (λ m. m.now) methods.now) }
{
    for (index, method) in methods.iter().enumerate() {
        if method_slot_is_abstract(names, chain, introduced, method) {
            return Some(index);
        }
    }
    None
}

/// The first method of a class whose slot is filled by an abstract method along a chain.
fn left_open_by(
    alloc: Global,
    names: &NameTables,
    chain: &[ClassId],
    class: ClassId,
) -> Result<Option<MethodId>, NoMemory>
    ensures { IfOk result (λ found. is_some found ≡ class_has_abstract_slot names.now.classes.tree.now chain.now class) }
{
    let Some(declared) = names.classes.class(class) else {
        return Ok(None);
    };
    let introduced = names.chain(alloc, declared.name)?;
    let methods = declared.methods.as_slice();
    match method_left_open(names, chain, introduced.as_slice(), methods) {
        None => Ok(None),
        Some(index) => Ok(Some(MethodId { class, index })),
    }
}

/// The first method of these classes whose slot is filled by an abstract method along a chain.
fn first_left_open(
    alloc: Global,
    names: &NameTables,
    chain: &[ClassId],
    classes: &[ClassId],
) -> Result<Option<MethodId>, NoMemory>
    ensures { IfOk result (λ found. is_some found ≡ list_any (class_has_abstract_slot names.now.classes.tree.now chain.now) classes.now) }
{
    for class in classes {
        if let Some(open) = left_open_by(alloc, names, chain, *class)? {
            return Ok(Some(open));
        }
    }
    Ok(None)
}

/// The first method of a class whose slot is filled by an abstract method along a chain; none where the class is not in the
/// chain.
fn left_open_in(
    alloc: Global,
    names: &NameTables,
    chain: &[ClassId],
    class: ClassId,
) -> Result<Option<MethodId>, NoMemory>
    ensures { IfOk result (λ found. is_some found ≡ true → list_any (class_has_abstract_slot names.now.classes.tree.now chain.now) chain.now ≡ true) }
{
    for along in chain {
        if *along == class {
            return left_open_by(alloc, names, chain, class);
        }
    }
    Ok(None)
}

/// A method that fills a slot with nothing along a chain, of the class that seems to leave one open.
fn open_suspect(
    alloc: Global,
    slots: &OpenSlots,
    chain: &[ClassId],
) -> Result<Option<MethodId>, NoMemory>
    ensures { IfOk result (λ found. is_some found ≡ true → list_any (class_has_abstract_slot slots.now.methods.now.names.now.classes.tree.now chain.now) chain.now ≡ true) }
{
    match slots.suspect(chain) {
        None => Ok(None),
        Some(class) => left_open_in(alloc, slots.methods.names, chain, class),
    }
}

/// A method that fills a slot with nothing along a chain.
fn open_along(
    alloc: Global,
    slots: &OpenSlots,
    chain: &[ClassId],
) -> Result<Option<MethodId>, NoMemory>
    ensures { IfOk result (λ found. is_some found ≡ list_any (class_has_abstract_slot slots.now.methods.now.names.now.classes.tree.now chain.now) chain.now) }
{
    if let Some(open) = open_suspect(alloc, slots, chain)? {
        return Ok(Some(open));
    }
    first_left_open(alloc, slots.methods.names, chain, chain)
}

/// A method that fills a slot with nothing along the chain of a class that is not known to have all abstract methods overridden.
fn slot_left_open(
    alloc: Global,
    slots: &OpenSlots,
    class: ClassId,
) -> Result<Option<MethodId>, NoMemory>
    ensures { IfOk result (λ found. is_some found ≡ list_any (class_has_abstract_slot slots.now.methods.now.names.now.classes.tree.now (line_of slots.now.methods.now.names.now.classes.tree.now (Some class))) (line_of slots.now.methods.now.names.now.classes.tree.now (Some class))) }
{
    let names = slots.methods.names;
    let line = names.line(alloc, class)?;
    open_along(alloc, slots, line.as_slice())
}

/// A method that fills a slot of the class with nothing, since it is abstract (ECMA-335 II.15.4.2). Where each abstract method of the
/// chain is known to be overridden, there is none, and no slot is looked at: so it is for each class of a legal program that is not
/// abstract. The only error is out of memory.
fn abstract_slot(
    alloc: Global,
    slots: &OpenSlots,
    class: ClassKey,
) -> Result<Option<MethodId>, NoMemory>
    ensures { IfOk result (λ found. is_some found ≡ has_abstract_slot slots.now.methods.now.names.now.classes.tree.now (class_of_key class.entry)) }
{
    let Some(number) = slots.methods.names.classes.id(class) else {
        return Ok(None);
    };
    if slots.is_decided(number) {
        return Ok(None);
    }
    slot_left_open(alloc, slots, number)
}

// ---- methods without newslot

/// A class's base.
fn base_id(names: &NameTables, class: &Class) -> Option<ClassId>
    ensures { result ≡ option_and_then (class_number names.now.classes.tree.now) (base_of names.now.classes.tree.now (source_name class.now)) }
{
    match names.classes.id(ClassKey::of_source(class)) {
        None => None,
        Some(number) => names.base(number),
    }
}

/// The class of a method, unless that is virtual.
fn unless_virtual(class: ClassId, method: &Method) -> Option<ClassId>
    ensures { is_some result ≡ not (is_virtual method.now.kind) }
{
    if is_virtual(&method.kind) {
        return None;
    }
    Some(class)
}

/// The class from one on along its bases with the nearest method of this name and signature, where that is not virtual.
fn nonvirtual_along(names: &NameTables, key: MethodKey, first: ClassId) -> Option<ClassId>
    ensures { is_some result ≡ concrete_by_id names.now.classes.tree.now (method_of_key key.entry) (line_of names.now.classes.tree.now (Some first)) }
{
    let mut next = Some(first);
    let mut left = names.classes.longest_chain();
    while left > 0 {
        let Some(class) = next else {
            return None;
        };
        if let Some(method) = names.classes.method(class, key) {
            return unless_virtual(class, method);
        }
        next = names.base(class);
        left -= 1;
    }
    None
}

/// A class, where its method of this name and signature is not virtual.
fn nonvirtual_at(names: &NameTables, key: MethodKey, class: ClassId) -> Option<ClassId>
    ensures { is_some result ≡ option_map_or (λ m. not (is_virtual m.kind)) (method_found names.now.classes.tree.now (method_of_key key.entry) class) false }
{
    match names.classes.method(class, key) {
        None => None,
        Some(method) => unless_virtual(class, method),
    }
}

/// The class that a look-up found, where its method of this name and signature is not virtual.
fn nonvirtual_found(names: &NameTables, key: MethodKey, found: Option<MethodId>) -> Option<ClassId>
    ensures { is_some result ≡ option_map_or (λ f. option_map_or (λ m. not (is_virtual m.kind)) (method_found names.now.classes.tree.now (method_of_key key.entry) f.class) false) found false }
{
    match found {
        None => None,
        Some(found) => nonvirtual_at(names, key, found.class),
    }
}

/// The class from one on along its bases with the nearest method of this name and signature, where that is not virtual. Only where the
/// bases do not end are they followed.
fn nonvirtual_base(methods: &MethodTables, key: MethodKey, base: Option<ClassId>) -> Option<ClassId>
    ensures { is_some result ≡ concrete_by_id methods.now.names.now.classes.tree.now (method_of_key key.entry) (line_of methods.now.names.now.classes.tree.now base) }
{
    let Some(base) = base else {
        return None;
    };
    match methods.nearest(base, key) {
        Ok(found) => nonvirtual_found(methods.names, key, found),
        Err(Cyclic) => nonvirtual_along(methods.names, key, base),
    }
}

/// The class whose method, which is not virtual, a virtual one without newslot would override (ECMA-335 II.10.3.1, this profile).
fn nonvirtual_below(methods: &MethodTables, class: &Class, method: &Method) -> Option<ClassId>
    ensures { is_some result ≡ overrides_no_virtual methods.now.names.now.classes.tree.now (source_name class.now) method.now }
{
    if !is_virtual(&method.kind) {
        return None;
    }
    if is_new_slot_method(&method.kind) {
        return None;
    }
    let key = MethodKey::new(&method.name, &method.signature);
    nonvirtual_base(methods, key, base_id(methods.names, class))
}

/// The first virtual method without newslot over one that is not virtual.
fn over_nonvirtual(tables: &MethodTables, class: &Class, methods: &[&Method]) -> Option<KindFault>
    ensures { is_some result ≡ list_any (overrides_no_virtual tables.now.names.now.classes.tree.now (source_name class.now)) (map (λ m. m.now) methods.now) }
{
    for (method, declared) in methods.iter().enumerate() {
        if let Some(base) = nonvirtual_below(tables, class, declared) {
            return Some(KindFault::OverNonvirtual { method, base });
        }
    }
    None
}

// ---- whole classes

fn abstract_method(methods: &[&Method]) -> Option<usize>
    ensures { is_some result ≡ list_any (λ m. is_abstract_method m.kind) (map (λ m. m.now) methods.now) }
{
    for (method, declared) in methods.iter().enumerate() {
        if is_abstract_method(&declared.kind) {
            return Some(method);
        }
    }
    None
}

/// What of a class that is not abstract is: a method, or what fills one of its slots.
fn incomplete(
    alloc: Global,
    slots: &OpenSlots,
    class: &Class,
    is_abstract: bool,
    methods: &[&Method],
) -> Result<Option<KindFault>, NoMemory>
    ensures { IfOk result (λ fault. is_none fault ≡ (is_abstract || (not (list_any (λ m. is_abstract_method m.kind) (map (λ m. m.now) methods.now)) && not (has_abstract_slot slots.now.methods.now.names.now.classes.tree.now (source_name class.now))))) }
{
    if is_abstract {
        return Ok(None);
    }
    if let Some(method) = abstract_method(methods) {
        return Ok(Some(KindFault::Abstract { method }));
    }
    match abstract_slot(alloc, slots, ClassKey::of_source(class))? {
        None => Ok(None),
        Some(open) => Ok(Some(KindFault::LeftOpen { open })),
    }
}

/// Whether a method is `newslot abstract virtual instance` (ECMA-335 II.12.1, this profile).
fn is_interface_method(method: &Method) -> bool
    ensures { result ≡ is_interface_method method.now }
{
    is_abstract_method(&method.kind) && is_new_slot_method(&method.kind)
}

fn interface_fault(methods: &[&Method]) -> Option<KindFault>
    ensures { is_none result ≡ list_all is_interface_method (map (λ m. m.now) methods.now) }
{
    for (method, declared) in methods.iter().enumerate() {
        if !is_interface_method(declared) {
            return Some(KindFault::InInterface { method });
        }
    }
    None
}

fn class_fault(
    alloc: Global,
    slots: &OpenSlots,
    class: &Class,
    is_abstract: bool,
    methods: &[&Method],
) -> Result<Option<KindFault>, NoMemory>
    ensures { IfOk result (λ fault. is_none fault ≡ ((is_abstract || (not (list_any (λ m. is_abstract_method m.kind) (map (λ m. m.now) methods.now)) && not (has_abstract_slot slots.now.methods.now.names.now.classes.tree.now (source_name class.now)))) && not (list_any (overrides_no_virtual slots.now.methods.now.names.now.classes.tree.now (source_name class.now)) (map (λ m. m.now) methods.now)))) }
{
    if let Some(fault) = incomplete(alloc, slots, class, is_abstract, methods)? {
        return Ok(Some(fault));
    }
    Ok(over_nonvirtual(slots.methods, class, methods))
}

/// The first method whose kind does not fit its class or what that inherits (ECMA-335 II.15.4.2). The only error is out of memory.
fn kind_fault(
    alloc: Global,
    slots: &OpenSlots,
    class: &Class,
) -> Result<Option<KindFault>, NoMemory>
    ensures { IfOk result (λ f. is_none f ≡ kinds_fit slots.now.methods.now.names.now.classes.tree.now class.now) }
{
    let methods = method_members(alloc, class)?;
    match &class.kind {
        ClassKind::Interface => Ok(interface_fault(methods.as_slice())),
        ClassKind::Class { is_abstract, .. } => {
            class_fault(alloc, slots, class, *is_abstract, methods.as_slice())
        }
    }
}

/// The first of these classes that has a method whose kind does not fit.
fn first_kind_mismatch(
    alloc: Global,
    slots: &OpenSlots,
    classes: &[Class],
) -> Result<Option<KindMismatch>, NoMemory>
    ensures { IfOk result (λ m. is_none m ≡ list_all (kinds_fit slots.now.methods.now.names.now.classes.tree.now) classes.now) }
{
    for (class, declared) in classes.iter().enumerate() {
        if let Some(fault) = kind_fault(alloc, slots, declared)? {
            return Ok(Some(KindMismatch { class, fault }));
        }
    }
    Ok(None)
}

/// The first method whose kind does not fit its class or what that inherits; none where there is none (number 205). The only error
/// is out of memory.
pub fn kind_mismatch<'a>(
    alloc: Global,
    methods: &'a MethodTables<'a>,
) -> Result<Option<KindMismatch>, NoMemory>
    ensures { IfOk result (λ m. is_some m ≡ has_kind_mismatch methods.now.names.now.classes.tree.now) }
{
    let slots = OpenSlots::new(alloc, methods)?;
    let names = methods.names;
    first_kind_mismatch(alloc, &slots, names.classes.tree.classes.as_slice())
}
