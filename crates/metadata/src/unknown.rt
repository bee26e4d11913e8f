//! Names that refer to nothing of the kind needed.

ghost use Rattle.std.specs.Prelude.{◌≡◌, ◌&&◌, ◌++◌, IfOk, Some, is_none, is_some, map, option_map, true};
ghost use Rattle.std.specs.List.{list_any, list_all};
ghost use Rattle.std.specs.Option.{option_map_or};
ghost use Rattle.cil_model.specs.Same.{same_text, same_class};
ghost use Rattle.cil_model.specs.Bodies.{labels_of, virtual_reference, constructor_reference};
ghost use Rattle.cil_model.specs.Chains.{find_field, find_method};
ghost use Rattle.cil_model.specs.Declarations.{source_class, is_interface_kind, interfaces_named, method_members};
ghost use Rattle.cil_model.specs.Mentions.{bases_named, class_of_element, owners_of_instruction, class_types_of_tree};
ghost use Rattle.cil_model.specs.Legality.{is_known_extern, is_resolved, is_source_class, is_source_interface, is_possible_base, is_possible_type, class_finds, finds_member, lacks_name};
ghost use Rattle.metadata.specs.NameChecks.{knows_names};
ghost use Rattle.name_tables.specs.Keys.{text_of_key};

use crate::duplicates::interfaces_named;
use crate::mentions::{SitedType, labels_of, owner_of_instruction, types_of_tree};
use crate::violations::{ClassFault, HeadingName, SourceMember, Unknown};
use cil_model::instructions::{FieldReference, Instruction, MethodReference};
use cil_model::memory::NoMemory;
use cil_model::texts::Text;
use cil_model::trees::{Class, ClassKind, Line, Method};
use cil_model::types::{ClassName, DeclaredType, Element, Signature};
use name_tables::bodies::{label_keys, lines_of};
use name_tables::classes::method_members;
use name_tables::key_indices::KeyIndices;
use name_tables::keys::{ClassKey, TextKey};
use name_tables::lookups::NameTables;
use std::alloc::Global;

// ---- names of assemblies and classes

/// Whether a text has these characters.
fn is_text(text: &Text, characters: &str) -> bool
    ensures { result ≡ same_text text.now characters.now }
{
    text.as_str() == characters
}

/// Whether an extern is one of the two libraries of this profile.
fn is_known_extern(name: &Text) -> bool
    ensures { result ≡ is_known_extern name.now }
{
    is_text(name, "mscorlib") || is_text(name, "cilvm")
}

/// The first extern that is none of the two libraries.
fn unknown_extern(externs: &[Text]) -> Option<usize>
    ensures { is_none result ≡ list_all is_known_extern externs.now }
{
    for (number, name) in externs.iter().enumerate() {
        if !is_known_extern(name) {
            return Some(number);
        }
    }
    None
}

/// Whether an extern of this name is declared. There are two at most where each is known and occurs once.
fn is_declared(externs: &[Text], assembly: &Text) -> bool
    ensures { result ≡ list_any (same_text assembly.now) externs.now }
{
    for name in externs {
        if assembly.is_same(name) {
            return true;
        }
    }
    false
}

/// Why a name with brackets is not of a built-in class of a declared extern; none where it is, and for a name without brackets.
fn bracket_fault(names: &NameTables, name: &ClassName) -> Option<ClassFault>
    ensures { is_none result ≡ is_resolved names.now.classes.tree.now name.now }
{
    let Some(assembly) = &name.assembly else {
        return None;
    };
    if !is_declared(names.classes.tree.externs.as_slice(), assembly) {
        return Some(ClassFault::NoExtern);
    }
    match names.classes.declared_class(ClassKey::of(name)) {
        None => Some(ClassFault::Absent),
        Some(_) => None,
    }
}

/// Whether the class of the source with this name is an interface; none where there is no such class.
fn is_interface_of_source(names: &NameTables, name: &ClassName) -> Option<bool>
    ensures { result ≡ option_map (λ c. is_interface_kind c.kind) (source_class names.now.classes.tree.now name.now) }
{
    if name.assembly.is_some() {
        return None;
    }
    match names.classes.declared_class(ClassKey::of(name)) {
        None => None,
        Some(class) => Some(class.is_interface),
    }
}

fn is_source_class(names: &NameTables, name: &ClassName) -> bool
    ensures { result ≡ is_source_class names.now.classes.tree.now name.now }
{
    match is_interface_of_source(names, name) {
        None => false,
        Some(is_interface) => !is_interface,
    }
}

fn is_source_interface(names: &NameTables, name: &ClassName) -> bool
    ensures { result ≡ is_source_interface names.now.classes.tree.now name.now }
{
    match is_interface_of_source(names, name) {
        None => false,
        Some(is_interface) => is_interface,
    }
}

/// Whether a name is this one of this assembly.
fn is_named(class: &ClassName, assembly: &str, name: &str) -> bool
    ensures { result ≡ same_class class.now (record { assembly = Some assembly.now; name = name.now }) }
{
    match &class.assembly {
        None => false,
        Some(own) => is_text(own, assembly) && is_text(&class.name, name),
    }
}

fn is_possible_base(names: &NameTables, name: &ClassName) -> bool
    ensures { result ≡ is_possible_base names.now.classes.tree.now name.now }
{
    if is_source_class(names, name) {
        return true;
    }
    if is_named(name, "mscorlib", "System.Object") {
        return true;
    }
    is_named(name, "cilvm", "Cilvm.Thread")
}

fn is_possible_type(names: &NameTables, name: &ClassName) -> bool
    ensures { result ≡ is_possible_type names.now.classes.tree.now name.now }
{
    if is_source_class(names, name) {
        return true;
    }
    if is_source_interface(names, name) {
        return true;
    }
    is_named(name, "cilvm", "Cilvm.Thread")
}

// ---- bases and interfaces

/// Why a class may not be written after `extends`.
fn base_fault(names: &NameTables, base: &ClassName) -> Option<ClassFault>
    ensures { is_none result ≡ (is_resolved names.now.classes.tree.now base.now && is_possible_base names.now.classes.tree.now base.now) }
{
    if let Some(fault) = bracket_fault(names, base) {
        return Some(fault);
    }
    if is_possible_base(names, base) {
        return None;
    }
    if base.assembly.is_some() {
        return Some(ClassFault::IsBuiltIn);
    }
    match is_interface_of_source(names, base) {
        None => Some(ClassFault::Absent),
        Some(_) => Some(ClassFault::IsInterface),
    }
}

/// Why a class may not be written after `implements`.
fn interface_fault(names: &NameTables, interface: &ClassName) -> Option<ClassFault>
    ensures { is_none result ≡ (is_resolved names.now.classes.tree.now interface.now && is_source_interface names.now.classes.tree.now interface.now) }
{
    if let Some(fault) = bracket_fault(names, interface) {
        return Some(fault);
    }
    if is_source_interface(names, interface) {
        return None;
    }
    match names.classes.declared_class(ClassKey::of(interface)) {
        None => Some(ClassFault::Absent),
        Some(_) => Some(ClassFault::IsClass),
    }
}

fn unknown_interface(names: &NameTables, class: usize, interfaces: &[ClassName]) -> Option<Unknown>
    ensures { is_none result ≡ list_all (λ i. is_resolved names.now.classes.tree.now i && is_source_interface names.now.classes.tree.now i) interfaces.now }
{
    for (entry, interface) in interfaces.iter().enumerate() {
        if let Some(fault) = interface_fault(names, interface) {
            let name = HeadingName::Interface(entry);
            return Some(Unknown::Heading { class, name, fault });
        }
    }
    None
}

fn unknown_in_heading(
    names: &NameTables,
    class: usize,
    base: &ClassName,
    interfaces: &[ClassName],
) -> Option<Unknown>
    ensures { is_none result ≡ (is_resolved names.now.classes.tree.now base.now && is_possible_base names.now.classes.tree.now base.now && list_all (λ i. is_resolved names.now.classes.tree.now i && is_source_interface names.now.classes.tree.now i) interfaces.now) }
{
    if let Some(fault) = base_fault(names, base) {
        let name = HeadingName::Base;
        return Some(Unknown::Heading { class, name, fault });
    }
    unknown_interface(names, class, interfaces)
}

/// The base of a class, or the first interface that it lists, that may not be written there.
fn unknown_by_class(names: &NameTables, class: usize, declared: &Class) -> Option<Unknown>
    ensures { is_none result ≡ (list_all (is_resolved names.now.classes.tree.now) (bases_named declared.now.kind ++ interfaces_named declared.now.kind) && class_finds names.now.classes.tree.now declared.now) }
{
    match &declared.kind {
        ClassKind::Interface => None,
        ClassKind::Class {
            base,
            interfaces,
            ..
        } => unknown_in_heading(names, class, base, interfaces.as_slice()),
    }
}

fn unknown_in_headings(names: &NameTables) -> Option<Unknown>
    ensures { is_none result ≡ list_all (λ c. list_all (is_resolved names.now.classes.tree.now) (bases_named c.kind ++ interfaces_named c.kind) && class_finds names.now.classes.tree.now c) names.now.classes.tree.now.classes }
{
    for (class, declared) in names.classes.tree.classes.as_slice().iter().enumerate() {
        if let Some(unknown) = unknown_by_class(names, class, declared) {
            return Some(unknown);
        }
    }
    None
}

// ---- types

/// Why the class that a type names, where it names one, may not be written there.
fn type_fault(names: &NameTables, declared: &DeclaredType) -> Option<ClassFault>
    ensures { is_none result ≡ option_map_or (λ c. is_resolved names.now.classes.tree.now c && is_possible_type names.now.classes.tree.now c) (class_of_element declared.now.element) true }
{
    let Element::Class(class) = &declared.element else {
        return None;
    };
    if let Some(fault) = bracket_fault(names, class) {
        return Some(fault);
    }
    if is_possible_type(names, class) {
        return None;
    }
    match &class.assembly {
        None => Some(ClassFault::Absent),
        Some(_) => Some(ClassFault::IsBuiltIn),
    }
}

fn unknown_among_types(names: &NameTables, types: &[SitedType]) -> Option<Unknown>
    ensures { is_none result ≡ list_all (λ t. option_map_or (λ c. is_resolved names.now.classes.tree.now c && is_possible_type names.now.classes.tree.now c) (class_of_element t.element) true) (map (λ t. t.declared.now) types.now) }
{
    for sited in types {
        if let Some(fault) = type_fault(names, sited.declared) {
            let site = sited.site;
            return Some(Unknown::Type { site, fault });
        }
    }
    None
}

// ---- labels

fn has_label<'a>(labels: &KeyIndices<TextKey<'a>>, label: &'a Text) -> bool
    ensures { result ≡ list_any (same_text label.now) (map text_of_key labels.now) }
{
    labels.first(TextKey { text: label }).is_some()
}

/// The first label of these that the method does not have.
fn missing_label<'a>(labels: &KeyIndices<TextKey<'a>>, required: &'a [Text]) -> Option<usize>
    ensures { is_none result ≡ list_all (λ w. list_any (same_text w) (map text_of_key labels.now)) required.now }
{
    for (target, label) in required.iter().enumerate() {
        if !has_label(labels, label) {
            return Some(target);
        }
    }
    None
}

// ---- members

fn finds_field(names: &NameTables, is_static: bool, reference: &FieldReference) -> bool
    ensures { result ≡ is_some (find_field names.now.classes.tree.now is_static reference.now) }
{
    names.find_field(is_static, reference).is_some()
}

fn finds_method(names: &NameTables, is_instance: bool, reference: &MethodReference) -> bool
    ensures { result ≡ is_some (find_method names.now.classes.tree.now is_instance reference.now) }
{
    names.find_method(is_instance, reference).is_some()
}

fn finds_virtual(names: &NameTables, owner: &ClassName, name: &Text, signature: &Signature) -> bool
    ensures { result ≡ is_some (find_method names.now.classes.tree.now true (virtual_reference owner.now name.now signature.now)) }
{
    names.find_virtual(owner, name, signature).is_some()
}

fn finds_constructor(names: &NameTables, class: &ClassName, parameters: &[DeclaredType]) -> bool
    ensures { result ≡ is_some (find_method names.now.classes.tree.now true (constructor_reference class.now parameters.now)) }
{
    names.find_constructor(class, parameters).is_some()
}

/// Whether the member that an instruction names, where it names one, is there.
fn finds_member(names: &NameTables, instruction: &Instruction) -> bool
    ensures { result ≡ finds_member names.now.classes.tree.now instruction.now }
{
    match instruction {
        Instruction::LoadField(reference) | Instruction::StoreField(reference) => {
            finds_field(names, false, reference)
        }
        Instruction::LoadStaticField(reference) | Instruction::StoreStaticField(reference) => {
            finds_field(names, true, reference)
        }
        Instruction::Call {
            is_instance,
            method,
        } => finds_method(names, *is_instance, method),
        Instruction::CallVirtual {
            owner,
            name,
            signature,
        } => finds_virtual(names, owner, name, signature),
        Instruction::NewObject(class, parameters) => {
            finds_constructor(names, class, parameters.as_slice())
        }
        _ => true,
    }
}

/// An instruction by its number in a method of the source.
#[derive(Clone, Copy)]
struct LineSite {
    method: SourceMember,
    line: usize,
}

/// Why the owner that an instruction names, where it names one, is not of a declared extern.
fn owner_fault(names: &NameTables, instruction: &Instruction) -> Option<ClassFault>
    ensures { is_none result ≡ list_all (is_resolved names.now.classes.tree.now) (owners_of_instruction instruction.now) }
{
    match owner_of_instruction(instruction) {
        None => None,
        Some(owner) => bracket_fault(names, owner),
    }
}

/// A member that is not there, or its owner, where that is not.
fn absent_member(names: &NameTables, at: LineSite, instruction: &Instruction) -> Unknown {
    let LineSite { method, line } = at;
    let owner = owner_of_instruction(instruction).map(|owner| ClassKey::of(owner));
    match owner {
        Some(owner) if names.classes.declared_class(owner).is_none() => Unknown::Owner {
            method,
            line,
            fault: ClassFault::Absent,
        },
        _ => Unknown::Member { method, line },
    }
}

/// The owner or the member that an instruction names, where it names one, and it is not there.
fn unknown_member(names: &NameTables, at: LineSite, instruction: &Instruction) -> Option<Unknown>
    ensures { is_none result ≡ (list_all (is_resolved names.now.classes.tree.now) (owners_of_instruction instruction.now) && finds_member names.now.classes.tree.now instruction.now) }
{
    let LineSite { method, line } = at;
    if let Some(fault) = owner_fault(names, instruction) {
        return Some(Unknown::Owner {
            method,
            line,
            fault,
        });
    }
    if finds_member(names, instruction) {
        return None;
    }
    Some(absent_member(names, at, instruction))
}

/// What an instruction names that is not there: the owner of a member, the member, or a label.
fn unknown_by_line<'a>(
    names: &NameTables,
    labels: &KeyIndices<TextKey<'a>>,
    at: LineSite,
    instruction: &'a Instruction,
) -> Option<Unknown>
    ensures { is_none result ≡ ((list_all (is_resolved names.now.classes.tree.now) (owners_of_instruction instruction.now) && finds_member names.now.classes.tree.now instruction.now) && list_all (λ w. list_any (same_text w) (map text_of_key labels.now)) (labels_of instruction.now)) }
{
    if let Some(unknown) = unknown_member(names, at, instruction) {
        return Some(unknown);
    }
    let LineSite { method, line } = at;
    match missing_label(labels, labels_of(instruction)) {
        None => None,
        Some(target) => Some(Unknown::Label {
            method,
            line,
            target,
        }),
    }
}

fn unknown_by_lines<'a>(
    names: &NameTables,
    labels: &KeyIndices<TextKey<'a>>,
    method: SourceMember,
    lines: &'a [Line],
) -> Option<Unknown>
    ensures { is_none result ≡ list_all (λ x. (list_all (is_resolved names.now.classes.tree.now) (owners_of_instruction x.instruction) && finds_member names.now.classes.tree.now x.instruction) && list_all (λ w. list_any (same_text w) (map text_of_key labels.now)) (labels_of x.instruction)) lines.now }
{
    for (line, code) in lines.iter().enumerate() {
        let at = LineSite { method, line };
        if let Some(unknown) = unknown_by_line(names, labels, at, &code.instruction) {
            return Some(unknown);
        }
    }
    None
}

/// What the code of a method names that is not there, types apart. The only error is out of memory.
fn unknown_by_method(
    alloc: Global,
    names: &NameTables,
    method: SourceMember,
    declared: &Method,
) -> Result<Option<Unknown>, NoMemory>
    ensures { IfOk result (λ u. is_none u ≡ knows_names names.now.classes.tree.now declared.now) }
{
    let labels = KeyIndices::new(alloc, label_keys(alloc, declared)?)?;
    Ok(unknown_by_lines(names, &labels, method, lines_of(declared)))
}

/// What the code of these methods of a class names that is not there.
fn unknown_in_methods(
    alloc: Global,
    names: &NameTables,
    class: usize,
    methods: &[&Method],
) -> Result<Option<Unknown>, NoMemory>
    ensures { IfOk result (λ u. is_none u ≡ list_all (knows_names names.now.classes.tree.now) (map (λ m. m.now) methods.now)) }
{
    for (index, method) in methods.iter().enumerate() {
        let site = SourceMember { class, index };
        if let Some(unknown) = unknown_by_method(alloc, names, site, method)? {
            return Ok(Some(unknown));
        }
    }
    Ok(None)
}

fn unknown_by_methods(
    alloc: Global,
    names: &NameTables,
    class: usize,
    declared: &Class,
) -> Result<Option<Unknown>, NoMemory>
    ensures { IfOk result (λ u. is_none u ≡ list_all (knows_names names.now.classes.tree.now) (method_members declared.now)) }
{
    let methods = method_members(alloc, declared)?;
    unknown_in_methods(alloc, names, class, methods.as_slice())
}

// ---- the whole tree

fn unknown_in_types(alloc: Global, names: &NameTables) -> Result<Option<Unknown>, NoMemory>
    ensures { IfOk result (λ u. is_none u ≡ (list_all (is_resolved names.now.classes.tree.now) (class_types_of_tree names.now.classes.tree.now) && list_all (is_possible_type names.now.classes.tree.now) (class_types_of_tree names.now.classes.tree.now))) }
{
    let types = types_of_tree(alloc, names.classes.tree)?;
    Ok(unknown_among_types(names, types.as_slice()))
}

fn unknown_in_code(alloc: Global, names: &NameTables) -> Result<Option<Unknown>, NoMemory>
    ensures { IfOk result (λ u. is_none u ≡ list_all (λ c. list_all (knows_names names.now.classes.tree.now) (method_members c)) names.now.classes.tree.now.classes) }
{
    for (class, declared) in names.classes.tree.classes.as_slice().iter().enumerate() {
        if let Some(unknown) = unknown_by_methods(alloc, names, class, declared)? {
            return Ok(Some(unknown));
        }
    }
    Ok(None)
}

/// The first name of the tree that refers to nothing of the kind needed there; none where there is none (number 202). The only
/// error is out of memory.
pub fn unknown_name(alloc: Global, names: &NameTables) -> Result<Option<Unknown>, NoMemory>
    ensures { IfOk result (λ u. is_some u ≡ lacks_name names.now.classes.tree.now) }
{
    if let Some(number) = unknown_extern(names.classes.tree.externs.as_slice()) {
        return Ok(Some(Unknown::Extern(number)));
    }
    if let Some(unknown) = unknown_in_headings(names) {
        return Ok(Some(unknown));
    }
    if let Some(unknown) = unknown_in_types(alloc, names)? {
        return Ok(Some(unknown));
    }
    unknown_in_code(alloc, names)
}
