//! Limits that are exceeded, all of which are this profile's.

ghost use Rattle.std.specs.Prelude.{◌≡◌, ◌≤◌, ◌+◌, ◌&&◌, nat_le, int_le, pos, IfOk, is_none, is_some, length, map, sum, count_by};
ghost use Rattle.std.specs.List.{list_all, sum_by};
ghost use Rattle.cil_model.specs.declared.limits.TheConstants.{MOST_CLASSES, MOST_METHODS, MOST_INSTANCE_FIELDS, MOST_STATIC_FIELDS, MOST_BRACKETS, MOST_ARGUMENTS};
ghost use Rattle.cil_model.specs.Same.{same_flag};
ghost use Rattle.cil_model.specs.Chains.{fields_declared};
ghost use Rattle.cil_model.specs.Bodies.{argument_types};
ghost use Rattle.cil_model.specs.Fields.{instance_fields, static_fields};
ghost use Rattle.cil_model.specs.Mentions.{codes_of, instructions_of, methods_of_tree, types_of_tree};
ghost use Rattle.cil_model.specs.Legality.{is_small_instruction, is_small_code, is_small_method, is_small_class, passes_limit};
ghost use Rattle.cil_model.specs.declared.types.ClassName.{ClassName};
ghost use Rattle.metadata.specs.Counts.{instance_count, static_count};

use crate::mentions::{SitedType, types_of_tree};
use crate::violations::{ExceededLimit, MethodLimit, SourceMember};
use cil_model::instructions::Instruction;
use cil_model::limits::{
    MOST_ARGUMENTS, MOST_BRACKETS, MOST_CLASSES, MOST_INSTANCE_FIELDS, MOST_INSTRUCTIONS,
    MOST_LOCALS, MOST_METHODS, MOST_STACK, MOST_STATIC_FIELDS, MOST_TARGETS,
};
use cil_model::memory::NoMemory;
use cil_model::trees::{Class, Code, Field, Line, Method};
use name_tables::bodies::{code_of, lines_of};
use name_tables::classes::method_members;
use name_tables::ids::ClassId;
use name_tables::keys::ClassKey;
use name_tables::kinds::is_static;
use name_tables::lookups::NameTables;
use name_tables::trees::methods_of_tree;
use std::alloc::Global;

// ---- code

fn is_small_instruction(instruction: &Instruction) -> bool
    ensures { result ≡ is_small_instruction instruction.now }
{
    match instruction {
        Instruction::Switch(labels) => labels.as_slice().len() <= MOST_TARGETS,
        Instruction::NewArray(declared) => declared.brackets < MOST_BRACKETS,
        _ => true,
    }
}

/// The first line whose instruction exceeds a limit.
fn exceeded_by_lines(lines: &[Line]) -> Option<MethodLimit>
    ensures { is_none result ≡ list_all is_small_instruction (map (λ l. l.instruction) lines.now) }
{
    for (number, line) in lines.iter().enumerate() {
        if !is_small_instruction(&line.instruction) {
            return Some(MethodLimit::Line(number));
        }
    }
    None
}

fn exceeded_by_body(code: &Code) -> Option<MethodLimit>
    ensures { is_none result ≡ is_small_code code.now }
{
    if code.lines.as_slice().len() > MOST_INSTRUCTIONS {
        return Some(MethodLimit::Instructions);
    }
    if code.locals.as_slice().len() > MOST_LOCALS {
        return Some(MethodLimit::Locals);
    }
    if code.max_stack < 0 {
        return Some(MethodLimit::MaxStack);
    }
    if code.max_stack > MOST_STACK {
        return Some(MethodLimit::MaxStack);
    }
    None
}

fn exceeded_by_code(method: &Method) -> Option<MethodLimit>
    ensures { is_none result ≡ list_all is_small_code (codes_of method.now) }
{
    match code_of(&method.kind) {
        None => None,
        Some(code) => exceeded_by_body(code),
    }
}

/// Whether a method has no more arguments than it may have, including `this`.
fn has_few_arguments(method: &Method) -> bool
    ensures { (o : ClassName) → result ≡ nat_le (length (argument_types method.now o)) MOST_ARGUMENTS }
{
    let parameters = method.signature.parameters.as_slice().len();
    if is_static(&method.kind) {
        parameters <= MOST_ARGUMENTS
    } else {
        parameters < MOST_ARGUMENTS
    }
}

fn exceeded_by_method(method: &Method) -> Option<MethodLimit>
    ensures { (o : ClassName) → is_none result ≡ is_small_method o method.now }
{
    if !has_few_arguments(method) {
        return Some(MethodLimit::Arguments);
    }
    if let Some(limit) = exceeded_by_code(method) {
        return Some(limit);
    }
    exceeded_by_lines(lines_of(method))
}

/// The first method that exceeds a limit of methods.
fn exceeded_by_methods(class: usize, methods: &[&Method]) -> Option<ExceededLimit>
    ensures { (o : ClassName) → is_none result ≡ list_all (is_small_method o) (map (λ m. m.now) methods.now) }
{
    for (index, declared) in methods.iter().enumerate() {
        if let Some(limit) = exceeded_by_method(declared) {
            let method = SourceMember { class, index };
            return Some(ExceededLimit::Method { method, limit });
        }
    }
    None
}

// ---- types

/// The first type with too many brackets.
fn exceeded_by_types(types: &[SitedType]) -> Option<ExceededLimit>
    ensures { is_none result ≡ list_all (λ t. nat_le t.brackets MOST_BRACKETS) (map (λ t. t.declared.now) types.now) }
{
    for sited in types {
        if sited.declared.brackets > MOST_BRACKETS {
            return Some(ExceededLimit::Brackets(sited.site));
        }
    }
    None
}

// ---- fields

fn count_fields(fields: &[&Field], is_static: bool) -> usize
    ensures { result ≡ count_by (λ f. same_flag f.is_static is_static) (map (λ f. f.now) fields.now) }
{
    fields
        .iter()
        .filter(|field| field.is_static == is_static)
        .count()
}

/// How many instance fields a class declares.
fn count_instance_fields(names: &NameTables, class: ClassId) -> usize
    ensures { result ≡ instance_count names.now.classes.tree.now class }
{
    match names.classes.class(class) {
        None => 0,
        Some(declared) => count_fields(declared.fields.as_slice(), false),
    }
}

/// How many static fields the class with the name of this one declares.
fn count_static_fields(names: &NameTables, class: &Class) -> usize
    ensures { result ≡ static_count names.now.classes.tree.now class.now }
{
    match names.classes.declared_class(ClassKey::of_source(class)) {
        None => 0,
        Some(declared) => count_fields(declared.fields.as_slice(), true),
    }
}

fn has_few_instance_fields(names: &NameTables, chain: &[ClassId]) -> bool
    ensures { result ≡ nat_le (sum_by (instance_count names.now.classes.tree.now) chain.now) MOST_INSTANCE_FIELDS }
{
    let mut left = MOST_INSTANCE_FIELDS;
    for class in chain {
        let own = count_instance_fields(names, *class);
        if own > left {
            return false;
        }
        left -= own;
    }
    true
}

/// The first static field of the source that is too many.
fn exceeded_by_static_fields(names: &NameTables, classes: &[Class]) -> Option<ExceededLimit>
    ensures { is_none result ≡ nat_le (sum_by (static_count names.now.classes.tree.now) classes.now) MOST_STATIC_FIELDS }
{
    let mut left = MOST_STATIC_FIELDS;
    for (class, declared) in classes.iter().enumerate() {
        let own = count_static_fields(names, declared);
        if own > left {
            return Some(ExceededLimit::StaticFields { class, index: left });
        }
        left -= own;
    }
    None
}

// ---- the whole tree

/// What a class exceeds: the limit of the fields of its objects, or one of a method. The only error is out of memory.
fn exceeded_by_class(
    alloc: Global,
    names: &NameTables,
    number: usize,
    class: &Class,
) -> Result<Option<ExceededLimit>, NoMemory>
    ensures { IfOk result (λ p. is_none p ≡ is_small_class names.now.classes.tree.now class.now) }
{
    let chain = names.chain(alloc, ClassKey::of_source(class))?;
    if !has_few_instance_fields(names, chain.as_slice()) {
        return Ok(Some(ExceededLimit::InstanceFields { class: number }));
    }
    let methods = method_members(alloc, class)?;
    Ok(exceeded_by_methods(number, methods.as_slice()))
}

fn exceeded_by_classes(alloc: Global, names: &NameTables) -> Result<Option<ExceededLimit>, NoMemory>
    ensures { IfOk result (λ p. is_none p ≡ list_all (is_small_class names.now.classes.tree.now) names.now.classes.tree.now.classes) }
{
    for (number, class) in names.classes.tree.classes.as_slice().iter().enumerate() {
        if let Some(limit) = exceeded_by_class(alloc, names, number, class)? {
            return Ok(Some(limit));
        }
    }
    Ok(None)
}

fn has_few_methods(alloc: Global, names: &NameTables) -> Result<bool, NoMemory>
    ensures { IfOk result (λ b. b ≡ nat_le (length (methods_of_tree names.now.classes.tree.now)) MOST_METHODS) }
{
    Ok(methods_of_tree(alloc, names.classes.tree)?.len() <= MOST_METHODS)
}

fn exceeded_by_all_types(
    alloc: Global,
    names: &NameTables,
) -> Result<Option<ExceededLimit>, NoMemory>
    ensures { IfOk result (λ p. is_none p ≡ list_all (λ t. nat_le t.brackets MOST_BRACKETS) (types_of_tree names.now.classes.tree.now)) }
{
    let types = types_of_tree(alloc, names.classes.tree)?;
    Ok(exceeded_by_types(types.as_slice()))
}

/// The first limit that the source exceeds; none where there is none (number 207). The only error is out of memory.
pub fn exceeded_limit(alloc: Global, names: &NameTables) -> Result<Option<ExceededLimit>, NoMemory>
    ensures { IfOk result (λ p. is_some p ≡ passes_limit names.now.classes.tree.now) }
{
    let classes = names.classes.tree.classes.as_slice();
    if classes.len() > MOST_CLASSES {
        return Ok(Some(ExceededLimit::Classes));
    }
    if !has_few_methods(alloc, names)? {
        return Ok(Some(ExceededLimit::Methods));
    }
    if let Some(limit) = exceeded_by_static_fields(names, classes) {
        return Ok(Some(limit));
    }
    if let Some(limit) = exceeded_by_all_types(alloc, names)? {
        return Ok(Some(limit));
    }
    exceeded_by_classes(alloc, names)
}
