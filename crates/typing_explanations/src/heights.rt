//! The height of the stack that a method needs.

ghost use Rattle.std.specs.Prelude.{◌≤◌, IfOk, length};

use flow_rules::type_tree::{TypeTree, type_of_class};
use resolved_code::Program;
use resolved_code::classes::{Body, ResolvedKind, ResolvedMethod, body_of};
use resolved_code::types::ResolvedType;
use source_positions::cil_model::limits::MOST_STACK;
use source_positions::cil_model::memory::NoMemory;
use source_positions::method_of_number;
use source_positions::name_tables::ids::{ClassId, MethodId};
use std::alloc::Global;
use verifier::Typing;
use verifier::failures::TypingError;
use verifier::search::find_typing_within;

/// The height of the highest stack of a typing.
fn height_of(typing: &Typing) -> usize {
    let mut height = 0usize;
    for stack in typing.as_slice() {
        if let Some(stack) = stack {
            height = height.max(stack.len());
        }
    }
    height
}

/// The id of a method of a source. None where it has no such method.
fn method_id(program: &Program, method: usize) -> Option<MethodId> {
    let sources = program.tree().classes.as_slice();
    let found = method_of_number(sources, method)?;
    let built_in = program.classes().len().checked_sub(sources.len())?;
    Some(MethodId {
        class: ClassId::new(found.class.checked_add(built_in)?),
        index: found.index,
    })
}

/// The types of the arguments of a method of a class.
fn arguments_of(
    alloc: Global,
    class: ClassId,
    method: &ResolvedMethod,
) -> Result<Vec<ResolvedType>, NoMemory>
    ensures { IfOk result (λ arguments. length method.now.parameters ≤ length arguments.items) }
{
    let mut arguments = Vec::new(alloc);
    if !matches!(method.kind, ResolvedKind::Static(_)) {
        arguments.push(type_of_class(class))?;
    }
    arguments.extend_from_slice(method.parameters.as_slice())?;
    Ok(arguments)
}

/// The height of the stack that a method with code needs; an error where it has no typing with the largest `.maxstack` either.
fn height_of_body(
    alloc: Global,
    program: &Program,
    class: ClassId,
    method: &ResolvedMethod,
    body: &Body,
) -> Result<usize, TypingError> {
    let types = TypeTree::new(program.tree(), program.classes(), alloc)?;
    let arguments = arguments_of(alloc, class, method)?;
    let typing = find_typing_within(
        &types,
        arguments.as_slice(),
        method.return_type,
        body,
        MOST_STACK as usize,
        alloc,
    )?;
    Ok(height_of(&typing))
}

/// The height of the stack that a method of a source needs, by the method's number in the source, whatever its `.maxstack` is; an error where it
/// has no typing with the largest `.maxstack` either. None where the program has no code for it.
pub fn needed_height(
    alloc: Global,
    program: &Program,
    method: usize,
) -> Result<Option<usize>, TypingError> {
    let Some(id) = method_id(program, method) else {
        return Ok(None);
    };
    let class = id.class;
    let Some(resolved) = program.method(id) else {
        return Ok(None);
    };
    match body_of(&resolved.kind) {
        None => Ok(None),
        Some(body) => {
            let height = height_of_body(alloc, program, class, resolved, body)?;
            Ok(Some(height))
        }
    }
}
