//! What calls need to know of methods, taken from their resolved forms.

ghost use Rattle.std.specs.Prelude.{◌≡◌, IfOk, map};
ghost use Rattle.cil_model.specs.declared.trees.Tree.{Tree};
ghost use Rattle.cil_model.specs.ValueKinds.{kind_of_type};
ghost use Rattle.resolved_code.specs.ById.{types_named};
ghost use Rattle.loaded_program.specs.ResolvedKinds.{resolved_locals, operand_count};

use cil_model::memory::NoMemory;
use object_memory::ValueKind;
use resolved_code::classes::{ResolvedKind, ResolvedMethod};
use resolved_code::types::ResolvedType;
use std::alloc::Global;

/// The types of the locals; none where there is no code (ECMA-335 II.15.4.1.3).
fn locals_of(kind: &ResolvedKind) -> &[ResolvedType]
    ensures { result.now ≡ resolved_locals kind.now }
{
    match kind {
        ResolvedKind::Static(body) => body.locals.as_slice(),
        ResolvedKind::Instance(body) => body.locals.as_slice(),
        ResolvedKind::Virtual { body, .. } => body.locals.as_slice(),
        ResolvedKind::Abstract { .. } => &[],
    }
}

/// What the locals hold, in their order. The only error is out of memory.
pub(crate) fn local_kinds(alloc: Global, kind: &ResolvedKind) -> Result<Vec<ValueKind>, NoMemory>
    ensures { IfOk result (λ v. (tree : Tree) → v.items ≡ map kind_of_type (types_named tree (resolved_locals kind.now))) }
{
    let types = locals_of(kind);
    let mut kinds = Vec::with_capacity(alloc, types.len())?;
    for resolved in types {
        kinds.push(resolved.kind())?;
    }
    Ok(kinds)
}

/// How many operands a call takes, `this` counted.
pub(crate) fn argument_count(method: &ResolvedMethod) -> usize
    ensures { result ≡ operand_count method.now }
{
    let parameters = method.parameters.as_slice();
    if matches!(method.kind, ResolvedKind::Static(_)) {
        parameters.len()
    } else {
        parameters.len() + 1
    }
}
