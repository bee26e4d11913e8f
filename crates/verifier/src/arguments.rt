//! The types of a method's arguments, and its code.

ghost use Rattle.std.specs.Prelude.{◌≡◌, IfOk, Some};
ghost use Rattle.cil_model.specs.declared.trees.Tree.{Tree};
ghost use Rattle.cil_model.specs.declared.trees.Method.{Method};
ghost use Rattle.cil_model.specs.declared.trees.MethodKind.{MethodKind};
ghost use Rattle.cil_model.specs.declared.types.ClassName.{ClassName};
ghost use Rattle.cil_model.specs.Bodies.{argument_types};
ghost use Rattle.cil_model.specs.Chains.{is_static};
ghost use Rattle.flow_rules.specs.StackTypes.{types_named};
ghost use Rattle.resolved_code.specs.ResolvedPrograms.{IsResolvedKind, IsResolvedMethod};
ghost use Rattle.resolved_code.specs.ById.{class_name};

use cil_model::memory::NoMemory;
use flow_rules::type_tree::type_of_class;
use name_tables::ids::ClassId;
use resolved_code::classes::{ResolvedKind, ResolvedMethod};
use resolved_code::types::ResolvedType;
use std::alloc::Global;

/// A method that belongs to its class and not to objects (ECMA-335 II.15.2).
fn is_static(kind: &ResolvedKind) -> bool
    ensures { (tree : Tree) (named : MethodKind) → IsResolvedKind tree named kind.now → result ≡ is_static named }
{
    match kind {
        ResolvedKind::Static(_) => true,
        ResolvedKind::Instance(_) => false,
        ResolvedKind::Virtual { .. } => false,
        ResolvedKind::Abstract { .. } => false,
    }
}

/// The types of a method's arguments: its class's first, where it is not static (ECMA-335 II.15.3).
#[tactic(auto, using(crate::proofs::ArgumentLaws::static_arguments, crate::proofs::ArgumentLaws::instance_arguments))]
pub(crate) fn arguments_of(
    alloc: Global,
    class: ClassId,
    method: &ResolvedMethod,
) -> Result<Vec<ResolvedType>, NoMemory>
    ensures { (tree : Tree) (owner : ClassName) (m : Method) → class_name tree class ≡ Some owner → IsResolvedMethod tree m method.now →
        IfOk result (λ types. types_named tree types.items ≡ argument_types m owner) }
{
    let mut types = Vec::new(alloc);
    if !is_static(&method.kind) {
        types.push(type_of_class(class))?;
    }
    types.extend_from_slice(method.parameters.as_slice())?;
    Ok(types)
}
