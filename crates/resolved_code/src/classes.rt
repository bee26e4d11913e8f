//! Classes with their members, the types of these by number (ECMA-335 II.10 to II.16).

ghost use Rattle.std.specs.Prelude.{option_map};
ghost use Rattle.cil_model.specs.Bodies.{code_of};
ghost use Rattle.cil_model.specs.declared.trees.MethodKind.{MethodKind};
ghost use Rattle.cil_model.specs.declared.trees.Tree.{Tree};
ghost use Rattle.resolved_code.specs.ResolvedPrograms.{BothAlike, IsBody, IsResolvedKind};

use crate::operations::Operation;
use crate::types::ResolvedType;
use cil_model::sequences::Sequence;
use name_tables::ids::ClassId;

/// A field (ECMA-335 II.16).
#[derive(Clone, Copy)]
pub struct ResolvedField {
    pub is_static: bool,
    pub field_type: ResolvedType,
}

/// A method's body (ECMA-335 II.15.4).
#[derive(Drop)]
pub struct Body {
    pub max_stack: i64,
    pub locals: Sequence<ResolvedType>,
    pub operations: Sequence<Operation>,
}

/// What a method is, with its code where it has some (ECMA-335 II.15.2 and II.15.4.2).
#[derive(Drop)]
pub enum ResolvedKind {
    Static(Body),
    Instance(Body),
    Virtual { is_new_slot: bool, body: Body },
    Abstract { is_new_slot: bool },
}

/// A method (ECMA-335 II.15). Methods have one `identity` exactly where they have the same name and signature. No return type is
/// `void`.
#[derive(Drop)]
pub struct ResolvedMethod {
    pub identity: usize,
    pub parameters: Sequence<ResolvedType>,
    pub return_type: Option<ResolvedType>,
    pub kind: ResolvedKind,
}

/// A class or an interface (ECMA-335 II.10): its base and interfaces by their ids, its fields and methods in source order.
#[derive(Drop)]
pub struct ResolvedClass {
    pub is_interface: bool,
    pub is_abstract: bool,
    pub base: Option<ClassId>,
    pub interfaces: Sequence<ClassId>,
    pub fields: Sequence<ResolvedField>,
    pub methods: Sequence<ResolvedMethod>,
}

/// The body of a method that has code (ECMA-335 II.15.4.2). None of an abstract one.
pub fn body_of(kind: &ResolvedKind) -> Option<&Body>
    ensures { (tree : Tree) (named : MethodKind) → IsResolvedKind tree named kind.now → BothAlike (IsBody tree) (code_of named) (option_map (λ b. b.now) result) }
{
    match kind {
        ResolvedKind::Static(body)
        | ResolvedKind::Instance(body)
        | ResolvedKind::Virtual { body, .. } => Some(body),
        ResolvedKind::Abstract { .. } => None,
    }
}
