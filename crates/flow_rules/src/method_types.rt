//! The types of a method's arguments, locals and result.

use crate::type_tree::TypeTree;
use resolved_code::types::ResolvedType;

/// What the flow rule requires of a method: the types of its program, those of its arguments and locals, and the type that it returns;
/// none is `void`.
pub struct MethodTypes<'a> {
    pub types: &'a TypeTree<'a>,
    pub arguments: &'a [ResolvedType],
    pub locals: &'a [ResolvedType],
    pub return_type: Option<ResolvedType>,
}
