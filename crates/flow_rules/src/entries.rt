//! What a verifier knows of a value on the stack, and the tests that the flow rule makes of it.

ghost use Rattle.std.specs.Prelude.{◌≡◌};
ghost use Rattle.cil_model.specs.declared.trees.Tree.{Tree};
ghost use Rattle.cil_model.specs.Assignable.{is_reference};
ghost use Rattle.cil_model.specs.FlowRules.{is_int32_type, is_int64_type, is_int32, is_int64, is_integer, is_any_reference, is_index, are_integers, are_comparable};
ghost use Rattle.flow_rules.specs.StackTypes.{type_named, stack_type};

use cil_model::values::ValueKind;
use resolved_code::types::{ResolvedElement, ResolvedType};

/// What a verifier knows of a value on the stack (ECMA-335 III.1.8.1.2.1): the type that it was declared with, that it is a native
/// integer, or that it is null.
#[derive(Clone, Copy, PartialEq, Eq)]
pub enum StackEntry {
    Declared(ResolvedType),
    NativeInt,
    Null,
}

/// A 32-bit integer (ECMA-335 I.12.1).
pub fn is_int32_type(t: ResolvedType) -> bool
    ensures { (tree : Tree) → result ≡ is_int32_type (type_named tree t) }
{
    match t.element {
        ResolvedElement::Int32 => t.brackets == 0,
        _ => false,
    }
}

/// A 64-bit integer (ECMA-335 I.12.1).
pub fn is_int64_type(t: ResolvedType) -> bool
    ensures { (tree : Tree) → result ≡ is_int64_type (type_named tree t) }
{
    match t.element {
        ResolvedElement::Int64 => t.brackets == 0,
        _ => false,
    }
}

/// Every type but the two integers (ECMA-335 I.8.2.1).
pub fn is_reference(t: ResolvedType) -> bool
    ensures { (tree : Tree) → result ≡ is_reference (type_named tree t) }
{
    matches!(t.kind(), ValueKind::Ref)
}

impl StackEntry {
    /// `i4`
    pub fn is_int32(self) -> bool
        ensures { (tree : Tree) → result ≡ is_int32 (stack_type tree self) }
    {
        match self {
            StackEntry::Declared(t) => is_int32_type(t),
            StackEntry::NativeInt | StackEntry::Null => false,
        }
    }

    /// `i8`
    pub fn is_int64(self) -> bool
        ensures { (tree : Tree) → result ≡ is_int64 (stack_type tree self) }
    {
        match self {
            StackEntry::Declared(t) => is_int64_type(t),
            StackEntry::NativeInt | StackEntry::Null => false,
        }
    }

    /// `i4` or `i8`
    pub fn is_integer(self) -> bool
        ensures { (tree : Tree) → result ≡ is_integer (stack_type tree self) }
    {
        self.is_int32() || self.is_int64()
    }

    /// Null, or a value of a reference type.
    pub fn is_reference(self) -> bool
        ensures { (tree : Tree) → result ≡ is_any_reference (stack_type tree self) }
    {
        match self {
            StackEntry::Declared(t) => is_reference(t),
            StackEntry::Null => true,
            StackEntry::NativeInt => false,
        }
    }

    /// `i4` or a native integer
    pub fn is_index(self) -> bool
        ensures { (tree : Tree) → result ≡ is_index (stack_type tree self) }
    {
        match self {
            StackEntry::NativeInt => true,
            StackEntry::Declared(t) => is_int32_type(t),
            StackEntry::Null => false,
        }
    }
}

/// Two integers of one size.
pub fn are_integers(first: StackEntry, second: StackEntry) -> bool
    ensures { (tree : Tree) → result ≡ are_integers (stack_type tree first) (stack_type tree second) }
{
    (first.is_int32() && second.is_int32()) || (first.is_int64() && second.is_int64())
}

/// Two integers of one size, or two references.
pub fn are_comparable(first: StackEntry, second: StackEntry) -> bool
    ensures { (tree : Tree) → result ≡ are_comparable (stack_type tree first) (stack_type tree second) }
{
    are_integers(first, second) || (first.is_reference() && second.is_reference())
}
