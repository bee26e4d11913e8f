//! Types, their classes by number.

use cil_model::values::ValueKind;

/// A type without brackets (ECMA-335 II.7.1). A class or interface has the number of its id.
#[derive(Clone, Copy, PartialEq, Eq)]
pub enum ResolvedElement {
    Int32,
    Int64,
    Object,
    String,
    Class(usize),
}

/// A type: the element, and how many pairs of brackets follow it (ECMA-335 II.7.1 and II.14.1).
#[derive(Clone, Copy, PartialEq, Eq)]
pub struct ResolvedType {
    pub element: ResolvedElement,
    pub brackets: u32,
}

impl ResolvedType {
    ghost use Rattle.std.specs.Prelude.{◌≡◌, Some};
    ghost use Rattle.cil_model.specs.declared.trees.Tree.{Tree};
    ghost use Rattle.cil_model.specs.declared.types.DeclaredType.{DeclaredType};
    ghost use Rattle.cil_model.specs.ValueKinds.{kind_of_type};
    ghost use Rattle.resolved_code.specs.ById.{type_at, type_named};

    /// What a location of the type holds: an integer of its size, else a reference (ECMA-335 I.8.2.1).
    pub fn kind(self) -> ValueKind
        ensures named { (tree : Tree) → result ≡ kind_of_type (type_named tree self) }
        ensures represented { (tree : Tree) (t : DeclaredType) → type_at tree self ≡ Some t → result ≡ kind_of_type t }
    {
        if self.brackets > 0 {
            return ValueKind::Ref;
        }
        match self.element {
            ResolvedElement::Int32 => ValueKind::Int32,
            ResolvedElement::Int64 => ValueKind::Int64,
            ResolvedElement::Object | ResolvedElement::String | ResolvedElement::Class(_) => {
                ValueKind::Ref
            }
        }
    }
}
