//! The kinds of values.

ghost use Rattle.std.specs.Prelude.{◌≡◌};

use crate::instructions::ElementKind;

/// What values a location holds (ECMA-335 I.12.1): integers of 32 bits, of 64 bits or of the native size, or references.
#[derive(Clone, Copy)]
pub enum ValueKind {
    Int32,
    Int64,
    Native,
    Ref,
}

impl ValueKind {
    ghost use Rattle.cil_model.specs.ValueKinds.{kind_of_elements};

    /// What an element of an array holds, whose elements are of this kind.
    pub fn of_elements(kind: ElementKind) -> ValueKind
        ensures { result ≡ kind_of_elements kind }
    {
        match kind {
            ElementKind::Int32 => ValueKind::Int32,
            ElementKind::Int64 => ValueKind::Int64,
            ElementKind::Reference => ValueKind::Ref,
        }
    }
}
