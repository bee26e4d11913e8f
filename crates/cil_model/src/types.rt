//! Types and names of classes, as they are written in the text.

ghost use Rattle.std.specs.Prelude.{◌≡◌};

use crate::sequences::Sequence;
use crate::texts::Text;
use crate::values::ValueKind;

/// A class by its name, and the assembly that is written before it in brackets (ECMA-335 II.7.3).
#[derive(PartialEq, Eq, Hash)]
pub struct ClassName {
    pub assembly: Option<Text>,
    pub name: Text,
}

/// Each part is dropped.
impl Drop for ClassName {
    fn drop(self) {
        let ClassName {
            assembly: _assembly,
            name: _name,
        } = self;
    }
}

impl ClassName {
    ghost use Rattle.cil_model.specs.Same.{same_class};

    /// Whether both have one name in one assembly, or both in none (ECMA-335 II.7.3).
    pub fn is_same(&self, other: &ClassName) -> bool
        ensures { result ≡ same_class self.now other.now }
    {
        let same_assembly = match (&self.assembly, &other.assembly) {
            (None, None) => true,
            (Some(own), Some(others)) => own.is_same(others),
            _ => false,
        };
        same_assembly && self.name.is_same(&other.name)
    }
}

/// A type without brackets (ECMA-335 II.7.1).
#[derive(PartialEq, Eq, Hash, Drop)]
pub enum Element {
    Int32,
    Int64,
    Object,
    String,
    Class(ClassName),
}

impl Element {
    ghost use Rattle.cil_model.specs.Same.{same_element};

    /// Whether both are the same type; `object` isn't a class by that name.
    pub fn is_same(&self, other: &Element) -> bool
        ensures { result ≡ same_element self.now other.now }
    {
        match (self, other) {
            (Element::Int32, Element::Int32) => true,
            (Element::Int64, Element::Int64) => true,
            (Element::Object, Element::Object) => true,
            (Element::String, Element::String) => true,
            (Element::Class(own), Element::Class(others)) => own.is_same(others),
            _ => false,
        }
    }
}

/// A type: the element, and how many pairs of brackets follow it. `Dog[][]` has two.
#[derive(PartialEq, Eq, Hash)]
pub struct DeclaredType {
    pub element: Element,
    pub brackets: u32,
}

/// Each part is dropped.
impl Drop for DeclaredType {
    fn drop(self) {
        let DeclaredType {
            element: _element,
            brackets: _brackets,
        } = self;
    }
}

impl DeclaredType {
    ghost use Rattle.cil_model.specs.Same.{same_type};
    ghost use Rattle.cil_model.specs.ValueKinds.{kind_of_type};

    /// Whether both have the same element and the same number of pairs of brackets (ECMA-335 I.8.6.1).
    pub fn is_same(&self, other: &DeclaredType) -> bool
        ensures { result ≡ same_type self.now other.now }
    {
        self.element.is_same(&other.element) && self.brackets == other.brackets
    }

    /// What a location of the type holds: an integer of its size, else a reference (ECMA-335 I.8.2.1).
    pub fn kind(&self) -> ValueKind
        ensures { result ≡ kind_of_type self.now }
    {
        if self.brackets > 0 {
            return ValueKind::Ref;
        }
        match &self.element {
            Element::Int32 => ValueKind::Int32,
            Element::Int64 => ValueKind::Int64,
            Element::Object | Element::String | Element::Class(_) => ValueKind::Ref,
        }
    }
}

/// What a call is found by, beside the name (ECMA-335 II.15.3). No return type is `void`.
#[derive(Drop)]
pub struct Signature {
    pub parameters: Sequence<DeclaredType>,
    pub return_type: Option<DeclaredType>,
}
