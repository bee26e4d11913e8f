//! Types, and what a location holds (ECMA-335 I.8.2.1, I.12.1 and II.7.1).

use crate::effects::Halt;
use cil_model::instructions::ElementKind;
use cil_model::reports::Fault;
use cil_model::types::{DeclaredType, Element};

/// A value, without a static type. A reference has the number of its object among all births.
#[derive(Clone, Copy, Debug, PartialEq, Eq)]
pub enum Value {
    Int32(i32),
    Int64(i64),
    Native(i64),
    Null,
    Reference(usize),
}

impl Value {
    /// What a location of the type holds at first.
    pub fn zero_of(t: &DeclaredType) -> Value {
        if t.brackets > 0 {
            return Value::Null;
        }
        match &t.element {
            Element::Int32 => Value::Int32(0),
            Element::Int64 => Value::Int64(0),
            Element::Object | Element::String | Element::Class(_) => Value::Null,
        }
    }

    /// Whether both are integers of one size, or both references.
    pub fn has_same_kind(self, other: Value) -> bool {
        match (self, other) {
            (Value::Int32(_), Value::Int32(_))
            | (Value::Int64(_), Value::Int64(_))
            | (Value::Native(_), Value::Native(_)) => true,
            (Value::Null | Value::Reference(_), Value::Null | Value::Reference(_)) => true,
            _ => false,
        }
    }

    /// The object of a reference; null ends the thread by the fault.
    pub fn not_null(self, fault: Fault) -> Result<usize, Halt> {
        match self {
            Value::Reference(name) => Ok(name),
            Value::Null => Err(Halt::Raises(fault)),
            _ => Err(Halt::Sticks),
        }
    }

    /// An array's length or an index (ECMA-335 III.4.8 and III.4.20).
    pub fn as_index(self) -> Result<i64, Halt> {
        match self {
            Value::Int32(number) => Ok(i64::from(number)),
            Value::Native(number) => Ok(number),
            _ => Err(Halt::Sticks),
        }
    }
}

/// A type without brackets, its class by number.
#[derive(Clone, Copy, PartialEq, Eq)]
pub enum OracleElement {
    Int32,
    Int64,
    Object,
    String,
    Class(usize),
}

/// A type: the element, and how many pairs of brackets follow it.
#[derive(Clone, Copy, PartialEq, Eq)]
pub struct OracleType {
    pub element: OracleElement,
    pub brackets: u32,
}

impl OracleType {
    /// The type without brackets.
    pub fn plain(element: OracleElement) -> OracleType {
        OracleType {
            element,
            brackets: 0,
        }
    }

    /// The array of elements of this type.
    pub fn array(self) -> OracleType {
        OracleType {
            element: self.element,
            brackets: self.brackets.saturating_add(1),
        }
    }

    /// The type with `brackets` pairs of brackets fewer.
    pub fn without(self, brackets: u32) -> OracleType {
        OracleType {
            element: self.element,
            brackets: self.brackets.saturating_sub(brackets),
        }
    }

    /// Whether elements of it are of a kind: integers of that size, or references.
    pub fn is_of_kind(self, kind: ElementKind) -> bool {
        match kind {
            ElementKind::Int32 => self == OracleType::plain(OracleElement::Int32),
            ElementKind::Int64 => self == OracleType::plain(OracleElement::Int64),
            ElementKind::Reference => self.is_reference(),
        }
    }

    /// Whether it is of objects or arrays.
    pub fn is_reference(self) -> bool {
        self.brackets > 0 || !matches!(self.element, OracleElement::Int32 | OracleElement::Int64)
    }
}
