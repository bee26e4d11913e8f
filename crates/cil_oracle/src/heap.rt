//! Objects, which have names and never move (ECMA-335 I.12.1; that they do not move is this profile's).

use crate::effects::Halt;
use crate::names::OracleNames;
use crate::values::{OracleElement, OracleType, Value};
use cil_model::instructions::ElementKind;
use cil_model::reports::Fault;
use cil_model::texts::Text;
use name_tables::ids::{ClassId, FieldId};
use std::alloc::Global;

/// The lock of an object: the thread that holds it, and how often (ECMA-335 I.12.6.5).
#[derive(Clone, Copy)]
pub enum Monitor {
    Free,
    Held { owner: usize, count: usize },
}

/// A field with its value.
#[derive(Clone, Copy)]
pub struct FieldValue {
    pub field: FieldId,
    pub value: Value,
}

/// The value of a field.
pub fn field_in(fields: &[FieldValue], field: FieldId) -> Result<Value, Halt> {
    for entry in fields {
        if entry.field == field {
            return Ok(entry.value);
        }
    }
    Err(Halt::Sticks)
}

/// Puts another value of its kind into a field.
pub fn set_field_in(fields: &mut [FieldValue], field: FieldId, value: Value) -> Result<(), Halt> {
    for entry in fields.iter_mut() {
        if entry.field == field && entry.value.has_same_kind(value) {
            entry.value = value;
            return Ok(());
        }
    }
    Err(Halt::Sticks)
}

/// Puts another value of its kind at an index.
pub fn set_value(values: &mut [Value], index: usize, value: Value) -> Result<(), Halt> {
    match values.get_mut(index) {
        Some(held) if held.has_same_kind(value) => {
            *held = value;
            Ok(())
        }
        _ => Err(Halt::Sticks),
    }
}

/// What an object is: of a class, with its fields; an array; or a string literal.
#[derive(Drop)]
pub enum Contents<'a> {
    Instance(ClassId, Vec<FieldValue>),
    Array(OracleType, Vec<Value>),
    Literal(&'a Text),
}

/// An object, with the number of the thread that was started on it.
#[derive(Drop)]
pub struct OracleObject<'a> {
    pub contents: Contents<'a>,
    pub monitor: Monitor,
    pub thread: Option<usize>,
}

/// All objects, each named by its number among all births. A literal is born where it is first loaded.
#[derive(Drop)]
pub struct Heap<'a> {
    objects: Vec<OracleObject<'a>>,
}

impl<'a> Heap<'a> {
    /// The heap before the first birth.
    pub fn new(alloc: Global) -> Self {
        Heap {
            objects: Vec::new(alloc),
        }
    }

    /// A new object.
    pub fn give_birth(&mut self, contents: Contents<'a>) -> Result<usize, Halt> {
        let name = self.objects.len();
        self.objects.push(OracleObject {
            contents,
            monitor: Monitor::Free,
            thread: None,
        })?;
        Ok(name)
    }

    /// The object of a literal: equal ones are one (ECMA-335 III.4.16).
    pub fn literal(&mut self, characters: &'a Text) -> Result<usize, Halt> {
        for (name, object) in self.objects.iter().enumerate() {
            match object.contents {
                Contents::Literal(others) if others.is_same(characters) => return Ok(name),
                _ => {}
            }
        }
        self.give_birth(Contents::Literal(characters))
    }

    /// The object of a name. A name of none sticks.
    pub fn object(&self, name: usize) -> Result<&OracleObject<'a>, Halt> {
        self.objects.get(name).ok_or(Halt::Sticks)
    }

    /// The same, to change it.
    pub fn object_mut(&mut self, name: usize) -> Result<&mut OracleObject<'a>, Halt> {
        self.objects.get_mut(name).ok_or(Halt::Sticks)
    }

    /// The type of an array's elements, and the elements.
    pub fn array(&self, name: usize) -> Result<(OracleType, &[Value]), Halt> {
        match &self.object(name)?.contents {
            Contents::Array(element, elements) => Ok((*element, elements.as_slice())),
            _ => Err(Halt::Sticks),
        }
    }

    /// The index of an element of an array whose elements are of the kind of a value.
    pub fn element_index(
        &self,
        array: usize,
        index: Value,
        kind: ElementKind,
    ) -> Result<usize, Halt> {
        let index = usize::try_from(index.as_index()?);
        let (element, elements) = self.array(array)?;
        match index {
            _ if !element.is_of_kind(kind) => Err(Halt::Sticks),
            Ok(index) if index < elements.len() => Ok(index),
            _ => Err(Halt::Raises(Fault::IndexOutOfRange)),
        }
    }

    /// The value of a field of an object.
    pub fn field(&self, name: usize, field: FieldId) -> Result<Value, Halt> {
        match &self.object(name)?.contents {
            Contents::Instance(_, fields) => field_in(fields.as_slice(), field),
            _ => Err(Halt::Sticks),
        }
    }

    /// Puts another value of its kind into a field of an object.
    pub fn set_field(&mut self, name: usize, field: FieldId, value: Value) -> Result<(), Halt> {
        match &mut self.object_mut(name)?.contents {
            Contents::Instance(_, fields) => set_field_in(fields.as_mut_slice(), field, value),
            _ => Err(Halt::Sticks),
        }
    }

    /// Puts another value of its kind at an index of an array.
    pub fn set_element(&mut self, name: usize, index: usize, value: Value) -> Result<(), Halt> {
        match &mut self.object_mut(name)?.contents {
            Contents::Array(_, elements) => set_value(elements.as_mut_slice(), index, value),
            _ => Err(Halt::Sticks),
        }
    }

    /// The class of an object, by which a virtual call finds its method.
    pub fn class_of(&self, name: usize) -> Result<ClassId, Halt> {
        match &self.object(name)?.contents {
            Contents::Instance(class, _) => Ok(*class),
            _ => Err(Halt::Sticks),
        }
    }

    /// The characters of a literal.
    pub fn characters(&self, name: usize) -> Result<&'a Text, Halt> {
        match self.object(name)?.contents {
            Contents::Literal(characters) => Ok(characters),
            _ => Err(Halt::Sticks),
        }
    }

    fn type_of(&self, names: &OracleNames<'_>, name: usize) -> Result<OracleType, Halt> {
        Ok(match &self.object(name)?.contents {
            Contents::Instance(class, _) => names.type_of_class(*class),
            Contents::Array(element, _) => element.array(),
            Contents::Literal(_) => OracleType::plain(OracleElement::String),
        })
    }

    /// A reference has to be of the type of the array's elements, to be stored in it.
    pub fn check_stored(
        &self,
        names: &OracleNames<'_>,
        array: usize,
        value: Value,
    ) -> Result<(), Halt> {
        let (element, _) = self.array(array)?;
        if element.is_reference() && !self.fits(names, value, element)? {
            return Err(Halt::Raises(Fault::ArrayTypeMismatch));
        }
        Ok(())
    }

    /// Whether the object of a reference is of the type; null is of every type.
    pub fn fits(
        &self,
        names: &OracleNames<'_>,
        v: Value,
        required: OracleType,
    ) -> Result<bool, Halt> {
        match v {
            Value::Null => Ok(true),
            Value::Reference(name) => {
                let own = self.type_of(names, name)?;
                Ok(names.is_assignable(own, required))
            }
            _ => Err(Halt::Sticks),
        }
    }
}
