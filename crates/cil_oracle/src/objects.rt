//! Fields, arrays and casts (ECMA-335 III.4).

use crate::effects::{Done, Effect, Halt};
use crate::frames::Frame;
use crate::heap::{Contents, field_in, set_field_in};
use crate::state::State;
use crate::values::Value;
use cil_model::instructions::{ElementKind, FieldReference};
use cil_model::reports::Fault;
use cil_model::types::DeclaredType;
use name_tables::ids::ClassId;

/// Fields.
impl<'a> State<'a> {
    /// `ldfld` (ECMA-335 III.4.10).
    pub fn load_field(&mut self, frame: &mut Frame<'a>, reference: &FieldReference) -> Done {
        let name = frame.pop()?.not_null(Fault::NullReference)?;
        let field = self.names.field(false, reference)?;
        frame.next_with_result(self.heap.field(name, field))
    }

    /// `stfld` (ECMA-335 III.4.28).
    pub fn store_field(&mut self, frame: &mut Frame<'a>, reference: &FieldReference) -> Done {
        let value = frame.pop()?;
        let name = frame.pop()?.not_null(Fault::NullReference)?;
        let field = self.names.field(false, reference)?;
        self.heap.set_field(name, field, value)?;
        Ok(Effect::Next)
    }

    /// `ldsfld` (ECMA-335 III.4.14).
    pub fn load_static(&mut self, frame: &mut Frame<'a>, reference: &FieldReference) -> Done {
        let field = self.names.field(true, reference)?;
        frame.next_with_result(field_in(self.statics.as_slice(), field))
    }

    /// `stsfld` (ECMA-335 III.4.30).
    pub fn store_static(&mut self, frame: &mut Frame<'a>, reference: &FieldReference) -> Done {
        let value = frame.pop()?;
        let field = self.names.field(true, reference)?;
        set_field_in(self.statics.as_mut_slice(), field, value)?;
        Ok(Effect::Next)
    }
}

/// Births, which may be refused.
impl<'a> State<'a> {
    /// A new object of a class (ECMA-335 III.4.21).
    pub fn new_instance(&mut self, class: ClassId) -> Result<usize, Halt> {
        self.transition.check_birth()?;
        let mut fields = Vec::new(self.alloc);
        for base in self.names.chain(class) {
            self.add_fields(&mut fields, *base, false)?;
        }
        self.heap.give_birth(Contents::Instance(class, fields))
    }

    /// `newarr` (ECMA-335 III.4.20).
    pub fn new_array(&mut self, frame: &mut Frame<'a>, t: &DeclaredType) -> Done {
        let length = frame.pop()?.as_index()?;
        let element = self.names.type_named(t)?;
        let Ok(length) = usize::try_from(length) else {
            return Err(Halt::Raises(Fault::Overflow));
        };
        self.transition.check_birth()?;
        let elements = vec![in self.alloc; Value::zero_of(t); length]?;
        let array = Contents::Array(element, elements);
        frame.next_with(Value::Reference(self.heap.give_birth(array)?))
    }
}

/// Arrays.
impl<'a> State<'a> {
    /// `ldlen` (ECMA-335 III.4.12).
    pub fn load_length(&mut self, frame: &mut Frame<'a>) -> Done {
        let name = frame.pop()?.not_null(Fault::NullReference)?;
        let (_, elements) = self.heap.array(name)?;
        match i64::try_from(elements.len()) {
            Err(_) => Err(Halt::Sticks),
            Ok(length) => frame.next_with(Value::Native(length)),
        }
    }

    /// `ldelem.i4`, `ldelem.i8` and `ldelem.ref` (ECMA-335 III.4.8).
    pub fn load_element(&mut self, frame: &mut Frame<'a>, kind: ElementKind) -> Done {
        let index = frame.pop()?;
        let name = frame.pop()?.not_null(Fault::NullReference)?;
        let index = self.heap.element_index(name, index, kind)?;
        let (_, elements) = self.heap.array(name)?;
        match elements.get(index) {
            None => Err(Halt::Sticks),
            Some(value) => frame.next_with(*value),
        }
    }

    /// `stelem.i4`, `stelem.i8` and `stelem.ref` (ECMA-335 III.4.27). The index is looked at before the object's class.
    pub fn store_element(&mut self, frame: &mut Frame<'a>, kind: ElementKind) -> Done {
        let value = frame.pop()?;
        let index = frame.pop()?;
        let name = frame.pop()?.not_null(Fault::NullReference)?;
        let index = self.heap.element_index(name, index, kind)?;
        self.heap.check_stored(self.names, name, value)?;
        self.heap.set_element(name, index, value)?;
        Ok(Effect::Next)
    }
}

/// Casts.
impl<'a> State<'a> {
    /// `castclass` (ECMA-335 III.4.3).
    pub fn cast_class(&mut self, frame: &mut Frame<'a>, t: &DeclaredType) -> Done {
        let value = frame.top()?;
        let required = self.names.type_named(t)?;
        if self.heap.fits(self.names, value, required)? {
            Ok(Effect::Next)
        } else {
            Err(Halt::Raises(Fault::InvalidCast))
        }
    }

    /// `isinst` (ECMA-335 III.4.6).
    pub fn is_instance(&mut self, frame: &mut Frame<'a>, t: &DeclaredType) -> Done {
        let value = frame.pop()?;
        let required = self.names.type_named(t)?;
        let fits = self.heap.fits(self.names, value, required)?;
        frame.next_with(if fits { value } else { Value::Null })
    }
}
