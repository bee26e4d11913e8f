//! What the classes of a program are to one another (ECMA-335 I.8.7, II.10.3 and II.12.2), by the tables of their names.

use crate::effects::Halt;
use crate::names::OracleNames;
use crate::values::{OracleElement, OracleType};
use cil_model::instructions::{FieldReference, MethodName};
use cil_model::trees::Method;
use cil_model::types::{ClassName, DeclaredType, Element};
use name_tables::classes::DeclaredClass;
use name_tables::ids::{ClassId, FieldId, MethodId};
use name_tables::keys::{ClassKey, MethodKey};
use name_tables::kinds::{is_new_slot_method, is_virtual};

/// A method, and the number of the class that declares it.
#[derive(Clone, Copy)]
pub struct Found<'a> {
    class: usize,
    pub method: &'a Method,
}

impl<'a> Found<'a> {
    /// A method of a class.
    pub fn new(class: ClassId, method: &'a Method) -> Found<'a> {
        Found {
            class: class.number(),
            method,
        }
    }

    /// The class that declares it.
    pub fn class(&self) -> ClassId {
        ClassId::new(self.class)
    }
}

/// Classes, by id.
impl<'a> OracleNames<'a> {
    /// What a class declares.
    pub fn source_class(&self, class: ClassId) -> Option<&'a DeclaredClass<'a>> {
        self.tables.classes.class(class)
    }

    /// The field that a reference finds.
    pub fn field(&self, is_static: bool, field: &FieldReference) -> Result<FieldId, Halt> {
        self.tables.find_field(is_static, field).ok_or(Halt::Sticks)
    }

    /// The method of the id that a look-up found.
    pub fn method_at(&self, found: Option<MethodId>) -> Result<Found<'a>, Halt> {
        let MethodId { class, index } = found.ok_or(Halt::Sticks)?;
        let declared = self.source_class(class).ok_or(Halt::Sticks)?;
        match declared.methods.get(index) {
            None => Err(Halt::Sticks),
            Some(method) => Ok(Found::new(class, method)),
        }
    }

    /// The name of a built-in class; none where it is a class of the source.
    pub fn built_in_name(&self, class: ClassId) -> Option<&'a str> {
        let key = self.source_class(class)?.name;
        match key.assembly {
            None => None,
            Some(_) => Some(key.name.as_str()),
        }
    }

    /// The method that a thread of the class runs: its own for the `Run` of `Cilvm.Thread` (this profile).
    pub fn run_method(&self, class: ClassId) -> Result<Found<'a>, Halt> {
        for base in self.chain(class) {
            if self.built_in_name(*base) == Some("Cilvm.Thread") {
                return self.target(class, self.method_named("Run", *base)?);
            }
        }
        Err(Halt::Sticks)
    }

    /// The first method of a class with that name.
    fn method_named(&self, name: &str, class: ClassId) -> Result<Found<'a>, Halt> {
        let declared = self.source_class(class).ok_or(Halt::Sticks)?;
        for method in declared.methods.as_slice() {
            if name_of(method) == name {
                return Ok(Found::new(class, method));
            }
        }
        Err(Halt::Sticks)
    }
}

/// The name of a method.
pub fn name_of(method: &Method) -> &str {
    match &method.name {
        MethodName::Constructor => ".ctor",
        MethodName::Named(name) => name.as_str(),
    }
}

/// Types.
impl<'a> OracleNames<'a> {
    /// A type that occurs in the tree.
    pub fn type_named(&self, t: &DeclaredType) -> Result<OracleType, Halt> {
        let element = match &t.element {
            Element::Int32 => OracleElement::Int32,
            Element::Int64 => OracleElement::Int64,
            Element::Object => OracleElement::Object,
            Element::String => OracleElement::String,
            Element::Class(name) => {
                let class = self.tables.classes.id(ClassKey::of(name));
                OracleElement::Class(class.ok_or(Halt::Sticks)?.number())
            }
        };
        Ok(OracleType {
            element,
            brackets: t.brackets,
        })
    }

    /// The type of a class's objects: `object` and `string` have names of their own (ECMA-335 II.7.2).
    pub fn type_of_class(&self, class: ClassId) -> OracleType {
        OracleType::plain(match self.built_in_name(class) {
            Some("System.Object") => OracleElement::Object,
            Some("System.String") => OracleElement::String,
            _ => OracleElement::Class(class.number()),
        })
    }

    /// Whether a class lists the interface itself.
    fn lists(&self, class: ClassId, interface: ClassId) -> bool {
        match self.source_class(class) {
            None => false,
            Some(declared) => self.is_among(declared.interfaces, interface),
        }
    }

    /// Whether one of the names is the class's.
    fn is_among(&self, names: &[ClassName], class: ClassId) -> bool {
        for name in names {
            if self.tables.classes.id(ClassKey::of(name)) == Some(class) {
                return true;
            }
        }
        false
    }

    /// Whether the class is the expected one, is below it, or has it as an interface.
    fn is_class_assignable(&self, class: ClassId, required: ClassId) -> bool {
        for base in self.chain(class) {
            if *base == required || self.lists(*base, required) {
                return true;
            }
        }
        false
    }

    /// Whether a value of the type may be given where the other is expected (ECMA-335 I.8.7). Arrays of references may where
    /// their elements may.
    pub fn is_assignable(&self, own: OracleType, required: OracleType) -> bool {
        if own == required {
            return true;
        }
        let shared = own.brackets.min(required.brackets);
        let (held, to) = (own.without(shared), required.without(shared));
        if shared > 0 && !(held.is_reference() && to.is_reference()) {
            return false;
        }
        if to.brackets > 0 {
            return false;
        }
        match (held.element, to.element) {
            (_, OracleElement::Object) => held.is_reference(),
            (OracleElement::Class(class), OracleElement::Class(required)) => {
                let (class, required) = (ClassId::new(class), ClassId::new(required));
                held.brackets == 0 && self.is_class_assignable(class, required)
            }
            _ => held == to,
        }
    }
}

/// Which method a virtual call runs. A slot is known by the class that introduced it.
impl<'a> OracleNames<'a> {
    /// The slot that the nearest method of this name and signature along a chain fills.
    fn slot_along(&self, key: MethodKey<'a>, chain: &[ClassId]) -> Option<ClassId> {
        let mut slot = None;
        for class in chain.iter().rev() {
            slot = match self.tables.classes.method(*class, key) {
                None => slot,
                Some(method) if !is_virtual(&method.kind) => None,
                Some(method) if is_new_slot_method(&method.kind) => Some(*class),
                Some(_) => Some(slot.unwrap_or(*class)),
            };
        }
        slot
    }

    /// The method that fills, for objects of the class, the slot of the method of that owner.
    fn class_target(
        &self,
        key: MethodKey<'a>,
        class: ClassId,
        owner: ClassId,
    ) -> Option<Found<'a>> {
        let slot = self.slot_along(key, self.chain(owner))?;
        let chain = self.chain(class);
        for start in 0..chain.len() {
            let Some(method) = self.tables.classes.method(chain[start], key) else {
                continue;
            };
            if self.slot_along(key, &chain[start..]) == Some(slot) {
                return Some(Found::new(chain[start], method));
            }
        }
        None
    }

    /// The nearest class of a chain with a virtual method of this name and signature.
    fn nearest_virtual(&self, key: MethodKey<'a>, chain: &[ClassId]) -> Option<ClassId> {
        for class in chain {
            if let Some(method) = self.tables.classes.method(*class, key) {
                if is_virtual(&method.kind) {
                    return Some(*class);
                }
            }
        }
        None
    }

    /// An interface's method: what is seen from the nearest class that lists the interface.
    fn interface_target(
        &self,
        key: MethodKey<'a>,
        class: ClassId,
        interface: ClassId,
    ) -> Option<Found<'a>> {
        for implementer in self.chain(class) {
            if self.lists(*implementer, interface) {
                let seen = self.nearest_virtual(key, self.chain(*implementer))?;
                return self.class_target(key, class, seen);
            }
        }
        None
    }

    /// The method that runs where a virtual one is called on an object of the class (ECMA-335 II.10.3 and II.12.2; where an interface
    /// is listed again, this profile).
    pub fn target(&self, class: ClassId, called: Found<'a>) -> Result<Found<'a>, Halt> {
        let key = MethodKey::new(&called.method.name, &called.method.signature);
        let owner = self.source_class(called.class()).ok_or(Halt::Sticks)?;
        let found = if owner.is_interface {
            self.interface_target(key, class, called.class())
        } else {
            self.class_target(key, class, called.class())
        };
        found.ok_or(Halt::Sticks)
    }
}
