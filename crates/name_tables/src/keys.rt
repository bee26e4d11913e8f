//! The keys of the tables: what texts, classes, fields and methods are found by.

ghost use Rattle.std.specs.Prelude.{◌≡◌, option_map};
ghost use Rattle.cil_model.specs.Same.{same_options, same_lists, same_text, same_type};

use cil_model::instructions::MethodName;
use cil_model::texts::Text;
use cil_model::trees::{Class, Field};
use cil_model::types::{ClassName, DeclaredType, Signature};
use std::hash::{Hash, Hasher};

/// A name.
#[derive(Clone, Copy)]
pub struct TextKey<'a> {
    pub text: &'a Text,
}

/// A class by its name, and the assembly before it.
#[derive(Clone, Copy)]
pub struct ClassKey<'a> {
    pub assembly: Option<&'a Text>,
    pub name: &'a Text,
}

/// A field by its name, type and staticness.
#[derive(Clone, Copy)]
pub struct FieldKey<'a> {
    pub is_static: bool,
    pub field_type: &'a DeclaredType,
    pub name: &'a Text,
}

/// A method by its name and signature. No name is a constructor's.
#[derive(Clone, Copy)]
pub struct MethodKey<'a> {
    pub name: Option<&'a Text>,
    pub parameters: &'a [DeclaredType],
    pub return_type: Option<&'a DeclaredType>,
}

/// A method by the number of its name and signature, and its staticness.
#[derive(Clone, Copy)]
pub struct CallNumber {
    pub number: usize,
    pub is_static: bool,
}

/// A method by its name, signature and staticness.
#[derive(Clone, Copy)]
pub struct CallKey<'a> {
    pub method: MethodKey<'a>,
    pub is_static: bool,
}

impl PartialEq for TextKey<'_> {
    ghost use Rattle.cil_model.specs.Same.{same_text};
    ghost use Rattle.std.specs.Cmp.{partial_equiv_from_equiv};
    ghost use Rattle.std.proofs.lemmas.Cmp.{on_equiv};
    ghost use Rattle.cil_model.proofs.SameLaws.{text_equivalence};
    ghost use Rattle.name_tables.specs.Keys.{text_of_key};

    ghost eq = { λ a b. same_text (text_of_key a) (text_of_key b) };

    ghost laws = { partial_equiv_from_equiv (on_equiv text_of_key text_equivalence) };

    fn eq(&self, other: &Self) -> bool {
        self.text.is_same(other.text)
    }
}

impl Eq for TextKey<'_> {
    ghost use Rattle.std.proofs.lemmas.Cmp.{on_equiv};
    ghost use Rattle.cil_model.proofs.SameLaws.{text_equivalence};
    ghost use Rattle.name_tables.specs.Keys.{text_of_key};

    ghost laws = { on_equiv text_of_key text_equivalence };
}

impl Hash for TextKey<'_> {
    ghost use Rattle.std.proofs.Common.{ap};
    ghost use Rattle.std.specs.Hash as fed;
    ghost use Rattle.cil_model.proofs.SameLaws.{same_text_equal};
    ghost use Rattle.name_tables.specs.Keys.{text_of_key};

    ghost hash_input = { λ k. fed.str (text_of_key k) };

    ghost respects_eq = { λ a b h. ap fed.str (same_text_equal (text_of_key a) (text_of_key b) h) };

    fn hash<H: Hasher>(&self, state: &mut H) {
        self.text.as_str().hash(state);
    }
}

impl PartialEq for ClassKey<'_> {
    ghost use Rattle.std.specs.Cmp.{partial_equiv_from_equiv};
    ghost use Rattle.std.proofs.lemmas.Cmp.{on_equiv};
    ghost use Rattle.cil_model.specs.Same.{same_class};
    ghost use Rattle.cil_model.proofs.SameLaws.{class_equivalence};
    ghost use Rattle.name_tables.specs.Keys.{class_of_key};

    ghost eq = { λ a b. same_class (class_of_key a) (class_of_key b) };

    ghost laws = { partial_equiv_from_equiv (on_equiv class_of_key class_equivalence) };

    fn eq(&self, other: &Self) -> bool {
        are_same_texts(self.assembly, other.assembly) && self.name.is_same(other.name)
    }
}

impl Eq for ClassKey<'_> {
    ghost use Rattle.std.proofs.lemmas.Cmp.{on_equiv};
    ghost use Rattle.cil_model.proofs.SameLaws.{class_equivalence};
    ghost use Rattle.name_tables.specs.Keys.{class_of_key};

    ghost laws = { on_equiv class_of_key class_equivalence };
}

impl Hash for ClassKey<'_> {
    ghost use Rattle.std.proofs.Common.{ap};
    ghost use Rattle.std.specs.Hash as fed;
    ghost use Rattle.cil_model.proofs.SameLaws.{same_class_equal};
    ghost use Rattle.name_tables.specs.Keys.{class_of_key};

    ghost hash_input = { λ k. fed.str (class_of_key k).name };

    ghost respects_eq = { λ a b h. ap (λ v. fed.str v.name) (same_class_equal (class_of_key a) (class_of_key b) h) };

    fn hash<H: Hasher>(&self, state: &mut H) {
        self.name.as_str().hash(state);
    }
}

impl PartialEq for FieldKey<'_> {
    ghost use Rattle.std.specs.Cmp.{partial_equiv_from_equiv};
    ghost use Rattle.std.proofs.lemmas.Cmp.{on_equiv};
    ghost use Rattle.name_tables.specs.Sameness.{same_field};
    ghost use Rattle.name_tables.specs.SamenessLaws.{field_equivalence};
    ghost use Rattle.name_tables.specs.Keys.{field_of_key};

    ghost eq = { λ a b. same_field (field_of_key a) (field_of_key b) };

    ghost laws = { partial_equiv_from_equiv (on_equiv field_of_key field_equivalence) };

    fn eq(&self, other: &Self) -> bool {
        self.name.is_same(other.name)
            && self.field_type.is_same(other.field_type)
            && self.is_static == other.is_static
    }
}

impl Eq for FieldKey<'_> {
    ghost use Rattle.std.proofs.lemmas.Cmp.{on_equiv};
    ghost use Rattle.name_tables.specs.SamenessLaws.{field_equivalence};
    ghost use Rattle.name_tables.specs.Keys.{field_of_key};

    ghost laws = { on_equiv field_of_key field_equivalence };
}

impl Hash for FieldKey<'_> {
    ghost use Rattle.std.proofs.Common.{ap};
    ghost use Rattle.name_tables.specs.SamenessLaws.{same_field_equal};
    ghost use Rattle.name_tables.specs.Keys.{field_of_key};
    ghost use Rattle.name_tables.specs.Hashes.{hash_input_of_field};

    ghost hash_input = { λ k. hash_input_of_field (field_of_key k) };

    ghost respects_eq = { λ a b h. ap hash_input_of_field (same_field_equal (field_of_key a) (field_of_key b) h) };

    fn hash<H: Hasher>(&self, state: &mut H) {
        self.name.as_str().hash(state);
        self.field_type.hash(state);
    }
}

impl PartialEq for MethodKey<'_> {
    ghost use Rattle.std.specs.Cmp.{partial_equiv_from_equiv};
    ghost use Rattle.std.proofs.lemmas.Cmp.{on_equiv};
    ghost use Rattle.name_tables.specs.Sameness.{same_identity};
    ghost use Rattle.name_tables.specs.SamenessLaws.{identity_equivalence};
    ghost use Rattle.name_tables.specs.Keys.{method_of_key};

    ghost eq = { λ a b. same_identity (method_of_key a) (method_of_key b) };

    ghost laws = { partial_equiv_from_equiv (on_equiv method_of_key identity_equivalence) };

    fn eq(&self, other: &Self) -> bool {
        are_same_texts(self.name, other.name)
            && are_same_types(self.parameters, other.parameters)
            && match (self.return_type, other.return_type) {
                (None, None) => true,
                (Some(own), Some(others)) => own.is_same(others),
                _ => false,
            }
    }
}

impl Eq for MethodKey<'_> {
    ghost use Rattle.std.proofs.lemmas.Cmp.{on_equiv};
    ghost use Rattle.name_tables.specs.SamenessLaws.{identity_equivalence};
    ghost use Rattle.name_tables.specs.Keys.{method_of_key};

    ghost laws = { on_equiv method_of_key identity_equivalence };
}

impl Hash for MethodKey<'_> {
    ghost use Rattle.std.proofs.Common.{ap};
    ghost use Rattle.std.specs.Hash as fed;
    ghost use Rattle.name_tables.specs.SamenessLaws.{same_identity_equal};
    ghost use Rattle.name_tables.specs.Keys.{method_of_key};
    ghost use Rattle.name_tables.specs.Hashes.{hash_input_of_method};

    ghost hash_input = { λ k. hash_input_of_method (method_of_key k) };

    ghost respects_eq = { λ a b h. ap hash_input_of_method (same_identity_equal (method_of_key a) (method_of_key b) h) };

    fn hash<H: Hasher>(&self, state: &mut H) {
        match self.name {
            None => {}
            Some(name) => name.as_str().hash(state),
        }
        self.parameters.hash(state);
    }
}

impl PartialEq for CallNumber {
    ghost use Rattle.std.specs.Cmp.{partial_equiv_from_equiv};
    ghost use Rattle.name_tables.specs.Sameness.{same_call};
    ghost use Rattle.name_tables.specs.SamenessLaws.{call_equivalence};

    ghost eq = { same_call };

    ghost laws = { partial_equiv_from_equiv call_equivalence };

    fn eq(&self, other: &Self) -> bool {
        self.number == other.number && self.is_static == other.is_static
    }
}

impl Eq for CallNumber {
    ghost use Rattle.name_tables.specs.SamenessLaws.{call_equivalence};

    ghost laws = { call_equivalence };
}

impl Hash for CallNumber {
    ghost use Rattle.std.proofs.Common.{ap};
    ghost use Rattle.std.specs.Hash as fed;
    ghost use Rattle.name_tables.specs.SamenessLaws.{same_call_equal};

    ghost hash_input = { λ c. fed.usize c.number };

    ghost respects_eq = { λ a b h. ap (λ v. fed.usize v.number) (same_call_equal a b h) };

    fn hash<H: Hasher>(&self, state: &mut H) {
        self.number.hash(state);
    }
}

/// Whether both are none, or both the same.
fn are_same_texts(own: Option<&Text>, other: Option<&Text>) -> bool
    ensures { result ≡ same_options same_text (option_map (λ t. t.now) own.entry) (option_map (λ t. t.now) other.entry) }
{
    match (own, other) {
        (None, None) => true,
        (Some(own), Some(other)) => own.is_same(other),
        _ => false,
    }
}

/// Whether the types are the same one by one.
fn are_same_types(own: &[DeclaredType], other: &[DeclaredType]) -> bool
    ensures { result ≡ same_lists same_type own.now other.now }
{
    let mut rest = own;
    let mut others = other;
    loop {
        match (rest, others) {
            ([], []) => return true,
            ([own, own_rest @ ..], [other, other_rest @ ..]) => {
                if !own.is_same(other) {
                    return false;
                }
                rest = own_rest;
                others = other_rest;
            }
            _ => return false,
        }
    }
}

/// A class as a name has it.
impl<'a> ClassKey<'a> {
    ghost use Rattle.cil_model.specs.Declarations.{source_name};
    ghost use Rattle.name_tables.specs.Keys.{class_of_key};

    /// A class by the name that an instruction, a type or a list has of it (ECMA-335 II.7.1).
    pub fn of(name: &'a ClassName) -> Self
        ensures { class_of_key result ≡ name.now }
    {
        ClassKey {
            assembly: name.assembly.as_ref(),
            name: &name.name,
        }
    }

    /// A class of the source by its plain name (ECMA-335 II.5.3).
    pub fn of_source(class: &'a Class) -> Self
        ensures { class_of_key result ≡ source_name class.now }
    {
        ClassKey {
            assembly: None,
            name: &class.name,
        }
    }
}

impl<'a> FieldKey<'a> {
    ghost use Rattle.name_tables.specs.Keys.{field_of_key};

    /// A field by all that its declaration says of it (ECMA-335 II.16.1).
    pub fn of(field: &'a Field) -> Self
        ensures { field_of_key result ≡ field.now }
    {
        FieldKey {
            is_static: field.is_static,
            field_type: &field.field_type,
            name: &field.name,
        }
    }
}

impl<'a> MethodKey<'a> {
    ghost use Rattle.cil_model.specs.declared.instructions.MethodName.TheVariants.{Constructor, Named};
    ghost use Rattle.name_tables.specs.Keys.{method_of_key};

    /// A method by its name and signature (ECMA-335 II.15.4).
    pub fn new(name: &'a MethodName, signature: &'a Signature) -> Self
        ensures { method_of_key result ≡ record { name = name.now; signature = signature.now } }
    {
        MethodKey {
            name: match name {
                MethodName::Constructor => None,
                MethodName::Named(name) => Some(name),
            },
            parameters: signature.parameters.as_slice(),
            return_type: signature.return_type.as_ref(),
        }
    }

    /// A method of this name that is no constructor.
    pub fn by_name(name: &'a Text, signature: &'a Signature) -> Self
        ensures { method_of_key result ≡ record { name = Named name.now; signature = signature.now } }
    {
        MethodKey {
            name: Some(name),
            parameters: signature.parameters.as_slice(),
            return_type: signature.return_type.as_ref(),
        }
    }

    /// A constructor with these parameters (ECMA-335 II.10.5.1).
    pub fn constructor(parameters: &'a [DeclaredType]) -> Self
        ensures { method_of_key result ≡ record { name = Constructor; signature = record { parameters = parameters.now; return_type = None } } }
    {
        MethodKey {
            name: None,
            parameters,
            return_type: None,
        }
    }
}
