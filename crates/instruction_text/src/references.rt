//! The members that instructions name.

use crate::characters::CharactersText;
use crate::types::{ClassText, ReturnText, TypeText, TypesText};
use cil_model::instructions::{FieldReference, MethodName, MethodReference};
use cil_model::texts::Text;
use cil_model::types::{ClassName, DeclaredType, Signature};
use std::fmt;
use std::fmt::Display;

/// The name of a method, or `.ctor` (ECMA-335 II.10.5.1).
#[derive(Clone, Copy)]
pub struct MethodNameText<'a>(pub &'a MethodName);

impl<'a> fmt::Display for MethodNameText<'a> {
    ghost use Rattle.std.specs.Prelude.{Some};
    ghost use Rattle.instruction_text.specs.Texts.{method_name_text};

    ghost output = { λ name. Some (method_name_text name.0.now) };

    fn fmt<W: fmt::Write>(&self, f: &mut fmt::Formatter<W>) -> fmt::Result {
        match self.0 {
            MethodName::Constructor => f.write_str(".ctor"),
            MethodName::Named(name) => CharactersText(name).fmt(f),
        }
    }
}

/// `type owner::name` (ECMA-335 II.16).
#[derive(Clone, Copy)]
pub(crate) struct FieldText<'a>(pub(crate) &'a FieldReference);

impl<'a> fmt::Display for FieldText<'a> {
    ghost use Rattle.std.specs.Prelude.{Some};
    ghost use Rattle.instruction_text.specs.Texts.{field_text};

    ghost output = { λ reference. Some (field_text reference.0.now) };

    fn fmt<W: fmt::Write>(&self, f: &mut fmt::Formatter<W>) -> fmt::Result {
        let field_type = TypeText(&self.0.field_type);
        let owner = ClassText(&self.0.owner);
        let name = CharactersText(&self.0.name);
        write!(f, "{field_type} {owner}::{name}")
    }
}

/// `type owner::name(types)` (ECMA-335 II.15.1.3).
#[derive(Clone, Copy)]
pub(crate) struct MethodText<'a>(pub(crate) &'a MethodReference);

impl<'a> fmt::Display for MethodText<'a> {
    ghost use Rattle.std.specs.Prelude.{Some};
    ghost use Rattle.instruction_text.specs.Texts.{method_text};

    ghost output = { λ reference. Some (method_text reference.0.now) };

    fn fmt<W: fmt::Write>(&self, f: &mut fmt::Formatter<W>) -> fmt::Result {
        let left = ReturnText(&self.0.signature.return_type);
        let owner = ClassText(&self.0.owner);
        let name = MethodNameText(&self.0.name);
        let parameters = TypesText(self.0.signature.parameters.as_slice());
        write!(f, "{left} {owner}::{name}{parameters}")
    }
}

/// `type owner::name(types)` of a method that is no constructor (ECMA-335 II.15.1.3).
#[derive(Clone, Copy)]
pub(crate) struct VirtualText<'a>(
    pub(crate) &'a ClassName,
    pub(crate) &'a Text,
    pub(crate) &'a Signature,
);

impl<'a> fmt::Display for VirtualText<'a> {
    ghost use Rattle.std.specs.Prelude.{Some};
    ghost use Rattle.instruction_text.specs.Texts.{virtual_text};

    ghost output = { λ method. Some (virtual_text method.0.now method.1.now method.2.now) };

    fn fmt<W: fmt::Write>(&self, f: &mut fmt::Formatter<W>) -> fmt::Result {
        let left = ReturnText(&self.2.return_type);
        let owner = ClassText(self.0);
        let name = CharactersText(self.1);
        let parameters = TypesText(self.2.parameters.as_slice());
        write!(f, "{left} {owner}::{name}{parameters}")
    }
}

/// `void owner::.ctor(types)` (ECMA-335 II.10.5.1).
#[derive(Clone, Copy)]
pub(crate) struct ConstructorText<'a>(pub(crate) &'a ClassName, pub(crate) &'a [DeclaredType]);

impl<'a> fmt::Display for ConstructorText<'a> {
    ghost use Rattle.std.specs.Prelude.{Some};
    ghost use Rattle.instruction_text.specs.Texts.{constructor_text};

    ghost output = { λ method. Some (constructor_text method.0.now method.1.now) };

    fn fmt<W: fmt::Write>(&self, f: &mut fmt::Formatter<W>) -> fmt::Result {
        let owner = ClassText(self.0);
        let parameters = TypesText(self.1);
        write!(f, "void {owner}::.ctor{parameters}")
    }
}
