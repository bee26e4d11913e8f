//! Classes and types, as they are written in the text.

use crate::characters::CharactersText;
use cil_model::types::{ClassName, DeclaredType, Element};
use std::fmt;
use std::fmt::Display;

/// A class by its name, with its assembly in brackets where it has one (ECMA-335 II.7.3): `[mscorlib]System.Console` or `Dog`.
#[derive(Clone, Copy)]
pub struct ClassText<'a>(pub &'a ClassName);

impl<'a> fmt::Display for ClassText<'a> {
    ghost use Rattle.std.specs.Prelude.{Some};
    ghost use Rattle.instruction_text.specs.Texts.{class_text};

    ghost output = { λ class. Some (class_text class.0.now) };

    fn fmt<W: fmt::Write>(&self, f: &mut fmt::Formatter<W>) -> fmt::Result {
        let name = CharactersText(&self.0.name);
        match &self.0.assembly {
            None => name.fmt(f),
            Some(assembly) => write!(f, "[{}]{name}", CharactersText(assembly)),
        }
    }
}

/// A type without brackets (ECMA-335 II.7.1).
#[derive(Clone, Copy)]
struct ElementText<'a>(&'a Element);

impl<'a> fmt::Display for ElementText<'a> {
    ghost use Rattle.std.specs.Prelude.{Some};
    ghost use Rattle.instruction_text.specs.Texts.{element_text};

    ghost output = { λ element. Some (element_text element.0.now) };

    fn fmt<W: fmt::Write>(&self, f: &mut fmt::Formatter<W>) -> fmt::Result {
        match self.0 {
            Element::Int32 => f.write_str("int32"),
            Element::Int64 => f.write_str("int64"),
            Element::Object => f.write_str("object"),
            Element::String => f.write_str("string"),
            Element::Class(class) => write!(f, "class {}", ClassText(class)),
        }
    }
}

/// A type with its pairs of brackets (ECMA-335 II.7.1): `class Dog[]`.
#[derive(Clone, Copy)]
pub(crate) struct TypeText<'a>(pub(crate) &'a DeclaredType);

impl<'a> fmt::Display for TypeText<'a> {
    ghost use Rattle.std.specs.Prelude.{Some};
    ghost use Rattle.instruction_text.specs.Texts.{type_text};

    ghost output = { λ declared. Some (type_text declared.0.now) };

    fn fmt<W: fmt::Write>(&self, f: &mut fmt::Formatter<W>) -> fmt::Result {
        ElementText(&self.0.element).fmt(f)?;
        for _bracket in 0..self.0.brackets {
            f.write_str("[]")?;
        }
        Ok(())
    }
}

/// The type that a method leaves, or `void` (ECMA-335 II.15.3).
#[derive(Clone, Copy)]
pub(crate) struct ReturnText<'a>(pub(crate) &'a Option<DeclaredType>);

impl<'a> fmt::Display for ReturnText<'a> {
    ghost use Rattle.std.specs.Prelude.{Some};
    ghost use Rattle.instruction_text.specs.Texts.{return_text};

    ghost output = { λ left. Some (return_text left.0.now) };

    fn fmt<W: fmt::Write>(&self, f: &mut fmt::Formatter<W>) -> fmt::Result {
        match self.0 {
            None => f.write_str("void"),
            Some(declared) => TypeText(declared).fmt(f),
        }
    }
}

/// Types in parentheses, with a comma and a space between two: `(int32, object)`.
#[derive(Clone, Copy)]
pub(crate) struct TypesText<'a>(pub(crate) &'a [DeclaredType]);

impl<'a> fmt::Display for TypesText<'a> {
    ghost use Rattle.std.specs.Prelude.{Some};
    ghost use Rattle.instruction_text.specs.Texts.{types_text};

    ghost output = { λ types. Some (types_text types.0.now) };

    fn fmt<W: fmt::Write>(&self, f: &mut fmt::Formatter<W>) -> fmt::Result {
        let Some((first, others)) = self.0.split_first() else {
            return f.write_str("()");
        };
        write!(f, "({}", TypeText(first))?;
        for declared in others {
            write!(f, ", {}", TypeText(declared))?;
        }
        f.write_str(")")
    }
}
