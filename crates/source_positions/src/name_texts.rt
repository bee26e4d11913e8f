//! Names and types, as sources write them.

use cil_model::types::{DeclaredType, Element};
use name_tables::keys::{ClassKey, MethodKey};
use std::fmt;

/// A class: `Dog`, `[mscorlib]System.Object`.
#[derive(Clone, Copy)]
pub struct ClassText<'a>(pub ClassKey<'a>);

impl fmt::Display for ClassText<'_> {
    fn fmt<W: fmt::Write>(&self, f: &mut fmt::Formatter<W>) -> fmt::Result {
        let name = self.0.name.as_str();
        match self.0.assembly {
            None => f.write_str(name),
            Some(assembly) => {
                let assembly = assembly.as_str();
                write!(f, "[{assembly}]{name}")
            }
        }
    }
}

/// A type: `int32`, `class Dog[]`.
#[derive(Clone, Copy)]
pub struct TypeText<'a>(pub &'a DeclaredType);

impl fmt::Display for TypeText<'_> {
    fn fmt<W: fmt::Write>(&self, f: &mut fmt::Formatter<W>) -> fmt::Result {
        write_element(f, &self.0.element)?;
        for _ in 0..self.0.brackets {
            f.write_str("[]")?;
        }
        Ok(())
    }
}

fn write_element<W: fmt::Write>(f: &mut fmt::Formatter<W>, element: &Element) -> fmt::Result {
    let word = match element {
        Element::Int32 => "int32",
        Element::Int64 => "int64",
        Element::Object => "object",
        Element::String => "string",
        Element::Class(class) => {
            let class = ClassText(ClassKey::of(class));
            return write!(f, "class {class}");
        }
    };
    f.write_str(word)
}

/// A method without its class: `void Bark(int32, string)`, `void .ctor()`.
#[derive(Clone, Copy)]
pub struct MethodText<'a>(pub MethodKey<'a>);

impl fmt::Display for MethodText<'_> {
    fn fmt<W: fmt::Write>(&self, f: &mut fmt::Formatter<W>) -> fmt::Result {
        write_return(f, self.0.return_type)?;
        let name = match self.0.name {
            None => ".ctor",
            Some(name) => name.as_str(),
        };
        write!(f, " {name}(")?;
        write_parameters(f, self.0.parameters)?;
        f.write_str(")")
    }
}

/// The type of a result, or `void`.
fn write_return<W: fmt::Write>(
    f: &mut fmt::Formatter<W>,
    declared: Option<&DeclaredType>,
) -> fmt::Result {
    match declared {
        None => f.write_str("void"),
        Some(declared) => {
            let declared = TypeText(declared);
            write!(f, "{declared}")
        }
    }
}

fn write_parameters<W: fmt::Write>(
    f: &mut fmt::Formatter<W>,
    parameters: &[DeclaredType],
) -> fmt::Result {
    let mut comma = "";
    for parameter in parameters {
        let parameter = TypeText(parameter);
        write!(f, "{comma}{parameter}")?;
        comma = ", ";
    }
    Ok(())
}
