//! Methods with the classes that declare them.

ghost use Rattle.std.specs.Prelude.{◌≡◌, option_map, slice_get};
ghost use Rattle.cil_model.specs.Bodies.{lines_of};

use cil_model::instructions::{Instruction, MethodName};
use cil_model::trees::{Class, Line, Method};
use cil_model::types::ClassName;
use instruction_text::{CharactersText, ClassText, InstructionText, MethodNameText};
use name_tables::bodies::lines_of;
use std::fmt;
use std::fmt::Display;

/// The class that declares a method: a built-in one, by its name, or one of the source.
#[derive(Clone, Copy)]
pub enum Owner<'a> {
    BuiltIn(&'a ClassName),
    Source(&'a Class),
}

/// The class's name, of a built-in one with its assembly.
impl<'a> fmt::Display for Owner<'a> {
    ghost use Rattle.std.specs.Prelude.{Some};
    ghost use Rattle.instruction_text.specs.Texts.{class_text};
    ghost use Rattle.event_trace.specs.MethodPositions.{owner_name};

    ghost output = { λ owner. Some (class_text (owner_name owner)) };

    fn fmt<W: fmt::Write>(&self, f: &mut fmt::Formatter<W>) -> fmt::Result {
        match self {
            Owner::BuiltIn(name) => ClassText(*name).fmt(f),
            Owner::Source(class) => CharactersText(&class.name).fmt(f),
        }
    }
}

/// A method with the class that declares it.
#[derive(Clone, Copy)]
pub struct OwnedMethod<'a> {
    pub owner: Owner<'a>,
    pub method: &'a Method,
}

/// An instruction of a method, by its pc in the method's code.
#[derive(Clone, Copy)]
pub struct InstructionPosition<'a> {
    pub found: OwnedMethod<'a>,
    pub pc: u32,
}

/// `Class::Method+N  instruction`.
impl<'a> fmt::Display for InstructionPosition<'a> {
    ghost use Rattle.std.specs.Prelude.{Some};
    ghost use Rattle.event_trace.specs.MethodPositions.{class_and_method};
    ghost use Rattle.event_trace.specs.Columns.{position_text};

    ghost output = { λ at. Some (position_text (class_and_method at.found) at.pc) };

    fn fmt<W: fmt::Write>(&self, f: &mut fmt::Formatter<W>) -> fmt::Result {
        let OwnedMethod { owner, method } = self.found;
        let name = MethodNameText(&method.name);
        let line = LineText(line_at(method, self.pc as usize));
        write!(f, "{owner}::{name}+{}{line}", self.pc)
    }
}

/// Two spaces and the instruction of a line. Nothing where there is no line.
#[derive(Clone, Copy)]
pub struct LineText<'a>(pub Option<&'a Line>);

impl<'a> fmt::Display for LineText<'a> {
    ghost use Rattle.std.specs.Prelude.{Some, option_map};
    ghost use Rattle.event_trace.specs.Columns.{line_text};

    ghost output = { λ text. Some (line_text (option_map (λ line. line.now) text.0)) };

    fn fmt<W: fmt::Write>(&self, f: &mut fmt::Formatter<W>) -> fmt::Result {
        match self.0 {
            None => Ok(()),
            Some(line) => write!(f, "  {}", InstructionText(&line.instruction)),
        }
    }
}

/// The line at a pc of a method's code. None where there is none.
pub fn line_at(method: &Method, pc: usize) -> Option<&Line>
    ensures { option_map (λ l. l.now) result ≡ slice_get (lines_of method.now) pc }
{
    lines_of(method).get(pc)
}
