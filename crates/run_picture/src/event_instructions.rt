//! The instruction of an event, and its short name.

use cil_model::instructions::{Instruction, MethodName};
use cil_model::texts::Text;
use event_trace::InstructionPosition;
use instruction_text::{CharactersText, InstructionText, MethodNameText};
use name_tables::bodies::lines_of;
use std::fmt;
use std::fmt::Display;

/// The instruction at a position. None after the last instruction of a method.
pub(crate) fn instruction_of<'a>(at: Option<&InstructionPosition<'a>>) -> Option<&'a Instruction> {
    let at = at?;
    let line = lines_of(at.found.method).get(at.pc as usize)?;
    Some(&line.instruction)
}

/// Whether an instruction enters a monitor, given that it is a call of the class `Monitor`.
pub(crate) fn is_entry(instruction: &Instruction) -> bool {
    match instruction {
        Instruction::Call { method, .. } => match &method.name {
            MethodName::Named(name) => name.as_str() == "Enter",
            _ => false,
        },
        _ => false,
    }
}

/// An instruction in few characters: a member is named without its class, type and signature, a class without its assembly.
#[derive(Clone, Copy)]
pub(crate) struct ShortInstruction<'a>(pub(crate) &'a Instruction);

impl<'a> fmt::Display for ShortInstruction<'a> {
    fn fmt<W: fmt::Write>(&self, f: &mut fmt::Formatter<W>) -> fmt::Result {
        match self.0 {
            Instruction::Call { method, .. } => write_call(f, &MethodNameText(&method.name)),
            Instruction::CallVirtual { name, .. } => write_call(f, &CharactersText(name)),
            other => write_short(f, other),
        }
    }
}

fn write_call<W: fmt::Write, N: Display>(f: &mut fmt::Formatter<W>, name: &N) -> fmt::Result {
    write!(f, "{name}()")
}

/// An instruction that is no call.
fn write_short<W: fmt::Write>(f: &mut fmt::Formatter<W>, instruction: &Instruction) -> fmt::Result {
    if let Instruction::NewObject(owner, _) = instruction {
        if owner.name.as_str() == "System.Object" {
            return f.write_str("new Object");
        }
    }
    match word_and_name(instruction) {
        Some((word, name)) => write!(f, "{word} {}", CharactersText(name)),
        None => InstructionText(instruction).fmt(f),
    }
}

/// The word and the name of an instruction that names a class or a field. None for others.
fn word_and_name(instruction: &Instruction) -> Option<(&'static str, &Text)> {
    match instruction {
        Instruction::NewObject(owner, _) => Some(("new", &owner.name)),
        Instruction::LoadField(field) => Some(("ldfld", &field.name)),
        Instruction::StoreField(field) => Some(("stfld", &field.name)),
        Instruction::LoadStaticField(field) => Some(("ldsfld", &field.name)),
        Instruction::StoreStaticField(field) => Some(("stsfld", &field.name)),
        _ => None,
    }
}
