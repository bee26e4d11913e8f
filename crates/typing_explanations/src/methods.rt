//! A method of a source, by its number.

use source_positions::cil_model::instructions::MethodName;
use source_positions::cil_model::trees::{Class, Method};
use source_positions::{FoundMember, MemberPart, MethodPosition, method_of_number, nth_method};

/// A method of a source, with the name of its class.
#[derive(Clone, Copy)]
pub(crate) struct SourceMethod<'a> {
    pub number: MethodPosition,
    pub class_name: &'a str,
    pub method: &'a Method,
    /// Where it stands in the text; none where it is not found there.
    text: Option<FoundMember<'a>>,
}

impl<'a> SourceMethod<'a> {
    /// The method of a number, counted through the whole source with this text.
    pub fn find(text: &'a [u8], classes: &'a [Class], number: usize) -> Option<Self> {
        let number = method_of_number(classes, number)?;
        let class = classes.get(number.class)?;
        let (_, method) = nth_method(class, number.index)?;
        Some(SourceMethod {
            number,
            class_name: class.name.as_str(),
            method,
            text: FoundMember::find(text, number.class, number.member),
        })
    }

    /// Its name, as a source writes it.
    pub fn name(&self) -> &'a str {
        match &self.method.name {
            MethodName::Constructor => ".ctor",
            MethodName::Named(name) => name.as_str(),
        }
    }

    /// The offset of the name of an instruction, and of that of the method where it has no such instruction.
    pub fn offset_of(&self, instruction: usize, instructions: usize) -> Option<usize> {
        let text = self.text?;
        if instruction < instructions {
            return text.instruction(instruction);
        }
        text.part(MemberPart::Name)
    }

    /// The line, from 1, of what `offset_of` finds.
    pub fn line_of(&self, instruction: usize, instructions: usize) -> Option<usize> {
        let offset = self.offset_of(instruction, instructions)?;
        Some(self.text?.line_of(offset))
    }
}
