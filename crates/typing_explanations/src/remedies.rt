//! What to write so that an instruction finds the operands that it expects.

use crate::id_texts::TypeOf;
use crate::operand_types::{alike, conversion, is_reversed, on_operand, on_two, takes_alike};
use crate::refusals::Refusal;
use flow_rules::entries::{StackEntry, is_reference};
use flow_rules::mismatches::Mismatch;
use resolved_code::operations::Operation;
use resolved_code::types::{ResolvedElement, ResolvedType};
use std::fmt;
use verifier::failures::Reason;
use verifier::merging::StackMismatch;

/// Where to insert an instruction that changes or removes an operand.
#[derive(Clone, Copy)]
pub(crate) enum Insertion<'a> {
    /// Before the instruction of this name, since the operand is on top of the stack.
    Before(&'a str),
    /// After the instruction in this line, which pushed the operand.
    AfterLine(usize),
    /// After the instruction that pushed the operand, whose line is not known.
    AfterPush,
}

impl fmt::Display for Insertion<'_> {
    fn fmt<W: fmt::Write>(&self, f: &mut fmt::Formatter<W>) -> fmt::Result {
        match *self {
            Insertion::Before(name) => write!(f, "before `{name}`"),
            Insertion::AfterLine(line) => write!(f, "after line {line}, which pushes it"),
            Insertion::AfterPush => f.write_str("after the instruction that pushes it"),
        }
    }
}

/// What to write. It prints as one sentence without an end.
#[derive(Clone, Copy)]
pub(crate) enum Remedy<'a> {
    /// This sentence.
    Sentence(&'static str),
    /// These instructions.
    Insert {
        instructions: &'static str,
        at: Insertion<'a>,
    },
    /// A cast to this type.
    Cast {
        to: TypeOf<'a>,
        at: Insertion<'a>,
    },
    /// A `.maxstack` that is this high.
    MaxStack(usize),
}

impl fmt::Display for Remedy<'_> {
    fn fmt<W: fmt::Write>(&self, f: &mut fmt::Formatter<W>) -> fmt::Result {
        match self {
            Remedy::Sentence(sentence) => f.write_str(sentence),
            Remedy::Insert { instructions, at } => write!(f, "write `{instructions}` {at}"),
            Remedy::Cast { to, at } => {
                let class = class_word(to.1);
                write!(f, "write `castclass {class}{to}` {at}")
            }
            Remedy::MaxStack(height) => {
                write!(f, "write `.maxstack {height}`, which the method needs")
            }
        }
    }
}

/// The word before the name of a class in a type.
fn class_word(declared: ResolvedType) -> &'static str {
    match declared.element {
        ResolvedElement::Class(_) => "class ",
        _ => "",
    }
}

fn sentence<'a>(words: &'static str) -> Option<Remedy<'a>> {
    Some(Remedy::Sentence(words))
}

/// The stack before an instruction, and the lines of the instructions that pushed its topmost values, both with the top first.
#[derive(Clone, Copy)]
pub(crate) struct Operands<'a> {
    pub instruction: usize,
    pub stack: &'a [StackEntry],
    pub lines: &'a [Option<usize>],
}

impl Operands<'_> {
    /// The line of the instruction that pushed a value, by the number of values above it.
    fn line(self, above: usize) -> Option<usize> {
        self.lines.get(above).copied().flatten()
    }
}

impl<'a> Refusal<'a> {
    /// Where to insert what changes an operand, by the number of values above it.
    fn insertion(self, operands: Operands, above: usize) -> Insertion<'a> {
        match operands.line(above) {
            _ if above == 0 => Insertion::Before(self.name),
            Some(line) => Insertion::AfterLine(line),
            None => Insertion::AfterPush,
        }
    }

    fn insert(self, operands: Operands, instructions: &'static str, above: usize) -> Remedy<'a> {
        Remedy::Insert {
            instructions,
            at: self.insertion(operands, above),
        }
    }

    /// What to write after the instruction that pushed the value which `ret` leaves on the stack.
    fn remedy_of_left(self, operands: Operands) -> Remedy<'a> {
        let above = match self.scene.return_type {
            None => 0,
            Some(_) => 1,
        };
        let at = match operands.line(above) {
            None => self.insertion(operands, above),
            Some(line) => Insertion::AfterLine(line),
        };
        Remedy::Insert {
            instructions: "pop",
            at,
        }
    }

    /// What to say where an operand is missing.
    fn remedy_of_missing(self, instruction: usize) -> Option<Remedy<'a>> {
        if self.scene.is_after_void_call(instruction) {
            return sentence("the method that is called before it returns nothing");
        }
        match self.operation {
            Some(Operation::Return) => {
                sentence("push the value that the method returns before `ret`")
            }
            _ => None,
        }
    }

    /// Whether an operand is the constant 0.
    fn is_zero(self, operands: Operands, above: usize) -> bool {
        match self.scene.pusher(operands.instruction, above) {
            None => false,
            Some(index) => matches!(
                self.scene.operations.get(index),
                Some(Operation::LoadInt32(0))
            ),
        }
    }

    /// What to write where a reference has to be another one, or an integer is in its place.
    fn remedy_of_reference(
        self,
        operands: Operands,
        above: usize,
        found: StackEntry,
        expected: ResolvedType,
    ) -> Option<Remedy<'a>> {
        match found {
            StackEntry::Declared(declared) if self.scene.may_cast(declared, expected) => {
                Some(Remedy::Cast {
                    to: TypeOf(self.scene.names, expected),
                    at: self.insertion(operands, above),
                })
            }
            _ if self.is_zero(operands, above) => {
                sentence("write `ldnull` for a reference to no object")
            }
            _ => None,
        }
    }

    /// What to write where a value is expected to have another type.
    fn remedy_of_type(
        self,
        operands: Operands,
        above: usize,
        found: StackEntry,
        expected: ResolvedType,
    ) -> Option<Remedy<'a>> {
        if is_reference(expected) {
            return self.remedy_of_reference(operands, above, found, expected);
        }
        Some(self.insert(operands, conversion(found, expected)?, above))
    }

    /// What to write where two operands do not go together.
    fn remedy_of_two(
        self,
        operands: Operands,
        operation: &Operation,
        one: StackEntry,
        other: StackEntry,
    ) -> Option<Remedy<'a>> {
        if !takes_alike(operation) {
            return None;
        }
        match alike(one, other) {
            None => sentence(on_two(operation, one, other)?),
            Some((instructions, above)) => Some(self.insert(operands, instructions, above)),
        }
    }

    /// Whether the operands are on the stack, and in another order.
    fn is_in_other_order(self, operation: &Operation, stack: &[StackEntry]) -> bool {
        match stack {
            [top, next, ..] => {
                is_reversed(operation, *top, *next) || self.scene.is_permuted(operation, stack)
            }
            _ => false,
        }
    }

    /// What to write where an operand, or two together, have the wrong types.
    fn remedy_of_operands(
        self,
        operation: &Operation,
        mismatch: Mismatch,
        operands: Operands,
    ) -> Option<Remedy<'a>> {
        match mismatch {
            Mismatch::OperandType(_) | Mismatch::OperandTypes(..) | Mismatch::NotAssignable(..)
                if self.is_in_other_order(operation, operands.stack) => {
                sentence("the operands are in another order: push them in the order expected")
            }
            Mismatch::OperandType(found) => sentence(on_operand(operation, found)?),
            Mismatch::OperandTypes(one, other) => {
                self.remedy_of_two(operands, operation, one, other)
            }
            Mismatch::NotAssignable(found, expected) => {
                let stack = operands.stack;
                let above = self.scene.above_operand(operation, stack, found, expected);
                self.remedy_of_type(operands, above, found, expected)
            }
            _ => None,
        }
    }

    /// What to say of an argument that the method does not have.
    fn remedy_of_position(self) -> Option<Remedy<'a>> {
        match (self.operation, self.scene.this) {
            (Some(Operation::LoadArgument(_) | Operation::StoreArgument(_)), None) => {
                sentence("a static method has no `this`: argument 0 is its first parameter")
            }
            _ => None,
        }
    }

    /// What to write where an instruction has no result on a stack.
    fn remedy_of_mismatch(self, mismatch: Mismatch, operands: Operands) -> Option<Remedy<'a>> {
        match (mismatch, self.operation?) {
            (Mismatch::OperandMissing, _) => self.remedy_of_missing(operands.instruction),
            (Mismatch::LeftOnStack(_), _) => Some(self.remedy_of_left(operands)),
            (Mismatch::NoSuchVariable(_), _) => self.remedy_of_position(),
            (_, operation) => self.remedy_of_operands(operation, mismatch, operands),
        }
    }

    /// What to write, by the stack before the instruction, and by the height of the stack that the method needs, where that is known. None
    /// where nothing is to be said.
    pub fn remedy(self, operands: Operands, height: Option<usize>) -> Option<Remedy<'a>> {
        match self.reason {
            Reason::NoResult(mismatch) => self.remedy_of_mismatch(mismatch, operands),
            Reason::NoMerge(StackMismatch::Heights(..)) => sentence(
                "leave the same number of values on each path to this instruction: `pop` removes one",
            ),
            Reason::TooHigh(_) => Some(Remedy::MaxStack(height?)),
            _ => None,
        }
    }
}
