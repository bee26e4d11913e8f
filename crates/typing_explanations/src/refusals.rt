//! Why a method has no typing (number 301), in words.

use crate::expected::Scene;
use crate::id_texts::{ClassById, EntryOf};
use flow_rules::entries::StackEntry;
use flow_rules::mismatches::Mismatch;
use resolved_code::operations::Operation;
use resolved_code::types::ResolvedType;
use std::fmt;
use std::fmt::Display;
use verifier::failures::Reason;
use verifier::merging::StackMismatch;

/// A reason, at an instruction with this name in the source.
#[derive(Clone, Copy)]
pub(crate) struct Refusal<'a> {
    pub scene: &'a Scene<'a>,
    pub reason: Reason,
    pub operation: Option<&'a Operation>,
    pub name: &'a str,
}

impl fmt::Display for Refusal<'_> {
    fn fmt<W: fmt::Write>(&self, f: &mut fmt::Formatter<W>) -> fmt::Result {
        let names = self.scene.names;
        match &self.reason {
            Reason::NoResult(mismatch) => self.write_operands(f, mismatch),
            Reason::NoMerge(StackMismatch::Heights(one, other)) => write!(
                f,
                "control paths merge here with stack heights {one} and {other}"
            ),
            Reason::NoMerge(StackMismatch::Types(one, other)) => {
                let one = EntryOf(names, *one);
                let other = EntryOf(names, *other);
                write!(
                    f,
                    "control paths merge here with {one} and {other} in one stack slot, and these have no common supertype"
                )
            }
            Reason::TooHigh(height) => {
                let most = self.scene.max_stack;
                write!(
                    f,
                    "the stack gets {height} high, and `.maxstack` allows {most}"
                )
            }
            Reason::NoInstruction => {
                f.write_str("no instruction follows: control runs off the end of the method")
            }
        }
    }
}

impl Refusal<'_> {
    /// Whether the operands that the instruction expects help a reader.
    pub fn is_of_operands(&self) -> bool {
        match self.reason {
            Reason::NoResult(Mismatch::OperandType(found)) => !self.is_cast_of(found),
            Reason::NoResult(
                Mismatch::OperandMissing
                | Mismatch::OperandTypes(..)
                | Mismatch::NotAssignable(..)
                | Mismatch::LeftOnStack(_),
            ) => true,
            _ => false,
        }
    }

    /// The instruction, and what it does with a value on the stack.
    fn write_entry<W: fmt::Write>(
        &self,
        f: &mut fmt::Formatter<W>,
        verb: &str,
        entry: StackEntry,
        after: &str,
    ) -> fmt::Result {
        let name = self.name;
        let entry = EntryOf(self.scene.names, entry);
        write!(f, "`{name}` {verb} {entry}{after}")
    }

    /// The instruction expects a reference type, and this one is none.
    fn write_no_reference<W: fmt::Write>(
        &self,
        f: &mut fmt::Formatter<W>,
        declared: ResolvedType,
    ) -> fmt::Result {
        let declared = StackEntry::Declared(declared);
        self.write_entry(f, "expects a reference type, found", declared, "")
    }

    /// The instruction, and what it does with a class that is as it must not be.
    fn write_class<W: fmt::Write>(
        &self,
        f: &mut fmt::Formatter<W>,
        verb: &str,
        class: usize,
        fault: &str,
    ) -> fmt::Result {
        let name = self.name;
        let class = ClassById(self.scene.names, class);
        write!(f, "`{name}` {verb} `{class}`, which {fault}")
    }

    /// The instruction, and what it does.
    fn write_verb<W: fmt::Write>(&self, f: &mut fmt::Formatter<W>, verb: &str) -> fmt::Result {
        let name = self.name;
        write!(f, "`{name}` {verb}")
    }

    /// A value in place of one of another type.
    fn write_unassignable<W: fmt::Write>(
        &self,
        f: &mut fmt::Formatter<W>,
        found: StackEntry,
        expected: ResolvedType,
    ) -> fmt::Result {
        self.write_entry(f, "expects", StackEntry::Declared(expected), ", found ")?;
        EntryOf(self.scene.names, found).fmt(f)
    }

    /// Why an instruction has no result on a stack.
    fn write_operands<W: fmt::Write>(
        &self,
        f: &mut fmt::Formatter<W>,
        mismatch: &Mismatch,
    ) -> fmt::Result {
        match mismatch {
            Mismatch::OperandMissing => self.write_verb(
                f,
                "takes more values than the stack holds",
            ),
            Mismatch::OperandType(found) if self.is_cast_of(*found) => self.write_cast(f),
            Mismatch::OperandType(found) => self.write_entry(f, "does not take", *found, ""),
            Mismatch::OperandTypes(one, other) => {
                self.write_entry(f, "does not take", *one, " together with ")?;
                EntryOf(self.scene.names, *other).fmt(f)
            }
            Mismatch::NotAssignable(found, expected) => {
                self.write_unassignable(f, *found, *expected)
            }
            Mismatch::LeftOnStack(found) => self.write_entry(f, "leaves", *found, " on the stack"),
            _ => self.write_members(f, mismatch),
        }
    }

    /// Whether it is a cast of a reference, so that the type is at fault and not the operand.
    fn is_cast_of(&self, operand: StackEntry) -> bool {
        match self.operation {
            Some(Operation::CastClass(_) | Operation::IsInstance(_)) => operand.is_reference(),
            _ => false,
        }
    }

    /// A cast of a reference to a type that is none.
    fn write_cast<W: fmt::Write>(&self, f: &mut fmt::Formatter<W>) -> fmt::Result {
        match self.operation {
            Some(Operation::CastClass(declared) | Operation::IsInstance(declared)) => {
                self.write_no_reference(f, *declared)
            }
            _ => self.write_verb(f, "expects a reference type"),
        }
    }

    /// Why what the instruction itself names is not allowed here.
    fn write_members<W: fmt::Write>(
        &self,
        f: &mut fmt::Formatter<W>,
        mismatch: &Mismatch,
    ) -> fmt::Result {
        match mismatch {
            Mismatch::NoSuchVariable(number) => self.write_location(f, *number),
            Mismatch::NoReference(declared) => self.write_no_reference(f, *declared),
            Mismatch::AbstractMethod(class) => self.write_class(
                f,
                "names an abstract method of",
                *class,
                "has no code: `callvirt` runs that of the object",
            ),
            Mismatch::AbstractClass(class) => {
                self.write_class(f, "makes no object of", *class, "is abstract")
            }
            _ => self.write_verb(f, "names a member that is not there"),
        }
    }

    fn write_location<W: fmt::Write>(&self, f: &mut fmt::Formatter<W>, number: i64) -> fmt::Result {
        let (what, count) = match self.operation {
            Some(Operation::LoadArgument(_) | Operation::StoreArgument(_)) => {
                ("argument", self.scene.count_arguments())
            }
            _ => ("local", self.scene.locals.len()),
        };
        write!(
            f,
            "there is no {what} {number}: the method has {count}, counted from 0"
        )
    }
}
