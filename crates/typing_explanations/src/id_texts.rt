//! Types by numbers, as text.

use flow_rules::entries::StackEntry;
use resolved_code::types::{ResolvedElement, ResolvedType};
use source_positions::ClassText;
use source_positions::cil_model::trees::Class;
use source_positions::name_tables::built_in::BuiltInClass;
use source_positions::name_tables::keys::ClassKey;
use std::fmt;
use std::fmt::Display;

/// The names of classes by their numbers: the built-in ones first, and then those of the source.
#[derive(Clone, Copy)]
pub(crate) struct ClassNames<'a> {
    pub built_in: &'a [BuiltInClass],
    pub sources: &'a [Class],
}

impl<'a> ClassNames<'a> {
    fn name(self, number: usize) -> Option<ClassKey<'a>> {
        match number.checked_sub(self.built_in.len()) {
            None => Some(ClassKey::of(&self.built_in.get(number)?.name)),
            Some(source) => Some(ClassKey::of_source(self.sources.get(source)?)),
        }
    }
}

/// The class of a number.
#[derive(Clone, Copy)]
pub(crate) struct ClassById<'a>(pub ClassNames<'a>, pub usize);

impl fmt::Display for ClassById<'_> {
    fn fmt<W: fmt::Write>(&self, f: &mut fmt::Formatter<W>) -> fmt::Result {
        match self.0.name(self.1) {
            None => f.write_str("?"),
            Some(class) => ClassText(class).fmt(f),
        }
    }
}

/// A type by its number: `int32`, `Dog[]`.
#[derive(Clone, Copy)]
pub(crate) struct TypeOf<'a>(pub ClassNames<'a>, pub ResolvedType);

impl TypeOf<'_> {
    /// The type without its brackets.
    fn write_element<W: fmt::Write>(&self, f: &mut fmt::Formatter<W>) -> fmt::Result {
        match &self.1.element {
            ResolvedElement::Int32 => f.write_str("int32"),
            ResolvedElement::Int64 => f.write_str("int64"),
            ResolvedElement::Object => f.write_str("object"),
            ResolvedElement::String => f.write_str("string"),
            ResolvedElement::Class(number) => ClassById(self.0, *number).fmt(f),
        }
    }
}

impl fmt::Display for TypeOf<'_> {
    fn fmt<W: fmt::Write>(&self, f: &mut fmt::Formatter<W>) -> fmt::Result {
        self.write_element(f)?;
        for _ in 0..self.1.brackets {
            f.write_str("[]")?;
        }
        Ok(())
    }
}

/// What is known of a value on the stack.
#[derive(Clone, Copy)]
pub(crate) struct EntryOf<'a>(pub ClassNames<'a>, pub StackEntry);

impl fmt::Display for EntryOf<'_> {
    fn fmt<W: fmt::Write>(&self, f: &mut fmt::Formatter<W>) -> fmt::Result {
        match &self.1 {
            StackEntry::Declared(declared) => TypeOf(self.0, *declared).fmt(f),
            StackEntry::NativeInt => f.write_str("native int"),
            StackEntry::Null => f.write_str("null"),
        }
    }
}

/// A stack with the lines of the instructions that pushed its topmost values, both with the top first. It is written with its top last,
/// and each line, where it is known, after its value: `int32 (line 6), string`. It is `empty` where it holds nothing.
#[derive(Clone, Copy)]
pub(crate) struct StackOf<'a> {
    pub names: ClassNames<'a>,
    pub entries: &'a [StackEntry],
    pub lines: &'a [Option<usize>],
}

impl StackOf<'_> {
    /// A value, and the line of the instruction that pushed it.
    fn write_entry<W: fmt::Write>(
        &self,
        f: &mut fmt::Formatter<W>,
        entry: StackEntry,
        above: usize,
    ) -> fmt::Result {
        EntryOf(self.names, entry).fmt(f)?;
        match self.lines.get(above) {
            Some(Some(line)) => write!(f, " (line {line})"),
            _ => Ok(()),
        }
    }
}

impl fmt::Display for StackOf<'_> {
    fn fmt<W: fmt::Write>(&self, f: &mut fmt::Formatter<W>) -> fmt::Result {
        if self.entries.is_empty() {
            return f.write_str("empty");
        }
        let mut above = self.entries.len();
        for entry in self.entries.iter().rev() {
            if above < self.entries.len() {
                f.write_str(", ")?;
            }
            above = above.saturating_sub(1);
            self.write_entry(f, *entry, above)?;
        }
        Ok(())
    }
}
