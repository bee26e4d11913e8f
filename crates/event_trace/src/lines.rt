//! The line of an event.

use crate::columns::{EventColumns, HeapColumns, SizeColumns};
use crate::owned_methods::InstructionPosition;
use interleaving_core::Position;
use std::fmt;
use std::fmt::Display;

/// What is written of an event.
#[derive(Clone, Copy)]
pub(crate) struct TraceLine<'a> {
    pub(crate) event: EventColumns,
    /// Where the event's thread was before it.
    pub(crate) before: Option<InstructionPosition<'a>>,
    /// Where it is after it.
    pub(crate) after: Option<Position>,
    /// The heap and the phases after it.
    pub(crate) heap: HeapColumns,
}

/// The columns with a tab between two, and a line feed after them.
impl<'a> fmt::Display for TraceLine<'a> {
    ghost use Rattle.std.specs.Prelude.{Some};
    ghost use Rattle.event_trace.specs.Lines.{text_of};

    ghost output = { λ line. Some (text_of line) };

    fn fmt<W: fmt::Write>(&self, f: &mut fmt::Formatter<W>) -> fmt::Result {
        let event = self.event;
        let instruction = InstructionColumn(self.before);
        let sizes = SizeColumns(self.after);
        let heap = self.heap;
        writeln!(f, "{event}\t{instruction}\t{sizes}\t{heap}")
    }
}

/// An instruction with its pc, or a hyphen where there is none.
#[derive(Clone, Copy)]
pub struct InstructionColumn<'a>(pub Option<InstructionPosition<'a>>);

impl<'a> fmt::Display for InstructionColumn<'a> {
    ghost use Rattle.std.specs.Prelude.{Some, option_map};
    ghost use Rattle.event_trace.specs.Columns.{instruction_column};
    ghost use Rattle.event_trace.specs.Lines.{method_and_pc};

    ghost output = { λ column. Some (instruction_column (option_map method_and_pc column.0)) };

    fn fmt<W: fmt::Write>(&self, f: &mut fmt::Formatter<W>) -> fmt::Result {
        match &self.0 {
            None => f.write_str("-"),
            Some(at) => at.fmt(f),
        }
    }
}
