//! Instructions with their lines of the source.

ghost use Rattle.std.specs.Prelude.{◌≡◌, IfOk, option_and_then, option_map};
ghost use Rattle.event_trace.specs.Columns.{found_at};
ghost use Rattle.event_trace.specs.Lines.{method_and_pc};
ghost use Rattle.event_trace.specs.MethodPositions.{ArePositionsOf};
ghost use Rattle.end_explanations.specs.Locations.{line_of};

use crate::names::Names;
use cil_model::memory::NoMemory;
use event_trace::{InstructionPosition, LineText, Machine, Position, instruction_at, line_at};
use instruction_text::MethodNameText;
use name_tables::ids::{FIRST_OF_SOURCE, MethodId};
use std::fmt;

/// An instruction by its position, and its line of the source, where that is known.
#[derive(Clone, Copy)]
pub(crate) struct Located<'a> {
    pub(crate) at: Option<InstructionPosition<'a>>,
    /// The line, from 1.
    pub(crate) line: Option<usize>,
}

/// `Class::Method+N (line L)  instruction`, or a hyphen.
impl<'a> fmt::Display for Located<'a> {
    ghost use Rattle.std.specs.Prelude.{Some, option_map};
    ghost use Rattle.event_trace.specs.Lines.{method_and_pc};
    ghost use Rattle.end_explanations.specs.Locations.{located_text};

    ghost output = { λ l. Some (located_text (option_map method_and_pc l.at) l.line) };

    fn fmt<W: fmt::Write>(&self, f: &mut fmt::Formatter<W>) -> fmt::Result {
        let Some(InstructionPosition { found, pc }) = self.at else {
            return f.write_str("-");
        };
        let owner = found.owner;
        let name = MethodNameText(&found.method.name);
        let line = LineNote(self.line);
        let instruction = LineText(line_at(found.method, pc as usize));
        write!(f, "{owner}::{name}+{pc}{line}{instruction}")
    }
}

/// The line of the source in brackets. Nothing if it is not known.
#[derive(Clone, Copy)]
struct LineNote(Option<usize>);

impl fmt::Display for LineNote {
    ghost use Rattle.std.specs.Prelude.{Some};
    ghost use Rattle.end_explanations.specs.Locations.{line_note};

    ghost output = { λ note. Some (line_note note.0) };

    fn fmt<W: fmt::Write>(&self, f: &mut fmt::Formatter<W>) -> fmt::Result {
        match self.0 {
            None => Ok(()),
            Some(line) => write!(f, " (line {line})"),
        }
    }
}

/// The instruction at a position of the program that a machine runs, with its line. The only error is out of memory.
pub(crate) fn locate<'a>(
    machine: &'a Machine,
    names: &'a Names<'_>,
    position: Option<Position>,
) -> Result<Located<'a>, NoMemory>
    requires { ArePositionsOf machine.now.tree names.now.methods }
    ensures at { IfOk result (λ l. option_map method_and_pc l.at ≡ option_and_then (found_at machine.now.tree) position) }
    ensures line { IfOk result (λ l. l.line ≡ option_and_then (line_of names.now.lines) position) }
{
    let Some(position) = position else {
        return Ok(Located {
            at: None,
            line: None,
        });
    };
    Ok(Located {
        line: line_of(names, position)?,
        at: instruction_at(machine, &names.methods, Some(position)),
    })
}

/// The line of the instruction at a position. None of a method of a built-in class.
fn line_of(names: &Names<'_>, position: Position) -> Result<Option<usize>, NoMemory>
    ensures { IfOk result (λ line. line ≡ line_of names.now.lines position) }
{
    let MethodId { class, index } = position.method;
    match class.number().checked_sub(FIRST_OF_SOURCE) {
        None => Ok(None),
        Some(class) => names.lines.line(class, index, position.pc as usize),
    }
}
