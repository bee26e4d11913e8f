//! What is printed of a thread that ended.

ghost use Rattle.std.specs.Prelude.{◌≡◌, ◌++◌, ◌-◌, ◌<◌, [], OnOk, length, slice_get, string_bytes};
ghost use Rattle.std.specs.Option.{option_map_or};
ghost use Rattle.event_trace.specs.MethodPositions.{ArePositionsOf};
ghost use Rattle.end_explanations.specs.Ends.{caller_text, callers_text, end_text, more_text};

use crate::ends::{Cause, EarlyEnd};
use crate::located::{Located, locate};
use crate::names::Names;
use cil_model::memory::NoMemory;
use event_trace::{AwaitedText, Machine, Position, awaited_by};
use std::fmt;

/// How many callers are printed of a thread, the innermost ones.
const MOST_CALLERS: usize = 10;

/// Why a thread ended, where it was before its last step, and what it waited for: two lines.
#[derive(Clone, Copy)]
struct EndText<'a> {
    thread: u8,
    cause: Cause,
    at: Located<'a>,
    awaited: Option<AwaitedText<'a>>,
}

impl<'a> fmt::Display for EndText<'a> {
    ghost use Rattle.std.specs.Prelude.{Some, option_map};
    ghost use Rattle.event_trace.specs.Lines.{method_and_pc};
    ghost use Rattle.event_trace.specs.Texts.{awaited_text};
    ghost use Rattle.end_explanations.specs.Ends.{end_lines};

    ghost output = { λ text. Some (end_lines text.thread text.cause (option_map method_and_pc text.at.at) text.at.line (option_map awaited_text text.awaited)) };

    fn fmt<W: fmt::Write>(&self, f: &mut fmt::Formatter<W>) -> fmt::Result {
        let EndText {
            thread,
            cause,
            at,
            ..
        } = self;
        match self.awaited {
            None => writeln!(f, "thread {thread}: {cause}\n  at {at}"),
            Some(awaited) => {
                writeln!(
                    f,
                    "thread {thread}: {cause}\n  at {at}, waits for {awaited}"
                )
            }
        }
    }
}

/// Adds why a thread ended, where it is, and what it waits for.
pub(crate) fn add_end(
    text: &mut String,
    machine: &Machine,
    names: &Names<'_>,
    end: EarlyEnd,
) -> Result<(), NoMemory>
    requires { ArePositionsOf machine.now.tree names.now.methods }
    ensures { OnOk result (string_bytes text.new ≡ string_bytes text.old ++ end_text names.now.lines machine.now end) }
{
    let EarlyEnd { thread, cause } = end;
    let lines = EndText {
        thread,
        cause,
        at: locate(machine, names, machine.position_of(thread))?,
        awaited: awaited_by(machine, &names.methods, thread),
    };
    write!(text, "{lines}")?;
    Ok(())
}

/// Adds the lines of the innermost callers, and how many more there are.
pub(crate) fn add_callers(
    text: &mut String,
    machine: &Machine,
    names: &Names<'_>,
    callers: &[Position],
) -> Result<(), NoMemory>
    requires { ArePositionsOf machine.now.tree names.now.methods }
    ensures { OnOk result (string_bytes text.new ≡ string_bytes text.old ++ callers_text names.now.lines machine.now callers.now) }
{
    let printed = callers.len().min(MOST_CALLERS);
    for inner in 0..printed {
        add_caller_at(text, machine, names, callers, inner)?;
    }
    add_more(text, callers.len().saturating_sub(MOST_CALLERS))
}

/// Adds the line of a caller, by its index from the innermost one.
fn add_caller_at(
    text: &mut String,
    machine: &Machine,
    names: &Names<'_>,
    callers: &[Position],
    inner: usize,
) -> Result<(), NoMemory>
    requires positions { ArePositionsOf machine.now.tree names.now.methods }
    requires within { inner < length callers.now }
    ensures { OnOk result (string_bytes text.new ≡ string_bytes text.old ++ option_map_or (caller_text names.now.lines machine.now) (slice_get callers.now (length callers.now - 1 - inner)) []) }
{
    match callers.get(callers.len() - 1 - inner) {
        Some(caller) => add_caller(text, machine, names, *caller),
        None => Ok(()),
    }
}

/// Adds how many more callers there are, if there are any.
fn add_more(text: &mut String, more: usize) -> Result<(), NoMemory>
    ensures { OnOk result (string_bytes text.new ≡ string_bytes text.old ++ more_text more) }
{
    if more > 0 {
        writeln!(text, "  and {more} more callers")?;
    }
    Ok(())
}

/// Adds the line of a caller.
fn add_caller(
    text: &mut String,
    machine: &Machine,
    names: &Names<'_>,
    caller: Position,
) -> Result<(), NoMemory>
    requires { ArePositionsOf machine.now.tree names.now.methods }
    ensures { OnOk result (string_bytes text.new ≡ string_bytes text.old ++ caller_text names.now.lines machine.now caller) }
{
    let at = locate(machine, names, Some(caller))?;
    writeln!(text, "  called from {at}")?;
    Ok(())
}
