//! The two lines of an outcome.

ghost use Rattle.std.specs.Prelude.{◌≡◌, ◌≢◌, ◌++◌, [], List, ℕ, IfOk, OnOk, codes, decimal, length, string_bytes};
ghost use Rattle.schedule_text.specs.Items.{events_of};
ghost use Rattle.schedule_text.specs.declared.errors.ScheduleError.TheVariants.{OutOfMemory};
ghost use Rattle.outcome_text.specs.Outcomes.{IsSchedule, outcome_line, printed_text, schedule_line};

use crate::counts::CountText;
use crate::ends::add_ends;
use cil_model::events::Event;
use cil_model::memory::NoMemory;
use cil_model::reports::End;
use instruction_text::BytesText;
use schedule_text::{Item, ScheduleError, write_schedule};
use std::alloc::Global;

/// Appends the line of an outcome: its number, the end of each thread, which is None for a blocked one, and the printed bytes. It fails only if memory
/// runs out; a prefix of the line may be appended then.
pub fn add_outcome(
    text: &mut String,
    number: usize,
    ends: &[Option<End>],
    printed: &[u8],
) -> Result<(), NoMemory>
    ensures { OnOk result (string_bytes text.new ≡ string_bytes text.old ++ outcome_line number ends.now printed.now) }
{
    write!(text, "outcome {number}: ")?;
    add_ends(text, ends)?;
    add_printed(text, printed)
}

/// Appends the printed bytes of an outcome.
fn add_printed(text: &mut String, printed: &[u8]) -> Result<(), NoMemory>
    ensures { OnOk result (string_bytes text.new ≡ string_bytes text.old ++ printed_text printed.now) }
{
    let printed = BytesText(printed);
    write!(text, "prints \"{printed}\"\n")?;
    Ok(())
}

/// Appends the line of a schedule: its preemptions, the number of its events, and its text. It fails only if memory runs out; a prefix of the line may be
/// appended then.
pub fn add_schedule(
    alloc: Global,
    text: &mut String,
    preemptions: usize,
    events: &[Event],
) -> Result<(), NoMemory>
    ensures { OnOk result ((schedule : List ℕ) × IsSchedule events.now schedule
        × (string_bytes text.new ≡ string_bytes text.old ++ schedule_line preemptions (length events.now) schedule)) }
{
    let schedule = schedule_text(alloc, events)?;
    add_written(text, preemptions, events, schedule.as_str())
}

/// Appends the line of a schedule that has this text.
fn add_written(
    text: &mut String,
    preemptions: usize,
    events: &[Event],
    schedule: &str,
) -> Result<(), NoMemory>
    ensures { OnOk result (string_bytes text.new ≡ string_bytes text.old ++ schedule_line preemptions (length events.now) schedule.now) }
{
    let preemptions = CountText {
        number: preemptions,
        noun: "preemption",
    };
    let steps = CountText {
        number: events.len(),
        noun: "step",
    };
    write!(text, "  with {preemptions}, {steps}: {schedule}\n")?;
    Ok(())
}

/// The text of a schedule; empty if it has more than 1,000,000 events or a thread above 15. It fails only if memory runs out.
pub fn schedule_text(alloc: Global, events: &[Event]) -> Result<String, NoMemory>
    ensures { IfOk result (λ text. IsSchedule events.now (string_bytes text)) }
{
    let items = items_of(alloc, events)?;
    match write_schedule(alloc, &items) {
        Ok(schedule) => Ok(schedule),
        Err(error) => no_text(alloc, error),
    }
}

/// An empty text in place of a schedule that can't be written; an error if memory has run out.
fn no_text(alloc: Global, error: ScheduleError) -> Result<String, NoMemory>
    ensures { IfOk result (λ text. (error ≢ OutOfMemory) × (string_bytes text ≡ [])) }
{
    match error {
        ScheduleError::OutOfMemory => Err(NoMemory),
        ScheduleError::NoItem | ScheduleError::NoThread | ScheduleError::TooLong => {
            Ok(String::new(alloc))
        }
    }
}

/// Each event as an item.
fn items_of(alloc: Global, events: &[Event]) -> Result<Vec<Item>, NoMemory>
    ensures { IfOk result (λ items. events_of items.items ≡ events.now) }
{
    let mut items = Vec::new(alloc);
    for event in events {
        items.push(Item {
            event: *event,
            count: 1,
        })?;
    }
    Ok(items)
}
