//! What workers did, as the text of a schedule.

ghost use Rattle.std.specs.Prelude.{◌≡◌, ◌≢◌, IfErr, IfOk, string_bytes};
ghost use Rattle.schedule_text.specs.Items.{events_of as events_in};
ghost use Rattle.schedule_text.specs.Writings.{IsNotWritten, IsWritten};
ghost use Rattle.schedule_text.specs.declared.errors.ScheduleError.TheVariants.{OutOfMemory};
ghost use Rattle.shared_machine.specs.Histories.{events_of};

use crate::history::History;
use schedule_text::{Item, ScheduleError, write_schedule};
use std::alloc::{AllocError, Global};

/// The text of a schedule that has the events of a history, in order: whoever replays it has the machine do them again.
///
/// # Errors
/// As of `write_schedule`: `TooLong` where there are more than 1,000,000 events, else `NoThread` where a thread's number is above 15.
/// `OutOfMemory` may come in place of any answer.
pub fn write_record(alloc: Global, history: &History) -> Result<String, ScheduleError>
    ensures written { IfOk result (λ text. IsWritten (events_of history.now.entries) (string_bytes text)) }
    ensures refused { IfErr result (λ error. error ≢ OutOfMemory → IsNotWritten (events_of history.now.entries) error) }
{
    let items = items_of(alloc, history)?;
    write_schedule(alloc, items.as_slice())
}

/// The events of a history, in order, as an item for each of its runs. The only error is out of memory.
fn items_of(alloc: Global, history: &History) -> Result<Vec<Item>, AllocError>
    ensures { IfOk result (λ items. events_in items.items ≡ events_of history.now.entries) }
{
    let mut items = Vec::new(alloc);
    let runs = history.runs();
    for run in runs {
        items.reserve(1)?;
        items.push_reserved(Item {
            event: run.entry.event,
            count: run.times as usize,
        });
    }
    Ok(items)
}
