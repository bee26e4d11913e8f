//! Puts events among those of a schedule.
ghost use Rattle.std.specs.Prelude.{◌≡◌, ◌+◌, ◌<◌, ◌++◌, IfOk, MatchOption, MatchResult, OnOk, drop, length, replicate, take};
ghost use Rattle.schedule_text.specs.Insertions.{IsInserted, IsNotInserted};
ghost use Rattle.schedule_text.specs.Items.{events_of};

use crate::errors::{MOST_EVENTS, ScheduleError};
use crate::items::Item;
use cil_model::events::Event;
use std::alloc::{AllocError, Global};

/// The events that items represent with others among them: the first `at`, then the inserted ones, then the rest. The inserted ones are after all
/// of them where there are fewer. An item within which the position lies becomes two.
///
/// # Errors
/// `TooLong` where there are more than 1,000,000 events in all, which is decided first; otherwise `OutOfMemory` where memory is refused.
pub fn insert_at(
    alloc: Global,
    items: &[Item],
    at: usize,
    inserted: &[Item],
) -> Result<Vec<Item>, ScheduleError>
    ensures { MatchResult result (λ all. IsInserted (events_of items.now) at (events_of inserted.now) (events_of all.items)) (IsNotInserted (events_of items.now) (events_of inserted.now)) }
{
    let room = room_after(items, MOST_EVENTS).ok_or(ScheduleError::TooLong)?;
    room_after(inserted, room).ok_or(ScheduleError::TooLong)?;
    Ok(with_inserted(alloc, items, at, inserted)?)
}

/// How many events may follow those of items, of at most `most` in all. None where these are more.
pub(crate) fn room_after(items: &[Item], most: usize) -> Option<usize>
    ensures { MatchOption result (most < length (events_of items.now)) (λ room. room + length (events_of items.now) ≡ most) }
{
    let mut room = most;
    for item in items {
        room = room.checked_sub(item.count)?;
    }
    Some(room)
}

fn with_inserted(
    alloc: Global,
    items: &[Item],
    at: usize,
    inserted: &[Item],
) -> Result<Vec<Item>, AllocError>
    ensures { IfOk result (λ all. events_of all.items ≡ take at (events_of items.now) ++ events_of inserted.now ++ drop at (events_of items.now)) }
{
    let mut all = Vec::new(alloc);
    append_first(&mut all, items, at)?;
    all.extend_from_slice(inserted)?;
    append_rest(&mut all, items, at)?;
    Ok(all)
}

/// Puts the first `at` events of items after others.
fn append_first(all: &mut Vec<Item>, items: &[Item], at: usize) -> Result<(), AllocError>
    ensures { OnOk result (events_of all.new.items ≡ events_of all.old.items ++ take at (events_of items.now)) }
{
    let mut left = at;
    for item in items {
        let count = item.count.min(left);
        append_events(all, item.event, count)?;
        left -= count;
    }
    Ok(())
}

/// Puts the events of items, but for the first `at`, after others.
fn append_rest(all: &mut Vec<Item>, items: &[Item], at: usize) -> Result<(), AllocError>
    ensures { OnOk result (events_of all.new.items ≡ events_of all.old.items ++ drop at (events_of items.now)) }
{
    let mut left = at;
    for item in items {
        append_events(all, item.event, item.count.saturating_sub(left))?;
        left = left.saturating_sub(item.count);
    }
    Ok(())
}

/// Puts one event `count` times after others: as an item, where the count is not 0.
fn append_events(all: &mut Vec<Item>, event: Event, count: usize) -> Result<(), AllocError>
    ensures { OnOk result (events_of all.new.items ≡ events_of all.old.items ++ replicate count event) }
{
    if count > 0 {
        all.push(Item { event, count })?;
    }
    Ok(())
}
