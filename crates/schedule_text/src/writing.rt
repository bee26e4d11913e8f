//! Writes the text of a schedule.
ghost use Rattle.std.specs.Prelude.{◌≡◌, ◌+◌, ◌<◌, ◌≤◌, ◌++◌, IfOk, IfSome, MatchResult, None, OnOk, false, length, nat_le, replicate, string_bytes};
ghost use Rattle.std.specs.List.{list_all};
ghost use Rattle.schedule_text.specs.Items.{events_of, has_good_events, has_thread_number, item_text, name_of, same_event, separate_words};
ghost use Rattle.schedule_text.specs.Writings.{IsNotWritten, IsTextOf, IsWritten};

use crate::errors::{MOST_EVENTS, ScheduleError};
use crate::inserting::room_after;
use crate::items::{Item, has_thread_number};
use cil_model::events::Event;
use std::alloc::{AllocError, Global};

/// Writes the events that items represent as a text that `read_schedule` reads as these events.
///
/// Each longest run of equal events is one item: the event alone where the run has one event, and
/// otherwise with `*` and their number after it. One space is between items, and nothing at the
/// ends; no events have the empty text.
///
/// # Errors
/// `TooLong` where there are more than 1,000,000 events, otherwise `NoThread` where a thread's number is
/// above 15, otherwise `OutOfMemory` where memory is refused.
pub fn write_schedule(alloc: Global, items: &[Item]) -> Result<String, ScheduleError>
    ensures { MatchResult result (λ text. IsWritten (events_of items.now) (string_bytes text)) (IsNotWritten (events_of items.now)) }
{
    if !are_few(items) {
        return Err(ScheduleError::TooLong);
    }
    if !have_thread_numbers(items) {
        return Err(ScheduleError::NoThread);
    }
    Ok(write_runs(alloc, items)?)
}

/// Whether items represent no more events than a schedule has.
fn are_few(items: &[Item]) -> bool
    ensures { result ≡ nat_le (length (events_of items.now)) MOST_EVENTS }
{
    room_after(items, MOST_EVENTS).is_some()
}

/// Whether each event's thread is one that a machine can have.
fn have_thread_numbers(items: &[Item]) -> bool
    ensures { result ≡ list_all has_thread_number (events_of items.now) }
{
    have_good_events(items)
}

fn have_good_events(items: &[Item]) -> bool
    ensures { result ≡ list_all has_good_events items.now }
{
    items.iter().all(|item| has_good_events(item))
}

/// Whether the thread of an item's events is one that a machine can have, or it has none.
fn has_good_events(item: &Item) -> bool
    ensures { result ≡ has_good_events item.now }
{
    item.count == 0 || has_thread_number(item.event)
}

/// The text of each longest run of equal events, with one space between two.
fn write_runs(alloc: Global, items: &[Item]) -> Result<String, AllocError>
    requires { length (events_of items.now) ≤ MOST_EVENTS }
    ensures { IfOk result (λ text. IsTextOf (events_of items.now) (string_bytes text)) }
{
    let mut text = String::new(alloc);
    let mut run = Item {
        event: Event::Gc,
        count: 0,
    };
    for item in items {
        match longer(run, *item) {
            Some(more) => run = more,
            None => {
                append_item(&mut text, run)?;
                run = *item;
            }
        }
    }
    if run.count > 0 {
        append_item(&mut text, run)?;
    }
    Ok(text)
}

/// A run of events with those of an item after it. None where these are of another run.
fn longer(run: Item, item: Item) -> Option<Item>
    requires { run.count + item.count ≤ MOST_EVENTS }
    ensures one { IfSome result (λ more. replicate more.count more.event ≡ replicate run.count run.event ++ replicate item.count item.event) }
    ensures another { result ≡ None → (0 < run.count) × (0 < item.count) × (same_event run.event item.event ≡ false) }
{
    if item.count == 0 {
        return Some(run);
    }
    if run.count == 0 {
        return Some(item);
    }
    if !is_same(&run.event, &item.event) {
        return None;
    }
    Some(Item {
        event: run.event,
        count: run.count + item.count,
    })
}

fn is_same(event: &Event, other: &Event) -> bool
    ensures { result ≡ same_event event.now other.now }
{
    event == other
}

/// Adds the text of an item to the text before it, with a space between the two.
fn append_item(text: &mut String, item: Item) -> Result<(), AllocError>
    ensures { OnOk result
        (string_bytes text.new ≡ separate_words (string_bytes text.old) ++ item_text item) }
{
    if !text.is_empty() {
        text.push(' ')?;
    }
    write_item(text, item)
}

/// Adds the text of an item to the text before it.
fn write_item(text: &mut String, item: Item) -> Result<(), AllocError>
    ensures { OnOk result (string_bytes text.new ≡ string_bytes text.old ++ item_text item) }
{
    write_event(text, item.event)?;
    if item.count == 1 {
        return Ok(());
    }
    let count = item.count;
    write!(text, "*{count}")
}

/// Adds the name of an event to the text before it.
fn write_event(text: &mut String, event: Event) -> Result<(), AllocError>
    ensures { OnOk result (string_bytes text.new ≡ string_bytes text.old ++ name_of event) }
{
    match event {
        Event::Step(thread) => write!(text, "s{thread}"),
        Event::Ack(thread) => write!(text, "a{thread}"),
        Event::Gc => text.push('g'),
    }
}
