//! Why a text is no schedule (numbers 501 to 503).

use crate::file_kinds::explain_schedule_kind;
use schedule_text::{MOST_EVENTS, ScheduleError, read_schedule};
use source_positions::Named;
use source_positions::cil_model::memory::NoMemory;
use std::alloc::Global;
use std::fmt;

/// The most bytes of an item that are shown in a sentence.
const MOST_SHOWN: usize = 40;

/// The blanks that separate items.
fn is_separator(byte: u8) -> bool {
    matches!(byte, b'\t' | b'\n' | b'\r' | b' ')
}

/// An item of the text, and the offset of its first byte.
#[derive(Clone, Copy)]
struct Item<'a> {
    start: usize,
    word: &'a [u8],
}

/// How many events an item writes; None where it can't be read. Fails only when out of memory.
fn count_events(alloc: Global, word: &[u8]) -> Result<Option<usize>, NoMemory> {
    match read_schedule(alloc, word) {
        Ok(items) => Ok(Some(items.first().map_or(0, |item| item.count))),
        Err(ScheduleError::OutOfMemory) => Err(NoMemory),
        Err(_) => Ok(None),
    }
}

/// The first item that can't be read after those before it, read one by one. Fails only when out of memory.
fn first_bad(alloc: Global, text: &[u8]) -> Result<Option<Item<'_>>, NoMemory> {
    let mut left = MOST_EVENTS;
    let mut start = 0usize;
    for word in text.split(|byte| is_separator(*byte)) {
        let item = Item { start, word };
        start = start.saturating_add(word.len()).saturating_add(1);
        if word.is_empty() {
            continue;
        }
        match count_events(alloc, word)? {
            Some(events) if events <= left => left -= events,
            _ => return Ok(Some(item)),
        }
    }
    Ok(None)
}

/// An item of a schedule, as a sentence names it.
#[derive(Clone, Copy)]
struct ItemText<'a>(&'a [u8]);

impl fmt::Display for ItemText<'_> {
    fn fmt<W: fmt::Write>(&self, f: &mut fmt::Formatter<W>) -> fmt::Result {
        let is_short = self.0.len() <= MOST_SHOWN;
        match str::from_utf8(self.0) {
            Ok(text) if is_short && self.0.iter().all(|byte| byte.is_ascii_graphic()) => {
                write!(f, "`{text}`")
            }
            _ => f.write_str("what stands here"),
        }
    }
}

/// An error at an item. It prints as one sentence without an end.
#[derive(Clone, Copy)]
struct BadItem<'a> {
    error: ScheduleError,
    item: ItemText<'a>,
}

impl fmt::Display for BadItem<'_> {
    fn fmt<W: fmt::Write>(&self, f: &mut fmt::Formatter<W>) -> fmt::Result {
        let item = &self.item;
        match &self.error {
            ScheduleError::NoItem => write!(
                f,
                "{item} is not an item: an item is g, sN or aN, with or without *COUNT after it, and no number has a leading zero"
            ),
            ScheduleError::NoThread => {
                write!(
                    f,
                    "{item} names no thread: threads have the numbers 0 to 15"
                )
            }
            ScheduleError::TooLong => {
                write!(f, "with {item} there are more than {MOST_EVENTS} events")
            }
            ScheduleError::OutOfMemory => f.write_str("memory ran out for the events"),
        }
    }
}

/// Why a text is no schedule: the sentence of the error that `read_schedule` returned of it, at its first bad item, with the line and
/// carets below the item. Each line ends with a line feed; lines and columns are counted from 1. Fails only when out of memory.
pub fn explain_schedule(
    alloc: Global,
    file: &str,
    text: &[u8],
    error: ScheduleError,
) -> Result<String, NoMemory> {
    let named = Named { file, text };
    if let Some(message) = explain_schedule_kind(alloc, named)? {
        return Ok(message);
    }
    match first_bad(alloc, text)? {
        None => {
            let sentence = error.to_string(alloc)?;
            named.message(alloc, None, sentence.as_str())
        }
        Some(item) => described_item(alloc, named, error, item),
    }
}

fn described_item(
    alloc: Global,
    named: Named,
    error: ScheduleError,
    item: Item,
) -> Result<String, NoMemory> {
    let bad = BadItem {
        error,
        item: ItemText(item.word),
    };
    let sentence = bad.to_string(alloc)?;
    let mut message = String::new(alloc);
    named.push_on(&mut message, item.start, item.word.len(), sentence.as_str())?;
    Ok(message)
}
