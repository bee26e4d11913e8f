//! Reads the text of a schedule.
ghost use Rattle.std.specs.Prelude.{◌≡◌, ◌+◌, ◌-◌, ◌^◌, ◌≤◌, ◌&&◌, length, nat_lt, Some, None, IfErr, IfOk, position, MatchOption, MatchResult, OnOk, IsTrue, if◌then◌else◌, min};
ghost use Rattle.std.specs.List.{list_all};
ghost use Rattle.std.specs.Char.{is_ascii_digit};
ghost use Rattle.std.specs.Str.Parse.{digits_value};
ghost use Rattle.schedule_text.specs.Items.{IsItem, Names, capped_event, capped_item, events_of, is_number, has_thread_number, is_separator, is_star, words};
ghost use Rattle.schedule_text.specs.Readings.{AreRead, IsAdded, IsFaultOf, IsFaulty, IsFirstFault};
ghost use Rattle.schedule_text.specs.declared.items.Item.{Item};

use crate::errors::{MOST_EVENTS, ScheduleError};
use crate::items::{Item, has_thread_number};
use cil_model::events::Event;
use std::alloc::Global;

/// Reads the items that a text writes, in their order: each is an event, and how many times it occurs.
///
/// Items are separated by one or more of the bytes 9, 10, 13 and 32, which may also be at both
/// ends. An item is `g` (an event of the collector), `s` and a thread's number (its step) or `a` and
/// a thread's number (its acknowledgement), then possibly `*` and a count of at least 1: that many
/// such events. A number is written in decimal digits with no leading zero but in `0` itself, and
/// may be of any length.
///
/// # Errors
/// The first bad item decides: `NoItem` where it is not of this form, otherwise `NoThread` where its
/// thread's number is above 15, otherwise `TooLong` where there are more than 1,000,000 events up to it
/// and with it. `OutOfMemory` is returned only where memory for a good item is refused: no memory is taken
/// for a bad one.
pub fn read_schedule(alloc: Global, text: &[u8]) -> Result<Vec<Item>, ScheduleError>
    ensures { MatchResult result (λ items. AreRead (words text.now) (events_of items.items))
        (IsFirstFault (words text.now)) }
{
    let mut items = Vec::new(alloc);
    let mut events = 0;
    for word in text
        .split(|byte| is_separator(*byte))
        .filter(|word| !word.is_empty())
    {
        events = append_word(&mut items, events, word)?;
    }
    Ok(items)
}

/// Adds the item that a word writes to those before it, which represent `events` events, and returns how many they represent then.
fn append_word(items: &mut Vec<Item>, events: usize, word: &[u8]) -> Result<usize, ScheduleError>
    requires few { events ≤ MOST_EVENTS }
    requires many { events ≡ length (events_of items.old.items) }
    ensures many { IfOk result (λ events. (events ≡ length (events_of items.new.items)) × (events ≤ MOST_EVENTS)) }
    ensures ok { OnOk result ((item : Item) × IsItem word.now item
        × IsAdded (events_of items.old.items) item (events_of items.new.items)) }
    ensures err { IfErr result (IsFaulty events word.now) }
{
    let Some(item) = read_item(word) else {
        return Err(ScheduleError::NoItem);
    };
    append(items, events, item)
}

fn is_separator(byte: u8) -> bool
    ensures { result ≡ is_separator byte }
{
    byte == b'\t' || byte == b'\n' || byte == b'\r' || byte == b' '
}

/// The item that a word writes, its numbers as `read_number` and `read_thread` give them.
fn read_item(word: &[u8]) -> Option<Item>
    ensures { MatchOption result ((item : Item) → IsItem word.now item → ⊥)
        (λ item. (written : Item) × IsItem word.now written × (item ≡ capped_item written)) }
{
    match star_in(word) {
        None => {
            let event = read_event(word)?;
            Some(Item { event, count: 1 })
        }
        Some(star) => {
            let event = read_event(&word[..star])?;
            let count = read_count(&word[star + 1..])?;
            Some(Item { event, count })
        }
    }
}

/// Where the first `*` of a word is.
fn star_in(word: &[u8]) -> Option<usize>
    ensures { result ≡ position is_star word.now }
{
    word.iter().position(|byte| *byte == b'*')
}

/// The event that a word names, its thread's number as `read_thread` gives it.
fn read_event(name: &[u8]) -> Option<Event>
    ensures { MatchOption result ((event : Event) → Names name.now event → ⊥)
        (λ event. (written : Event) × Names name.now written × (event ≡ capped_event written)) }
{
    let (letter, digits) = name.split_first()?;
    match *letter {
        b's' => Some(Event::Step(read_thread(digits)?)),
        b'a' => Some(Event::Ack(read_thread(digits)?)),
        b'g' if digits.is_empty() => Some(Event::Gc),
        _ => None,
    }
}

/// The number that digits write, or 255 in place of a greater one.
fn read_thread(digits: &[u8]) -> Option<u8>
    ensures { result ≡ (if is_number digits.now then Some (min (digits_value 10 digits.now) 255) else None) }
{
    let number = read_number(digits)?;
    Some(u8::try_from(number).unwrap_or(u8::MAX))
}

/// The count of at least 1 that digits write, or the greatest of a `u32` in place of a greater one.
fn read_count(digits: &[u8]) -> Option<usize>
    ensures { result ≡ (if is_number digits.now && nat_lt 0 (digits_value 10 digits.now) then Some (min (digits_value 10 digits.now) (2 ^ 32 - 1)) else None) }
{
    let number = read_number(digits)?;
    if number == 0 {
        None
    } else {
        Some(number as usize)
    }
}

/// The number that digits write, or the greatest of a `u32` in place of a greater one.
fn read_number(digits: &[u8]) -> Option<u32>
    ensures { result ≡ (if is_number digits.now then Some (min (digits_value 10 digits.now) (2 ^ 32 - 1)) else None) }
{
    if is_number(digits) {
        Some(value_of(digits))
    } else {
        None
    }
}

/// Whether these are `0`, or decimal digits with no leading zero.
fn is_number(digits: &[u8]) -> bool
    ensures { result ≡ is_number digits.now }
{
    let Some((first, others)) = digits.split_first() else {
        return false;
    };
    if *first == b'0' {
        others.is_empty()
    } else {
        are_digits(digits)
    }
}

fn are_digits(bytes: &[u8]) -> bool
    ensures { result ≡ list_all is_ascii_digit bytes.now }
{
    bytes.iter().all(|byte| byte.is_ascii_digit())
}

/// The value of decimal digits, or the greatest of a `u32` in place of a greater one.
fn value_of(digits: &[u8]) -> u32
    requires { IsTrue (list_all is_ascii_digit digits.now) }
    ensures { result ≡ min (digits_value 10 digits.now) (2 ^ 32 - 1) }
{
    let mut value: u32 = 0;
    for digit in digits {
        value = value
            .saturating_mul(10)
            .saturating_add(u32::from(*digit - b'0'));
    }
    value
}

/// Adds an item to those before it, which represent `events` events, and returns how many they represent then.
fn append(items: &mut Vec<Item>, events: usize, item: Item) -> Result<usize, ScheduleError>
    requires few { events ≤ MOST_EVENTS }
    requires many { events ≡ length (events_of items.old.items) }
    ensures many { IfOk result (λ events. (events ≡ length (events_of items.new.items)) × (events ≤ MOST_EVENTS)) }
    ensures ok { OnOk result (IsAdded (events_of items.old.items) item (events_of items.new.items)) }
    ensures err { IfErr result (IsFaultOf events item) }
{
    if !has_thread_number(item.event) {
        return Err(ScheduleError::NoThread);
    }
    if item.count > MOST_EVENTS - events {
        return Err(ScheduleError::TooLong);
    }
    items.reserve(1)?;
    items.push_reserved(item);
    Ok(events + item.count)
}
