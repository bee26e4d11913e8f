//! Schedules of which one event is moved, and a cycle of the collector at each index of the schedule of the program that prints a sum.

use crate::machines::{Comparison, compare, difference_in};
use cil_model::events::Event;
use cil_model::limits::Limits;
use cil_model::memory::NoMemory;
use cil_model::reports::Report;
use schedule_text::{Item, ScheduleError, insert_at, read_schedule};
use source_runs::{Failure, Machine, accept};
use std::alloc::{AllocError, Global};
use std::fs;
use std::iter::repeat_n;

/// No event of a longer schedule is moved.
const MOST_EVENTS: usize = 200;

/// The steps of the program that prints a sum.
const STEPS: usize = 5;

/// The events of a collector's whole cycle beside it, the first one first.
const CYCLE: &[u8] = b"g a0 g*2 a0 g a0 g a0 g a0 g a0 g a0 g a0 g";

/// The events of the collector in that cycle that do work.
const WORKING: usize = 10;

/// Compares both machines on each schedule that results from a schedule's text by moving one event: by one position, or, where it is a step that
/// starts a thread, to just before or just after an acknowledgement. Returns the first difference; none where the machines agree, or the
/// schedule is longer than 200 events.
pub fn difference_by_moves(
    alloc: Global,
    source: &[u8],
    limits: Limits,
    text: &[u8],
) -> Result<Option<String>, Failure> {
    let items = read_schedule(alloc, text)?;
    let events = single_events(alloc, items.as_slice())?;
    if events.len() > MOST_EVENTS {
        return Ok(None);
    }
    let found = difference_by_neighbors(alloc, source, limits, events.as_slice())?;
    if found.is_some() {
        return Ok(found);
    }
    difference_by_starts(alloc, source, limits, events.as_slice())
}

/// The events of items, an item each: at most the number that may be moved, and one more where there are more.
fn single_events(alloc: Global, items: &[Item]) -> Result<Vec<Item>, AllocError> {
    let mut events = Vec::new(alloc);
    for event in items
        .iter()
        .flat_map(|item| repeat_n(item.event, item.count))
    {
        if events.len() > MOST_EVENTS {
            break;
        }
        events.push(Item { event, count: 1 })?;
    }
    Ok(events)
}

/// The events with the one at an index moved: `to` counts among the others.
fn move_event(
    alloc: Global,
    events: &[Item],
    from: usize,
    to: usize,
) -> Result<Vec<Item>, ScheduleError> {
    let others = all_but(alloc, events, from)?;
    match events.get(from) {
        Some(item) => insert_at(alloc, others.as_slice(), to, &[*item]),
        None => Ok(others),
    }
}

/// The events but for the one at an index.
fn all_but(alloc: Global, events: &[Item], left_out: usize) -> Result<Vec<Item>, AllocError> {
    let mut others = Vec::new(alloc);
    for (index, item) in events.iter().enumerate() {
        if index != left_out {
            others.push(*item)?;
        }
    }
    Ok(others)
}

/// Whether the event at an index is the same as the one before it.
fn is_repeated(events: &[Item], index: usize) -> bool {
    match (events.get(index.saturating_sub(1)), events.get(index)) {
        (Some(before), Some(item)) => before.event == item.event,
        _ => false,
    }
}

/// Compares on each schedule with two different neighbors exchanged: one of them is then one position earlier, and the other one position later.
fn difference_by_neighbors(
    alloc: Global,
    source: &[u8],
    limits: Limits,
    events: &[Item],
) -> Result<Option<String>, Failure> {
    for index in 1..events.len() {
        if is_repeated(events, index) {
            continue;
        }
        let before = index.saturating_sub(1);
        let found = difference_by_move(alloc, source, limits, events, index, before)?;
        if found.is_some() {
            return Ok(found);
        }
    }
    Ok(None)
}

/// Compares with each step that starts a thread just before and just after each acknowledgement.
fn difference_by_starts(
    alloc: Global,
    source: &[u8],
    limits: Limits,
    events: &[Item],
) -> Result<Option<String>, Failure> {
    let starts = match starting_steps(alloc, source, limits, events) {
        Ok(starts) => starts,
        Err(Failure::Refused(_)) | Err(Failure::OutOfRange(_)) => return Ok(None),
        Err(failure) => return Err(failure),
    };
    for start in starts {
        let found = difference_by_start(alloc, source, limits, events, start)?;
        if found.is_some() {
            return Ok(found);
        }
    }
    Ok(None)
}

/// Compares with the step at an index just before and just after each acknowledgement.
fn difference_by_start(
    alloc: Global,
    source: &[u8],
    limits: Limits,
    events: &[Item],
    start: usize,
) -> Result<Option<String>, Failure> {
    for (index, item) in events.iter().enumerate() {
        if let Event::Ack(_) = item.event {
            let before = if start < index {
                index.saturating_sub(1)
            } else {
                index
            };
            let found = difference_at(alloc, source, limits, events, start, before)?;
            if found.is_some() {
                return Ok(found);
            }
        }
    }
    Ok(None)
}

/// Compares with the step at an index before the event that has this index among the others, and after it.
fn difference_at(
    alloc: Global,
    source: &[u8],
    limits: Limits,
    events: &[Item],
    start: usize,
    before: usize,
) -> Result<Option<String>, Failure> {
    let found = difference_by_move(alloc, source, limits, events, start, before)?;
    if found.is_some() {
        return Ok(found);
    }
    let after = before.saturating_add(1);
    difference_by_move(alloc, source, limits, events, start, after)
}

/// Compares with the event at an index moved: `to` counts among the others.
fn difference_by_move(
    alloc: Global,
    source: &[u8],
    limits: Limits,
    events: &[Item],
    from: usize,
    to: usize,
) -> Result<Option<String>, Failure> {
    let schedule = move_event(alloc, events, from, to)?;
    difference_in(compare(alloc, source, limits, schedule.as_slice()))
}

/// The indexes of the events in which a thread is started.
fn starting_steps(
    alloc: Global,
    source: &[u8],
    limits: Limits,
    events: &[Item],
) -> Result<Vec<usize>, Failure> {
    let mut machine = Machine::new(alloc, accept(alloc, source)?, limits)?;
    Ok(starts_in(alloc, &mut machine, events)?)
}

/// The indexes of the events in which a machine starts a thread.
fn starts_in(
    alloc: Global,
    machine: &mut Machine,
    events: &[Item],
) -> Result<Vec<usize>, NoMemory> {
    let mut starts = Vec::new(alloc);
    for (index, item) in events.iter().enumerate() {
        let started = machine.started();
        machine.step(alloc, item.event)?;
        if machine.started() > started {
            starts.push(index)?;
        }
    }
    Ok(starts)
}

/// Inserts a cycle at each index of the sum's schedule, and returns how many of the schedules do not print the sum, have another number of
/// working events of the collector, or differ on the two machines.
pub fn try_insertions(rt: &HostRuntime) -> Result<usize, Failure> {
    let source = fs::read(rt, "machine/sum.il")?;
    let cycle = read_schedule(rt.alloc(), CYCLE)?;
    let mut differing = 0usize;
    for index in 0..=STEPS {
        if !prints_the_sum(rt.alloc(), source.as_slice(), cycle.as_slice(), index)? {
            println!(rt; "a cycle at index {index}: differs")?;
            differing = differing.saturating_add(1);
        }
    }
    println!(rt;
        "insertions: {} schedules, {differing} differ",
        STEPS.saturating_add(1)
    )?;
    Ok(differing)
}

/// Whether the run of the sum with a cycle at an index prints it, and the collector does its whole cycle.
fn prints_the_sum(
    alloc: Global,
    source: &[u8],
    cycle: &[Item],
    index: usize,
) -> Result<bool, Failure> {
    let limits = Limits {
        words: 64,
        max_words: 64,
        budget: 10,
        depth: 1,
    };
    let steps = [Item {
        event: Event::Step(0),
        count: STEPS,
    }];
    let items = insert_at(alloc, &steps, index, cycle)?;
    let comparison = compare(alloc, source, limits, items.as_slice())?;
    Ok(is_sum_beside_cycle(&comparison))
}

/// Whether a run printed the sum, and the collector did its whole cycle, with no difference between the machines.
fn is_sum_beside_cycle(comparison: &Comparison) -> bool {
    let working = comparison
        .reports
        .iter()
        .filter(|report| **report == Report::Worked || **report == Report::CycleDone)
        .count();
    comparison.printed.as_slice() == b"5\n".as_slice()
        && working == WORKING
        && comparison.difference.is_none()
}
