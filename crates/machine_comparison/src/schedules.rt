//! All short schedules of the program that prints a sum.

use crate::machines::compare;
use cil_model::events::Event;
use cil_model::limits::Limits;
use schedule_text::Item;
use source_runs::Failure;
use std::fs;

/// All events of the threads 0 and 1, and of the collector.
const EVENTS: [Event; 5] = [
    Event::Step(0),
    Event::Step(1),
    Event::Ack(0),
    Event::Ack(1),
    Event::Gc,
];

/// The number of events of a schedule.
const LENGTH: usize = 6;

/// The number of schedules of that length: 5 to the power of 6.
const SCHEDULES: usize = 15_625;

/// The outcomes of the schedules.
#[derive(Clone, Copy)]
struct Count {
    printing: usize,
    differing: usize,
}

/// Runs all schedules under two budgets, and returns how many differ on the two machines.
pub fn try_schedules(rt: &HostRuntime) -> Result<usize, Failure> {
    let source = fs::read(rt, "machine/sum.il")?;
    let ample = try_budget(rt, source.as_slice(), 10)?;
    let scant = try_budget(rt, source.as_slice(), 3)?;
    Ok(ample.saturating_add(scant))
}

fn try_budget(rt: &HostRuntime, source: &[u8], budget: u32) -> Result<usize, Failure> {
    let mut count = Count {
        printing: 0,
        differing: 0,
    };
    for number in 0..SCHEDULES {
        try_schedule(rt, source, budget, number, &mut count)?;
    }
    let Count {
        printing,
        differing,
    } = count;
    println!(rt;
        "budget {budget}: {SCHEDULES} schedules, {printing} print the sum, {differing} differ"
    )?;
    Ok(differing)
}

/// Runs the schedule of a number, and counts its outcome.
fn try_schedule(
    rt: &HostRuntime,
    source: &[u8],
    budget: u32,
    number: usize,
    count: &mut Count,
) -> Result<(), Failure> {
    let limits = Limits {
        words: 64,
        max_words: 64,
        budget,
        depth: 1,
    };
    let items = items_of(number);
    let comparison = compare(rt.alloc(), source, limits, items.as_slice())?;
    if comparison.printed.as_slice() == b"5\n".as_slice() {
        count.printing = count.printing.saturating_add(1);
    }
    if let Some(difference) = &comparison.difference {
        println!(rt; "schedule {number} differs at {difference}")?;
        count.differing = count.differing.saturating_add(1);
    }
    Ok(())
}

/// The schedule of a number, an event an item: the number's digits to the base of five, the last one first.
fn items_of(number: usize) -> [Item; LENGTH] {
    let mut items = [Item {
        event: Event::Gc,
        count: 1,
    }; LENGTH];
    let mut rest = number;
    for item in items.iter_mut() {
        item.event = EVENTS[rest % EVENTS.len()];
        rest /= EVENTS.len();
    }
    items
}
