//! Generated programs, each run by a generated schedule.

use crate::machines::{Comparison, compare, difference_in};
use crate::made_up_sources::{Grammar, source_of};
use crate::random::Random;
use cil_model::events::Event;
use cil_model::limits::Limits;
use cil_model::reports::{End, Fault, Report};
use schedule_text::Item;
use source_runs::Failure;
use std::alloc::{AllocError, Global};
use std::{fs, io};

/// The number of generated programs.
const PROGRAMS: u64 = 200;

/// The number of events of each schedule.
const EVENTS: u32 = 800;

/// The ends that a thread can have.
const ENDS: [End; 15] = [
    End::Done,
    End::Budget,
    End::Fault(Fault::NullReference),
    End::Fault(Fault::IndexOutOfRange),
    End::Fault(Fault::ArrayTypeMismatch),
    End::Fault(Fault::InvalidCast),
    End::Fault(Fault::DivideByZero),
    End::Fault(Fault::Arithmetic),
    End::Fault(Fault::Overflow),
    End::Fault(Fault::OutOfMemory),
    End::Fault(Fault::TooManyThreads),
    End::Fault(Fault::StackOverflow),
    End::Fault(Fault::ArgumentNull),
    End::Fault(Fault::SynchronizationLock),
    End::Fault(Fault::ThreadState),
];

/// The outcomes of the programs.
#[derive(Drop)]
struct Tally {
    reports: Vec<Report>,
    printed: usize,
    differing: usize,
}

impl Tally {
    fn add(&mut self, comparison: &Comparison) -> Result<(), AllocError> {
        self.reports
            .extend_from_slice(comparison.reports.as_slice())?;
        self.printed = self.printed.saturating_add(comparison.printed.len());
        if comparison.difference.is_some() {
            self.differing = self.differing.saturating_add(1);
        }
        Ok(())
    }

    /// How often this was reported.
    fn count(&self, required: Report) -> usize {
        self.reports
            .iter()
            .filter(|report| **report == required)
            .count()
    }
}

/// Runs all programs, and returns how many differ on the two machines or are refused.
pub fn try_programs(rt: &HostRuntime) -> Result<usize, Failure> {
    let mut tally = Tally {
        reports: Vec::new(rt.alloc()),
        printed: 0,
        differing: 0,
    };
    let text = fs::read_to_string(rt, "grammar.txt")?;
    let grammar = Grammar::of(rt.alloc(), text.as_str())?;
    try_all(rt, &grammar, &mut tally)?;
    Ok(tally.differing)
}

/// Runs all programs of a grammar, and prints their outcomes.
fn try_all(rt: &HostRuntime, grammar: &Grammar, tally: &mut Tally) -> Result<(), Failure> {
    for number in 0..PROGRAMS {
        try_program(rt, grammar, number, tally)?;
    }
    write_report(rt, tally)?;
    Ok(())
}

/// The same as `difference` by a generated schedule of events of all kinds: the same one for each source.
pub fn difference_by_chance(
    alloc: Global,
    source: &[u8],
    limits: Limits,
) -> Result<Option<String>, Failure> {
    let items = items_among(alloc, &mut Random::new(PROGRAMS))?;
    difference_in(compare(alloc, source, limits, items.as_slice()))
}

/// Runs the program of a number. One that is refused counts as one that differs.
fn try_program(
    rt: &HostRuntime,
    grammar: &Grammar,
    number: u64,
    tally: &mut Tally,
) -> Result<(), Failure> {
    let source = source_of(rt.alloc(), &*grammar, number)?;
    let mut random = Random::new(number.wrapping_add(PROGRAMS));
    let limits = limits_among(&mut random);
    let items = items_among(rt.alloc(), &mut random)?;
    match compare(rt.alloc(), source.as_bytes(), limits, items.as_slice()) {
        Ok(comparison) => add_program(rt, tally, number, limits, source.as_str(), &comparison),
        Err(Failure::Refused(error)) => Ok(add_refused(rt, tally, number, source.as_str(), error)?),
        Err(failure) => Err(failure),
    }
}

/// Adds the outcome of a program, and prints it where both machines differ.
fn add_program(
    rt: &HostRuntime,
    tally: &mut Tally,
    number: u64,
    limits: Limits,
    source: &str,
    comparison: &Comparison,
) -> Result<(), Failure> {
    tally.add(comparison)?;
    if let Some(difference) = &comparison.difference {
        println!(rt; "program {number} differs at {difference}\n{limits:?}\n{source}")?;
    }
    Ok(())
}

/// Adds a program that is refused, and prints it.
fn add_refused(
    rt: &HostRuntime,
    tally: &mut Tally,
    number: u64,
    source: &str,
    error: u16,
) -> io::Result<()> {
    tally.differing = tally.differing.saturating_add(1);
    println!(rt; "program {number} is refused by {error}\n{source}")
}

/// Limits so small that they are often met.
fn limits_among(random: &mut Random) -> Limits {
    let words = random.below(449).saturating_add(64);
    Limits {
        words,
        max_words: words.saturating_add(random.below(2).saturating_mul(512)),
        budget: random.below(400).saturating_add(100),
        depth: random.below(12).saturating_add(4),
    }
}

fn items_among(alloc: Global, random: &mut Random) -> Result<Vec<Item>, AllocError> {
    let mut items = Vec::new(alloc);
    for _ in 0..EVENTS {
        let event = event_among(random);
        items.push(Item { event, count: 1 })?;
    }
    Ok(items)
}

/// Mostly a step of the first thread; and enough acknowledgements and events of the collector for it to do whole cycles meanwhile.
fn event_among(random: &mut Random) -> Event {
    match random.below(100) {
        0..=39 => Event::Step(0),
        40..=51 => Event::Step(1),
        52..=55 => Event::Step(2),
        56..=71 => Event::Ack(u8::try_from(random.below(3)).unwrap_or(0)),
        _ => Event::Gc,
    }
}

/// Prints the outcomes of the programs in one line.
fn write_report(rt: &HostRuntime, tally: &Tally) -> io::Result<()> {
    let events = tally.reports.len();
    let ran = tally.count(Report::Ran);
    let blocked = tally.count(Report::Blocked);
    let cycles = tally.count(Report::CycleDone);
    print!(rt;
        "{PROGRAMS} programs, {events} events, {cycles} cycles: {ran} Ran, {blocked} Blocked"
    )?;
    for end in ENDS {
        let count = tally.count(Report::Ended(end));
        match end {
            End::Fault(fault) => print!(rt; ", {count} {fault:?}")?,
            _ => print!(rt; ", {count} {end:?}")?,
        }
    }
    println!(rt;
        ", {} bytes printed, {} differ",
        tally.printed, tally.differing
    )
}
