//! The calls, each with what is expected of it.

use crate::held_workers::{continues_without_the_first, waits_in_each_phase};
use crate::loan_runs::{
    Question, answers, does_all, does_one, leaves_the_fault, leaves_the_last_step,
};
use crate::worker_runs::{
    ends_without_a_deadlock, has_record_of_one, records_one_worker, replays_workers,
    stops_at_a_deadlock,
};
use api_tests::{
    Call, LIMITS, SUM, act_in_transition, act_many, call_result, fallible_call, finish_twice,
    keeps_the_mark, run_both,
};
use cil_model::events::Event;
use cil_model::limits::Limits;
use cil_model::reports::Report;
use commands::{read_source, read_text};
use schedule_text::Item;
use shared_machine::Blank;
use source_runs::{Failure, Machine, Outcome, accept, run_events};
use std::alloc::Global;
use std::io;
use std::io::{ErrorKind, Read};
use std::marker::Brand;
use std::sync::Wait;
use std::thread::Threads;

/// The calls, each with its outcome.
#[derive(Clone, Copy)]
pub struct RunCalls {
    /// On readers that fail, on histories, and on a machine that two workers share.
    pub machines: [Call; 7],
    pub loans: [Call; 7],
    pub workers: [Call; 11],
}

impl RunCalls {
    /// Makes the calls. One that runs out of memory counts as one with another outcome.
    pub fn new(threads: &(impl Threads + Wait + Sync), alloc: Global) -> RunCalls {
        RunCalls {
            machines: machine_calls(threads, alloc),
            loans: loan_calls(threads, alloc),
            workers: worker_calls(threads, alloc),
        }
    }
}

/// Calls on readers that fail, on histories, and on a machine that two workers share.
fn machine_calls(threads: &(impl Threads + Wait + Sync), alloc: Global) -> [Call; 7] {
    [
        call_result("a reader that fails", reports_of_readers(alloc)),
        fallible_call("equal steps as few runs", has_few_runs(threads, alloc)),
        fallible_call("a worker in each of two threads", acts_once(threads, alloc)),
        fallible_call("two threads that act often", acts_often(threads, alloc)),
        fallible_call(
            "tickets in either order",
            acts_in_transition(threads, alloc),
        ),
        fallible_call("a ticket that is missing", finishes_twice(alloc)),
        fallible_call("the stop mark", keeps_its_mark(threads, alloc)),
    ]
}

/// Calls on frames that are lent.
fn loan_calls(threads: &(impl Threads + Wait + Sync), alloc: Global) -> [Call; 7] {
    [
        fallible_call("local instructions on a loan", does_all(threads, alloc)),
        fallible_call("one local instruction on a loan", does_one(threads, alloc)),
        fallible_call(
            "a loan up to the last step of the budget",
            leaves_the_last_step(threads, alloc),
        ),
        fallible_call("a loan up to a fault", leaves_the_fault(threads, alloc)),
        fallible_call(
            "a frame that is lent twice",
            answers(threads, alloc, Question::IsLentOnce),
        ),
        fallible_call(
            "events of a lent thread",
            answers(threads, alloc, Question::IsAway),
        ),
        fallible_call(
            "a collector that waits for a lent thread",
            answers(threads, alloc, Question::IsWaitedFor),
        ),
    ]
}

/// Calls on runs by workers.
fn worker_calls(threads: &(impl Threads + Wait + Sync), alloc: Global) -> [Call; 11] {
    [
        fallible_call(
            "the record of one worker",
            records_one_worker(threads, alloc),
        ),
        fallible_call("a replay of one worker", replays_workers(threads, alloc, 1)),
        fallible_call(
            "a replay of four workers",
            replays_workers(threads, alloc, 4),
        ),
        fallible_call(
            "a replay of sixteen workers",
            replays_workers(threads, alloc, 16),
        ),
        fallible_call(
            "one thread by four workers",
            has_record_of_one(threads, alloc, 4),
        ),
        fallible_call(
            "one thread by sixteen workers",
            has_record_of_one(threads, alloc, 16),
        ),
        fallible_call(
            "a deadlock that stops one worker",
            stops_at_a_deadlock(threads, alloc, 1),
        ),
        fallible_call(
            "a deadlock that stops four workers",
            stops_at_a_deadlock(threads, alloc, 4),
        ),
        fallible_call(
            "a run without a deadlock to stop at",
            ends_without_a_deadlock(threads, alloc),
        ),
        fallible_call(
            "a first worker that is held",
            continues_without_the_first(threads, alloc),
        ),
        fallible_call(
            "a worker that is held in each phase",
            waits_in_each_phase(threads, alloc, 1),
        ),
    ]
}

/// A reader that gives some bytes, and then fails.
#[derive(Drop)]
struct Broken {
    left: usize,
    kind: ErrorKind,
}

impl Read for Broken {
    fn read(&mut self, buf: &mut [u8]) -> io::Result<usize> {
        if self.left == 0 {
            return Err(io::Error::from(self.kind));
        }
        self.left -= 1;
        match buf.first_mut() {
            Some(first) => {
                *first = b's';
                Ok(1)
            }
            None => Ok(0),
        }
    }
}

/// Whether a reader's error is reported: `Memory` for out of memory, and `Device` for any other.
fn reports_of_readers(alloc: Global) -> bool {
    [
        (ErrorKind::IsADirectory, Failure::Device),
        (ErrorKind::Other, Failure::Device),
        (ErrorKind::OutOfMemory, Failure::Memory),
    ]
    .iter()
    .all(|(kind, required)| is_reported(alloc, *kind, *required))
}

/// Whether an error of this kind is reported as `required`, at the first byte and after some bytes.
fn is_reported(alloc: Global, kind: ErrorKind, required: Failure) -> bool {
    let source = read_source(alloc, Broken { left: 0, kind });
    let text = read_text(alloc, Broken { left: 5, kind });
    source.err().map(Failure::from) == Some(required)
        && text.err().map(Failure::from) == Some(required)
}

/// Whether the history of a million equal steps has as few runs as there can be: 15 of 65,535 steps, and one of the others.
fn has_few_runs(waits: &impl Wait, alloc: Global) -> Result<bool, Failure> {
    let steps = Item {
        event: Event::Step(255),
        count: 1_000_000,
    };
    let outcome = run_events(waits, alloc, SUM.as_bytes(), LIMITS, &[steps], None)?;
    let runs = outcome.history.runs();
    Ok(runs.len() == 16 && times(&outcome) == 1_000_000)
}

/// How many entries the history has.
fn times(outcome: &Outcome) -> u64 {
    let mut times = 0u64;
    for run in outcome.history.runs() {
        times = times.saturating_add(u64::from(run.times));
    }
    times
}

/// The machine of a source, within limits.
pub(crate) fn machine_of(alloc: Global, source: &str, limits: Limits) -> Result<Machine, Failure> {
    let verified = accept(alloc, source.as_bytes())?;
    Ok(Machine::new(alloc, verified, limits)?)
}

/// Whether two threads that act once each leave two entries.
fn acts_once(threads: &(impl Threads + Wait + Sync), alloc: Global) -> Result<bool, Failure> {
    let blank = Blank::new(alloc)?;
    let core = machine_of(alloc, SUM, LIMITS)?;
    let end = run_both::<Brand, _>(threads, alloc, blank, core, Event::Step(0), Event::Gc)?;
    match end {
        Some((_, _, outcome)) => Ok(times(&outcome) == 2 && !outcome.stopped),
        None => Ok(false),
    }
}

/// Whether two threads that act often leave an entry for each event, and what the sum prints.
fn acts_often(threads: &(impl Threads + Wait + Sync), alloc: Global) -> Result<bool, Failure> {
    let blank = Blank::new(alloc)?;
    let core = machine_of(alloc, SUM, LIMITS)?;
    let events = (Event::Step(0), Event::Ack(0));
    let end = act_many::<Brand, _>(threads, alloc, blank, core, events, 20_000)?;
    match end {
        Some(outcome) => Ok(is_done(&outcome)),
        None => Ok(false),
    }
}

/// Whether the history has the entries of two workers in the order in which they acted, in whatever order their tickets come back.
fn acts_in_transition(waits: &impl Wait, alloc: Global) -> Result<bool, Failure> {
    Ok(has_both_entries(waits, alloc, false)? && has_both_entries(waits, alloc, true)?)
}

fn has_both_entries(waits: &impl Wait, alloc: Global, is_reversed: bool) -> Result<bool, Failure> {
    let blank = Blank::new(alloc)?;
    let core = machine_of(alloc, SUM, LIMITS)?;
    let end = act_in_transition::<Brand, _>(waits, alloc, blank, core, is_reversed)?;
    match end {
        Some(outcome) => Ok(is_in_transition(&outcome)),
        None => Ok(false),
    }
}

/// Whether worker 1 did an event of the collector, and then worker 0 a step of thread 0.
fn is_in_transition(outcome: &Outcome) -> bool {
    match outcome.history.runs() {
        [first, second] => {
            (first.entry.worker, first.entry.event, first.entry.report)
                == (1, Event::Gc, Report::Worked)
                && (second.entry.worker, second.entry.event, second.entry.report)
                    == (0, Event::Step(0), Report::Ran)
                && times(outcome) == 2
        }
        _ => false,
    }
}

/// Whether a run with one ticket alone is refused by 601, gives all back, and ends with both.
fn finishes_twice(alloc: Global) -> Result<bool, Failure> {
    let blank = Blank::new(alloc)?;
    let core = machine_of(alloc, SUM, LIMITS)?;
    let end = finish_twice::<Brand>(alloc, blank, core)?;
    match end {
        Some(outcome) => Ok(times(&outcome) == 0),
        None => Ok(false),
    }
}

/// Whether the stop mark is set by `stop` alone.
fn keeps_its_mark(waits: &impl Wait, alloc: Global) -> Result<bool, Failure> {
    let blank = Blank::new(alloc)?;
    let core = machine_of(alloc, SUM, LIMITS)?;
    Ok(keeps_the_mark::<Brand, _>(waits, alloc, blank, core)?)
}

fn is_done(outcome: &Outcome) -> bool {
    times(outcome) == 40_000 && outcome.console() == b"5\n".as_slice() && outcome.stopped
}
