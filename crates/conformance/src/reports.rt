//! The reports of a run, the words that objects take after it, and where the test interpreter differs.

use crate::outcomes::Files;
use cil_model::limits::Limits;
use cil_model::reports::{End, Report};
use commands::{Order, RunKind};
use driver::{Failure, Run, WriterOut, report, run_events};
use machine_comparison::{difference, difference_by_chance, difference_by_moves};
use schedule_text::read_schedule;
use source_runs::Outcome;
use std::alloc::Global;
use std::io;
use std::io::Write;
use std::sync::Wait;

/// Adds the reports of a command's events, the words in use after them, and on request the sizes of the spaces; where there was no run,
/// the reason.
pub fn add_run(
    waits: &impl Wait,
    alloc: Global,
    order: &Order<'_>,
    files: &Files,
    with_sizes: bool,
    out: &mut Vec<u8>,
) -> io::Result<()> {
    if let Err(failure) = add_events(waits, alloc, order, files, with_sizes, out) {
        report(failure, &mut WriterOut::new(&mut *out));
    }
    Ok(())
}

/// The most bytes that a command's program prints, if there is a bound.
fn most_printed_of(order: &Order<'_>) -> Option<u32> {
    match *order {
        Order::Run(run) => run.most_printed,
        _ => None,
    }
}

/// The limits and the text of the schedule of a command; none where it has no schedule.
fn run_of<'a>(order: &Order<'a>, files: &'a Files) -> Option<(Limits, &'a [u8])> {
    match *order {
        Order::Run(run) => run_of_kind(run.kind, files),
        Order::Trace {
            limits,
            expected,
            ..
        }
        | Order::Picture {
            limits,
            expected,
            ..
        } => Some((limits.limits_for(expected), files.schedule.as_slice())),
        _ => None,
    }
}

/// The limits and the text of the schedule of a run; none where it has no schedule.
fn run_of_kind<'a>(kind: RunKind<'a>, files: &'a Files) -> Option<(Limits, &'a [u8])> {
    match kind {
        RunKind::Schedule { text, limits } => Some((limits, text.as_bytes())),
        RunKind::Replay {
            limits,
            expected,
            ..
        } => Some((limits.limits_for(expected), files.schedule.as_slice())),
        RunKind::Workers { .. } => None,
    }
}

/// Adds where the test interpreter differs on the events of a command, on those of a generated schedule, and on the schedules that result from
/// the command's by moving one event; nothing where both machines agree, or nothing runs.
pub fn add_differences(
    alloc: Global,
    order: &Order<'_>,
    files: &Files,
    out: &mut Vec<u8>,
) -> io::Result<()> {
    let Some((limits, text)) = run_of(order, files) else {
        return Ok(());
    };
    let source = files.source.as_slice();
    add_difference(difference(alloc, source, limits, text), "its", out)?;
    let by_chance = difference_by_chance(alloc, source, limits);
    add_difference(by_chance, "a made-up", out)?;
    let by_moves = difference_by_moves(alloc, source, limits, text);
    add_difference(unless_refused(by_moves), "a changed", out)
}

/// What was found. None where the source, the limits or the schedule are refused: then nothing runs.
fn unless_refused(found: Result<Option<String>, Failure>) -> Result<Option<String>, Failure> {
    match found {
        Ok(difference) => Ok(difference),
        Err(Failure::Refused(_)) | Err(Failure::OutOfRange(_)) => Ok(None),
        Err(failure) => Err(failure),
    }
}

/// Adds a difference that was found by a schedule.
fn add_difference(
    found: Result<Option<String>, Failure>,
    schedule: &str,
    out: &mut Vec<u8>,
) -> io::Result<()> {
    match found {
        Ok(None) => Ok(()),
        Ok(Some(reported)) => {
            writeln!(
                out,
                "--- by {schedule} schedule the test interpreter differs at {reported}"
            )
        }
        Err(failure) => {
            report(failure, &mut WriterOut::new(&mut *out));
            Ok(())
        }
    }
}

fn add_events(
    waits: &impl Wait,
    alloc: Global,
    order: &Order<'_>,
    files: &Files,
    with_sizes: bool,
    out: &mut Vec<u8>,
) -> Result<(), Failure> {
    let Some((limits, text)) = run_of(order, files) else {
        return Ok(());
    };
    let items = read_schedule(alloc, text)?;
    let outcome = run_events(
        waits,
        alloc,
        files.source.as_slice(),
        limits,
        items.as_slice(),
        most_printed_of(order),
    )?;
    add_outcome(&outcome, with_sizes, out)?;
    Ok(())
}

/// Adds the reports of a run, the words in use after it, and on request the sizes of the spaces.
fn add_outcome(outcome: &Outcome, with_sizes: bool, out: &mut Vec<u8>) -> io::Result<()> {
    add_reports(outcome.history.runs(), out)?;
    add_words("used", outcome.machine.used(), out)?;
    if with_sizes {
        add_words("sizes", outcome.machine.sizes(), out)?;
    }
    Ok(())
}

/// Adds the reports with a blank before each: equal ones that follow one another are written once, followed by `*` and their number.
fn add_reports(runs: &[Run], out: &mut Vec<u8>) -> io::Result<()> {
    write!(out, "--- reports")?;
    for equal in runs.chunk_by(|one, next| one.entry.report == next.entry.report) {
        add_equal(equal, out)?;
    }
    writeln!(out, "")
}

/// Adds the first of these reports, and how many there are.
fn add_equal(runs: &[Run], out: &mut Vec<u8>) -> io::Result<()> {
    let mut count = 0u64;
    for run in runs {
        count = count.saturating_add(u64::from(run.times));
    }
    match runs.first() {
        Some(run) => add_report(run.entry.report, out)?,
        None => return Ok(()),
    }
    if count > 1 {
        write!(out, "*{count}")?;
    }
    Ok(())
}

/// Adds a line with words of the old space, or the only one, and those of the new one where there are any.
fn add_words(name: &str, (old, new): (u32, u32), out: &mut Vec<u8>) -> io::Result<()> {
    match new {
        0 => writeln!(out, "--- {name} {old}"),
        _ => writeln!(out, "--- {name} {old} {new}"),
    }
}

/// Adds the letter of a report, or the end of a thread in brackets.
fn add_report(report: Report, out: &mut Vec<u8>) -> io::Result<()> {
    if let Report::Ended(end) = report {
        return add_thread_end(end, out);
    }
    match letter_of(report) {
        Some(letter) => write!(out, " {letter}"),
        None => write!(out, " [{report:?}]"),
    }
}

/// Adds the end of a thread in brackets.
fn add_thread_end(end: End, out: &mut Vec<u8>) -> io::Result<()> {
    match end {
        End::Fault(fault) => write!(out, " [{fault:?}]"),
        _ => write!(out, " [{end:?}]"),
    }
}

/// `r` for ran, `b` blocked, `a` absent, `k` acknowledged, `n` nothing posted, `o` worked, `w` waiting. None for the end of a thread or of a cycle.
fn letter_of(report: Report) -> Option<char> {
    match report {
        Report::Ran => Some('r'),
        Report::Blocked => Some('b'),
        Report::Absent => Some('a'),
        Report::Acked => Some('k'),
        Report::NothingPosted => Some('n'),
        Report::Worked => Some('o'),
        Report::Waiting => Some('w'),
        Report::Ended(_) | Report::CycleDone => None,
    }
}
