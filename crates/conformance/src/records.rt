//! The record of a case that workers run, and its replay.

use crate::cases::Case;
use crate::outcomes::add_driven;
use commands::{GivenLimits, Order, Run, RunKind};
use driver::RecordFiles;
use std::io;
use std::sync::Wait;
use std::thread::Threads;
use std::time::Clock;

/// No limits, so that those of the `.run` file are used.
pub const NO_LIMITS: GivenLimits = GivenLimits {
    words: None,
    max_words: None,
    budget: None,
    depth: None,
};

/// Adds the record of a command and its `.run` file where the case expects them, and where it expects a replay, whether its outcome is the same
/// as the outcome so far, or the other outcome.
pub fn add_record(
    rt: &HostRuntime,
    threads: &(impl Threads + Wait + Clock + Sync),
    case: &Case<'_>,
    order: &Order<'_>,
    source: &[u8],
    record: Option<&RecordFiles>,
    out: &mut Vec<u8>,
) -> io::Result<()> {
    let wants_record = case.expected_outcome.contains("\n--- record");
    let Some(record) = record else {
        if wants_record {
            out.extend_from_slice(b"--- record \n")?;
        }
        return Ok(());
    };
    if wants_record {
        out.extend_from_slice(b"--- record ")?;
        out.extend_from_slice(record.schedule.as_bytes())?;
        out.extend_from_slice(b"\n")?;
    }
    if case.expected_outcome.contains("\n--- run file") {
        out.extend_from_slice(b"--- run file\n")?;
        out.extend_from_slice(record.run.as_bytes())?;
    }
    if case.expected_outcome.contains("\n--- replayed") {
        add_replay(rt, threads, order, source, record, out)?;
    }
    Ok(())
}

/// Replays the record of a command that workers carry out, with its `.run` file, and adds that the outcome is the same, or the other outcome.
fn add_replay(
    rt: &HostRuntime,
    threads: &(impl Threads + Wait + Clock + Sync),
    order: &Order<'_>,
    source: &[u8],
    record: &RecordFiles,
    out: &mut Vec<u8>,
) -> io::Result<()> {
    let Order::Run(run) = *order else {
        return Ok(());
    };
    let kind = RunKind::Replay {
        schedule: "",
        limits: NO_LIMITS,
        expected: run_files::read(record.run.as_bytes()),
    };
    let replay = Order::Run(Run { kind, ..run });
    let mut replayed = Vec::new(rt.alloc());
    let schedule = record.schedule.as_bytes();
    add_driven(rt, threads, &replay, source, schedule, &mut replayed)?;
    add_replayed(replayed.as_slice(), out)
}

/// Adds that the outcome of a replay is the outcome so far, or that it is another one.
fn add_replayed(replayed: &[u8], out: &mut Vec<u8>) -> io::Result<()> {
    if out.as_slice().starts_with(replayed) {
        out.extend_from_slice(b"--- replayed\n")?;
    } else {
        out.extend_from_slice(b"--- replayed otherwise\n")?;
        out.extend_from_slice(replayed)?;
    }
    Ok(())
}
