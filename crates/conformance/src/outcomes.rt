//! The outcome of a case.

use crate::answers::answer;
use crate::cases::Case;
use crate::records::add_record;
use crate::reports::{add_differences, add_run};
use crate::texts::{expand, limits_of, words_of};
use cil_model::limits::Limits;
use command_line::{LineFault, Malformed, Unread, order};
use commands::{Order, Run, RunKind, read_source, read_text, run_file_name};
use driver::{Failure, Outputs, RecordFiles, WriterOut, drive, report};
use std::alloc::Global;
use std::fs::File;
use std::io;
use std::io::Write;
use std::sync::Wait;
use std::thread::Threads;
use std::time::Clock;

/// The bytes of the files of a command.
#[derive(Drop)]
pub struct Files {
    pub source: Vec<u8>,
    pub schedule: Vec<u8>,
}

/// The outcome of a case: the standard output, the standard error and the status, as `main` of `cilvm` has them, and the parts
/// after them that the case expects.
pub fn outcome(
    rt: &HostRuntime,
    threads: &(impl Threads + Wait + Clock + Sync),
    case: &Case<'_>,
) -> io::Result<Vec<u8>> {
    let alloc = rt.alloc();
    let words = words_of(alloc, case.command)?;
    let mut out = Vec::new(alloc);
    match order(alloc, words.as_slice()) {
        Ok(order) => carry_out(
            rt,
            threads,
            case,
            &with_limits(order, case.limits),
            &mut out,
        )?,
        Err(fault) => add_line_fault(alloc, fault, &mut out)?,
    }
    Ok(out)
}

/// Adds what is printed for a line that is no command.
fn add_line_fault(alloc: Global, fault: LineFault, out: &mut Vec<u8>) -> io::Result<()> {
    match fault {
        LineFault::Help(text) | LineFault::Version(text) => {
            out.extend_from_slice(text.as_bytes())?;
            add_end(out, &[], 0)
        }
        LineFault::Bad(text) => add_end(out, text.as_bytes(), 2),
        LineFault::Memory => add_failure(alloc, Failure::Memory, "", out),
    }
}

/// The command with other limits, where it is a run and some are given.
fn with_limits<'a>(order: Order<'a>, limits: Option<&str>) -> Order<'a> {
    let Some(limits) = limits else {
        return order;
    };
    match order {
        Order::Run(run) => Order::Run(Run {
            kind: limited_kind(run.kind, limits_of(limits)),
            ..run
        }),
        other => other,
    }
}

/// The kind of a run with other limits, except of a replay.
fn limited_kind(kind: RunKind<'_>, limits: Limits) -> RunKind<'_> {
    match kind {
        RunKind::Schedule { text, .. } => RunKind::Schedule { text, limits },
        RunKind::Workers {
            workers,
            record,
            stop_at,
            ..
        } => RunKind::Workers {
            workers,
            record,
            stop_at,
            limits,
        },
        replay => replay,
    }
}

/// Adds the standard error and the status.
fn add_end(out: &mut Vec<u8>, err: &[u8], status: u8) -> io::Result<()> {
    out.extend_from_slice(b"--- err\n")?;
    out.extend_from_slice(err)?;
    writeln!(out, "--- status {status}")
}

/// Adds what is reported of a failure, with a text after it.
fn add_failure(alloc: Global, failure: Failure, text: &str, out: &mut Vec<u8>) -> io::Result<()> {
    let mut device = WriterOut::new(Vec::new(alloc));
    let status = report(failure, &mut device);
    let mut err = device.into_inner();
    err.extend_from_slice(text.as_bytes())?;
    add_end(out, err.as_slice(), status)
}

/// Adds what is reported of a file that is not read.
fn add_unread(alloc: Global, unread: &Unread<'_>, out: &mut Vec<u8>) -> io::Result<()> {
    let text = unread.error_text(alloc)?;
    add_failure(alloc, Failure::from(unread.error), text.as_str(), out)
}

/// Carries out a command on its files, and adds its outcome.
fn carry_out(
    rt: &HostRuntime,
    threads: &(impl Threads + Wait + Clock + Sync),
    case: &Case<'_>,
    order: &Order<'_>,
    out: &mut Vec<u8>,
) -> io::Result<()> {
    let files = match files_of(rt, case, order) {
        Ok(files) => files,
        Err(unread) => return add_unread(rt.alloc(), &unread, out),
    };
    let order = match with_run_file(rt.alloc(), case, order)? {
        Some(order) => order,
        None => return add_malformed(rt.alloc(), order, out),
    };
    carry_out_on(rt, threads, case, &order, &files, out)
}

/// Carries out a command on these files, and adds its outcome.
fn carry_out_on(
    rt: &HostRuntime,
    threads: &(impl Threads + Wait + Clock + Sync),
    case: &Case<'_>,
    order: &Order<'_>,
    files: &Files,
    out: &mut Vec<u8>,
) -> io::Result<()> {
    let source = files.source.as_slice();
    let schedule = files.schedule.as_slice();
    let record = add_driven(rt, threads, order, source, schedule, out)?;
    add_record(rt, threads, case, order, source, record.as_ref(), out)?;
    if case.expected_outcome.contains("\n--- answer ") {
        let answer = answer(rt.alloc(), order, files)?;
        writeln!(out, "--- answer {answer}")?;
    }
    if case.expected_outcome.contains("\n--- reports") {
        let with_sizes = case.expected_outcome.contains("\n--- sizes ");
        add_run(threads, rt.alloc(), order, files, with_sizes, out)?;
    }
    add_differences(rt.alloc(), order, files, out)
}

/// The command with what the `.run` file of the case says, where it has one. None where it is not the text of one.
fn with_run_file<'a>(
    alloc: Global,
    case: &Case<'_>,
    order: &Order<'a>,
) -> io::Result<Option<Order<'a>>> {
    let Some(text) = case.run else {
        return Ok(Some(*order));
    };
    let text = expand(alloc, text)?;
    Ok(run_files::read(text.as_slice()).map(|run| order.with_run_file(run)))
}

/// Adds what is reported of a file that is not a `.run` file.
fn add_malformed(alloc: Global, order: &Order<'_>, out: &mut Vec<u8>) -> io::Result<()> {
    let name = run_file_name(alloc, order.schedule_file().unwrap_or(""))?;
    let malformed = Malformed {
        file: name.as_str(),
    };
    let text = malformed.error_text(alloc)?;
    add_failure(
        alloc,
        Failure::Refused(run_files::MALFORMED),
        text.as_str(),
        out,
    )
}

/// The files of a command: the texts of the case, and otherwise the files that the command names.
fn files_of<'a>(rt: &HostRuntime, case: &Case<'_>, order: &Order<'a>) -> Result<Files, Unread<'a>> {
    let source = match order.file() {
        Some(file) => match source_of(rt, case, file) {
            Ok(source) => source,
            Err(error) => return Err(Unread { file, error }),
        },
        None => Vec::new(rt.alloc()),
    };
    let schedule = match order.schedule_file() {
        Some(file) => match schedule_of(rt, case, file) {
            Ok(schedule) => schedule,
            Err(error) => return Err(Unread { file, error }),
        },
        None => Vec::new(rt.alloc()),
    };
    Ok(Files { source, schedule })
}

/// The source of a case, and otherwise that of the file.
fn source_of(rt: &HostRuntime, case: &Case<'_>, file: &str) -> io::Result<Vec<u8>> {
    match case.source {
        Some(text) => Ok(expand(rt.alloc(), text)?),
        None => read_source(rt.alloc(), File::open(rt, file)?),
    }
}

/// The schedule of a case, and otherwise that of the file.
fn schedule_of(rt: &HostRuntime, case: &Case<'_>, file: &str) -> io::Result<Vec<u8>> {
    match case.schedule {
        Some(text) => Ok(expand(rt.alloc(), text)?),
        None => read_text(rt.alloc(), File::open(rt, file)?),
    }
}

/// Adds what the command prints on both outputs, and its status, and returns its record.
pub fn add_driven(
    rt: &HostRuntime,
    threads: &(impl Threads + Wait + Clock + Sync),
    order: &Order<'_>,
    source: &[u8],
    schedule: &[u8],
    out: &mut Vec<u8>,
) -> io::Result<Option<RecordFiles>> {
    let err = WriterOut::new(Vec::new(rt.alloc()));
    let mut outputs = Outputs::new(WriterOut::new(&mut *out), err);
    let status = drive(threads, rt.alloc(), order, source, schedule, &mut outputs);
    let Outputs { err, files, .. } = outputs;
    add_end(out, err.into_inner().as_slice(), status)?;
    Ok(files)
}
