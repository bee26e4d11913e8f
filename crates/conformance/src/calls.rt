//! Calls that no command makes: those of the libraries `api_tests` and `run_api_tests`, and runs of commands whose outputs fail.

use crate::records::NO_LIMITS;
use commands::{Order, Part, Run, RunKind};
use driver::{Outputs, WriterOut, drive};
use run_api_tests::{Call, LIMITS, RunCalls, SUM, call_result, calls};
use std::alloc::Global;
use std::io;
use std::io::{Cursor, Write};
use std::sync::Wait;
use std::thread::Threads;
use std::time::Clock;

/// Makes the calls, prints which of them have an unexpected outcome, and returns how many these are.
pub fn try_calls(
    rt: &HostRuntime,
    threads: &(impl Threads + Wait + Clock + Sync),
) -> io::Result<usize> {
    let made = calls(threads, rt.alloc());
    let runs = RunCalls::new(threads, rt.alloc());
    let groups = [
        made.as_slice(),
        runs.machines.as_slice(),
        runs.loans.as_slice(),
        runs.workers.as_slice(),
    ];
    let mut count = 0usize;
    let mut differing = 0usize;
    for group in groups {
        count = count.saturating_add(group.len());
        differing = differing.saturating_add(report_all(rt, group)?);
    }
    differing = differing.saturating_add(try_cut_outputs(rt, threads)?);
    println!(rt;
        "calls: {} calls, {differing} differ",
        count.saturating_add(3)
    )?;
    Ok(differing)
}

/// Makes three calls with outputs that take less than is written, prints which have an unexpected outcome, and returns how many these are.
fn try_cut_outputs(
    rt: &HostRuntime,
    threads: &(impl Threads + Wait + Clock + Sync),
) -> io::Result<usize> {
    let reported = reports_of_outputs(threads, rt.alloc());
    let cut = leaves_a_beginning(threads, rt.alloc());
    let ended = ends_at_a_cut_console(threads, rt.alloc());
    report_all(
        rt,
        &[
            call_result("outputs that fail", reported),
            call_result("a picture that is cut", cut),
            call_result("a console that is cut", ended),
        ],
    )
}

/// Prints which of these calls have an unexpected outcome, and returns how many they are.
fn report_all(rt: &HostRuntime, made: &[Call]) -> io::Result<usize> {
    let mut differing = 0usize;
    for call in made {
        differing = differing.saturating_add(write_report(rt, call.name, call.is_as_expected)?);
    }
    Ok(differing)
}

/// Prints that a call has an unexpected outcome, and returns 1; prints nothing and returns 0 where it is as expected.
fn write_report(rt: &HostRuntime, name: &str, is_as_expected: bool) -> io::Result<usize> {
    if is_as_expected {
        return Ok(0);
    }
    println!(rt; "{name}: differs")?;
    Ok(1)
}

/// Carries out a command on a source with the schedule `s0*3`, on two writers, and returns its status.
fn status_of<W: Write + Drop, E: Write + Drop>(
    threads: &(impl Threads + Wait + Clock + Sync),
    alloc: Global,
    order: &Order<'_>,
    source: &[u8],
    out: W,
    err: E,
) -> u8 {
    let mut outputs = Outputs::new(WriterOut::new(out), WriterOut::new(err));
    drive(threads, alloc, order, source, b"s0*3", &mut outputs)
}

/// A trace by the schedule of a file.
const TRACE: Order<'static> = Order::Trace {
    file: "",
    schedule: "",
    limits: NO_LIMITS,
    expected: None,
    explain: false,
};

/// Whether the status is 5 where an output takes less than is to be written: of a trace the first line, and of a refusal nothing.
fn reports_of_outputs(threads: &(impl Threads + Wait + Clock + Sync), alloc: Global) -> bool {
    let mut page = [0; 52];
    let mut err = Vec::new(alloc);
    let out = Cursor::new(page.as_mut_slice());
    let traced = status_of(threads, alloc, &TRACE, SUM.as_bytes(), out, &mut err);
    let none = Cursor::new([0; 0]);
    let refused = status_of(threads, alloc, &TRACE, b"{", Vec::new(alloc), none);
    traced == 5
        && refused == 5
        && err.as_slice() == b"device\n".as_slice()
        && page.as_slice().starts_with(b"1\ts0\tran\tP::Main+0  ldc.i4 2\t1\t1\t0\t0\tidle\tidle\n")
}

/// Whether the status is 5 where an output takes less than a picture has, and a beginning of it is left, and where it takes it and the
/// standard error takes nothing of the states of the threads.
fn leaves_a_beginning(threads: &(impl Threads + Wait + Clock + Sync), alloc: Global) -> bool {
    let picture = Order::Picture {
        file: "",
        schedule: "",
        part: Part::new(1, None),
        limits: NO_LIMITS,
        expected: None,
        explain: false,
    };
    let mut page = [0; 60];
    let mut err = Vec::new(alloc);
    let out = Cursor::new(page.as_mut_slice());
    let cut = status_of(threads, alloc, &picture, SUM.as_bytes(), out, &mut err);
    let mut whole = Vec::new(alloc);
    let none = Cursor::new([0; 0]);
    let silent = status_of(threads, alloc, &picture, SUM.as_bytes(), &mut whole, none);
    cut == 5
        && silent == 5
        && err.as_slice() == b"device\n".as_slice()
        && whole.as_slice().starts_with(page.as_slice())
        && whole.as_slice().ends_with(b"</svg>\n")
}

/// Whether nothing is written of the states of the threads where the output takes less than the program printed.
fn ends_at_a_cut_console(threads: &(impl Threads + Wait + Clock + Sync), alloc: Global) -> bool {
    let run = Order::Run(Run {
        file: "",
        kind: RunKind::Schedule {
            text: "s0*5",
            limits: LIMITS,
        },
        most_printed: None,
        explain: false,
        stats: false,
    });
    let mut page = [0; 1];
    let mut err = Vec::new(alloc);
    let out = Cursor::new(page.as_mut_slice());
    let status = status_of(threads, alloc, &run, SUM.as_bytes(), out, &mut err);
    status == 5 && page == *b"5" && err.as_slice() == b"device\n".as_slice()
}
