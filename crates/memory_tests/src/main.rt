//! Makes the calls of the libraries that take memory, on a source and a schedule, again after each that was out of memory, and prints the results.
//! They are the same whichever allocation is refused, and the standard error names the calls that were out of memory. The gate runs the program
//! with enough memory; tools/try_memory refuses its allocations one after another.
#![tactic(auto)]

mod calls;
mod machines;
mod stops;
mod twins;

use calls::{read_items, write_items};
use std::process::ExitCode;
use std::sync::Wait;
use std::{env, fs, io};
use stops::Stop;
use twins::run_twins;

/// The status is 0 if the calls succeeded, 1 if the source or the schedule was refused, 2 after a usage error, 3 if a call returned
/// a result that it may not return, and 5 if memory ran out outside the calls, or a file could not be read or written.
fn main(rt: HostRuntime) -> ExitCode {
    let status = match try_files(&rt, &rt) {
        Ok(()) => 0,
        Err(stop) => match report(&rt, stop) {
            Ok(()) => stop.status(),
            Err(_) => 5,
        },
    };
    ExitCode::from(status)
}

/// Prints why the calls ended: a refusal is a result.
fn report(rt: &HostRuntime, stop: Stop) -> io::Result<()> {
    match stop {
        Stop::Refused(number) => println!(rt; "error {number}"),
        Stop::OutOfMemory(call) => eprintln!(rt; "wrong: {call} is out of memory"),
        Stop::Wrong(what) => eprintln!(rt; "wrong: {what}"),
        Stop::Usage => eprintln!(rt; "usage: memory_tests SOURCE SCHEDULE"),
        Stop::Beside => Ok(()),
    }
}

/// Makes the calls on the source and the schedule in the files that the arguments name.
fn try_files(rt: &HostRuntime, waits: &impl Wait) -> Result<(), Stop> {
    let words: Vec<String> = env::args(rt)?.collect(rt.alloc())?;
    let [_, source, schedule] = words.as_slice() else {
        return Err(Stop::Usage);
    };
    let source = fs::read_to_string(rt, source.as_str())?;
    let schedule = fs::read_to_string(rt, schedule.as_str())?;
    let items = read_items(rt, schedule.as_bytes())?;
    let text = write_items(rt, items.as_slice())?;
    println!(rt; "{text}")?;
    run_twins(rt, waits, source.as_bytes(), items.as_slice())
}
