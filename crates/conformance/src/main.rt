//! Runs cases: commands of `cilvm` with the texts of their files and their expected outcomes, from the groups in `data`; what they
//! run is compared with the test interpreter. Then it makes a few calls that no command makes, and compares both machines on all short
//! schedules of one program and on generated programs.
#![tactic(auto)]

mod answers;
mod calls;
mod cases;
mod groups;
mod hostile_sources;
mod outcomes;
mod records;
mod reports;
mod texts;

use driver::{Failure, WriterOut, report};
use machine_comparison::{try_insertions, try_programs, try_schedules};
use std::io;
use std::process::ExitCode;
use std::sync::Wait;
use std::thread::Threads;
use std::time::Clock;

/// The groups of cases. Those of `NAME` are in the file `NAME.txt`.
static GROUPS: [&str; 21] = [
    "command_line",
    "commands",
    "schedules",
    "sources",
    "refusals",
    "hostile",
    "machine",
    "nested",
    "collections",
    "copying",
    "growth",
    "traces",
    "pictures",
    "deadlocks",
    "explorations",
    "ends",
    "examples",
    "threads",
    "statistics",
    "output",
    "records",
];

/// The status is 0 where all is as expected, 1 where something differs, and 5 where a file is not read or memory runs out.
fn main(rt: HostRuntime) -> ExitCode {
    let status = match conformance(&rt, &rt) {
        Ok(0) => 0,
        Ok(_) => 1,
        Err(failure) => {
            let errors = rt.stderr();
            report(failure, &mut WriterOut::new(io::writer(&errors)))
        }
    };
    ExitCode::from(status)
}

/// Runs all tests, and returns how many have an unexpected outcome.
fn conformance(
    rt: &HostRuntime,
    threads: &(impl Threads + Wait + Clock + Sync),
) -> Result<usize, Failure> {
    let mut differing = 0usize;
    for group in &GROUPS {
        differing = differing.saturating_add(groups::try_group(rt, threads, *group)?);
    }
    let calls = calls::try_calls(rt, threads)?;
    let sources = hostile_sources::try_hostile_sources(rt)?;
    let schedules = try_schedules(rt)?.saturating_add(try_insertions(rt)?);
    let programs = try_programs(rt)?;
    let made_up = schedules.saturating_add(programs).saturating_add(sources);
    Ok(differing.saturating_add(calls).saturating_add(made_up))
}
