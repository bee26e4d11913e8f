//! The groups of cases.

use crate::cases::{Case, case_of};
use crate::outcomes::outcome;
use std::io::ErrorKind;
use std::sync::Wait;
use std::thread::Threads;
use std::time::Clock;
use std::{fs, io, str};

/// What begins a case, followed by its name. The text before the first case is skipped.
const HEAD: &str = "\n=== ";

/// The outcome of a case for which memory runs out.
const MEMORY: &[u8] = b"--- err\nmemory\n--- status 5\n";

/// Runs all cases of a group, prints how many there are and how many are not as expected, and returns how many are not.
pub fn try_group(
    rt: &HostRuntime,
    threads: &(impl Threads + Wait + Clock + Sync),
    group: &str,
) -> io::Result<usize> {
    let table = fs::read_to_string(rt, format!(in rt.alloc(); "{group}.txt")?.as_str())?;
    try_table(rt, threads, group, table.as_str())
}

/// Runs the cases of a group's text.
fn try_table(
    rt: &HostRuntime,
    threads: &(impl Threads + Wait + Clock + Sync),
    group: &str,
    table: &str,
) -> io::Result<usize> {
    let mut cases = 0usize;
    let mut differing = 0usize;
    for block in table.split(HEAD).skip(1) {
        cases = cases.saturating_add(1);
        if !try_block(rt, threads, block)? {
            differing = differing.saturating_add(1);
        }
    }
    println!(rt; "{group}: {cases} cases, {differing} differ")?;
    Ok(differing)
}

/// Runs the case of a block of text, and returns whether it is as expected. A block that is no case is not.
fn try_block(
    rt: &HostRuntime,
    threads: &(impl Threads + Wait + Clock + Sync),
    block: &str,
) -> io::Result<bool> {
    match case_of(block) {
        Some(case) => try_case(rt, threads, &case),
        None => {
            println!(rt; "no case: {block}")?;
            Ok(false)
        }
    }
}

/// Runs a case, and returns whether it is as expected: as the text of the case, where `= FILE` in its first line represents the text of that
/// file.
fn try_case(
    rt: &HostRuntime,
    threads: &(impl Threads + Wait + Clock + Sync),
    case: &Case<'_>,
) -> io::Result<bool> {
    let actual = outcome(rt, threads, case)?;
    match case.expected_outcome.strip_prefix("= ") {
        Some(named) => {
            let (file, following) = named.split_once('\n').unwrap_or((named, ""));
            let mut expected_outcome = fs::read_to_string(rt, file)?;
            expected_outcome.push_str(following)?;
            compare(rt, case.name, actual.as_slice(), expected_outcome.as_str())
        }
        None => compare(rt, case.name, actual.as_slice(), case.expected_outcome),
    }
}

/// Whether the outcome is the expected one. Where it is not, both are printed; an outcome of out of memory alone is an error instead.
fn compare(
    rt: &HostRuntime,
    name: &str,
    actual: &[u8],
    expected_outcome: &str,
) -> io::Result<bool> {
    if actual == expected_outcome.as_bytes() {
        return Ok(true);
    }
    if actual == MEMORY {
        return Err(io::Error::from(ErrorKind::OutOfMemory));
    }
    let actual = str::from_utf8(actual).unwrap_or("no text");
    println!(rt;
        "{name}: differs. The outcome is\n{actual}\nthe expected outcome is\n{expected_outcome}"
    )?;
    Ok(false)
}
