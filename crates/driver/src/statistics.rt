//! What comes last of a run: that memory ran out, in what it differs from a recorded run, and its numbers.

ghost use Rattle.std.specs.Prelude.{◌≡◌, ◌++◌, IfOk, IfSome, OnErr, OnOk};
ghost use Rattle.std.specs.List.{zip};
ghost use Rattle.outputs.specs.Streams.{Fails, Takes};
ghost use Rattle.source_runs.specs.shared_machine.Histories.{events_of, reports_of};
ghost use Rattle.driver.specs.Outcomes.{status_after, stop_text};
ghost use Rattle.driver.specs.Records.{is_short, status_with, too_long_text};
ghost use Rattle.driver.specs.Replays.{differences_text, status_if_same};
ghost use Rattle.driver.specs.Statistics.{IsMostOfRun, stats_text};

use crate::recording::{Record, report_record};
use crate::replays::{show_differences, status_if_same};
use crate::showing::show_stop;
use cil_model::limits::Limits;
use outputs::{Device, Out};
use run_files::Differences;
use run_statistics::{most_words, write_statistics};
use source_runs::{History, Outcome, machine_of};
use std::alloc::Global;

/// The most words in use during a run of a source, where its numbers are asked for: the history is performed again on a new machine of the
/// source. None if there is no memory for it.
pub(crate) fn most_words_of(
    alloc: Global,
    stats: bool,
    source: &[u8],
    limits: Limits,
    history: &History,
) -> Option<u64>
    ensures { IfSome result (IsMostOfRun source.now limits (zip (events_of history.now.entries) (reports_of history.now.entries))) }
{
    if !stats {
        return None;
    }
    let Ok(mut machine) = machine_of(alloc, source, limits) else {
        return None;
    };
    most_words(alloc, &mut machine, history)
}

/// Prints what comes last of a run by a schedule, and returns its status, which is this one where the run was not stopped and does not
/// differ from the recorded one: that memory ran out, where it did, in what the run differs, and its numbers, where they are asked for. It
/// takes no memory.
pub(crate) fn show_last<E: Out>(
    stats: bool,
    most: Option<u64>,
    differences: Differences,
    outcome: &Outcome,
    status: u8,
    err: &mut E,
) -> Result<u8, Device>
    ensures whole { IfOk result (λ after. (after ≡ status_after outcome.now.is_out_of_memory (status_if_same differences status))
        × Takes (E.taken err.old) (E.taken err.new) (stop_text outcome.now.is_out_of_memory ++ differences_text differences
        ++ stats_text stats (events_of outcome.now.history.entries) (reports_of outcome.now.history.entries) outcome.now.machine most)) }
    ensures cut { OnErr result (Fails (E.taken err.old) (E.taken err.new) (stop_text outcome.now.is_out_of_memory ++ differences_text differences
        ++ stats_text stats (events_of outcome.now.history.entries) (reports_of outcome.now.history.entries) outcome.now.machine most)) }
{
    let status = status_if_same(differences, status);
    let status = show_stop(outcome.is_out_of_memory, status, err)?;
    show_differences(differences, err)?;
    show_statistics(stats, most, outcome, err)?;
    Ok(status)
}

/// Prints what comes last of a run by workers, and returns its status, which is this one where it was not stopped and has a record: what
/// `report_record` reports, and the numbers of the run, where they are asked for. It takes no memory.
pub(crate) fn show_last_of_workers<E: Out>(
    record: &Record,
    stats: bool,
    most: Option<u64>,
    outcome: &Outcome,
    status: u8,
    err: &mut E,
) -> Result<u8, Device>
    ensures whole { IfOk result (λ after. let short = is_short outcome.now.is_out_of_memory «record».now in
        (after ≡ status_after short (status_with «record».now status))
        × Takes (E.taken err.old) (E.taken err.new) (too_long_text «record».now ++ stop_text short
        ++ stats_text stats (events_of outcome.now.history.entries) (reports_of outcome.now.history.entries) outcome.now.machine most)) }
    ensures cut { OnErr result (Fails (E.taken err.old) (E.taken err.new)
        (too_long_text «record».now ++ stop_text (is_short outcome.now.is_out_of_memory «record».now)
        ++ stats_text stats (events_of outcome.now.history.entries) (reports_of outcome.now.history.entries) outcome.now.machine most)) }
{
    let status = report_record(record, outcome.is_out_of_memory, status, err)?;
    show_statistics(stats, most, outcome, err)?;
    Ok(status)
}

/// Prints the numbers of a run, where they are asked for. It takes no memory.
fn show_statistics<E: Out>(
    stats: bool,
    most: Option<u64>,
    outcome: &Outcome,
    err: &mut E,
) -> Result<(), Device>
    ensures whole { OnOk result (Takes (E.taken err.old) (E.taken err.new)
        (stats_text stats (events_of outcome.now.history.entries) (reports_of outcome.now.history.entries) outcome.now.machine most)) }
    ensures cut { OnErr result (Fails (E.taken err.old) (E.taken err.new)
        (stats_text stats (events_of outcome.now.history.entries) (reports_of outcome.now.history.entries) outcome.now.machine most)) }
{
    if !stats {
        return Ok(());
    }
    write_statistics(outcome, most, err)
}
