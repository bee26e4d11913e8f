//! The record of a run: the text of its events, by which it can be replayed, and that of its `.run` file.

ghost use Rattle.std.specs.Prelude.{◌≡◌, ◌++◌, IfOk, IsTrue, List, OnErr, string_bytes, true};
ghost use Rattle.std.specs.List.{list_all};
ghost use Rattle.cil_model.specs.declared.events.Event.{Event};
ghost use Rattle.outputs.specs.Streams.{Fails, Takes};
ghost use Rattle.run_files.specs.RunFiles.{run_file};
ghost use Rattle.schedule_text.specs.Items.{has_thread_number};
ghost use Rattle.schedule_text.specs.Writings.{IsWritten};
ghost use Rattle.source_runs.specs.shared_machine.Histories.{events_of};
ghost use Rattle.driver.specs.Outcomes.{status_after, stop_text};
ghost use Rattle.driver.specs.Records.{IsRecordOf, is_short, status_with, texts_in, texts_of, texts_over, too_long_text};

use crate::showing::show_stop;
use cil_model::limits::Limits;
use commands::Workers;
use outputs::{Device, Out};
use run_files::RunFile;
use schedule_text::ScheduleError;
use source_runs::{Failure, Outcome, status_of_failure, write_record, write_report};
use std::alloc::Global;

/// The texts of the two files of a record.
#[derive(Drop)]
pub struct RecordFiles {
    /// The text of the run's events.
    pub schedule: String,
    /// The text of the `.run` file: what a replay needs of the run, and what it compares.
    pub run: String,
}

/// The record of a run, or why there is none.
#[derive(Drop)]
pub(crate) enum Record {
    /// None is asked for.
    Unasked,
    /// The texts of its files.
    Texts(RecordFiles),
    /// The run has more events than a text can have.
    TooLong,
    /// Memory ran out for it.
    NoMemory,
}

/// The record of a run by workers, where one is asked for.
pub(crate) fn record_of(
    alloc: Global,
    is_asked: bool,
    source: &[u8],
    limits: Limits,
    workers: Workers,
    outcome: &Outcome,
) -> Record
    requires { IsTrue (list_all has_thread_number (events_of outcome.now.history.entries)) }
    ensures { IsRecordOf is_asked (events_of outcome.now.history.entries) (run_file source.now limits workers.count outcome.now.machine.printed) result }
{
    if !is_asked {
        return Record::Unasked;
    }
    match write_record(alloc, &outcome.history) {
        Ok(schedule) => {
            let workers = u32::from(workers.count);
            let file = RunFile::of(source, limits, workers, outcome.console());
            with_run_file(alloc, schedule, &file)
        }
        Err(ScheduleError::TooLong) => Record::TooLong,
        Err(ScheduleError::OutOfMemory) => Record::NoMemory,
        Err(_) => unreachable!(),
    }
}

/// The record with this schedule, and with the text of this `.run` file.
fn with_run_file(alloc: Global, schedule: String, file: &RunFile) -> Record
    ensures { (events : List Event) → IsWritten events (string_bytes schedule) → IsRecordOf true events file.now result }
{
    match run_files::write(alloc, file) {
        Ok(run) => Record::Texts(RecordFiles { schedule, run }),
        Err(_) => Record::NoMemory,
    }
}

impl Record {
    /// The files of the record, if it has some.
    pub(crate) fn into_files(self) -> Option<RecordFiles>
        ensures { texts_of result ≡ texts_in self }
    {
        match self {
            Record::Texts(files) => Some(files),
            Record::Unasked | Record::TooLong | Record::NoMemory => None,
        }
    }
}

/// Replaces the files that are kept by these. Without new files they stay as they are.
pub(crate) fn replace_files(files: Option<RecordFiles>, kept: &mut Option<RecordFiles>)
    ensures { texts_of kept.new ≡ texts_over (texts_of files) (texts_of kept.old) }
{
    if files.is_some() {
        *kept = files;
    }
}

/// Reports that a run has too many events for its record, where it has, as the refusal of its schedule would be, and that memory ran out,
/// for the run or its record, where it did. It returns the status of a run that has this one without both.
pub(crate) fn report_record<E: Out>(
    record: &Record,
    stopped: bool,
    status: u8,
    err: &mut E,
) -> Result<u8, Device>
    ensures whole { IfOk result (λ after. (after ≡ status_after (is_short stopped «record».now) (status_with «record».now status))
        × Takes (E.taken err.old) (E.taken err.new) (too_long_text «record».now ++ stop_text (is_short stopped «record».now))) }
    ensures cut { OnErr result (Fails (E.taken err.old) (E.taken err.new) (too_long_text «record».now ++ stop_text (is_short stopped «record».now))) }
{
    match record {
        Record::TooLong => {
            let refusal = Failure::from(ScheduleError::TooLong);
            write_report(refusal, err)?;
            show_stop(stopped, status_of_failure(refusal), err)
        }
        Record::NoMemory => show_stop(true, status, err),
        Record::Unasked | Record::Texts(_) => show_stop(stopped, status, err),
    }
}
