//! Has workers run a source.

ghost use Rattle.std.specs.Prelude.{IfErr, IfOk};
ghost use Rattle.driver.specs.Outcomes.{HasNotRunThreads, HasRunThreads, IsRunByWorkersInPart};
ghost use Rattle.driver.specs.Outputs.{IsGivenUp, output_state};

use crate::command_outputs::Outputs;
use crate::outcomes::show_outcome;
use crate::recording::{record_of, replace_files};
use crate::statistics::{most_words_of, show_last_of_workers};
use cil_model::limits::Limits;
use cil_model::stops::StopAt;
use commands::{Run, Workers};
use outputs::Out;
use source_runs::{Failure, OpenGate, run_threads};
use std::alloc::Global;
use std::sync::Wait;
use std::thread::Threads;
use std::time::{Clock, Instant};

/// Runs a source by workers, prints what the run leaves, leaves the files of its record where one is asked for, and returns the status.
/// Where memory runs out for the run or its record, or the run was stopped at the bound, that is reported after this. The numbers of the run come
/// last, where they are asked for. After a failed write no files are left.
pub(crate) fn show_threads<W: Out, E: Out>(
    rt: &(impl Threads + Wait + Clock + Sync),
    alloc: Global,
    run: &Run<'_>,
    source: &[u8],
    limits: Limits,
    workers: Workers,
    stop_at: StopAt,
    is_recorded: bool,
    outputs: &mut Outputs<W, E>,
) -> Result<u8, Failure>
    ensures done { IfOk result (HasRunThreads source.now limits workers.count stop_at run.now.most_printed is_recorded run.now.explain run.now.stats
        (output_state W.taken E.taken outputs.old) (output_state W.taken E.taken outputs.new)) }
    ensures given_up { IfErr result (IsGivenUp (HasNotRunThreads source.now limits) (IsRunByWorkersInPart source.now limits workers.count stop_at run.now.most_printed is_recorded run.now.explain run.now.stats)
        (output_state W.taken E.taken outputs.old) (output_state W.taken E.taken outputs.new)) }
{
    let outcome = run_threads(
        rt,
        alloc,
        source,
        limits,
        workers.count,
        stop_at,
        run.most_printed,
        &OpenGate,
    )?;
    outputs.ended = Instant::now(rt).ok();
    let status = show_outcome(alloc, run.explain, source, limits, &outcome, outputs)?;
    let record = record_of(alloc, is_recorded, source, limits, workers, &outcome);
    let most = most_words_of(alloc, run.stats, source, limits, &outcome.history);
    let status = show_last_of_workers(
        &record,
        run.stats,
        most,
        &outcome,
        status,
        &mut outputs.err,
    )?;
    replace_files(record.into_files(), &mut outputs.files);
    Ok(status)
}
