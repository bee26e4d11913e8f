//! Does what an order asks for.

ghost use Rattle.std.specs.Prelude.{◌≡◌, IfErr, IfOk, List, None, OnErr, OnOk};
ghost use Rattle.cil_model.specs.declared.reports.Report.{Report};
ghost use Rattle.event_trace.specs.Traces.{IsTraced, IsTracedInPart};
ghost use Rattle.outputs.specs.Streams.{HasGrown};
ghost use Rattle.schedule_text.specs.Items.{events_of};
ghost use Rattle.source_runs.specs.acceptance.Failures.{IsOfWriting};
ghost use Rattle.source_runs.specs.acceptance.Sources.{HasAcceptedTree, IsNotAccepted};
ghost use Rattle.source_runs.specs.acceptance.declared.failure.Failure.TheVariants.{Device as DeviceFailure};
ghost use Rattle.commands.specs.Orders.{record_file_of};
ghost use Rattle.driver.specs.Outcomes.{HasNotRun, HasNotTraced, HasRunSource, HasTraced, IsChecked, IsCheckedInPart, IsDone, IsDoneInPart, IsFlipDone, IsFlipDoneInPart};
ghost use Rattle.driver.specs.Outcomes.{IsNotChecked, IsNotDone, IsOutcome, IsOutcomeOrCut, IsReportCut, IsRunDone, IsRunDoneInPart, IsRunInPart, IsRunNotDone, IsTracedUpTo, failure_of_tracing};
ghost use Rattle.driver.specs.Outputs.{IsGivenUp, output_state};
ghost use Rattle.driver.specs.Records.{texts_of};

use crate::command_outputs::Outputs;
use crate::drawing::show_picture;
use crate::explaining::{report_failure, show_notes};
use crate::exploring::show_exploration;
use crate::outcomes::show_outcome;
use crate::replays::differences_from;
use crate::running_threads::show_threads;
use crate::showing::{say_accepted, show, show_flip};
use crate::statistics::{most_words_of, show_last};
use cil_model::limits::Limits;
use commands::{Order, Run, RunKind};
use event_trace::{TraceError, trace};
use flip_stress::Sizes;
use outputs::{Device, Out};
use run_files::RunFile;
use schedule_text::Item;
use source_runs::{Failure, Machine, SourceError, examine, open, run_source};
use std::alloc::Global;
use std::sync::Wait;
use std::thread::Threads;
use std::time::{Clock, Instant};

/// Carries out a command on the bytes of its files, and returns the status: a replay, a trace and a picture take their
/// schedule from `schedule`, which the others ignore. Faults are looked for in this order: the source, the limits,
/// the schedule, the run.
///
/// What a run prints goes to `out`, and the states of its threads to `err`, once the run has ended; where the command
/// asks for that, what its live threads wait for follows, and of `run`, `replay` and `threads` how a fault or their budget ended threads, for
/// which the events are performed again; neither if memory runs out for it. The numbers of the run come last. Nothing is written to `err` before
/// all is written to `out`. A check that asks for explanations prints the notes on an accepted source to `err`, unless memory runs out for them.
/// A trace has printed a line of each event and an empty line to `out` before. A picture goes to `out` in place of what the run has printed;
/// where it would have more than 20,000 events, nothing is run, their number is reported on
/// `err`, and the status is 2. A refusal prints `error` and its number to `err`, and what explains it where the
/// command asks for that; out of memory prints `memory`, a failed write `device`, and only a failed write does. Where that can't be
/// written either, the status is 5, and a prefix of it is written.
///
/// Where memory runs out before an event of `run`, `replay` or `threads`, or a worker's thread can't be started, the run is stopped: what it has
/// printed until then and the states of its threads are printed all the same, then `memory`, and the status is 5. So it is before an event by which the
/// program would print more bytes than the command allows.
///
/// A replay, a trace or a picture of which it is known what the `.run` file says has the limits of that file where no others are given. A replay reports
/// on `err`, before the numbers of the run, if its source, its limits or what it printed is not what the file says; then the status is 6, unless memory
/// ran out.
///
/// Where workers run the program and a record is asked for, the text of the run's events and that of its `.run` file are left in `files`, once
/// all is printed: a replay of it with the same limits prints the same. Of more than 1,000,000 events there is no record; that is reported by
/// `error 503` after the lines of the threads, and the status is 1. Where memory runs out for the record, `memory` is, and the status is 5. Where a source is
/// explored and a schedule is to be saved, that of the first fault, deadlock or other output is left there, with its `.run` file. In every other
/// case `files` stays as it was.
///
/// Where a run has ended, `ended` is that moment, if the clock can be read; the rest of the command is not part of the run's time.
pub fn drive<W: Out, E: Out>(
    rt: &(impl Threads + Wait + Clock + Sync),
    alloc: Global,
    order: &Order<'_>,
    source: &[u8],
    schedule: &[u8],
    outputs: &mut Outputs<W, E>,
) -> u8
    ensures outcome { IsOutcomeOrCut order.now source.now schedule.now
        (output_state W.taken E.taken outputs.old) (output_state W.taken E.taken outputs.new) result }
    ensures kept { record_file_of order.now ≡ None → texts_of outputs.new.files ≡ texts_of outputs.old.files }
{
    match carry_out(rt, alloc, order, source, schedule, outputs) {
        Ok(status) => status,
        Err(_) => 5,
    }
}

/// Carries out a command as `drive` does, and returns the status. An error is a failed write of why the command is not done.
pub fn carry_out<W: Out, E: Out>(
    rt: &(impl Threads + Wait + Clock + Sync),
    alloc: Global,
    order: &Order<'_>,
    source: &[u8],
    schedule: &[u8],
    outputs: &mut Outputs<W, E>,
) -> Result<u8, Device>
    ensures reported { IfOk result (IsOutcome order.now source.now schedule.now
        (output_state W.taken E.taken outputs.old) (output_state W.taken E.taken outputs.new)) }
    ensures cut { OnErr result (IsReportCut order.now source.now schedule.now
        (output_state W.taken E.taken outputs.old) (output_state W.taken E.taken outputs.new)) }
{
    let mut found: Option<SourceError> = None;
    match perform(rt, alloc, order, source, schedule, outputs, &mut found) {
        Ok(status) => Ok(status),
        Err(failure) => report_failure(
            alloc,
            order,
            failure,
            &found,
            source,
            schedule,
            &mut outputs.err,
        ),
    }
}

/// Carries out a command as `drive` does, and returns the status. Of a source that `check` refuses, `found` gets what was found of it.
fn perform<W: Out, E: Out>(
    rt: &(impl Threads + Wait + Clock + Sync),
    alloc: Global,
    order: &Order<'_>,
    source: &[u8],
    schedule: &[u8],
    outputs: &mut Outputs<W, E>,
    found: &mut Option<SourceError>,
) -> Result<u8, Failure>
    ensures done { IfOk result (IsDone order.now source.now schedule.now
        (output_state W.taken E.taken outputs.old) (output_state W.taken E.taken outputs.new)) }
    ensures given_up { IfErr result (IsGivenUp (IsNotDone order.now source.now schedule.now) (IsDoneInPart order.now source.now schedule.now)
        (output_state W.taken E.taken outputs.old) (output_state W.taken E.taken outputs.new)) }
{
    match *order {
        Order::Check { file, explain } => check(alloc, file, source, explain, outputs, found),
        Order::Run(run) => perform_run(rt, alloc, &run, source, schedule, outputs),
        Order::Trace {
            limits,
            expected,
            explain,
            ..
        } => show_trace(
            alloc,
            source,
            limits.limits_for(expected),
            schedule,
            explain,
            outputs,
        ),
        Order::Picture {
            part,
            limits,
            expected,
            explain,
            ..
        } => show_picture(
            alloc,
            source,
            limits.limits_for(expected),
            schedule,
            part,
            explain,
            outputs,
        ),
        Order::Explore {
            extent,
            save,
            limits,
            explain,
            ..
        } => show_exploration(
            alloc,
            source,
            limits,
            extent,
            save.is_some(),
            explain,
            outputs,
        ),
        Order::Flip(sizes) => run_flip(rt, alloc, sizes, outputs),
    }
}

/// Carries out a run of a source, and returns its status.
fn perform_run<W: Out, E: Out>(
    rt: &(impl Threads + Wait + Clock + Sync),
    alloc: Global,
    run: &Run<'_>,
    source: &[u8],
    schedule: &[u8],
    outputs: &mut Outputs<W, E>,
) -> Result<u8, Failure>
    ensures done { IfOk result (IsRunDone run.now source.now schedule.now run.now.kind
        (output_state W.taken E.taken outputs.old) (output_state W.taken E.taken outputs.new)) }
    ensures given_up { IfErr result (IsGivenUp (IsRunNotDone source.now schedule.now run.now.kind) (IsRunDoneInPart run.now source.now schedule.now run.now.kind)
        (output_state W.taken E.taken outputs.old) (output_state W.taken E.taken outputs.new)) }
{
    match run.kind {
        RunKind::Schedule { text, limits } => {
            let text = text.as_bytes();
            show_run(rt, alloc, run, source, limits, text, None, outputs)
        }
        RunKind::Replay {
            limits,
            expected,
            ..
        } => {
            let limits = limits.limits_for(expected);
            show_run(rt, alloc, run, source, limits, schedule, expected, outputs)
        }
        RunKind::Workers {
            workers,
            record: file,
            stop_at,
            limits,
        } => {
            let is_recorded = file.is_some();
            show_threads(
                rt,
                alloc,
                run,
                source,
                limits,
                workers,
                stop_at,
                is_recorded,
                outputs,
            )
        }
    }
}

/// Exercises the flip by threads, prints its result, and returns the status.
fn run_flip<W: Out, E: Out>(
    rt: &impl Threads,
    alloc: Global,
    sizes: Sizes,
    outputs: &mut Outputs<W, E>,
) -> Result<u8, Failure>
    ensures done { IfOk result (IsFlipDone sizes
        (output_state W.taken E.taken outputs.old) (output_state W.taken E.taken outputs.new)) }
    ensures given_up { IfErr result (IsGivenUp IsOfWriting (IsFlipDoneInPart sizes)
        (output_state W.taken E.taken outputs.old) (output_state W.taken E.taken outputs.new)) }
{
    let outcome = flip_stress::run(rt, alloc, sizes)?;
    show_flip(outcome, &mut outputs.out)?;
    Ok(if outcome.finished { 0 } else { 3 })
}

/// Accepts a source, or leaves in `found` what was found of it.
fn accept(alloc: Global, source: &[u8], found: &mut Option<SourceError>) -> Result<(), Failure>
    ensures accepted { OnOk result (HasAcceptedTree source.now) }
    ensures refused { IfErr result (IsNotAccepted source.now) }
{
    match examine(alloc, source) {
        Ok(_) => Ok(()),
        Err(error) => {
            let failure = error.failure();
            *found = Some(error);
            Err(failure)
        }
    }
}

/// Reports that a source is accepted, prints the notes on it where explanations are asked for, and returns the status.
fn check<W: Out, E: Out>(
    alloc: Global,
    file: &str,
    source: &[u8],
    explain: bool,
    outputs: &mut Outputs<W, E>,
    found: &mut Option<SourceError>,
) -> Result<u8, Failure>
    ensures done { IfOk result (IsChecked source.now explain
        (output_state W.taken E.taken outputs.old) (output_state W.taken E.taken outputs.new)) }
    ensures given_up { IfErr result (IsGivenUp (IsNotChecked source.now) (IsCheckedInPart source.now explain)
        (output_state W.taken E.taken outputs.old) (output_state W.taken E.taken outputs.new)) }
{
    accept(alloc, source, found)?;
    say_accepted(&mut outputs.out)?;
    show_notes(alloc, file, source, explain, &mut outputs.err)?;
    Ok(0)
}

/// Runs a source by the events of a text, prints what the run leaves, and returns its status. Where memory runs out before an event, or the event
/// would print beyond the bound, the run is stopped there, and that is reported after this; then in what it differs from what is expected. The numbers of the run come last, where
/// they are asked for. `ended` is the moment when the run has ended, if the clock can be read.
fn show_run<W: Out, E: Out>(
    rt: &(impl Wait + Clock),
    alloc: Global,
    run: &Run<'_>,
    source: &[u8],
    limits: Limits,
    text: &[u8],
    expected: Option<RunFile>,
    outputs: &mut Outputs<W, E>,
) -> Result<u8, Failure>
    ensures done { IfOk result (HasRunSource source.now limits text.now run.now.most_printed expected run.now.explain run.now.stats
        (output_state W.taken E.taken outputs.old) (output_state W.taken E.taken outputs.new)) }
    ensures given_up { IfErr result (IsGivenUp (HasNotRun source.now limits text.now) (IsRunInPart source.now limits text.now run.now.most_printed expected run.now.explain run.now.stats run.now.explain)
        (output_state W.taken E.taken outputs.old) (output_state W.taken E.taken outputs.new)) }
{
    let outcome = run_source(rt, alloc, source, limits, text, run.most_printed)?;
    outputs.ended = Instant::now(rt).ok();
    let status = show_outcome(alloc, run.explain, source, limits, &outcome, outputs)?;
    let differences = differences_from(expected, source, limits, &outcome);
    let most = most_words_of(alloc, run.stats, source, limits, &outcome.history);
    Ok(show_last(
        run.stats,
        most,
        differences,
        &outcome,
        status,
        &mut outputs.err,
    )?)
}

/// Runs a source by the events of a text, prints a line of each and an empty line, then what the run leaves, and returns its status.
fn show_trace<W: Out, E: Out>(
    alloc: Global,
    source: &[u8],
    limits: Limits,
    text: &[u8],
    explain: bool,
    outputs: &mut Outputs<W, E>,
) -> Result<u8, Failure>
    ensures done { IfOk result (HasTraced source.now limits text.now explain
        (output_state W.taken E.taken outputs.old) (output_state W.taken E.taken outputs.new)) }
    ensures given_up { IfErr result (IsGivenUp (HasNotTraced source.now limits text.now) (IsTracedUpTo source.now limits text.now explain)
        (output_state W.taken E.taken outputs.old) (output_state W.taken E.taken outputs.new)) }
{
    let (mut machine, items) = open(alloc, source, limits, text)?;
    write_trace(alloc, &mut machine, items.as_slice(), &mut outputs.out)?;
    Ok(show(alloc, explain, &machine, outputs)?)
}

/// Gives a machine the events of these items, and writes a line of each and an empty line.
fn write_trace<W: Out>(
    alloc: Global,
    machine: &mut Machine,
    items: &[Item],
    out: &mut W,
) -> Result<(), Failure>
    ensures traced { OnOk result ((reports : List Report) × IsTraced machine.old (events_of items.now) machine.new reports (W.taken out.old).contents (W.taken out.new).contents) }
    ensures same { (machine.new.tree ≡ machine.old.tree) × (machine.new.limits ≡ machine.old.limits) }
    ensures kept { OnOk result ((W.taken out.new).failures ≡ (W.taken out.old).failures) }
    ensures stopped { OnErr result (IsTracedInPart machine.old (events_of items.now) machine.new (W.taken out.old).contents (W.taken out.new).contents) }
    ensures device { IfErr result (λ failure. failure ≡ DeviceFailure → HasGrown (W.taken out.old).failures (W.taken out.new).failures) }
    ensures failed { IfErr result IsOfWriting }
{
    match trace(alloc, machine, items, out) {
        Ok(()) => Ok(()),
        Err(error) => Err(failure_of(error)),
    }
}

/// What the error of a trace becomes.
fn failure_of(error: TraceError) -> Failure
    ensures same { result ≡ failure_of_tracing error }
    ensures writing { IsOfWriting result }
{
    match error {
        TraceError::Memory => Failure::Memory,
        TraceError::Device => Failure::Device,
    }
}
