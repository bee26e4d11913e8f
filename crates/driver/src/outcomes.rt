//! What is printed of a run that has ended.

ghost use Rattle.std.specs.Prelude.{◌≡◌, IfOk, IfSome, List, ℕ, OnErr, OnOk, string_bytes};
ghost use Rattle.std.specs.List.{zip};
ghost use Rattle.outputs.specs.Streams.{Fails, Takes};
ghost use Rattle.source_runs.specs.shared_machine.Histories.{events_of, reports_of};
ghost use Rattle.driver.specs.Outcomes.{AreEndsExplainedFor, IsEndText, IsRunShown, IsRunShownInPart};
ghost use Rattle.driver.specs.Outputs.{output_state};
ghost use Rattle.driver.specs.Records.{texts_of};

use crate::command_outputs::Outputs;
use crate::showing::show;
use cil_model::limits::Limits;
use end_explanations::explain_ends;
use outputs::{Device, Out};
use source_runs::{History, Outcome, machine_of};
use std::alloc::Global;

/// Prints what a run of a source leaves, and returns its status. If `explain` is true, what explains how its threads are follows: first of the live threads, and
/// then of those that a fault or their budget ended.
pub(crate) fn show_outcome<W: Out, E: Out>(
    alloc: Global,
    explain: bool,
    source: &[u8],
    limits: Limits,
    outcome: &Outcome,
    outputs: &mut Outputs<W, E>,
) -> Result<u8, Device>
    ensures whole { IfOk result (IsRunShown explain source.now limits (events_of outcome.now.history.entries) (reports_of outcome.now.history.entries) outcome.now.machine
        (output_state W.taken E.taken outputs.old) (output_state W.taken E.taken outputs.new)) }
    ensures cut { OnErr result (IsRunShownInPart explain source.now limits (events_of outcome.now.history.entries) (reports_of outcome.now.history.entries) outcome.now.machine
        (output_state W.taken E.taken outputs.old) (output_state W.taken E.taken outputs.new)) }
    ensures same { texts_of outputs.new.files ≡ texts_of outputs.old.files }
{
    let status = show(alloc, explain, &outcome.machine, outputs)?;
    if status == 0 {
        return Ok(status);
    }
    write_ends(
        alloc,
        explain,
        source,
        limits,
        &outcome.history,
        &mut outputs.err,
    )?;
    Ok(status)
}

/// Writes what explains how a fault or their budget ended threads of a run, if `explain` is true. Writes nothing if there is no memory for it.
fn write_ends<E: Out>(
    alloc: Global,
    explain: bool,
    source: &[u8],
    limits: Limits,
    history: &History,
    err: &mut E,
) -> Result<(), Device>
    ensures whole { OnOk result ((text : List ℕ) × IsEndText explain source.now limits (zip (events_of history.now.entries) (reports_of history.now.entries)) text
        × Takes (E.taken err.old) (E.taken err.new) text) }
    ensures cut { OnErr result ((text : List ℕ) × IsEndText explain source.now limits (zip (events_of history.now.entries) (reports_of history.now.entries)) text
        × Fails (E.taken err.old) (E.taken err.new) text) }
{
    if !explain {
        return Ok(());
    }
    match ends_text(alloc, source, limits, history) {
        Some(text) => err.write_whole(text.as_bytes()),
        None => Ok(()),
    }
}

/// What explains how a fault or their budget ended threads of a run of a source: the history is performed again on a new machine of the source. None if there is no memory for it.
fn ends_text(alloc: Global, source: &[u8], limits: Limits, history: &History) -> Option<String>
    ensures { IfSome result (λ text. AreEndsExplainedFor source.now limits (zip (events_of history.now.entries) (reports_of history.now.entries)) (string_bytes text)) }
{
    let Ok(mut machine) = machine_of(alloc, source, limits) else {
        return None;
    };
    match explain_ends(alloc, &mut machine, limits.budget, source, history) {
        Ok(text) => Some(text),
        Err(_) => None,
    }
}
