//! What a person needs where an order is refused, and notes on a source that is accepted.

ghost use Rattle.std.specs.Prelude.{◌≡◌, ◌++◌, IfErr, IfOk, List, ℕ, OnErr, OnOk};
ghost use Rattle.outputs.specs.Streams.{Fails, Takes};
ghost use Rattle.source_runs.specs.acceptance.Failures.{message_of, status_of_failure};
ghost use Rattle.driver.specs.Outcomes.{AreNotesShown, AreNotesShownInPart, IsExplanation, has_explanation};

use cil_model::limits::Limits;
use cil_model::memory::NoMemory;
use commands::{Order, RunKind};
use diagnostics::{explain, explain_error, explain_limits, explain_schedule, note};
use outputs::{Device, Out};
use schedule_text::read_schedule;
use source_runs::{Failure, SourceError, status_of_failure, write_report};
use std::alloc::Global;

/// Writes a failure to the standard error, and after a refusal a text that explains it, where the order asks for one: of a source by what was
/// found of it, if that is given. It returns the failure's status. An error is a write that failed, and a prefix of this is written then. Where
/// memory runs out for the explanation, the refusal is reported without it.
pub(crate) fn report_failure<E: Out>(
    alloc: Global,
    order: &Order<'_>,
    failure: Failure,
    found: &Option<SourceError>,
    source: &[u8],
    schedule: &[u8],
    err: &mut E,
) -> Result<u8, Device>
    ensures whole { IfOk result (λ status. (status ≡ status_of_failure failure) × ((text : List ℕ)
        × IsExplanation (has_explanation order.now failure) text × Takes (E.taken err.old) (E.taken err.new) (message_of failure ++ text))) }
    ensures cut { IfErr result (λ _. (text : List ℕ)
        × IsExplanation (has_explanation order.now failure) text × Fails (E.taken err.old) (E.taken err.new) (message_of failure ++ text)) }
{
    write_report(failure, err)?;
    write_reason(
        alloc,
        order,
        has_explanation(order, failure),
        found,
        source,
        schedule,
        err,
    )?;
    Ok(status_of_failure(failure))
}

/// Whether a failure is reported with what explains it.
fn has_explanation(order: &Order<'_>, failure: Failure) -> bool
    ensures { result ≡ has_explanation order.now failure }
{
    failure.is_refusal() && order.is_explained()
}

/// Writes what explains the refusal of an order, if it is to be explained.
fn write_reason<E: Out>(
    alloc: Global,
    order: &Order<'_>,
    is_explained: bool,
    found: &Option<SourceError>,
    source: &[u8],
    schedule: &[u8],
    err: &mut E,
) -> Result<(), Device>
    ensures whole { OnOk result ((text : List ℕ) × IsExplanation is_explained text × Takes (E.taken err.old) (E.taken err.new) text) }
    ensures cut { OnErr result ((text : List ℕ) × IsExplanation is_explained text × Fails (E.taken err.old) (E.taken err.new) text) }
{
    if is_explained {
        show_explanation(alloc, order, found, source, schedule, err)
    } else {
        Ok(())
    }
}

/// Writes what explains the refusal of an order, or nothing if memory runs out.
fn show_explanation<E: Out>(
    alloc: Global,
    order: &Order<'_>,
    found: &Option<SourceError>,
    source: &[u8],
    schedule: &[u8],
    err: &mut E,
) -> Result<(), Device>
    ensures whole { OnOk result ((text : List ℕ) × Takes (E.taken err.old) (E.taken err.new) text) }
    ensures cut { OnErr result ((text : List ℕ) × Fails (E.taken err.old) (E.taken err.new) text) }
{
    let text = explanation(alloc, order, found, source, schedule).unwrap_or(String::new(alloc));
    err.write_whole(text.as_bytes())
}

/// Writes the notes on an accepted source, where explanations are asked for. Writes nothing where there are none, and where memory runs out
/// for them.
pub(crate) fn show_notes<E: Out>(
    alloc: Global,
    file: &str,
    source: &[u8],
    explain: bool,
    err: &mut E,
) -> Result<(), Device>
    ensures whole { OnOk result (AreNotesShown explain (E.taken err.old) (E.taken err.new)) }
    ensures cut { OnErr result (AreNotesShownInPart explain (E.taken err.old) (E.taken err.new)) }
{
    if !explain {
        return Ok(());
    }
    match note(alloc, file, source) {
        Ok(Some(notes)) => err.write_whole(notes.as_bytes()),
        Ok(None) | Err(_) => Ok(()),
    }
}

/// What explains the refusal of an order: of its source, else of its limits, else of its schedule. Empty where none of them is refused.
fn explanation(
    alloc: Global,
    order: &Order<'_>,
    found: &Option<SourceError>,
    source: &[u8],
    schedule: &[u8],
) -> Result<String, NoMemory> {
    if let Some(text) = explain_source(alloc, order.file().unwrap_or(""), found, source)? {
        return Ok(text);
    }
    let text = match *order {
        Order::Run(run) => explain_run(alloc, run.kind, schedule)?,
        Order::Trace {
            schedule: name,
            limits,
            expected,
            ..
        }
        | Order::Picture {
            schedule: name,
            limits,
            expected,
            ..
        } => explain_given(alloc, limits.limits_for(expected), name, schedule)?,
        Order::Explore { limits, .. } => explain_limits(alloc, limits)?,
        Order::Check { .. } | Order::Flip(_) => None,
    };
    Ok(text.unwrap_or(String::new(alloc)))
}

/// What explains the refusal of a source, of which this was found, or is found now. None where it is not refused.
fn explain_source(
    alloc: Global,
    file: &str,
    found: &Option<SourceError>,
    source: &[u8],
) -> Result<Option<String>, NoMemory> {
    match found {
        None => explain(alloc, file, source),
        Some(error) => Ok(Some(explain_error(alloc, file, source, error)?)),
    }
}

/// What explains that the limits of a run or its schedule are refused. None where they are not.
fn explain_run(
    alloc: Global,
    kind: RunKind<'_>,
    schedule: &[u8],
) -> Result<Option<String>, NoMemory> {
    match kind {
        RunKind::Schedule { text, limits } => {
            explain_given(alloc, limits, "--schedule", text.as_bytes())
        }
        RunKind::Replay {
            schedule: name,
            limits,
            expected,
        } => explain_given(alloc, limits.limits_for(expected), name, schedule),
        RunKind::Workers { limits, .. } => explain_limits(alloc, limits),
    }
}

/// What explains that limits or a schedule's text are refused. None where they are not.
fn explain_given(
    alloc: Global,
    limits: Limits,
    name: &str,
    text: &[u8],
) -> Result<Option<String>, NoMemory> {
    if let Some(explained) = explain_limits(alloc, limits)? {
        return Ok(Some(explained));
    }
    match read_schedule(alloc, text) {
        Ok(_) => Ok(None),
        Err(error) => Ok(Some(explain_schedule(alloc, name, text, error)?)),
    }
}
