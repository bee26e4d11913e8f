//! What is printed of a command that is carried out.

ghost use Rattle.std.specs.Prelude.{◌≡◌, ◌++◌, ◌∷◌, [], ℕ, codes, IfOk, List, OnErr, OnOk, map};
ghost use Rattle.std.specs.List.{list_all, list_any};
ghost use Rattle.outputs.specs.Streams.{Fails, Takes};
ghost use Rattle.source_runs.specs.simulation.threads_monitors.Threads.{end_of};
ghost use Rattle.driver.specs.Outputs.{output_state, outputs_without_files};
ghost use Rattle.driver.specs.Records.{texts_of};
ghost use Rattle.driver.specs.Outcomes.{AreCut, AreThreadsShown, AreThreadsShownInPart, IsMachineShown, IsMachineShownInPart, IsThreadText, accepted_text, flip_text, status_after, stop_text};
ghost use Rattle.driver.specs.Threads.{end_text, is_done, is_live, line_of, lines_from, status_of};

use crate::command_outputs::Outputs;
use arrayvec::ArrayVec;
use cil_model::reports::End;
use event_trace::explain_threads;
use flip_stress::StressOutcome;
use itoa::Buffer;
use outputs::{Device, Out};
use source_runs::{Failure, Machine, Outcome, status_of_failure, write_report};
use std::alloc::Global;

/// How each thread stands that was started, in the order of their numbers: none where it is live.
type Ends = ArrayVec<Option<End>, 16>;

/// Writes the one line of a check.
pub(crate) fn say_accepted<W: Out>(out: &mut W) -> Result<(), Device>
    ensures whole { OnOk result (Takes (W.taken out.old) (W.taken out.new) accepted_text) }
    ensures cut { OnErr result (Fails (W.taken out.old) (W.taken out.new) accepted_text) }
{
    out.write_whole(b"accepted\n")
}

/// Prints the result of a run of the flip.
pub(crate) fn show_flip<W: Out>(outcome: StressOutcome, out: &mut W) -> Result<(), Device>
    ensures whole { OnOk result (Takes (W.taken out.old) (W.taken out.new) (flip_text outcome.kept outcome.retired)) }
    ensures cut { OnErr result (Fails (W.taken out.old) (W.taken out.new) (flip_text outcome.kept outcome.retired)) }
{
    let mut kept = Buffer::new();
    let mut retired = Buffer::new();
    out.write_texts(&[
        "kept ",
        kept.format(outcome.kept),
        "\nretired ",
        retired.format(outcome.retired),
        "\n",
    ])
}

/// Writes what a run leaves: to `out` the bytes that its program printed, and then to `err` a line for each of its threads. It takes no
/// memory. Where a write fails, a prefix of the first is written and nothing of the second, or the whole first and a prefix of the second.
pub fn emit<W: Out, E: Out>(outcome: &Outcome, out: &mut W, err: &mut E) -> Result<(), Device>
    ensures whole { OnOk result (Takes (W.taken out.old) (W.taken out.new) outcome.now.machine.printed
        × Takes (E.taken err.old) (E.taken err.new) (lines_from 0 (map end_of outcome.now.machine.threads))) }
    ensures cut { OnErr result (AreCut outcome.now.machine.printed (lines_from 0 (map end_of outcome.now.machine.threads))
        (outputs_without_files (W.taken out.old) (E.taken err.old)) (outputs_without_files (W.taken out.new) (E.taken err.new))) }
{
    out.write_whole(outcome.console())?;
    write_ends(ends_of(&outcome.machine).as_slice(), err)
}

/// Prints what a run leaves, and what explains the states of its threads where that is asked for, and returns its status.
pub(crate) fn show<W: Out, E: Out>(
    alloc: Global,
    explain: bool,
    machine: &Machine,
    outputs: &mut Outputs<W, E>,
) -> Result<u8, Device>
    ensures whole { IfOk result (IsMachineShown explain machine.now
        (output_state W.taken E.taken outputs.old) (output_state W.taken E.taken outputs.new)) }
    ensures cut { OnErr result (IsMachineShownInPart explain machine.now
        (output_state W.taken E.taken outputs.old) (output_state W.taken E.taken outputs.new)) }
    ensures same { texts_of outputs.new.files ≡ texts_of outputs.old.files }
{
    outputs.out.write_whole(machine.console())?;
    show_threads_of(alloc, explain, machine, &mut outputs.err)
}

/// Prints how the threads of a run stand, and what explains that where it is asked for, and returns its status.
pub(crate) fn show_threads_of<E: Out>(
    alloc: Global,
    explain: bool,
    machine: &Machine,
    err: &mut E,
) -> Result<u8, Device>
    ensures whole { IfOk result (AreThreadsShown explain machine.now (E.taken err.old) (E.taken err.new)) }
    ensures cut { OnErr result (AreThreadsShownInPart explain machine.now (E.taken err.old) (E.taken err.new)) }
{
    let ends = ends_of(machine);
    write_ends(ends.as_slice(), err)?;
    write_explanation(alloc, explain, machine, err)?;
    Ok(status_of(ends.as_slice()))
}

/// Reports that a run was stopped since memory ran out, where it was, and returns its status, which is this one where it was not.
pub(crate) fn show_stop<E: Out>(stopped: bool, status: u8, err: &mut E) -> Result<u8, Device>
    ensures whole { IfOk result (λ after. (after ≡ status_after stopped status) × Takes (E.taken err.old) (E.taken err.new) (stop_text stopped)) }
    ensures cut { OnErr result (Fails (E.taken err.old) (E.taken err.new) (stop_text stopped)) }
{
    if !stopped {
        return Ok(status);
    }
    write_report(Failure::Memory, err)?;
    Ok(status_of_failure(Failure::Memory))
}

/// How each thread of a machine stands that was started, in the order of their numbers.
fn ends_of(machine: &Machine) -> Ends
    ensures { result.items ≡ map end_of machine.now.threads }
{
    let mut ends = Ends::new();
    for thread in 0..machine.started() {
        ends.push(machine.end_of(thread as u8));
    }
    ends
}

/// Writes what explains how the threads of a machine stand, where that is asked for. Writes nothing where memory runs out for it.
fn write_explanation<E: Out>(
    alloc: Global,
    explain: bool,
    machine: &Machine,
    err: &mut E,
) -> Result<(), Device>
    ensures whole { OnOk result ((text : List ℕ) × IsThreadText explain machine.now text × Takes (E.taken err.old) (E.taken err.new) text) }
    ensures cut { OnErr result ((text : List ℕ) × IsThreadText explain machine.now text × Fails (E.taken err.old) (E.taken err.new) text) }
{
    if !explain {
        return Ok(());
    }
    match explain_threads(alloc, machine) {
        Ok(text) => err.write_whole(text.as_bytes()),
        Err(_) => Ok(()),
    }
}

/// Writes a line for each thread, in the order of their numbers.
fn write_ends<E: Out>(ends: &[Option<End>], err: &mut E) -> Result<(), Device>
    ensures whole { OnOk result (Takes (E.taken err.old) (E.taken err.new) (lines_from 0 ends.now)) }
    ensures cut { OnErr result (Fails (E.taken err.old) (E.taken err.new) (lines_from 0 ends.now)) }
{
    for (thread, end) in ends.iter().enumerate() {
        write_end(thread, *end, err)?;
    }
    Ok(())
}

/// Writes how one thread stands.
fn write_end<E: Out>(thread: usize, end: Option<End>, err: &mut E) -> Result<(), Device>
    ensures whole { OnOk result (Takes (E.taken err.old) (E.taken err.new) (line_of thread end)) }
    ensures cut { OnErr result (Fails (E.taken err.old) (E.taken err.new) (line_of thread end)) }
{
    let mut number = Buffer::new();
    err.write_texts(&["thread ", number.format(thread), ": ", end_text(end), "\n"])
}

/// The word for the status of a thread.
fn end_text(end: Option<End>) -> &'static str
    ensures { result.now ≡ end_text end }
{
    match end {
        None => "live",
        Some(End::Done) => "done",
        Some(End::Budget) => "budget",
        Some(End::Fault(fault)) => fault.name(),
    }
}

/// The status of a run whose threads stand so.
fn status_of(ends: &[Option<End>]) -> u8
    ensures { result ≡ status_of ends.now }
{
    if is_some_live(ends) {
        4
    } else if are_all_done(ends) {
        0
    } else {
        3
    }
}

/// Whether some thread is live.
fn is_some_live(ends: &[Option<End>]) -> bool
    ensures { result ≡ list_any is_live ends.now }
{
    ends.iter().any(|end| end.is_none())
}

/// Whether each thread is done.
pub(crate) fn are_all_done(ends: &[Option<End>]) -> bool
    ensures { result ≡ list_all is_done ends.now }
{
    ends.iter().all(|end| *end == Some(End::Done))
}
