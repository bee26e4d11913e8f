//! From the bytes of a source to what its run leaves.

ghost use Rattle.std.specs.Prelude.{◌≡◌, [], IfErr, IfOk, Some};
ghost use Rattle.cil_model.specs.declared.limits.Limits.{Limits as RunLimits};
ghost use Rattle.cil_model.specs.declared.trees.Tree.{Tree};
ghost use Rattle.schedule_text.specs.Items.{events_of as events_in};
ghost use Rattle.shared_machine.specs.Histories.{events_of, reports_of};
ghost use Rattle.shared_machine.specs.Worlds.{AreDoneOf};
ghost use Rattle.shared_machine.specs.interleaving_core.Histories.{HasDone};
ghost use Rattle.shared_machine.specs.simulation.Transitions.{initial_machine_state};
ghost use Rattle.acceptance.specs.Sources.{HasRunTo, IsNotRun};
ghost use Rattle.source_runs.specs.Runs.{IsNotRunBy, IsPrintedUpTo, IsReady, IsRunBy};

use acceptance::{Failure, machine_of};
use cil_model::limits::Limits;
use cil_model::memory::NoMemory;
use schedule_text::{Item, read_schedule};
use shared_machine::{Blank, Machine, Outcome, run_alone};
use std::alloc::Global;
use std::marker::Brand;
use std::sync::Wait;

/// Runs a source by the events that a schedule's text writes, as `run_events` runs those of its items. With `most_printed` it prints no more bytes.
///
/// Faults are looked for in this order: the source, the limits, the schedule, memory before the first event.
pub fn run_source(
    rt: &impl Wait,
    alloc: Global,
    source: &[u8],
    limits: Limits,
    text: &[u8],
    most_printed: Option<u32>,
) -> Result<Outcome, Failure>
    ensures printed { IfOk result (λ outcome. IsPrintedUpTo most_printed outcome.machine.printed) }
    ensures ran { IfOk result (λ outcome. IsRunBy source.now limits text.now (events_of outcome.history.entries) (reports_of outcome.history.entries) outcome.is_out_of_memory outcome.machine) }
    ensures refused { IfErr result (IsNotRunBy source.now limits text.now) }
{
    let (machine, items) = open(alloc, source, limits, text)?;
    Ok(run(rt, alloc, machine, items.as_slice(), most_printed)?)
}

/// Runs a source by the events of these items, of any number and of any threads, and returns the machine after them with
/// the history: each event with its report, in order. One worker performs them, each under the lock of a shared machine, and counts them
/// with its ticket. Where memory runs out for an event, or for its entry in the history, the run is stopped before that event, and the
/// outcome says so: the history has the events before it. With `most_printed` it is stopped in the same way before an event by which the program
/// would have printed more bytes than that.
///
/// The reference machine's run over the steps among the events is never stuck. It gives the steps these reports, and the machine represents
/// the state after it: the bytes printed are the same, and each thread has the same status. No thread makes more steps than its
/// budget has. A step of a thread that isn't live is reported Absent (this profile).
///
/// An acknowledgement and an event of the collector leave that state alone. No cycle of the collector has more working events than its bound, and where the
/// last event ends a cycle, the words in use are at most those of the objects that were reachable as it began, or were born since.
///
/// Faults are looked for in this order: the source (`accept`), the limits (`OutOfRange(401)`), memory before the first event (`Memory`).
pub fn run_events(
    rt: &impl Wait,
    alloc: Global,
    source: &[u8],
    limits: Limits,
    items: &[Item],
    most_printed: Option<u32>,
) -> Result<Outcome, Failure>
    ensures printed { IfOk result (λ outcome. IsPrintedUpTo most_printed outcome.machine.printed) }
    ensures events { IfOk result (λ outcome. AreDoneOf (events_in items.now) (events_of outcome.history.entries) outcome.is_out_of_memory) }
    ensures ran { IfOk result (λ outcome. HasRunTo source.now limits (events_of outcome.history.entries) (reports_of outcome.history.entries) outcome.machine) }
    ensures refused { IfErr result (IsNotRun source.now limits) }
{
    let machine = machine_of(alloc, source, limits)?;
    Ok(run(rt, alloc, machine, items, most_printed)?)
}

/// A machine before its first event after the events of these items, which one worker performs.
fn run(
    rt: &impl Wait,
    alloc: Global,
    machine: Machine,
    items: &[Item],
    most_printed: Option<u32>,
) -> Result<Outcome, NoMemory>
    ensures printed { (tree : Tree) (limits : RunLimits) → initial_machine_state tree limits ≡ Some machine → IfOk result (λ outcome. IsPrintedUpTo most_printed outcome.machine.printed) }
    ensures events { IfOk result (λ outcome. AreDoneOf (events_in items.now) (events_of outcome.history.entries) outcome.is_out_of_memory) }
    ensures ran { (tree : Tree) (limits : RunLimits) → HasDone tree limits [] [] machine → IfOk result (λ outcome. HasDone tree limits (events_of outcome.history.entries) (reports_of outcome.history.entries) outcome.machine) }
{
    let blank = Blank::new(alloc)?;
    run_alone::<Brand, _>(rt, alloc, blank, machine, items, most_printed)
}

/// The machine of a source before its first event, and the items that a schedule's text writes.
///
/// Faults are looked for in this order: the source (as `accept` does), the limits (`OutOfRange(401)`), the schedule (`Refused` with a
/// number from 501 on); `Memory` where memory runs out.
pub fn open(
    alloc: Global,
    source: &[u8],
    limits: Limits,
    text: &[u8],
) -> Result<(Machine, Vec<Item>), Failure>
    ensures opened { IfOk result (λ run. IsReady source.now limits text.now (events_in run.1.items) run.0) }
    ensures refused { IfErr result (IsNotRunBy source.now limits text.now) }
{
    let machine = machine_of(alloc, source, limits)?;
    let items = read_schedule(alloc, text)?;
    Ok((machine, items))
}
