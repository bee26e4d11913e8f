//! Performs the events of a history again.

ghost use Rattle.std.specs.Prelude.{◌≡◌, IfOk, OnOk, map, replicate, string_bytes, true};
ghost use Rattle.std.specs.List.{zip};
ghost use Rattle.event_trace.specs.MethodPositions.{ArePositionsOf};
ghost use Rattle.shared_machine.specs.Histories.{events_of, plain, reports_of};
ghost use Rattle.end_explanations.specs.Replays.{AreEndsExplained, AreReplayed, IsReplayed, pair_of};
ghost use Rattle.end_explanations.specs.declared.replaying.ReplayError.TheVariants.{Memory as MemoryRanOut};

use crate::ends::early_end;
use crate::names::Names;
use crate::progress::Progress;
use cil_model::memory::NoMemory;
use cil_model::reports::Report;
use event_trace::{Machine, position_for};
use shared_machine::{Entry, History, Run};
use std::alloc::{AllocError, Global};
use thiserror::Error;

/// Why the ends of threads are not explained.
#[derive(Clone, Copy, Debug, Error)]
pub enum ReplayError {
    /// Memory ran out, for an event or for the text.
    #[error("out of memory")]
    Memory,
    /// The machine's report of an event differs from the history's: the machine was not in the state in which the history began.
    #[error("not the machine of this history")]
    OtherReport,
}

impl From<NoMemory> for ReplayError {
    ghost from_gives = { λ _ error. error ≡ MemoryRanOut };

    fn from(_error: NoMemory) -> ReplayError {
        ReplayError::Memory
    }
}

impl From<AllocError> for ReplayError {
    ghost from_gives = { λ _ error. error ≡ MemoryRanOut };

    fn from(_error: AllocError) -> ReplayError {
        ReplayError::Memory
    }
}

/// Performs the events of a history on a machine of a source, in the state in which the history began, and returns a text on the threads that ended in it by a fault or by
/// their budget, of `budget` steps, in the order in which they ended:
///
/// ```text
/// thread 1: System.NullReferenceException
///   at Worker::Value+1 (line 17)  ldfld int32 Node::value
///   called from Worker::Run+6 (line 26)  call int32 Worker::Value(class Node)
/// thread 2: budget after 100000 steps (--budget allows 1000000)
///   at Bank::Transfer+3 (line 31)  call void [mscorlib]System.Threading.Monitor::Enter(object), waits for the monitor of an object of Account, held by thread 0
/// deadlock: threads 0, 2
/// ```
///
/// `at` is the instruction of the thread's last step, with its line of the source, and what follows is the thread's state before that step: the calls that have not returned, the innermost first,
/// 10 of them and then the number of the others; and what it waited for. If it was deadlocked then, a line as that of `event_trace::explain_threads` follows, unless an
/// earlier thread has printed it.
///
/// # Errors
/// `Memory` if memory runs out. `OtherReport` if the machine's report of an event differs from the history's. The machine has done some of the
/// events then.
pub fn explain_ends(
    alloc: Global,
    machine: &mut Machine,
    budget: u32,
    source: &[u8],
    history: &History,
) -> Result<String, ReplayError>
    requires { machine.old.limits.budget ≡ budget }
    ensures { IfOk result (λ text. AreEndsExplained source.now machine.old (zip (events_of history.now.entries) (reports_of history.now.entries)) (string_bytes text)) }
{
    let names = Names::new(alloc, machine.tree(), source)?;
    let mut progress = Progress::new(alloc)?;
    let runs = history.runs();
    for run in runs {
        replay_run(alloc, machine, &names, budget, run, &mut progress)?;
    }
    Ok(progress.into_text())
}

/// Performs the events of a run of equal entries.
fn replay_run(
    alloc: Global,
    machine: &mut Machine,
    names: &Names<'_>,
    budget: u32,
    run: &Run,
    progress: &mut Progress,
) -> Result<(), ReplayError>
    requires positions { ArePositionsOf machine.old.tree names.now.methods }
    requires budget { machine.old.limits.budget ≡ budget }
    ensures replayed { OnOk result (AreReplayed names.now.lines machine.old progress.old (map pair_of (replicate run.now.times run.now.entry)) machine.new progress.new) }
    ensures same { OnOk result ((machine.new.tree ≡ machine.old.tree) × (machine.new.limits ≡ machine.old.limits)) }
{
    for _time in 0..run.times {
        replay_event(alloc, machine, names, budget, &run.entry, progress)?;
    }
    Ok(())
}

/// Performs the event of an entry. If it ends a thread by a fault or its budget, that is explained first.
fn replay_event(
    alloc: Global,
    machine: &mut Machine,
    names: &Names<'_>,
    budget: u32,
    entry: &Entry,
    progress: &mut Progress,
) -> Result<(), ReplayError>
    requires positions { ArePositionsOf machine.old.tree names.now.methods }
    requires budget { machine.old.limits.budget ≡ budget }
    ensures replayed { OnOk result (IsReplayed names.now.lines machine.old progress.old (pair_of entry.now) machine.new progress.new) }
    ensures same { OnOk result ((machine.new.tree ≡ machine.old.tree) × (machine.new.limits ≡ machine.old.limits)) }
{
    if let Some(end) = early_end(entry.event, entry.report, budget) {
        progress.add_end(alloc, machine, names, end)?;
    }
    let before = position_for(machine, entry.event);
    let report = machine.step(alloc, entry.event)?;
    if !is_same(report, entry.report) {
        return Err(ReplayError::OtherReport);
    }
    progress.follow(entry.event, before, position_for(machine, entry.event))?;
    Ok(())
}

/// Whether two reports are equal. Where it is true, contracts can replace one by the other.
fn is_same(report: Report, other: Report) -> bool
    ensures { result ≡ true → report ≡ other }
{
    report == other
}
