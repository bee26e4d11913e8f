//! A run by workers, from the initial state to the end.

ghost use Rattle.std.specs.Prelude.{◌≡◌, ◌≤◌, ◌↔◌, All, false, IfOk, IsTrue, true};
ghost use Rattle.shared_machine.specs.Histories.{events_of, reports_of};
ghost use Rattle.shared_machine.specs.Worlds.{HasRun, IsPrintedWithin};
ghost use Rattle.shared_machine.specs.declared.shared.TheConstants.{MOST_WORKERS};
ghost use Rattle.shared_machine.specs.Work.{HasEnded, IsDeadlocked, IsOwnOf};

use crate::counts::book::Blank;
use crate::outcome::Outcome;
use crate::shared::Shared;
use crate::workers::deadlock::is_deadlocked;
use crate::workers::gate::Gate;
use crate::workers::pool::run_workers;
use crate::world::Initial;
use cil_model::memory::NoMemory;
use cil_model::stops::StopAt;
use epoch_words::Epochs;
use interleaving_core::Machine;
use std::alloc::Global;
use std::marker::{Send, Sync};
use std::sync::Wait;
use std::thread::Threads;

/// That many workers, 1 to 16, run a machine to its end or to a deadlock, as `run_workers` does, and the run ends.
///
/// Whatever the order in which they got the lock, the history is one that a single thread could have made: the machine is in the state that its transitions
/// over the history's events make of the initial one, with the history's reports, and the reference machine follows them. Each entry is an
/// event of its worker's own, of a thread that a machine can have. With `StopAt::End` no thread is live. With `StopAt::Deadlock` threads may
/// be: then each of them waits for a monitor that another thread holds or for the end of a live thread, and the run has the stop mark. Where
/// memory ran out, for an event or for a worker's thread, and had the workers stop before such an end, the outcome says so. A run that was
/// short of memory, and reached its end all the same, has the stop mark. An event that would leave more than `most_printed` bytes on the console is
/// not done, and stops the run as running out of memory does.
///
/// `blank` is the book of counts that `M` names, the machine holds what `M` names, and `M` names this number of workers and this bound. Out of
/// memory is the only error, before the first event. The machine is dropped then.
pub fn run_together<M: Initial + Send + Sync, R: Threads + Wait + Sync, G: Gate + Sync>(
    rt: &R,
    alloc: Global,
    blank: Blank,
    core: Machine,
    workers: u8,
    stop_at: StopAt,
    most_printed: Option<u32>,
    gate: &G,
) -> Result<Outcome, NoMemory>
    requires book { blank ≡ M.table }
    requires core { core ≡ M.initial_state }
    requires printed { most_printed ≡ M.most_printed }
    requires workers { (1 ≤ workers) × (workers ≤ MOST_WORKERS) × (workers ≡ M.workers) }
    ensures ran { IfOk result (λ outcome. HasRun M.initial_state (events_of outcome.history.entries) (reports_of outcome.history.entries) outcome.machine) }
    ensures printed { IfOk result (λ outcome. IsPrintedWithin most_printed M.initial_state outcome.machine) }
    ensures own { IfOk result (λ outcome. All (IsOwnOf workers) outcome.history.entries) }
    ensures ended { IfOk result (λ outcome. outcome.is_out_of_memory ≡ false → HasEnded stop_at outcome.machine outcome.stopped) }
{
    let (epochs, herald, seats) = Epochs::new(alloc, usize::from(workers))?;
    let (shared, tickets) = Shared::<M>::new(alloc, blank, core, workers, most_printed)?;
    let tickets = run_workers(
        rt, alloc, &shared, tickets, &epochs, herald, seats, stop_at, gate,
    );
    match shared.finish(tickets) {
        Ok(mut outcome) => {
            outcome.is_out_of_memory = !has_ended(&outcome, stop_at);
            Ok(outcome)
        }
        Err(_) => unreachable!(),
    }
}

/// Whether an outcome has the stop mark, and each live thread waits.
fn has_stopped_at_deadlock(outcome: &Outcome) -> bool
    ensures { IsTrue result ↔ ((outcome.now.stopped ≡ true) × IsDeadlocked outcome.now.machine) }
{
    outcome.stopped && is_deadlocked(&outcome.machine)
}

/// Whether a run may end so.
fn has_ended(outcome: &Outcome, stop_at: StopAt) -> bool
    ensures { IsTrue result → HasEnded stop_at outcome.now.machine outcome.now.stopped }
{
    match stop_at {
        StopAt::End => outcome.machine.live() == 0,
        StopAt::Deadlock => outcome.machine.live() == 0 || has_stopped_at_deadlock(outcome),
    }
}
