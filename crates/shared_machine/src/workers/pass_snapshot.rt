//! What a worker finds as a pass begins.

ghost use Rattle.std.specs.Prelude.{◌≡◌, ◌<◌, ◌≤◌, ◌==◌, ◌||◌, ◌&&◌, length};
ghost use Rattle.std.specs.List.{count_by};
ghost use Rattle.cil_model.specs.declared.limits.TheConstants.{MOST_THREADS};
ghost use Rattle.interleaving_core.specs.simulation.threads_monitors.Threads.{is_live, is_live_at};
ghost use Rattle.shared_machine.specs.Work.{is_driven_by, served_below};

use crate::world::{Initial, World};
use cil_model::limits::MOST_THREADS;
use interleaving_core::Machine;

/// What a worker finds as a pass begins.
#[derive(Clone, Copy)]
pub(crate) struct PassSnapshot {
    /// How many threads were started.
    pub started: usize,
    /// How many live threads the worker drives.
    pub served: usize,
    /// Whether the stop mark is set.
    pub is_stopped: bool,
    /// Whether no thread is live, or the stop mark is set.
    pub is_last: bool,
}

/// Whether one of this many workers drives a thread.
fn is_driven_by(workers: u8, worker: u8, thread: u8) -> bool
    requires { 0 < workers }
    ensures { result ≡ is_driven_by workers worker thread }
{
    // A division costs more than the rest of a look at a thread.
    if workers == 1 {
        worker == 0
    } else if thread < workers {
        thread == worker
    } else {
        thread % workers == worker
    }
}

/// Whether a thread is live and one of this many workers drives it.
pub(crate) fn is_served(machine: &Machine, workers: u8, worker: u8, thread: u8) -> bool
    requires { 0 < workers }
    ensures { result ≡ (is_live_at machine.now.threads thread && is_driven_by workers worker thread) }
{
    machine.is_live(thread) && is_driven_by(workers, worker, thread)
}

/// How many live threads one of this many workers drives.
pub(crate) fn served_threads(machine: &Machine, workers: u8, worker: u8) -> usize
    requires { 0 < workers }
    ensures count { result ≡ served_below machine.now workers worker (length machine.now.threads) }
    ensures few { result ≤ MOST_THREADS }
{
    let mut count = 0;
    for thread in 0..machine.started() {
        if is_served(machine, workers, worker, thread as u8) {
            count += 1;
        }
    }
    count
}

/// What one of this many workers finds in a world.
pub(crate) fn found_in<M: Initial>(world: &World<M>, workers: u8, worker: u8) -> PassSnapshot
    requires { 0 < workers }
    ensures started { (result.started ≡ length world.now.core.threads) × (result.started ≤ MOST_THREADS) }
    ensures served { result.served ≡ served_below world.now.core workers worker (length world.now.core.threads) }
    ensures stopped { result.is_stopped ≡ world.now.stopped }
    ensures last { result.is_last ≡ ((count_by is_live world.now.core.threads == 0) || world.now.stopped) }
{
    let machine = world.machine();
    let is_stopped = world.is_stopped();
    let served = served_threads(machine, workers, worker);
    PassSnapshot {
        started: machine.started(),
        served,
        is_stopped,
        is_last: is_stopped || (served == 0 && machine.live() == 0),
    }
}
