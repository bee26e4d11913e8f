//! Which threads are deadlocked.

ghost use Rattle.std.specs.Prelude.{◌≡◌, ◌&&◌, IfOk, length};
ghost use Rattle.event_trace.specs.Deadlocks.{IsDeadlockOf};
ghost use Rattle.event_trace.specs.Rounds.{after_round, is_held_up, is_in, stays};

use cil_model::memory::NoMemory;
use interleaving_core::{Machine, Wait};
use std::alloc::Global;

/// Whether a thread is in a set.
pub fn is_in(set: &[bool], thread: u8) -> bool
    ensures { result ≡ is_in set.now thread }
{
    set.get(usize::from(thread)).copied().unwrap_or(false)
}

/// Whether a wait is for a thread of the set, or for a monitor of one that has ended.
fn is_held_up(machine: &Machine, set: &[bool], wait: Wait) -> bool
    ensures { result ≡ is_held_up machine.now set.now wait }
{
    match wait {
        Wait::Monitor { owner, .. } => is_in(set, owner) || !machine.is_live(owner),
        Wait::Join { thread } => is_in(set, thread),
    }
}

/// Whether a thread waits, and is held up by the set.
fn stays(machine: &Machine, set: &[bool], thread: u8) -> bool
    ensures { result ≡ stays machine.now set.now thread }
{
    match machine.wait_of(thread) {
        Some(wait) => is_held_up(machine, set, wait),
        None => false,
    }
}

/// Whether a thread of the set is held up by it.
fn is_kept(machine: &Machine, set: &[bool], thread: u8) -> bool
    ensures { result ≡ (is_in set.now thread && stays machine.now set.now thread) }
{
    is_in(set, thread) && stays(machine, set, thread)
}

/// The set without the threads that are not held up by it. It has an entry for each thread that was started.
fn after_round(alloc: Global, machine: &Machine, set: &[bool]) -> Result<Vec<bool>, NoMemory>
    requires { length set.now ≡ length machine.now.threads }
    ensures { IfOk result (λ next. next.items ≡ after_round machine.now set.now) }
{
    let mut next = Vec::new(alloc);
    for thread in 0..machine.started() {
        next.push(is_kept(machine, set, thread as u8))?;
    }
    Ok(next)
}

/// Which threads are deadlocked, of each that was started, by number: those of the greatest set of threads each of which waits for the end
/// of a thread of the set, or for a monitor that a thread of the set holds, or one that has ended.
///
/// None of them advances, whatever events follow, up to the step that uses up the budget of one. The machine does nothing. The only error
/// is out of memory.
pub fn deadlocked_threads(alloc: Global, machine: &Machine) -> Result<Vec<bool>, NoMemory>
    ensures { IfOk result (λ deadlocked. IsDeadlockOf machine.now deadlocked.items) }
{
    let threads = machine.started();
    let mut set = vec![in alloc; true; threads]?;
    for _round in 0..threads + 1 {
        set = after_round(alloc, machine, set.as_slice())?;
    }
    Ok(set)
}
