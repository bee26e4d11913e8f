//! Sentences about deadlocked threads.

ghost use Rattle.std.specs.Prelude.{◌≡◌, Bool, IfOk, List, string_bytes};
ghost use Rattle.event_trace.specs.Deadlocks.{IsDeadlockOf};
ghost use Rattle.run_picture.specs.Sentences.{deadlock_sentence};

use crate::monitors::Monitors;
use cil_model::limits::MOST_THREADS;
use cil_model::memory::NoMemory;
use event_trace::{Machine, OwnerText, Wait, add_thread_numbers, deadlocked_threads};
use picture_scene::letter_of;
use std::alloc::{AllocError, Global};
use std::fmt::{Display, Write};

/// The sentence of the threads that are deadlocked in a machine. Empty if there are none.
pub(crate) fn deadlock_sentence(alloc: Global, machine: &Machine) -> Result<String, NoMemory>
    ensures { IfOk result (λ text. (deadlocked : List Bool) × IsDeadlockOf machine.now deadlocked × (string_bytes text ≡ deadlock_sentence deadlocked)) }
{
    let deadlocked = deadlocked_threads(alloc, machine)?;
    let mut numbers = String::new(alloc);
    let count = add_thread_numbers(&mut numbers, deadlocked.as_slice())?;
    let mut text = String::new(alloc);
    if count == 0 {
        return Ok(text);
    }
    text.push_str("threads deadlocked after the last event: ")?;
    text.push_str(numbers.as_str())?;
    Ok(text)
}

/// The largest number of threads whose waits are reported, so that the sentence fits the picture.
const MOST_NAMED: usize = 4;

/// Appends what each of the first deadlocked threads waits for. Nothing if no thread is deadlocked.
pub(crate) fn add_waits(
    text: &mut String,
    machine: &Machine,
    monitors: &Monitors,
    deadlocked: &[bool],
) -> Result<(), AllocError> {
    let mut named = 0usize;
    for thread in 0..deadlocked.len().min(MOST_THREADS) {
        if deadlocked[thread] {
            if named == MOST_NAMED {
                return text.push_str(", ..");
            }
            if named > 0 {
                text.push_str(", ")?;
            }
            add_wait(text, machine, monitors, thread as u8)?;
            named = named.saturating_add(1);
        }
    }
    Ok(())
}

/// Appends what a thread waits for.
fn add_wait(
    text: &mut String,
    machine: &Machine,
    monitors: &Monitors,
    thread: u8,
) -> Result<(), AllocError> {
    match machine.wait_of(thread) {
        Some(Wait::Monitor { owner, .. }) => {
            add_monitor_wait(text, machine, monitors, thread, owner)
        }
        Some(Wait::Join { thread: joined }) => {
            write!(text, "thread {thread} waits for the end of thread {joined}")
        }
        None => Ok(()),
    }
}

/// Appends that a thread waits for a monitor of this owner.
fn add_monitor_wait(
    text: &mut String,
    machine: &Machine,
    monitors: &Monitors,
    thread: u8,
    owner: u8,
) -> Result<(), AllocError> {
    write!(text, "thread {thread} waits for ")?;
    add_monitor(text, machine, monitors, thread)?;
    let owner = OwnerText {
        thread: owner,
        is_live: machine.is_live(owner),
    };
    write!(text, "{owner}")
}

/// Appends the letters of the monitor that a thread waits for, in front of its owner.
fn add_monitor(
    text: &mut String,
    machine: &Machine,
    monitors: &Monitors,
    thread: u8,
) -> Result<(), AllocError> {
    if let Some(address) = machine.monitor_of(thread) {
        if let Some(number) = monitors.number(machine, address) {
            let first = if number < 26 { "" } else { "A" };
            let last = letter_of(number);
            return write!(text, "{first}{last}, held by ");
        }
    }
    text.push_str("a monitor of ")
}
