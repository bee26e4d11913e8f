//! What is known of a run after some of its events.

ghost use Rattle.std.specs.Prelude.{◌≡◌, ◌++◌, IfOk, OnOk, string_bytes};
ghost use Rattle.event_trace.specs.MethodPositions.{ArePositionsOf};
ghost use Rattle.end_explanations.specs.Callers.{callers_with, callers_of};
ghost use Rattle.end_explanations.specs.Replays.{IsEndExplained, initial_replay, is_new, new_deadlock, printed_after};

use crate::callers::{Callers, follow};
use crate::ends::EarlyEnd;
use crate::names::Names;
use crate::texts::{add_callers, add_end};
use cil_model::events::Event;
use cil_model::limits::MOST_THREADS;
use cil_model::memory::NoMemory;
use event_trace::{Machine, Position, add_deadlock, deadlocked_threads, is_in};
use std::alloc::{AllocError, Global};
use std::marker::Model;

/// What is known of a run after some of its events.
#[derive(Drop)]
pub(crate) struct Progress {
    /// The callers of each thread that a machine can have, by number.
    callers: Vec<Callers>,
    /// The deadlocked threads that were printed last.
    printed: Vec<bool>,
    /// The text so far.
    text: String,
}

impl Model for Progress {
    ghost use Rattle.std.specs.Prelude.{string_bytes};
    ghost use Rattle.end_explanations.specs.Replays.{ReplayState};

    ghost Value = { ReplayState };

    ghost view = { λ p. record { callers = p.callers.items; printed = p.printed.items; text = string_bytes p.text } };
}

impl Progress {
    /// Before the first event.
    pub(crate) fn new(alloc: Global) -> Result<Progress, AllocError>
        ensures { IfOk result (λ progress. progress ≡ initial_replay) }
    {
        Ok(Progress {
            callers: no_callers(alloc)?,
            printed: Vec::new(alloc),
            text: String::new(alloc),
        })
    }

    /// The text.
    pub(crate) fn into_text(self) -> String
        ensures { string_bytes result ≡ self.text }
    {
        self.text
    }

    /// Updates the callers for an event of the machine. `before` is the position of the event's thread before it.
    pub(crate) fn follow(
        &mut self,
        event: Event,
        before: Option<Position>,
        after: Option<Position>,
    ) -> Result<(), AllocError>
        ensures callers { OnOk result (self.new.callers ≡ callers_with self.old.callers event before after) }
        ensures same { OnOk result ((self.new.printed ≡ self.old.printed) × (self.new.text ≡ self.old.text)) }
    {
        match event {
            Event::Step(thread) => follow(&mut self.callers, thread, before, after),
            Event::Ack(_) | Event::Gc => Ok(()),
        }
    }

    /// Adds the text of a thread that the machine's next event ends, and the deadlock that it was in, unless it was printed before.
    pub(crate) fn add_end(
        &mut self,
        alloc: Global,
        machine: &Machine,
        names: &Names<'_>,
        end: EarlyEnd,
    ) -> Result<(), NoMemory>
        requires { ArePositionsOf machine.now.tree names.now.methods }
        ensures explained { OnOk result (IsEndExplained names.now.lines machine.now self.old end self.new) }
        ensures same { OnOk result (self.new.callers ≡ self.old.callers) }
    {
        add_end(&mut self.text, machine, names, end)?;
        add_callers(
            &mut self.text,
            machine,
            names,
            callers_of(self.callers.as_slice(), end.thread),
        )?;
        let deadlocked = deadlocked_threads(alloc, machine)?;
        self.add_deadlock(alloc, machine, deadlocked, end.thread)
    }

    /// Adds the line of the deadlocked threads, if it is new that a thread is one of them.
    fn add_deadlock(
        &mut self,
        alloc: Global,
        machine: &Machine,
        deadlocked: Vec<bool>,
        thread: u8,
    ) -> Result<(), NoMemory>
        ensures text { OnOk result (self.new.text ≡ self.old.text ++ new_deadlock machine.now self.old.printed deadlocked.items thread) }
        ensures printed { OnOk result (self.new.printed ≡ printed_after self.old.printed deadlocked.items thread) }
        ensures same { OnOk result (self.new.callers ≡ self.old.callers) }
    {
        if !is_new(self.printed.as_slice(), deadlocked.as_slice(), thread) {
            return Ok(());
        }
        add_deadlock(alloc, &mut self.text, machine, deadlocked.as_slice())?;
        self.printed = deadlocked;
        Ok(())
    }
}

/// Whether a thread is deadlocked that was not printed as deadlocked.
fn is_new(printed: &[bool], deadlocked: &[bool], thread: u8) -> bool
    ensures { result ≡ is_new printed.now deadlocked.now thread }
{
    is_in(deadlocked, thread) && !is_in(printed, thread)
}

/// No callers of any thread that a machine can have.
fn no_callers(alloc: Global) -> Result<Vec<Callers>, AllocError>
    ensures { IfOk result (λ callers. callers.items ≡ initial_replay.callers) }
{
    let mut callers = Vec::new(alloc);
    for _thread in 0..MOST_THREADS {
        callers.push(Callers::new(alloc))?;
    }
    Ok(callers)
}

/// The callers of the thread of a number, the outermost first. Empty if no machine has the thread.
fn callers_of(callers: &[Callers], thread: u8) -> &[Position]
    ensures { result.now ≡ callers_of callers.now thread }
{
    match callers.get(usize::from(thread)) {
        None => &[],
        Some(callers) => callers.positions(),
    }
}
