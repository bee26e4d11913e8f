//! What a search gives to the check.

ghost use Rattle.std.specs.Prelude.{◌≡◌};
ghost use Rattle.std.specs.Str.{bytes_eq};
ghost use Rattle.exploration.specs.FoundOutcomes.{has_deadlock, has_fault};

use cil_model::events::Event;
use cil_model::reports::End;

/// A step of a thread after the events of a path.
#[derive(Clone, Copy)]
pub struct PathStep {
    /// The index of the path.
    pub path: u32,
    /// The thread that makes the step.
    pub thread: u8,
}

/// A list of events from the initial state on. Each step of `incoming`, followed by the local instructions of its thread and of the thread that was started last, leads to the
/// same state as these events.
#[derive(Drop)]
pub struct Path {
    pub events: Vec<Event>,
    pub incoming: Vec<PathStep>,
}

/// An outcome: the events that lead to it, the number of preemptions among them, the printed bytes, and the end of each thread by its number, which is None for a blocked
/// thread.
#[derive(Drop)]
pub struct FoundOutcome {
    pub events: Vec<Event>,
    pub preemptions: usize,
    pub printed: Vec<u8>,
    pub ends: Vec<Option<End>>,
}

impl FoundOutcome {
    /// Whether a thread ended by a fault.
    pub fn has_fault(&self) -> bool
        ensures { result ≡ has_fault self.now }
    {
        self.ends.iter().any(|end| match end {
            Some(End::Fault(_)) => true,
            _ => false,
        })
    }

    /// Whether a thread is blocked.
    pub fn has_deadlock(&self) -> bool
        ensures { result ≡ has_deadlock self.now }
    {
        self.ends.iter().any(|end| end.is_none())
    }

    /// Whether another outcome has the same printed bytes, in the same order.
    pub fn prints_same(&self, other: &FoundOutcome) -> bool
        ensures { result ≡ bytes_eq self.now.printed.items other.now.printed.items }
    {
        self.printed == other.printed
    }
}
