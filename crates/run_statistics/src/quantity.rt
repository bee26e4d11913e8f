//! What is counted of a run.

ghost use Rattle.std.specs.Prelude.{◌≡◌};
ghost use Rattle.run_statistics.specs.Counts.{is_blocked_step, is_counted};
ghost use Rattle.shared_machine.specs.simulation.Budgets.{made_step};
ghost use Rattle.shared_machine.specs.simulation.reference_machine.Cycles.{ends_cycle};
ghost use Rattle.shared_machine.specs.simulation.reference_machine.Runs.{is_refusal};

use cil_model::events::Event;
use cil_model::reports::{End, Fault, Report};

/// What is counted of a run.
#[derive(Clone, Copy)]
pub enum Quantity {
    /// The events.
    Events,
    /// The steps of the thread of this number, with the blocked ones: the steps that its budget counts.
    Steps(u8),
    /// The blocked steps of the thread of this number.
    BlockedSteps(u8),
    /// The cycles of the collector that ended.
    Cycles,
    /// The allocations that were refused.
    RefusedAllocations,
}

impl Quantity {
    /// Whether an event with this report is one of those.
    pub fn includes(self, event: Event, report: Report) -> bool
        ensures { result ≡ is_counted self event report }
    {
        match self {
            Quantity::Events => true,
            Quantity::Steps(thread) => made_step(thread, event, report),
            Quantity::BlockedSteps(thread) => is_blocked_step(thread, event, report),
            Quantity::Cycles => ends_cycle(event, report),
            Quantity::RefusedAllocations => is_refusal(report),
        }
    }
}

fn made_step(thread: u8, event: Event, report: Report) -> bool
    ensures { result ≡ made_step thread event report }
{
    match (event, report) {
        (Event::Step(_), Report::Absent) => false,
        (Event::Step(number), _) => number == thread,
        (Event::Ack(_) | Event::Gc, _) => false,
    }
}

fn is_blocked_step(thread: u8, event: Event, report: Report) -> bool
    ensures { result ≡ is_blocked_step thread event report }
{
    match (event, report) {
        (Event::Step(number), Report::Blocked) => number == thread,
        _ => false,
    }
}

fn ends_cycle(event: Event, report: Report) -> bool
    ensures { result ≡ ends_cycle event report }
{
    match (event, report) {
        (Event::Gc, Report::CycleDone) => true,
        _ => false,
    }
}

fn is_refusal(report: Report) -> bool
    ensures { result ≡ is_refusal report }
{
    match report {
        Report::Ended(End::Fault(Fault::OutOfMemory)) => true,
        _ => false,
    }
}
