//! Threads that end by a fault or their budget.

ghost use Rattle.std.specs.Prelude.{◌≡◌, option_map};
ghost use Rattle.end_explanations.specs.Ends.{cause, early_end};

use cil_model::events::Event;
use cil_model::reports::{End, Fault, Report};
use std::fmt;
use std::fmt::Display;

/// Why a thread ended before its first method returned.
#[derive(Clone, Copy)]
pub(crate) enum Cause {
    /// All steps of its budget were used.
    Budget {
        /// The steps of the budget.
        steps: u32,
    },
    Fault(Fault),
}

impl fmt::Display for Cause {
    ghost use Rattle.std.specs.Prelude.{Some};
    ghost use Rattle.end_explanations.specs.Ends.{cause_text};

    ghost output = { λ cause. Some (cause_text cause) };

    fn fmt<W: fmt::Write>(&self, f: &mut fmt::Formatter<W>) -> fmt::Result {
        match self {
            Cause::Budget { steps } => {
                write!(f, "budget after {steps} steps (--budget allows 1000000)")
            }
            Cause::Fault(fault) => fault.fmt(f),
        }
    }
}

/// A thread that a step ends by a fault or its budget, and the cause.
#[derive(Clone, Copy)]
pub(crate) struct EarlyEnd {
    pub(crate) thread: u8,
    pub(crate) cause: Cause,
}

/// The thread that an event ends by a fault or its budget, of `budget` steps. None if it ends no thread, or one whose first method returns.
pub(crate) fn early_end(event: Event, report: Report, budget: u32) -> Option<EarlyEnd>
    ensures { result ≡ early_end budget event report }
{
    let cause = match report {
        Report::Ended(End::Budget) => Cause::Budget { steps: budget },
        Report::Ended(End::Fault(fault)) => Cause::Fault(fault),
        _ => return None,
    };
    match event {
        Event::Step(thread) => Some(EarlyEnd { thread, cause }),
        Event::Ack(_) | Event::Gc => None,
    }
}
