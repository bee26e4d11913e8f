//! The last line of an exploration.

use crate::counts::CountText;
use std::fmt;
use std::fmt::Display;

/// Why an exploration stopped early.
#[derive(Clone, Copy)]
pub enum Cause {
    /// It reached the maximum number of states.
    States,
    /// This thread used up its budget.
    Budget(u8),
    /// This thread was refused memory for an object.
    Memory(u8),
    /// It found an outcome in which a thread ended by a fault.
    Fault,
    /// It found an outcome in which a thread is blocked.
    Deadlock,
    /// It found an outcome with other printed bytes.
    Output,
    /// The check has not confirmed what it found.
    Unconfirmed,
}

/// Which schedules an exploration covers.
#[derive(Clone, Copy)]
pub enum Coverage {
    /// All of them: no outcome is missing.
    AllSchedules,
    /// Those with at most this number of preemptions, which is not proved.
    FewPreemptions(usize),
    /// Some of them.
    Stopped(Cause),
}

/// How much was explored: one line.
#[derive(Clone, Copy)]
pub struct Summary {
    /// The number of outcomes.
    pub outcomes: usize,
    /// The number of states.
    pub states: usize,
    /// Which schedules are covered.
    pub coverage: Coverage,
}

impl fmt::Display for Cause {
    ghost use Rattle.std.specs.Prelude.{Some};
    ghost use Rattle.outcome_text.specs.Summaries.{cause_text};

    ghost output = { λ cause. Some (cause_text cause) };

    fn fmt<W: fmt::Write>(&self, f: &mut fmt::Formatter<W>) -> fmt::Result {
        f.write_str(match *self {
            Cause::Budget(thread) => return write!(f, "thread {thread} used up its budget"),
            Cause::Memory(thread) => return write!(f, "thread {thread} was refused memory"),
            Cause::States => "the limit of --states",
            Cause::Fault => "fault",
            Cause::Deadlock => "deadlock",
            Cause::Output => "output",
            Cause::Unconfirmed => "the check failed",
        })
    }
}

impl fmt::Display for Summary {
    ghost use Rattle.std.specs.Prelude.{Some};
    ghost use Rattle.outcome_text.specs.Summaries.{summary_line};

    ghost output = { λ summary. Some (summary_line summary) };

    fn fmt<W: fmt::Write>(&self, f: &mut fmt::Formatter<W>) -> fmt::Result {
        let outcomes = CountText {
            number: self.outcomes,
            noun: "outcome",
        };
        let states = CountText {
            number: self.states,
            noun: "state",
        };
        match self.coverage {
            Coverage::AllSchedules => writeln!(f, "{outcomes} of all schedules: {states}"),
            Coverage::FewPreemptions(most) => {
                let most = CountText {
                    number: most,
                    noun: "preemption",
                };
                writeln!(
                    f,
                    "{outcomes} of schedules with at most {most}, unproved: {states}"
                )
            }
            Coverage::Stopped(cause) => writeln!(f, "stopped after {states}: {cause}"),
        }
    }
}
