//! A session: a machine that may be closed, the allocator that its events take memory from, and why the last source was refused.

ghost use Rattle.std.specs.Prelude.{◌≡◌, ◌≤◌, ◌⊎◌, [], IfErr, IfOk, None, drop, length, take};
ghost use Rattle.cilvm_c.specs.InitialStates.{IsInitial};
ghost use Rattle.cilvm_c.specs.Sessions.{AreUsed, IsRead, live_in, printed_by, status_of, wait_of, used_in};
ghost use Rattle.cilvm_c.specs.Steps.{HasDoneOne, HasRunText, HasStepped};

use crate::codes::{Code, failure_code, number_of, schedule_code, status_code, wait_code};
use crate::running::{act_by_number, make_steps, run_text};
use acceptance::{Failure, machine_of};
use cil_model::events::Event;
use cil_model::limits::Limits;
use cil_model::memory::NoMemory;
use diagnostics::{explain, explain_limits, explain_schedule};
use interleaving_core::Machine;
use schedule_text::ScheduleError;
use std::alloc::Global;
use std::marker::Model;

/// A machine with the allocator that its events take memory from. A closed session has none.
#[derive(Drop)]
pub(crate) struct Session {
    machine: Option<Machine>,
    most_printed: usize,
    reason: String,
    alloc: Global,
}

impl Model for Session {
    ghost use Rattle.std.specs.Prelude.{string_bytes};
    ghost use Rattle.cilvm_c.specs.Sessions.{SessionState};

    ghost Value = { SessionState };

    ghost view = { λ s. record { machine = s.machine; most_printed = s.most_printed; reason = string_bytes s.reason } };
}

impl Session {
    /// A closed session.
    pub(crate) fn new(alloc: Global) -> Session
        ensures { result.machine ≡ None }
    {
        Session {
            machine: None,
            most_printed: 0,
            reason: String::new(alloc),
            alloc,
        }
    }

    /// Opens the session with the machine of a source, before its first event. Where there is none, it is closed, and its reason explains
    /// why, unless memory ran out.
    pub(crate) fn open(&mut self, source: &[u8], limits: Limits, most_printed: usize) -> u32
        ensures { IsInitial source.now limits most_printed result self.new }
    {
        self.close();
        match machine_of(self.alloc, source, limits) {
            Ok(machine) => {
                self.machine = Some(machine);
                self.most_printed = most_printed;
                0
            }
            Err(failure) => {
                self.reason = reason_of(self.alloc, source, limits, failure);
                failure_code(failure)
            }
        }
    }

    /// Does an event.
    #[inline(always)]
    pub(crate) fn event(&mut self, event: Event) -> u32
        ensures { HasDoneOne event self.old result self.new }
    {
        match &mut self.machine {
            None => number_of(Code::Closed),
            Some(machine) => act_by_number(machine, self.alloc, self.most_printed, event),
        }
    }

    /// Has a thread make at most `most` steps, until one does not report that it ran. `done` says how many were made.
    pub(crate) fn steps(&mut self, thread: u8, most: u32, done: &mut u32) -> u32
        ensures { HasStepped thread self.old most done.new result self.new }
    {
        match &mut self.machine {
            None => {
                *done = 0;
                number_of(Code::Closed)
            }
            Some(machine) => make_steps(machine, self.alloc, self.most_printed, thread, most, done),
        }
    }

    /// Does the events of a schedule's text. `done` says how many were done: none where the text is refused, which the reason explains.
    pub(crate) fn run(&mut self, text: &[u8], done: &mut u64) -> u32
        ensures { HasRunText text.now self.old done.new result self.new }
    {
        match &mut self.machine {
            None => {
                *done = 0;
                number_of(Code::Closed)
            }
            Some(machine) => match run_text(machine, self.alloc, self.most_printed, text, done) {
                Ok(code) => number_of(code),
                Err(error) => {
                    self.reason = schedule_reason(self.alloc, text, error);
                    schedule_code(error)
                }
            },
        }
    }

    /// The state of a thread.
    pub(crate) fn end_of(&self, thread: u8) -> u32
        ensures { result ≡ status_of self.now.machine thread }
    {
        match &self.machine {
            None => number_of(Code::Closed),
            Some(machine) => number_of(status_code(
                machine.end_of(thread),
                machine.is_live(thread),
            )),
        }
    }

    /// Whom a thread waits for.
    pub(crate) fn waits(&self, thread: u8) -> u32
        ensures { result ≡ wait_of self.now.machine thread }
    {
        match &self.machine {
            None => number_of(Code::Closed),
            Some(machine) => wait_code(machine.wait_of(thread)),
        }
    }

    /// How many threads are live.
    pub(crate) fn live(&self) -> u32
        ensures { result ≡ live_in self.now.machine }
    {
        match &self.machine {
            None => 0,
            Some(machine) => {
                // For the prover alone: no more threads are live than were started, and these are 16 at most.
                let _started = machine.started();
                machine.live() as u32
            }
        }
    }

    /// The words in use of the old space, or the only one, and of the new one.
    pub(crate) fn used(&self) -> (u32, u32)
        ensures { result ≡ used_in self.now.machine }
    {
        match &self.machine {
            None => (0, 0),
            Some(machine) => machine.used(),
        }
    }

    /// Copies what was printed, from this index on, up to the length of the buffer, and returns the number of bytes copied.
    pub(crate) fn read(&self, from: usize, to: &mut [u8]) -> usize
        ensures { IsRead (printed_by self.now.machine) from to.new result }
    {
        match &self.machine {
            None => 0,
            Some(machine) => copy_from(machine.console(), from, to),
        }
    }

    /// Copies the text that explains the last refusal, as `read` does.
    pub(crate) fn why(&self, from: usize, to: &mut [u8]) -> usize
        ensures { IsRead self.now.reason from to.new result }
    {
        copy_from(self.reason.as_bytes(), from, to)
    }

    /// Frees all memory of the machine.
    pub(crate) fn close(&mut self)
        ensures machine { self.new.machine ≡ None }
        ensures reason { self.new.reason ≡ [] }
    {
        self.machine = None;
        self.reason = String::new(self.alloc);
    }
}

/// Copies bytes from this index on, up to the length of the buffer, and returns the number of bytes copied.
fn copy_from(bytes: &[u8], from: usize, to: &mut [u8]) -> usize
    ensures { IsRead bytes.now from to.new result }
{
    if bytes.len() <= from {
        return 0;
    }
    let rest = &bytes[from..];
    let count = if rest.len() < to.len() {
        rest.len()
    } else {
        to.len()
    };
    to[..count].copy_from_slice(&rest[..count]);
    count
}

/// The name that explanations have for a source.
const SOURCE_NAME: &str = "source";

/// The name that explanations have for a schedule.
const SCHEDULE_NAME: &str = "schedule";

/// What explains that a source or its limits are refused. Empty where memory ran out.
fn reason_of(alloc: Global, source: &[u8], limits: Limits, failure: Failure) -> String {
    if failure.is_refusal() {
        explanation(alloc, source, limits).unwrap_or(String::new(alloc))
    } else {
        String::new(alloc)
    }
}

/// What explains that a source is refused, otherwise that limits are. Empty where neither is.
fn explanation(alloc: Global, source: &[u8], limits: Limits) -> Result<String, NoMemory> {
    match explain(alloc, SOURCE_NAME, source)? {
        Some(text) => Ok(text),
        None => Ok(explain_limits(alloc, limits)?.unwrap_or(String::new(alloc))),
    }
}

/// What explains that a schedule is refused. Empty where memory ran out.
fn schedule_reason(alloc: Global, text: &[u8], error: ScheduleError) -> String {
    explain_schedule(alloc, SCHEDULE_NAME, text, error).unwrap_or(String::new(alloc))
}
