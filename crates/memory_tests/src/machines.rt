//! Events that are done again if they were out of memory. Such a call leaves what can be seen of the machine as it was.

use crate::calls::{Call, TRIES};
use crate::stops::Stop;
use cil_model::events::Event;
use cil_model::limits::MOST_THREADS;
use cil_model::reports::{End, Report};
use interleaving_core::Machine;
use shared_machine::{Answer, Initial, Ticket, World, perform};

/// What can be seen of a machine: how many bytes it has printed, how many threads were started and how each ended, and the words in use and
/// the sizes of its spaces.
#[derive(Clone, Copy, PartialEq, Eq)]
pub struct Seen {
    printed: usize,
    started: usize,
    ends: [Option<End>; MOST_THREADS],
    used: (u32, u32),
    sizes: (u32, u32),
}

impl Seen {
    /// What is seen of a machine now.
    pub fn of(machine: &Machine) -> Seen {
        let mut ends = [None; MOST_THREADS];
        for thread in 0..MOST_THREADS {
            ends[thread] = machine.end_of(thread as u8);
        }
        Seen {
            printed: machine.console().len(),
            started: machine.started(),
            ends,
            used: machine.used(),
            sizes: machine.sizes(),
        }
    }
}

/// Has a machine do an event by `step`.
pub fn step_again(rt: &HostRuntime, machine: &mut Machine, event: Event) -> Result<Report, Stop> {
    let before = Seen::of(machine);
    for _time in 0..TRIES {
        if let Ok(report) = machine.step(rt.alloc(), event) {
            return Ok(report);
        }
        eprintln!(rt; "{}", Call::Step)?;
        if Seen::of(machine) != before {
            return Err(Stop::Wrong("a step out of memory that changed something"));
        }
    }
    Err(Stop::Wrong("a step that stays out of memory"))
}

/// Has a shared machine do an event by `perform`.
pub fn perform_again<M: Initial>(
    rt: &HostRuntime,
    world: &mut World<M>,
    ticket: &mut Ticket<M>,
    event: Event,
) -> Result<Report, Stop> {
    let before = Seen::of(world.machine());
    for _time in 0..TRIES {
        if let Answer::Did(report) = perform(world, rt.alloc(), ticket, event) {
            return Ok(report);
        }
        eprintln!(rt; "{}", Call::Perform)?;
        if Seen::of(world.machine()) != before {
            return Err(Stop::Wrong("an event out of memory that changed something"));
        }
    }
    Err(Stop::Wrong("an event that stays out of memory"))
}
