//! Machines of one program that replay lists of events.

ghost use Rattle.std.specs.Prelude.{◌≡◌, ◌≤◌, ◌&&◌, IfOk, OnOk, is_none, length, true};
ghost use Rattle.interleaving_core.specs.simulation.cil_model.Legality.{IsLegal};
ghost use Rattle.interleaving_core.specs.simulation.cil_model.declared.events.Event.TheVariants.{Step as StepOf};
ghost use Rattle.interleaving_core.specs.simulation.cil_model.declared.limits.TheConstants.{MOST_THREADS};
ghost use Rattle.interleaving_core.specs.simulation.threads_monitors.Threads.{is_live_at};
ghost use Rattle.interleaving_core.specs.simulation.Transitions.{IsTransition};
ghost use Rattle.interleaving_core.specs.Alike.{AreAlike};
ghost use Rattle.interleaving_core.specs.Waits.{wait_at};
ghost use Rattle.exploration.specs.InitialStates.{HasInitialState};
ghost use Rattle.exploration.specs.LaggingMachines.{IsLagging};
ghost use Rattle.exploration.specs.Paths.{LeadsTo, outcome_found};
ghost use Rattle.exploration.specs.TerminalOutcomes.{outcome_shown};

use crate::found_outcomes::FoundOutcome;
use cil_model::events::Event;
use cil_model::limits::MOST_BUDGET;
use cil_model::memory::NoMemory;
use cil_model::reports::{End, Report};
use interleaving_core::Machine;
use std::alloc::Global;
use std::marker::{Brand, Model, PhantomData};

/// What a digest is multiplied by for each byte of a text: the prime of the hash FNV-1a.
const TEXT_FACTOR: u64 = 1_099_511_628_211;

/// Names the initial machine state of machines of one program within the same limits. The caller that makes the machines picks it, at `Brand`.
pub trait First {
    ghost use Rattle.interleaving_core.specs.simulation.MachineStates.{MachineState};

    ghost first: { MachineState };
}

impl First for Brand {
    ghost use Rattle.interleaving_core.specs.InitialStates.{no_machine_state};

    ghost first = { no_machine_state };
}

/// A machine of the program and the limits whose initial machine state `M` names. Contracts see its machine state.
/// It keeps the memory of the reports of the last replay for the next one.
#[derive(Drop)]
pub struct Replayer<M: First> {
    machine: Machine,
    reports: Vec<Report>,
    of: PhantomData<M>,
}

impl<M: First> Model for Replayer<M> {
    ghost use Rattle.interleaving_core.specs.simulation.MachineStates.{MachineState};
    ghost use Rattle.exploration.specs.InitialStates.{HasInitialState};

    ghost Value = { MachineState };

    ghost view = { λ s. s.machine };

    ghost invariant = { λ s. HasInitialState s.machine M.first };
}

impl<M: First> Replayer<M> {
    /// A replayer of this machine.
    pub fn new(alloc: Global, machine: Machine) -> Replayer<M>
        requires { HasInitialState machine M.first }
        ensures { result ≡ machine }
    {
        Replayer {
            machine,
            reports: Vec::new(alloc),
            of: PhantomData,
        }
    }

    /// Takes the machine from its initial state to the state after a list of events. It fails only if memory runs out.
    pub fn replay(&mut self, alloc: Global, events: &[Event]) -> Result<(), NoMemory>
        ensures { OnOk result (LeadsTo M.first events.now self.new) }
    {
        self.machine.reopen(alloc)?;
        self.reports.clear();
        self.machine.run(alloc, events, &mut self.reports)
    }

    /// Makes a step of a thread, and returns its report. It fails only if memory runs out.
    pub fn step(&mut self, alloc: Global, thread: u8) -> Result<Report, NoMemory>
        ensures { IfOk result (λ report. IsTransition self.old (StepOf thread) (self.new, report)) }
    {
        self.machine.step(alloc, Event::Step(thread))
    }

    /// Runs local instructions of a thread, as long as the next one is local, raises no fault and is not the last one of its budget, and returns their number.
    /// Nothing changes if the thread is not live. It fails only if memory runs out.
    pub fn run_local(&mut self, alloc: Global, thread: u8) -> Result<u32, NoMemory>
        requires { IsLegal M.first.tree }
        ensures { OnOk result (IsLagging self.old self.new) }
    {
        if !self.machine.is_live(thread) || !self.machine.is_next_local(thread) {
            return Ok(0);
        }
        let room = self.machine.loan_room(alloc)?;
        let mut loan = self.machine.lend(thread, room);
        loan.run(MOST_BUDGET);
        loan.laws();
        let done = loan.step_count();
        self.machine.take_back(loan);
        Ok(done)
    }

    /// Whether a thread is live.
    pub fn is_live(&self, thread: u8) -> bool
        ensures { result ≡ is_live_at self.now.threads thread }
    {
        self.machine.is_live(thread)
    }

    /// The number of threads that were started.
    pub fn started(&self) -> usize
        ensures all { result ≡ length self.now.threads }
        ensures few { result ≤ MOST_THREADS }
    {
        self.machine.started()
    }

    /// Whether two machines differ in nothing but the remaining steps of threads. True only if so.
    pub fn is_like(&self, other: &Replayer<M>) -> bool
        ensures { result ≡ true → AreAlike self.now other.now }
    {
        self.machine.is_like(&other.machine)
    }

    /// Whether a thread is live, and its next step is not blocked.
    pub fn can_step(&self, thread: u8) -> bool
        ensures { result ≡ (is_live_at self.now.threads thread && is_none (wait_at self.now thread)) }
    {
        self.machine.is_live(thread) && self.machine.wait_of(thread).is_none()
    }

    /// A hash of the machine's state. It is a hint: no contract says anything of it, and nothing that is proved rests on it. Machines that differ in nothing
    /// but the remaining steps of threads have the same digest, and other machines seldom do. If a search merges two states because of it, the check fails.
    pub fn digest(&self) -> u64 {
        let mut digest = self.machine.digest();
        for thread in 0..self.machine.started() {
            if let Some(End::Fault(fault)) = self.machine.end_of(thread as u8) {
                digest = with_text(digest, fault.name());
            }
        }
        digest
    }

    /// Whether the printed bytes and the ends of all threads are those of an outcome. True only if they are. It fails only if memory runs out.
    pub fn shows(&self, alloc: Global, found: &FoundOutcome) -> Result<bool, NoMemory>
        ensures { IfOk result (λ yes. yes ≡ true → outcome_shown self.now ≡ outcome_found found.now) }
    {
        let ends = self.machine.ends(alloc)?;
        let is_printed = *self.machine.console() == *found.printed.as_slice();
        if !is_printed {
            return Ok(false);
        }
        Ok(are_same_ends(&ends, &found.ends))
    }

    /// The outcome of the machine in its current state, to which these events lead. It fails only if memory runs out.
    pub fn outcome(
        &self,
        alloc: Global,
        events: Vec<Event>,
        preemptions: usize,
    ) -> Result<FoundOutcome, NoMemory>
        ensures shows { IfOk result (λ found. outcome_found found ≡ outcome_shown self.now) }
        ensures schedule { IfOk result (λ found. (found.events ≡ events) × (found.preemptions ≡ preemptions)) }
    {
        Ok(FoundOutcome {
            events,
            preemptions,
            printed: self.machine.console().to_vec(alloc)?,
            ends: self.machine.ends(alloc)?,
        })
    }
}

/// A digest to which a text is added.
fn with_text(digest: u64, text: &str) -> u64 {
    let mut digest = digest;
    for byte in text.as_bytes() {
        digest = (digest ^ u64::from(*byte)).wrapping_mul(TEXT_FACTOR);
    }
    digest
}

/// Whether two lists of ends are equal. True only if they are.
fn are_same_ends(ends: &[Option<End>], others: &[Option<End>]) -> bool
    ensures { result ≡ true → ends.now ≡ others.now }
{
    if ends.len() != others.len() {
        return false;
    }
    for index in 0..ends.len() {
        if ends[index] != others[index] {
            return false;
        }
    }
    true
}
