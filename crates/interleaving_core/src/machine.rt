//! The machine and its events.

ghost use Rattle.std.specs.Prelude.{◌≡◌, ◌↔◌, IsTrue, replicate, true, ◌∷◌, [], ◌+◌, ◌<◌, ◌≤◌, Err, Some, IfOk, OnOk, OnErr, false, ℕ, length, map, take, drop, slice_get};
ghost use Rattle.std.specs.List.{count_by, zip};
ghost use Rattle.cil_model.specs.Ranges.{are_in_range, is_between};
ghost use Rattle.cil_model.specs.declared.limits.TheConstants.{MOST_THREADS};
ghost use Rattle.reference_machine.specs.Runs.{initial_state};
ghost use Rattle.reference_machine.specs.States.{State};
ghost use Rattle.object_memory.specs.Cells.{used_words};
ghost use Rattle.object_memory.specs.Objects.{used_space, whole_space};
ghost use Rattle.threads_monitors.specs.Threads.{end_of, is_live, is_live_at};
ghost use Rattle.simulation.specs.instructions.barriers.Barriers.{are_same};
ghost use Rattle.interleaving_core.specs.Forwards.{live_forward};
ghost use Rattle.interleaving_core.specs.Histories.{DoesMore, HasDone};
ghost use Rattle.interleaving_core.specs.Monitors.{next_monitor};
ghost use Rattle.interleaving_core.specs.Views.{end_at, phase_at};
ghost use Rattle.interleaving_core.specs.Positions.{position_at};
ghost use Rattle.interleaving_core.specs.Prints.{next_print};
ghost use Rattle.interleaving_core.specs.Waits.{wait_at};
ghost use Rattle.interleaving_core.specs.Alike.{AreAlike};
ghost use Rattle.simulation.specs.Refines.{Represents};
ghost use Rattle.simulation.specs.Transitions.{IsTransition, TakesMemory, live_thread, initial_machine_state};
ghost use Rattle.simulation.specs.interpreter.Local.{IsNextLocal};
ghost use Rattle.threads_monitors.specs.Frames.{Frames};
ghost use Rattle.interleaving_core.specs.Loans.{Begins, IsAtOrigin, RanInPlace};
ghost use Rattle.cil_model.specs.declared.events.Event.TheVariants.{Step as StepOf};
ghost use Rattle.cil_model.specs.declared.phases.Phase.TheVariants.{Copy as CopyOf};
ghost use Rattle.cil_model.specs.declared.reports.Report.TheVariants.{Ran as RanOf};
ghost use Rattle.interleaving_core.specs.Refusals.{number_of};
ghost use Rattle.simulation.specs.MachineStates.{MachineState};
ghost use Rattle.simulation.specs.Runs.{AreTransitions, FollowsReference};
ghost use Rattle.cil_model.specs.declared.reports.Report.{Report as AnyReport};
ghost use Rattle.interleaving_core.specs.declared.machine.Refused.TheVariants.{Limits as BadLimits, OutOfMemory};

use crate::alike::{are_alike, digest_of};
use crate::engine::Engine;
use crate::initial_states::open_engine;
use crate::loans::{Loan, LoanRoom};
use crate::positions::Position;
use crate::waits::Wait;
use cil_model::events::Event;
use cil_model::limits::{LEAST_WORDS, Limits, MOST_BUDGET, MOST_DEPTH, MOST_WORDS};
use cil_model::memory::NoMemory;
use cil_model::phases::Phase;
use cil_model::reports::{End, Report};
use cil_model::trees::Tree;
use object_memory::Addr;
use std::alloc::{AllocError, Global};
use std::marker::Model;
use thiserror::Error;
use verifier::Verified;

/// Why a machine was not made.
#[derive(Clone, Copy, Debug, PartialEq, Eq, Error)]
pub enum Refused {
    /// A limit is not in its range.
    #[error("a limit is not in its range")]
    Limits,
    #[error("out of memory")]
    OutOfMemory,
}

impl Refused {
    /// The number that the program prints: 401, or 402 when memory runs out.
    pub fn number(&self) -> u16
        ensures { result ≡ number_of self.now }
    {
        match self {
            Refused::Limits => 401,
            Refused::OutOfMemory => 402,
        }
    }
}

impl From<NoMemory> for Refused {
    ghost from_gives = { λ _ refused. refused ≡ OutOfMemory };

    fn from(_error: NoMemory) -> Refused {
        Refused::OutOfMemory
    }
}

/// A machine that runs a verified program, one event at a time.
#[derive(Drop)]
pub struct Machine {
    engine: Engine,
}

impl Model for Machine {
    ghost use Rattle.simulation.specs.MachineStates.{MachineState};
    ghost use Rattle.interleaving_core.specs.Views.{IsSoundEngine, machine_state_of};

    ghost Value = { MachineState };

    ghost view = { λ m. machine_state_of m.engine };

    ghost invariant = { λ m. IsSoundEngine m.engine };
}

impl Machine {
    /// A machine before its first event: thread 0 is at the entry point, nothing was born or printed, and static fields hold 0 or null.
    ///
    /// The whole block of its heap and all frames of thread 0 are taken here. Limits beyond their ranges are refused before that; the
    /// program is dropped where a machine is refused.
    pub fn new(alloc: Global, program: Verified, limits: Limits) -> Result<Machine, Refused>
        ensures limits { (result ≡ Err BadLimits) ↔ (are_in_range limits ≡ false) }
        ensures program { IfOk result (λ m. (m.tree ≡ program) × (m.limits ≡ limits)) }
        ensures begins { IfOk result (λ m. initial_machine_state program limits ≡ Some m) }
        ensures initial_state { IfOk result (λ m. (s : State) × (initial_state program limits ≡ Some s) × Represents m s) }
        ensures done { IfOk result (λ m. HasDone program limits [] [] m) }
    {
        if !are_in_range(limits) {
            return Err(Refused::Limits);
        }
        Ok(Machine {
            engine: open_engine(alloc, program, limits)?,
        })
    }

    /// Takes the machine back to its initial state, with the same program and limits. The block of its heap is kept if the heap has not grown; the frames
    /// of thread 0 and the static fields are allocated again. `NoMemory` if there is no memory for them; nothing is changed then.
    pub fn reopen(&mut self, alloc: Global) -> Result<(), NoMemory>
        ensures begins { OnOk result (initial_machine_state self.old.tree self.old.limits ≡ Some self.new) }
        ensures refused { OnErr result (self.new ≡ self.old) }
    {
        // For the prover alone: it brings in the laws of the field.
        let _engine = &self.engine;
        self.engine.reopen(alloc)
    }

    /// What the machine does on one event, and what it reports.
    ///
    /// Whatever it has done since it was made, it has then done this event too: the reference machine has the same reports, no cycle of the collector had
    /// more working events than its bound, and where this event ends a cycle, no more words are in use than are retained.
    ///
    /// Running out of memory, which only a print, a start or the opening of a cycle can cause, changes nothing and isn't counted.
    #[inline(always)]
    pub fn step(&mut self, alloc: Global, event: Event) -> Result<Report, NoMemory>
        ensures transitions { IfOk result (λ report. IsTransition self.old event (self.new, report)) }
        ensures follows { IfOk result (λ report. FollowsReference self.old self.new ((event, report) ∷ [])) }
        ensures does { IfOk result (λ report. DoesMore self.old (event ∷ []) (report ∷ []) self.new) }
        ensures same { (self.new.tree ≡ self.old.tree) × (self.new.limits ≡ self.old.limits) }
        ensures memory { OnErr result (TakesMemory self.old event) }
        ensures refused { OnErr result (self.new ≡ self.old) }
    {
        self.engine.step(alloc, event)
    }

    /// Does the events in order, and appends the report of each.
    ///
    /// It stops when memory runs out for the first time, the growth of `reports` included, which comes before its event. The events before it are
    /// done then, each with its report, and the reference machine has done the same.
    pub fn run(
        &mut self,
        alloc: Global,
        events: &[Event],
        reports: &mut Vec<Report>,
    ) -> Result<(), NoMemory>
        ensures transitions { OnOk result (AreTransitions self.old events.now self.new (drop (length reports.old.items) reports.new.items)) }
        ensures appended { take (length reports.old.items) reports.new.items ≡ reports.old.items }
        ensures each { OnOk result (length reports.new.items ≡ length reports.old.items + length events.now) }
        ensures follows { OnOk result (FollowsReference self.old self.new (zip events.now (drop (length reports.old.items) reports.new.items))) }
        ensures does { OnOk result (DoesMore self.old events.now (drop (length reports.old.items) reports.new.items) self.new) }
        ensures same { (self.new.tree ≡ self.old.tree) × (self.new.limits ≡ self.old.limits) }
        ensures stopped { OnErr result ((count : ℕ) × (count < length events.now)
            × AreTransitions self.old (take count events.now) self.new (drop (length reports.old.items) reports.new.items)
            × FollowsReference self.old self.new (zip (take count events.now) (drop (length reports.old.items) reports.new.items))
            × DoesMore self.old (take count events.now) (drop (length reports.old.items) reports.new.items) self.new) }
    {
        // For the prover alone: it brings in the laws of the field.
        let _engine = &self.engine;
        for event in events {
            reports.reserve(1)?;
            reports.push_reserved(self.step(alloc, *event)?);
        }
        Ok(())
    }

    /// Memory for a loan of one of its threads' top frames, with a share of its program. The only error is out of memory.
    pub fn loan_room(&self, alloc: Global) -> Result<LoanRoom, NoMemory>
        ensures { IfOk result (λ room. room ≡ self.now.tree) }
    {
        // For the prover alone: it brings in the laws of the field.
        let _engine = &self.engine;
        LoanRoom::new(alloc, self.engine.program.share()?)
    }

    /// A loan of the top frame of a live thread. Nothing changes, and no memory is taken.
    pub fn lend(&self, thread: u8, room: LoanRoom) -> Loan
        requires live { is_live_at self.now.threads thread ≡ true }
        requires tree { room ≡ self.now.tree }
        ensures { Begins self.now thread result }
    {
        // For the prover alone: it brings in the laws of the field.
        let _engine = &self.engine;
        self.engine.lend(thread, room)
    }

    /// Whether the next instruction of a live thread is a local one, so that a loan of its frame can do it; false for any other thread.
    pub fn is_next_local(&self, thread: u8) -> bool
        ensures live { (left : ℕ) (m : Frames) → slice_get self.now.threads thread ≡ Some (live_thread left m) → IsNextLocal self.now.tree m.room m.running result }
        ensures others { is_live_at self.now.threads thread ≡ false → result ≡ false }
    {
        // For the prover alone: it brings in the laws of the field.
        let _engine = &self.engine;
        self.engine.is_next_local(thread)
    }

    /// Whether the thread of a loan stands as it did when the loan began: live, with the same number of steps left, and with the frame that was lent.
    pub fn is_at_origin(&self, loan: &Loan) -> bool
        ensures { IsTrue result ↔ IsAtOrigin self.now loan.now }
    {
        // For the prover alone: it brings in the laws of the field.
        let _engine = &self.engine;
        self.engine.is_at_origin(loan)
    }

    /// Ends a loan whose thread stands as it did when the loan began, and gives its memory back: each instruction that was done on the lent frame is
    /// one step of the thread, which reports that it ran, and none of them printed. It takes no memory.
    pub fn take_back(&mut self, loan: Loan) -> LoanRoom
        requires tree { loan.tree ≡ self.old.tree }
        requires origin { IsAtOrigin self.old loan }
        ensures transitions { AreTransitions self.old (replicate loan.done (StepOf loan.thread)) self.new (replicate loan.done RanOf) }
        ensures room { result ≡ self.old.tree }
        ensures printed { self.new.printed ≡ self.old.printed }
        ensures same { (self.new.tree ≡ self.old.tree) × (self.new.limits ≡ self.old.limits) }
    {
        loan.laws();
        self.engine.take_back(&loan);
        loan.into_room()
    }

    /// Has a thread do local instructions where it is, at most the given number, and returns how many it did: each is a step of the thread that
    /// reports that it ran. It stops before one that is not local or that would raise a fault, and before the last one of the thread's budget.
    /// A thread that is not live does none. It takes no memory.
    pub fn run_local(&mut self, thread: u8, most: u32) -> u32
        ensures transitions { AreTransitions self.old (replicate result (StepOf thread)) self.new (replicate result RanOf) }
        ensures follows { FollowsReference self.old self.new (zip (replicate result (StepOf thread)) (replicate result RanOf)) }
        ensures does { DoesMore self.old (replicate result (StepOf thread)) (replicate result RanOf) self.new }
        ensures live { is_live_at self.old.threads thread ≡ true → RanInPlace self.old thread most result self.new }
        ensures others { is_live_at self.old.threads thread ≡ false → (result ≡ 0) × (self.new ≡ self.old) }
        ensures few { result ≤ most }
        ensures printed { self.new.printed ≡ self.old.printed }
        ensures same { (self.new.tree ≡ self.old.tree) × (self.new.limits ≡ self.old.limits) }
    {
        // For the prover alone: it brings in the laws of the field.
        let _engine = &self.engine;
        if !self.engine.is_live(thread) {
            return 0;
        }
        self.engine.run_local(thread, most)
    }

    /// The bytes printed so far.
    pub fn console(&self) -> &[u8]
        ensures { result.now ≡ self.now.printed }
    {
        self.engine.store.console.as_slice()
    }

    /// How many bytes an event would print: those of a line, if the next instruction of its thread is a call of `Console.WriteLine`, else 0. The
    /// event itself prints no more. It takes no memory.
    pub fn print_length(&self, event: Event) -> usize
        ensures length { result ≡ length (next_print self.now event) }
        ensures printed { (after : MachineState × AnyReport) → IsTransition self.now event after → length after.0.printed ≤ length self.now.printed + result }
    {
        // For the prover alone: it brings in the laws of the field.
        let _engine = &self.engine;
        self.engine.print_length(event)
    }

    /// How a thread ended. None where it is live or was never started.
    pub fn end_of(&self, thread: u8) -> Option<End>
        ensures { result ≡ end_at self.now.threads thread }
    {
        self.engine.end_of(thread)
    }

    /// How each thread that was started has ended, in the order of their numbers: none where it is live. The only error is out of memory.
    pub fn ends(&self, alloc: Global) -> Result<Vec<Option<End>>, AllocError>
        ensures { IfOk result (λ ends. ends.items ≡ map end_of self.now.threads) }
    {
        let mut ends = Vec::new(alloc);
        for thread in 0..self.started() {
            ends.push(self.end_of(thread as u8))?;
        }
        Ok(ends)
    }

    /// Whether a thread was started and hasn't ended.
    pub fn is_live(&self, thread: u8) -> bool
        ensures { result ≡ is_live_at self.now.threads thread }
    {
        self.engine.is_live(thread)
    }

    /// Where a thread is: the method that runs, the pc of its next instruction, how many frames it has, and how many values are on the
    /// stack of the running one. None where it has ended or was never started.
    pub fn position_of(&self, thread: u8) -> Option<Position>
        ensures { result ≡ position_at self.now.tree self.now.threads thread }
    {
        // For the prover alone: it brings in the laws of the field.
        let _engine = &self.engine;
        self.engine.position_of(thread)
    }

    /// What a thread waits for: a monitor that another thread holds, or the end of a live thread. None where its next step is not blocked,
    /// and where it has ended or was never started. It takes no memory.
    pub fn wait_of(&self, thread: u8) -> Option<Wait>
        ensures { result ≡ wait_at self.now thread }
    {
        // For the prover alone: it brings in the laws of the field.
        let _engine = &self.engine;
        self.engine.wait_of(thread)
    }

    /// The object whose monitor the next instruction of a thread enters or leaves (ECMA-335 I.12.6.5), as the thread refers to it. None
    /// where it does neither or does it with null, and where the thread has ended or was never started. It takes no memory.
    ///
    /// While a cycle is open two addresses may be of one object (`is_same`), and once it has ended, some are of none (`live_forward`).
    pub fn monitor_of(&self, thread: u8) -> Option<Addr>
        ensures { result ≡ next_monitor self.now thread }
    {
        // For the prover alone: it brings in the laws of the field.
        let _engine = &self.engine;
        self.engine.monitor_of(thread)
    }

    /// The address that an object has once the open cycle has ended: of an old object that of its new copy, of an object of the new space
    /// its own, and so of a literal. None of an old object without a copy, of null, of what is no object's address, and of all but
    /// literals while no cycle is open. From `ThreadFlip` on each object that a thread can still reach has one.
    ///
    /// It may be asked of any address. While a cycle is open its time is proportional to the number of objects; it takes no memory.
    pub fn live_forward(&self, address: Addr) -> Option<Addr>
        ensures { result ≡ live_forward self.now.objects address }
    {
        // For the prover alone: it brings in the laws of the field.
        let _engine = &self.engine;
        self.engine.live_forward(address)
    }

    /// Whether two addresses are of one object, or equal: as `ceq` compares them in the phase `Copy` (ECMA-335 III.1.5, table 4). It may be
    /// asked of any two, and takes as long as `live_forward`.
    pub fn is_same(&self, first: Addr, second: Addr) -> bool
        ensures { result ≡ are_same CopyOf self.now.objects first second }
    {
        // For the prover alone: it brings in the laws of the field.
        let _engine = &self.engine;
        self.engine.is_same(first, second)
    }

    /// Whether two machines of one program within the same limits differ in nothing but the remaining steps of threads. True only if so; false while a cycle
    /// of the collector is open in either. It allocates nothing.
    pub fn is_like(&self, other: &Machine) -> bool
        requires program { other.now.tree ≡ self.now.tree }
        requires limits { other.now.limits ≡ self.now.limits }
        ensures { result ≡ true → AreAlike self.now other.now }
    {
        are_alike(&self.engine, &other.engine)
    }

    /// A hash of the machine's state, without the remaining steps of threads. Machines of which `is_like` is true have the same digest; other machines may
    /// have it too.
    pub fn digest(&self) -> u64 {
        digest_of(&self.engine).word()
    }

    /// The program that it runs, as a tree, which is the same for ever.
    pub fn tree(&self) -> &Tree
        ensures { result.now ≡ self.now.tree }
    {
        self.engine.program.program().tree()
    }

    /// How many threads are live.
    pub fn live(&self) -> usize
        ensures { result ≡ count_by is_live self.now.threads }
    {
        self.engine.live()
    }

    /// How many threads were started, the first one counted. Their numbers are those below.
    pub fn started(&self) -> usize
        ensures all { result ≡ length self.now.threads }
        ensures few { result ≤ MOST_THREADS }
    {
        self.engine.threads.len()
    }

    /// The phase that the collector has posted: `Idle` between cycles.
    pub fn posted_phase(&self) -> Phase
        ensures { result ≡ self.now.posts.posted_phase }
    {
        self.engine.posts.posted_phase()
    }

    /// The phase that a thread has acknowledged, which is the posted one or the one before it. None where it has ended or was never started.
    pub fn phase_of(&self, thread: u8) -> Option<Phase>
        ensures { result ≡ phase_at self.now.posts thread }
    {
        match self.engine.posts.seat(thread) {
            None => None,
            Some(seat) => Some(seat.phase),
        }
    }

    /// The words that objects take in the old space, or the only one, and in the new one, which there is while a cycle is open: 0 where
    /// there is none.
    ///
    /// A birth is refused exactly where its cell has more words than are left of the space in which it would be born (`sizes`), by the
    /// phase of its thread, or of one of both.
    pub fn used(&self) -> (u32, u32)
        ensures used { result ≡ (used_space self.now.objects, used_words self.now.objects.spaces.new.cells) }
    {
        let (old, new) = self.engine.store.heap.used_words();
        (old as u32, new as u32)
    }

    /// The words of the old space, or the only one, and of the new one: 0 where there is none. The first space has those of the limit; the
    /// one that a cycle opens with has the size of the one before, or twice that size where more than half of it is used, but no more than the limit
    /// says.
    pub fn sizes(&self) -> (u32, u32)
        ensures sizes { result ≡ (whole_space self.now.objects, self.now.objects.spaces.new.words) }
        ensures most { (result.0 ≤ self.now.limits.max_words) × (result.1 ≤ self.now.limits.max_words) }
    {
        // For the prover alone: it brings in the laws of the field.
        let _engine = &self.engine;
        let (old, new) = self.engine.sizes();
        (old as u32, new as u32)
    }
}

fn are_in_range(limits: Limits) -> bool
    ensures { result ≡ are_in_range limits }
{
    is_between(LEAST_WORDS, MOST_WORDS, limits.words)
        && is_between(limits.words, MOST_WORDS, limits.max_words)
        && is_between(1, MOST_BUDGET, limits.budget)
        && is_between(1, MOST_DEPTH, limits.depth)
}

fn is_between(least: u32, most: u32, number: u32) -> bool
    ensures { result ≡ is_between least most number }
{
    least <= number && number <= most
}
