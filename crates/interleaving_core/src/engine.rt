//! What a machine does on each event.

ghost use Rattle.std.specs.Prelude.{◌≡◌, ◌≢◌, ◌<◌, ◌≤◌, ℕ, IfOk, OnErr, OnOk, IsSome, None, Some, length, option_map, slice_get, true};
ghost use Rattle.std.specs.List.{count_by};
ghost use Rattle.cil_model.specs.Ranges.{are_in_range};
ghost use Rattle.object_memory.specs.Cells.{null};
ghost use Rattle.object_memory.specs.Objects.{object_slots};
ghost use Rattle.object_memory.specs.declared.addresses.Addr.{Addr as AnyAddr};
ghost use Rattle.cil_model.specs.declared.limits.TheConstants.{MOST_INSTRUCTIONS, MOST_THREADS};
ghost use Rattle.cil_model.specs.declared.events.Event.TheVariants.{Step as StepOf};
ghost use Rattle.simulation.specs.instructions.barriers.Barriers.{is_word_storable};
ghost use Rattle.threads_monitors.specs.Frames.{Frames};
ghost use Rattle.threads_monitors.specs.Threads.{is_live, is_live_at, start_fault};
ghost use Rattle.simulation.specs.interpreter.declared.outcomes.InstructionOutcome.TheVariants.{Starts as StartsOn, Joins as JoinsOn};
ghost use Rattle.simulation.specs.interpreter.Instructions.{Prints};
ghost use Rattle.simulation.specs.MachineStates.{mutator_of};
ghost use Rattle.simulation.specs.ReadySteps.{CanFinish};
ghost use Rattle.simulation.specs.Transitions.{IsTransition, TakesMemory, answer_step, count_step, finish, live_thread, initial_machine_state, seat_thread, start_thread, thread_for};
ghost use Rattle.interleaving_core.specs.Views.{CanContinue, machine_state_of, end_at};
ghost use Rattle.interleaving_core.specs.Monitors.{next_monitor};
ghost use Rattle.interleaving_core.specs.Positions.{position_at};
ghost use Rattle.interleaving_core.specs.Prints.{next_print};
ghost use Rattle.interleaving_core.specs.Waits.{wait_at};
ghost use Rattle.interleaving_core.specs.FinishedSteps.{IsInstructed};

use crate::cycle_memory::CycleMemory;
use crate::initial_states::{initial_parts, reset_heap};
use crate::monitors::monitor_in;
use crate::positions::{Position, position_of};
use crate::prints::print_length_in;
use crate::steps::{answer, instruct, leave_if_ended, seat_started};
use crate::thread_starts::thread_start_on;
use crate::waits::{Wait, wait_in};
use cil_model::events::Event;
use cil_model::limits::Limits;
use cil_model::memory::NoMemory;
use cil_model::reports::{End, Report};
use object_memory::Addr;
use phase_handshake::Posts;
use simulation::collector_code::Progress;
use simulation::interpreter_code::loaded_code::LoadedProgram;
use simulation::interpreter_code::outcomes::InstructionOutcome;
use simulation::interpreter_code::stores::Store;
use std::alloc::Global;
use threads_monitors::{Effect, Mutator, Thread, ThreadStatus, join, start, start_fault};

/// A program, and all that changes while it runs: its threads, what a collector has posted and how far it is, and what instructions work on.
pub struct Engine {
    pub program: LoadedProgram,
    pub limits: Limits,
    pub threads: Vec<Thread>,
    pub posts: Posts,
    pub progress: Progress,
    pub store: Store,
    /// The memory that the cycle before left, which the next one is opened with.
    pub spare: Option<CycleMemory>,
}

/// Each part is dropped.
impl Drop for Engine {
    fn drop(self) {
        let Engine {
            program: _program,
            limits: _limits,
            threads: _threads,
            posts: _posts,
            progress: _progress,
            store: _store,
            spare: _spare,
        } = self;
    }
}

impl Engine {
    /// What an event does. Running out of memory, which only a print, a start or the opening of a cycle can cause, changes nothing.
    #[inline(always)]
    pub fn step(&mut self, alloc: Global, event: Event) -> Result<Report, NoMemory>
        requires ready { CanContinue self.old }
        ensures transitions { IfOk result (λ report. IsTransition (machine_state_of self.old) event (machine_state_of self.new, report)) }
        ensures memory { OnErr result (TakesMemory (machine_state_of self.old) event) }
        ensures refused { OnErr result (machine_state_of self.new ≡ machine_state_of self.old) }
    {
        match event {
            Event::Step(thread) if self.is_live(thread) => self.step_thread(alloc, thread),
            Event::Step(_) => Ok(Report::Absent),
            Event::Ack(thread) => Ok(self.acknowledge(thread)),
            Event::Gc => self.collect(alloc),
        }
    }

    /// Takes the machine back to its initial state. The block of the heap is kept if the heap has not grown. `NoMemory` if there is no memory for the
    /// first thread, the static fields or a block; nothing is changed then.
    pub fn reopen(&mut self, alloc: Global) -> Result<(), NoMemory>
        requires limits { are_in_range self.old.limits ≡ true }
        ensures begins { OnOk result (initial_machine_state self.old.program self.old.limits ≡ Some (machine_state_of self.new)) }
        ensures alone { OnOk result (length self.new.threads.items ≡ 1) }
        ensures refused { OnErr result (machine_state_of self.new ≡ machine_state_of self.old) }
    {
        let (threads, statics) = initial_parts(alloc, &self.program, self.limits)?;
        let literals = self.program.program().literals().len();
        reset_heap(&mut self.store.heap, alloc, self.limits.words, literals)?;
        self.store.statics = statics;
        self.store.console.clear();
        self.threads = threads;
        self.posts = Posts::new();
        self.progress = Progress::none();
        Ok(())
    }

    /// A step of a live thread.
    fn step_thread(&mut self, alloc: Global, number: u8) -> Result<Report, NoMemory>
        requires ready { CanContinue self.old }
        requires live { is_live_at self.old.threads.items number ≡ true }
        ensures transitions { IfOk result (λ report. IsTransition (machine_state_of self.old) (StepOf number) (machine_state_of self.new, report)) }
        ensures memory { OnErr result (TakesMemory (machine_state_of self.old) (StepOf number)) }
        ensures refused { OnErr result (machine_state_of self.new ≡ machine_state_of self.old) }
    {
        let outcome = self.instruct(number)?;
        self.finish(alloc, number, outcome)
    }

    /// The instruction at a live thread's pc, whose step isn't counted yet.
    fn instruct(&mut self, number: u8) -> Result<InstructionOutcome, NoMemory>
        requires ready { CanContinue self.old }
        requires live { is_live_at self.old.threads.items number ≡ true }
        ensures instructed { IfOk result (λ outcome. IsInstructed (machine_state_of self.old) number outcome (machine_state_of self.new)) }
        ensures prints { OnErr result ((left : ℕ) (m : Frames) → slice_get self.old.threads.items number ≡ Some (live_thread left m) → Prints self.old.program (mutator_of (machine_state_of self.old) number) m self.old.store.heap self.old.store.statics.items self.old.store.console.items) }
        ensures refused { OnErr result (machine_state_of self.new ≡ machine_state_of self.old) }
    {
        instruct(
            &mut self.threads[usize::from(number)],
            Mutator {
                number,
                phase: self.posts.phase(number),
            },
            &self.program,
            &mut self.store,
        )
    }

    /// Counts the step of a live thread whose instruction had this outcome, and reports it. A start alone can be refused.
    fn finish(
        &mut self,
        alloc: Global,
        number: u8,
        outcome: InstructionOutcome,
    ) -> Result<Report, NoMemory>
        requires limits { are_in_range self.old.limits ≡ true }
        requires live { is_live_at self.old.threads.items number ≡ true }
        requires can { (left : ℕ) (m : Frames) → slice_get self.old.threads.items number ≡ Some (live_thread left m) → CanFinish (machine_state_of self.old) number m outcome }
        ensures finished { IfOk result (λ report. (left : ℕ) (m : Frames) → slice_get self.old.threads.items number ≡ Some (live_thread left m) → finish (machine_state_of self.old) number left m outcome ≡ Some (machine_state_of self.new, report)) }
        ensures free { OnErr result ((object : AnyAddr) × (outcome ≡ StartsOn object) × (start_fault self.old.threads.items self.old.store.heap object ≡ None)) }
        ensures refused { OnErr result ((object : AnyAddr) × (outcome ≡ StartsOn object) × (machine_state_of self.new ≡ machine_state_of self.old)) }
    {
        match outcome {
            InstructionOutcome::OwnEffect(effect) => Ok(self.charge_step(number, effect)),
            InstructionOutcome::Starts(object) => self.finish_start(alloc, number, object),
            InstructionOutcome::Joins(object) => Ok(self.finish_join(number, object)),
        }
    }

    /// Counts the step of a live thread that asked for a thread to start on an object, and reports it.
    fn finish_start(&mut self, alloc: Global, number: u8, object: Addr) -> Result<Report, NoMemory>
        requires limits { are_in_range self.old.limits ≡ true }
        requires live { is_live_at self.old.threads.items number ≡ true }
        requires can { (left : ℕ) (m : Frames) → slice_get self.old.threads.items number ≡ Some (live_thread left m) → CanFinish (machine_state_of self.old) number m (StartsOn object) }
        ensures finished { IfOk result (λ report. (left : ℕ) (m : Frames) → slice_get self.old.threads.items number ≡ Some (live_thread left m) → finish (machine_state_of self.old) number left m (StartsOn object) ≡ Some (machine_state_of self.new, report)) }
        ensures free { OnErr result (start_fault self.old.threads.items self.old.store.heap object ≡ None) }
        ensures refused { OnErr result (machine_state_of self.new ≡ machine_state_of self.old) }
    {
        let effect = self.start(alloc, number, object)?;
        Ok(self.answer(number, effect))
    }

    /// Counts the step of a live thread that asked for the end of another, and reports it.
    fn finish_join(&mut self, number: u8, object: Addr) -> Report
        requires live { is_live_at self.old.threads.items number ≡ true }
        requires can { (left : ℕ) (m : Frames) → slice_get self.old.threads.items number ≡ Some (live_thread left m) → CanFinish (machine_state_of self.old) number m (JoinsOn object) }
        ensures { (left : ℕ) (m : Frames) → slice_get self.old.threads.items number ≡ Some (live_thread left m) → finish (machine_state_of self.old) number left m (JoinsOn object) ≡ Some (machine_state_of self.new, result) }
    {
        let effect = join(&self.threads, &self.store.heap, object);
        self.answer(number, effect)
    }

    /// Counts a step of a live thread whose instruction had this effect for the thread itself, and reports it.
    fn charge_step(&mut self, number: u8, effect: Effect) -> Report
        requires live { is_live_at self.old.threads.items number ≡ true }
        ensures { (left : ℕ) (m : Frames) → slice_get self.old.threads.items number ≡ Some (live_thread left m) → count_step (machine_state_of self.old) number left effect m ≡ (machine_state_of self.new, result) }
    {
        let report = self.threads[usize::from(number)].charge_step(effect);
        leave_if_ended(&mut self.posts, number, report);
        report
    }

    /// Counts the step of a live thread that asked for something of another thread, and reports it.
    fn answer(&mut self, number: u8, effect: Effect) -> Report
        requires live { is_live_at self.old.threads.items number ≡ true }
        requires operand { (left : ℕ) (m : Frames) → slice_get self.old.threads.items number ≡ Some (live_thread left m) → 0 < length m.running.stack }
        requires following { (left : ℕ) (m : Frames) → slice_get self.old.threads.items number ≡ Some (live_thread left m) → m.running.pc < MOST_INSTRUCTIONS }
        ensures { (left : ℕ) (m : Frames) → slice_get self.old.threads.items number ≡ Some (live_thread left m) → answer_step (machine_state_of self.old) number left m effect ≡ (machine_state_of self.new, result) }
    {
        let report = answer(&mut self.threads[usize::from(number)], effect);
        leave_if_ended(&mut self.posts, number, report);
        report
    }

    /// Starts a thread on an object for the thread of a number, whose seat it is given, or reports why there is none. `NoMemory` where there
    /// is none for its frames; nothing is changed then.
    fn start(&mut self, alloc: Global, starter: u8, object: Addr) -> Result<Effect, NoMemory>
        requires limits { are_in_range self.old.limits ≡ true }
        requires slot { object ≢ null → 0 < length (object_slots self.old.store.heap object) }
        requires ready { object ≢ null → is_word_storable (mutator_of (machine_state_of self.old) starter).phase self.old.store.heap object 0 ≡ true }
        requires there { start_fault self.old.threads.items self.old.store.heap object ≡ None → IsSome (thread_for self.old.program self.old.limits self.old.store.heap object) }
        ensures started { IfOk result (λ effect. Some (self.new.threads.items, self.new.store.heap, effect) ≡ start_thread (mutator_of (machine_state_of self.old) starter).phase self.old.program self.old.limits self.old.threads.items self.old.store.heap object) }
        ensures others { IfOk result (λ effect. machine_state_of self.new ≡ record (machine_state_of self.old) { threads = self.new.threads.items; posts = seat_thread effect (machine_state_of self.old).posts (length self.old.threads.items) starter; objects = self.new.store.heap }) }
        ensures free { OnErr result (start_fault self.old.threads.items self.old.store.heap object ≡ None) }
        ensures refused { OnErr result (machine_state_of self.new ≡ machine_state_of self.old) }
    {
        if let Some(fault) = start_fault(&self.threads, &self.store.heap, object) {
            return Ok(Effect::Raises(fault));
        }
        let thread_start = thread_start_on(&self.program, self.limits, &self.store.heap, object);
        let number = self.threads.len();
        let effect = start(
            alloc,
            &mut self.threads,
            &mut self.store.heap,
            self.posts.phase(starter),
            object,
            thread_start,
        )?;
        seat_started(&mut self.posts, effect, number, starter);
        Ok(effect)
    }

    /// The thread of a number. None where none of this number was started.
    pub fn thread(&self, number: u8) -> Option<&Thread>
        ensures { option_map (λ thread. thread.now) result ≡ slice_get self.now.threads.items number }
    {
        self.threads.get(usize::from(number))
    }

    /// Whether the thread was started and hasn't ended.
    pub fn is_live(&self, thread: u8) -> bool
        ensures { result ≡ is_live_at self.now.threads.items thread }
    {
        self.thread(thread).is_some_and(Thread::is_live)
    }

    /// How the thread ended. None where it is live or was never started.
    pub fn end_of(&self, thread: u8) -> Option<End>
        ensures { result ≡ end_at self.now.threads.items thread }
    {
        self.thread(thread)?.end()
    }

    /// Where the thread is. None where it has ended or was never started.
    pub fn position_of(&self, thread: u8) -> Option<Position>
        requires ready { CanContinue self.now }
        ensures { result ≡ position_at self.now.program self.now.threads.items thread }
    {
        match &self.thread(thread)?.thread_status {
            ThreadStatus::Live(frames) => Some(position_of(&self.program, frames)),
            ThreadStatus::Ended(_) => None,
        }
    }

    /// What the thread waits for. None where its next step is not blocked, and where it has ended or was never started.
    pub fn wait_of(&self, thread: u8) -> Option<Wait>
        requires ready { CanContinue self.now }
        requires few { length self.now.threads.items ≤ MOST_THREADS }
        ensures { result ≡ wait_at (machine_state_of self.now) thread }
    {
        match &self.thread(thread)?.thread_status {
            ThreadStatus::Live(frames) => wait_in(self, thread, frames),
            ThreadStatus::Ended(_) => None,
        }
    }

    /// The object whose monitor the thread's next instruction is for. None where it is for none, and where the thread has ended or was
    /// never started.
    pub fn monitor_of(&self, thread: u8) -> Option<Addr>
        requires ready { CanContinue self.now }
        ensures { result ≡ next_monitor (machine_state_of self.now) thread }
    {
        match &self.thread(thread)?.thread_status {
            ThreadStatus::Live(frames) => monitor_in(&self.program, frames),
            ThreadStatus::Ended(_) => None,
        }
    }

    /// How many bytes an event prints.
    pub fn print_length(&self, event: Event) -> usize
        requires ready { CanContinue self.now }
        ensures { result ≡ length (next_print (machine_state_of self.now) event) }
    {
        match event {
            Event::Step(number) => self.thread_print_length(number),
            Event::Ack(_) | Event::Gc => 0,
        }
    }

    /// How many bytes the next step of the thread prints. 0 where it has ended or was never started.
    fn thread_print_length(&self, number: u8) -> usize
        requires ready { CanContinue self.now }
        ensures { result ≡ length (next_print (machine_state_of self.now) (StepOf number)) }
    {
        let Some(thread) = self.thread(number) else {
            return 0;
        };
        match &thread.thread_status {
            ThreadStatus::Live(frames) => print_length_in(&self.program, frames),
            ThreadStatus::Ended(_) => 0,
        }
    }

    /// How many threads are live.
    pub fn live(&self) -> usize
        ensures { result ≡ count_by is_live self.now.threads.items }
    {
        self.threads
            .iter()
            .filter(|thread| thread.is_live())
            .count()
    }
}
