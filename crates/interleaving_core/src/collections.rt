//! What an event of the collector does: one step of the work of the phase that is posted, or the next post.

ghost use Rattle.std.specs.Prelude.{◌≡◌, ◌<◌, ◌≤◌, ◌^◌, IfOk, OnErr, IsTrue, true, length};
ghost use Rattle.cil_model.specs.Ranges.{are_in_range};
ghost use Rattle.cil_model.specs.declared.events.Event.TheVariants.{Gc as GcOf};
ghost use Rattle.cil_model.specs.declared.phases.Phase.TheVariants.{Idle as IdleOf, Mark as MarkOf, Allocate as AllocateOf, Copy as CopyOf, HeapFlip as HeapFlipOf, Reclaim as ReclaimOf};
ghost use Rattle.cil_model.specs.declared.reports.Report.TheVariants.{Worked as WorkedOf};
ghost use Rattle.reference_machine.specs.Cycles.{phase_after};
ghost use Rattle.phase_handshake.specs.Handshakes.{all_seen};
ghost use Rattle.simulation.specs.CollectorSteps.{cycle_opened, mark_work, initial_words, rounds, with_next_phase, work};
ghost use Rattle.simulation.specs.Sound.{IsSound};
ghost use Rattle.simulation.specs.Transitions.{IsTransition, TakesMemory};
ghost use Rattle.interleaving_core.specs.Views.{machine_state_of};

use crate::cycle_memory::CycleMemory;
use crate::engine::Engine;
use cil_model::limits::MOST_WORDS;
use cil_model::memory::NoMemory;
use cil_model::phases::Phase;
use cil_model::reports::Report;
use simulation::collector_code::{
    Progress, clear_step, copy_step, flip_static_step, is_closed, mark_step, retire, scan_statics,
    shell_step,
};
use std::alloc::Global;

impl Engine {
    /// An event of the collector. It waits where a live thread has not acknowledged the posted phase. Running out of memory, which only the event
    /// that opens a cycle can cause, changes nothing.
    #[inline(always)]
    pub(crate) fn collect(&mut self, alloc: Global) -> Result<Report, NoMemory>
        requires limits { are_in_range self.old.limits ≡ true }
        requires sound { IsSound (machine_state_of self.old) }
        requires few { length self.old.store.statics.items < 2 ^ 32 }
        ensures transitions { IfOk result (λ report. IsTransition (machine_state_of self.old) GcOf (machine_state_of self.new, report)) }
        ensures memory { OnErr result (TakesMemory (machine_state_of self.old) GcOf) }
        ensures refused { OnErr result (machine_state_of self.new ≡ machine_state_of self.old) }
    {
        if !self.posts.all_seen() {
            return Ok(Report::Waiting);
        }
        match self.posts.posted_phase() {
            Phase::Idle => self.open_cycle(alloc),
            Phase::Mark => Ok(self.mark_on()),
            Phase::Allocate => Ok(self.look_on()),
            Phase::Copy => Ok(self.copy_on()),
            Phase::PreFlip => Ok(self.post(Phase::HeapFlip)),
            Phase::HeapFlip => Ok(self.flip_on()),
            Phase::ThreadFlip => Ok(self.post(Phase::Reclaim)),
            Phase::Reclaim => Ok(self.clear_on()),
        }
    }

    /// Opens a cycle, with a second block and a grey list that has room for every object. Both are those that the cycle before left, or
    /// taken from the allocator where these are too small; no later event of the cycle takes memory. Where there is none for a block of
    /// the size that is needed, no smaller one is tried.
    fn open_cycle(&mut self, alloc: Global) -> Result<Report, NoMemory>
        requires limits { are_in_range self.old.limits ≡ true }
        requires sound { IsSound (machine_state_of self.old) }
        requires posted_phase { self.old.posts.posted_phase ≡ IdleOf }
        requires seen { all_seen self.old.posts ≡ true }
        ensures opened { IfOk result (λ report. (machine_state_of self.new ≡ cycle_opened (machine_state_of self.old)) × (report ≡ WorkedOf)) }
        ensures refused { OnErr result (machine_state_of self.new ≡ machine_state_of self.old) }
    {
        let words = self.initial_words();
        let (size, _) = self.sizes();
        let memory = CycleMemory::take_or_new(&mut self.spare, alloc, words, size / 3)?;
        let (block, grey) = memory.into_parts();
        self.store.heap.open(block, grey);
        Ok(self.post(Phase::Mark))
    }

    /// The words of the block that a cycle opens with: twice those of the only one where more than half of it is used, within the limit;
    /// else the same number.
    fn initial_words(&self) -> usize
        requires sound { IsSound (machine_state_of self.now) }
        ensures { result ≡ initial_words (machine_state_of self.now) }
    {
        let (words, _) = self.sizes();
        let (used, _) = self.store.heap.used_words();
        if words < 2 * used {
            (2 * words).min(self.limits.max_words as usize)
        } else {
            words
        }
    }

    /// The words of the old space, or the only one, and of the new one: 0 where there is none.
    pub(crate) fn sizes(&self) -> (usize, usize)
        requires sound { IsSound (machine_state_of self.now) }
        ensures sizes { result ≡ (self.now.store.heap.spaces.old.words, self.now.store.heap.spaces.new.words) }
        ensures few { (result.0 ≤ MOST_WORDS) × (result.1 ≤ MOST_WORDS) }
    {
        let (old_used, new_used) = self.store.heap.used_words();
        let (old_free, new_free) = self.store.heap.free_words();
        (old_used + old_free, new_used + new_free)
    }

    /// Posts the next phase, of which nothing is done yet.
    fn post(&mut self, phase: Phase) -> Report
        requires next { phase ≡ phase_after self.old.posts.posted_phase }
        requires seen { IsTrue (all_seen self.old.posts) }
        ensures after { machine_state_of self.new ≡ with_next_phase (machine_state_of self.old) }
        ensures report { result ≡ WorkedOf }
    {
        self.posts.post(phase);
        self.progress = Progress::none();
        Report::Worked
    }

    /// A step of Mark: the static fields are scanned, then the grey objects word by word, and then come rounds.
    fn mark_on(&mut self) -> Report
        requires sound { IsSound (machine_state_of self.old) }
        requires posted_phase { self.old.posts.posted_phase ≡ MarkOf }
        requires seen { all_seen self.old.posts ≡ true }
        ensures { (machine_state_of self.new, result) ≡ mark_work (machine_state_of self.old) }
    {
        if !self.progress.scanned_statics {
            scan_statics(
                &mut self.progress,
                &mut self.store.heap,
                self.store.statics.as_slice(),
            );
            return Report::Worked;
        }
        if mark_step(
            &mut self.progress,
            &mut self.store.heap,
            self.program.layout(),
        ) {
            return Report::Worked;
        }
        self.end_round()
    }

    /// Nothing is grey: marking is closed, a round waits for its acknowledgements, or the next one is posted.
    fn end_round(&mut self) -> Report
        requires posted_phase { self.old.posts.posted_phase ≡ MarkOf }
        requires seen { all_seen self.old.posts ≡ true }
        ensures { (machine_state_of self.new, result) ≡ rounds (machine_state_of self.old) }
    {
        if is_closed(&self.progress, &self.store.heap, &self.posts) {
            return self.post(Phase::Allocate);
        }
        if self.posts.has_round() && !self.posts.all_answered() {
            return Report::Waiting;
        }
        self.posts.post_round();
        self.store.heap.begin_round();
        Report::Worked
    }

    /// A step of Allocate: the next old object is looked at, and gets its other copy if it is marked.
    fn look_on(&mut self) -> Report
        requires sound { IsSound (machine_state_of self.old) }
        requires posted_phase { self.old.posts.posted_phase ≡ AllocateOf }
        requires seen { all_seen self.old.posts ≡ true }
        ensures { (machine_state_of self.new, result) ≡ work AllocateOf (machine_state_of self.old) }
    {
        if shell_step(&mut self.progress, &mut self.store.heap) {
            return Report::Worked;
        }
        self.post(Phase::Copy)
    }

    /// A step of Copy: the next word of an object with two copies is copied.
    fn copy_on(&mut self) -> Report
        requires sound { IsSound (machine_state_of self.old) }
        requires posted_phase { self.old.posts.posted_phase ≡ CopyOf }
        requires seen { all_seen self.old.posts ≡ true }
        ensures { (machine_state_of self.new, result) ≡ work CopyOf (machine_state_of self.old) }
    {
        if copy_step(
            &mut self.progress,
            &mut self.store.heap,
            self.program.layout(),
        ) {
            return Report::Worked;
        }
        self.post(Phase::PreFlip)
    }

    /// A step of HeapFlip: the next static field gets the forward of what it holds.
    fn flip_on(&mut self) -> Report
        requires sound { IsSound (machine_state_of self.old) }
        requires few { length self.old.store.statics.items < 2 ^ 32 }
        requires posted_phase { self.old.posts.posted_phase ≡ HeapFlipOf }
        requires seen { all_seen self.old.posts ≡ true }
        ensures { (machine_state_of self.new, result) ≡ work HeapFlipOf (machine_state_of self.old) }
    {
        if flip_static_step(
            &mut self.progress,
            &self.store.heap,
            self.store.statics.as_mut_slice(),
        ) {
            return Report::Worked;
        }
        self.post(Phase::ThreadFlip)
    }

    /// A step of Reclaim: the next object of the new space loses its mark and its other copy. Where none has any, the old space is
    /// retired, and the cycle is over: its block, with no word in use, is kept for the next cycle.
    fn clear_on(&mut self) -> Report
        requires sound { IsSound (machine_state_of self.old) }
        requires posted_phase { self.old.posts.posted_phase ≡ ReclaimOf }
        requires seen { all_seen self.old.posts ≡ true }
        ensures { (machine_state_of self.new, result) ≡ work ReclaimOf (machine_state_of self.old) }
    {
        if clear_step(&mut self.progress, &mut self.store.heap) {
            return Report::Worked;
        }
        let (block, grey) = retire(&mut self.store.heap);
        self.spare = Some(CycleMemory::of_parts(block, grey));
        self.post(Phase::Idle);
        Report::CycleDone
    }
}
