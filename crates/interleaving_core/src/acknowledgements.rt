//! What an acknowledgement of a thread does to the objects that its frames hold.

ghost use Rattle.std.specs.Prelude.{◌≡◌, ◌≤◌, true, length, Some, slice_get};
ghost use Rattle.threads_monitors.specs.Frames.{Frame};
ghost use Rattle.object_memory.specs.Spaces.{IsThere, forward};
ghost use Rattle.threads_monitors.specs.Roots.{frame_roots, frames_upward, roots, with_references};
ghost use Rattle.simulation.specs.CollectorSteps.{answers_round, flips_frames, with_flipped, with_roots_marked, with_thread_marked};
ghost use Rattle.simulation.specs.Sound.{IsSound};
ghost use Rattle.simulation.specs.Transitions.{IsTransition};
ghost use Rattle.cil_model.specs.declared.events.Event.TheVariants.{Ack as AckOf};
ghost use Rattle.interleaving_core.specs.Acknowledgements.{AreAllThere};
ghost use Rattle.interleaving_core.specs.Views.{machine_state_of};

use crate::engine::Engine;
use cil_model::phases::Phase;
use cil_model::reports::Report;
use object_memory::{Addr, Heap, Value};
use simulation::collector_code::mark_values;
use threads_monitors::{FrameMemory, ThreadStatus};

impl Engine {
    /// An acknowledgement of a thread: of the posted phase, or else of the posted round, for which all is marked that its frames hold.
    /// With that of ThreadFlip its frames are flipped. Where neither is open to it, nothing changes.
    pub(crate) fn acknowledge(&mut self, thread: u8) -> Report
        requires sound { IsSound (machine_state_of self.old) }
        ensures { IsTransition (machine_state_of self.old) (AckOf thread) (machine_state_of self.new, result) }
    {
        if self.answers_round(thread) {
            self.mark_held(thread);
        }
        if self.flips_frames(thread) {
            self.flip_held(thread);
        }
        if self.posts.acknowledge(thread) {
            Report::Acked
        } else if self.is_live(thread) {
            Report::NothingPosted
        } else {
            Report::Absent
        }
    }

    /// Whether an acknowledgement of the thread is one of a round of marking.
    fn answers_round(&self, thread: u8) -> bool
        ensures { result ≡ answers_round (machine_state_of self.now) thread }
    {
        match self.posts.seat(thread) {
            Some(seat) => {
                self.posts.posted_phase() == Phase::Mark
                    && seat.phase == Phase::Mark
                    && self.posts.has_round()
                    && !seat.answered
            }
            None => false,
        }
    }

    /// Whether an acknowledgement of the thread is its flip.
    fn flips_frames(&self, thread: u8) -> bool
        ensures { result ≡ flips_frames (machine_state_of self.now) thread }
    {
        match self.posts.seat(thread) {
            Some(seat) => {
                self.posts.posted_phase() == Phase::ThreadFlip && seat.phase != Phase::ThreadFlip
            }
            None => false,
        }
    }

    /// Replaces each reference that the frames of a thread hold by its forward. Nothing else changes.
    fn flip_held(&mut self, thread: u8)
        requires sound { IsSound (machine_state_of self.old) }
        requires flips { flips_frames (machine_state_of self.old) thread ≡ true }
        ensures { machine_state_of self.new ≡ record (machine_state_of self.old) { threads = with_flipped self.old.store.heap self.old.threads.items thread (slice_get self.old.threads.items thread) } }
    {
        let heap = &self.store.heap;
        let Some(thread) = self.threads.get_mut(usize::from(thread)) else {
            return;
        };
        if let ThreadStatus::Live(frames) = &mut thread.thread_status {
            flip_frames(heap, frames);
        }
    }

    /// Marks what the frames of a thread that acknowledges a round hold. Nothing else changes.
    fn mark_held(&mut self, thread: u8)
        requires sound { IsSound (machine_state_of self.old) }
        requires answers { answers_round (machine_state_of self.old) thread ≡ true }
        ensures { machine_state_of self.new ≡ record (machine_state_of self.old) { objects = with_thread_marked self.old.store.heap (slice_get self.old.threads.items thread) } }
    {
        let Some(thread) = self.threads.get(usize::from(thread)) else {
            return;
        };
        if let ThreadStatus::Live(frames) = &thread.thread_status {
            mark_frames(&mut self.store.heap, frames);
        }
    }
}

/// Replaces each reference that frames hold by its forward. Nothing else changes.
fn flip_frames(heap: &Heap, frames: &mut FrameMemory)
    requires there { AreAllThere heap.now (roots frames.old) }
    ensures { frames.new ≡ with_references (forward heap.now.spaces) frames.old }
{
    frames.replace_references(
        |reference: Addr| -> Addr
            requires { IsThere heap.now.spaces reference }
            ensures { result ≡ forward heap.entry.now.spaces reference }
        { heap.forward(reference) },
    );
}

/// Marks what frames refer to, from the first one of their thread on. Nothing else changes.
fn mark_frames(heap: &mut Heap, frames: &FrameMemory)
    requires open { heap.old.spaces.is_open ≡ true }
    requires there { AreAllThere heap.old (roots frames.now) }
    ensures { heap.new ≡ with_roots_marked heap.old (roots frames.now) }
{
    for frame in 0..frames.frame_count() {
        mark_frame(heap, frames, frame);
    }
}

/// Marks what a frame refers to: its values, and then the object that it makes. Frames count from the first one of their thread. Nothing
/// else changes.
fn mark_frame(heap: &mut Heap, frames: &FrameMemory, frame: usize)
    requires inside { frame ≤ length frames.now.below }
    requires open { heap.old.spaces.is_open ≡ true }
    requires there { (f : Frame) → slice_get (frames_upward frames.now) frame ≡ Some f → AreAllThere heap.old (frame_roots f) }
    ensures { (f : Frame) → slice_get (frames_upward frames.now) frame ≡ Some f → heap.new ≡ with_roots_marked heap.old (frame_roots f) }
{
    mark_values(heap, frames.values_of(frame));
    if let Some(object) = frames.constructed_of(frame) {
        mark_values(heap, &[Value::Ref(object)]);
    }
}
