//! Laws of machines. Each function has an empty body, and its contract is the law.

ghost use Rattle.std.specs.Prelude.{◌≡◌, ◌≢◌, ◌↔◌, ◌<◌, ◌≤◌, ◌-◌, ◌++◌, replicate, ℕ, true, false, IsTrue, List, [], ◌∷◌, Some, length, map, slice_get};
ghost use Rattle.std.specs.List.{count_by, zip};
ghost use Rattle.interpreter.specs.cil_model.declared.trees.Tree.{Tree};
ghost use Rattle.interpreter.specs.cil_model.declared.limits.Limits.{Limits};
ghost use Rattle.interpreter.specs.cil_model.declared.events.Event.{Event};
ghost use Rattle.interpreter.specs.cil_model.declared.events.Event.TheVariants.{Step, Ack, Gc};
ghost use Rattle.interpreter.specs.cil_model.declared.phases.Phase.TheVariants.{Idle, Mark};
ghost use Rattle.interpreter.specs.cil_model.declared.reports.Report.{Report};
ghost use Rattle.interpreter.specs.cil_model.declared.reports.Report.TheVariants.{Acked, CycleDone, Ran, Waiting, Worked};
ghost use Rattle.interpreter.specs.cil_model.Legality.{IsLegal};
ghost use Rattle.interpreter.specs.cil_model.Ranges.{are_in_range};
ghost use Rattle.interpreter.specs.cil_model.Typings.{IsAccepted};
ghost use Rattle.interpreter.specs.reference_machine.Cycles.{BeginsNewestCycle};
ghost use Rattle.interpreter.specs.reference_machine.States.{State, is_live, is_live_thread};
ghost use Rattle.interpreter.specs.reference_machine.Steps.{step, Answers};
ghost use Rattle.interpreter.specs.reference_machine.Runs.{IsStateAfter, is_refusal, initial_state};
ghost use Rattle.interpreter.specs.object_memory.declared.addresses.Addr.{Addr as AnyAddr};
ghost use Rattle.collector.specs.MarkSteps.{is_closed};
ghost use Rattle.collector.specs.Phases.{is_marked_address};
ghost use Rattle.collector.specs.phase_handshake.Handshakes.{IsWaiting, all_seen, is_open, own_phase};
ghost use Rattle.interpreter.specs.threads_monitors.Frames.{Frame, Frames};
ghost use Rattle.interpreter.specs.threads_monitors.Threads.{end_of, is_live as is_live_machine, is_live_at};
ghost use Rattle.interpreter.specs.threads_monitors.declared.threads.ThreadStatus.TheVariants.{Live};
ghost use Rattle.interpreter.specs.threads_monitors.declared.threads.Thread.{Thread};
ghost use Rattle.interpreter.specs.Instructions.{IsDone, Answer};
ghost use Rattle.interpreter.specs.Local.{AreLocalSteps, IsReadySomewhere, frames_over};
ghost use Rattle.simulation.specs.LentFrames.{RunsFrame, with_live};
ghost use Rattle.simulation.specs.MachineStates.{MachineState, frame_room, mutator_of};
ghost use Rattle.simulation.specs.RetainedObjects.{AreCyclesBounded, LeavesOnlyRetained, RetainsAfter};
ghost use Rattle.simulation.specs.ReachedStates.{IsReached};
ghost use Rattle.simulation.specs.Rooms.{HasNoRoom};
ghost use Rattle.simulation.specs.Runs.{AreSteps, AreTransitions, IsRunOf, RefinesAfter};
ghost use Rattle.simulation.specs.Sound.{AreSeated, IsSound};
ghost use Rattle.simulation.specs.Refines.{Represents};
ghost use Rattle.simulation.specs.Transitions.{IsTransition, initial_machine_state};
ghost use Rattle.simulation.specs.ReadySteps.{IsReady, IsAnswerable};

/// What a machine holds before its first event represents the initial state of its program.
pub fn initial_states_represent()
    ensures { (tree : Tree) (limits : Limits) → IsAccepted tree → IsTrue (are_in_range limits) →
        (c : MachineState) × (s : State) × (initial_machine_state tree limits ≡ Some c) × (initial_state tree limits ≡ Some s) × Represents c s }
{}

/// A machine shows what the state that it represents has: the bytes printed, how each thread has ended, which threads are live, how many of
/// them there are, and how many were started.
pub fn machines_show_their_state()
    ensures printed { (c : MachineState) (s : State) → Represents c s → c.printed ≡ s.printed }
    ensures ends { (c : MachineState) (s : State) → Represents c s → map end_of c.threads ≡ map (λ t. t.ended) s.threads }
    ensures live { (c : MachineState) (s : State) → Represents c s → (t : ℕ) → is_live_at c.threads t ≡ is_live s t }
    ensures count { (c : MachineState) (s : State) → Represents c s → count_by is_live_machine c.threads ≡ count_by is_live_thread s.threads }
    ensures started { (c : MachineState) (s : State) → Represents c s → length c.threads ≡ length s.threads }
{}

/// Where a machine represents a state, each live thread is at an instruction whose rule has a result: no operand is missing or of
/// another kind, and no frame, slot or object.
pub fn live_threads_are_ready()
    ensures { (c : MachineState) (s : State) → Represents c s → (t left : ℕ) (m : Frames) → slice_get c.threads t ≡ Some (record { thread_status = Live m; steps_left = left }) → IsReady c t m }
{}

/// And what the instruction asks of other threads can be answered.
pub fn what_is_asked_can_be_answered()
    ensures { (c : MachineState) (s : State) → Represents c s → (t left : ℕ) (m : Frames) → slice_get c.threads t ≡ Some (record { thread_status = Live m; steps_left = left }) →
        (a : Answer) → IsDone c.tree (mutator_of c t) m c.objects c.statics c.printed a → IsAnswerable c t left a a.outcome }
{}

/// Each step of a machine has the report of the reference machine's, with the same births refused, and represents its state.
pub fn steps_follow_the_reference_machine()
    ensures { (c : MachineState) (s : State) → Represents c s → (t : ℕ) (after : MachineState × Report) → IsTransition c (Step t) after →
        (s' : State) × (step c.tree c.limits s t (is_refusal after.1) ≡ Answers after.1 s') × Represents after.0 s' }
{}

/// What is no step of a thread keeps the state: after an acknowledgement, and after an event of the collector, a machine represents
/// the states of the reference machine that it represented before.
pub fn collector_events_keep_the_state()
    ensures acknowledgements { (c : MachineState) (s : State) → Represents c s → (t : ℕ) (after : MachineState × Report) → IsTransition c (Ack t) after → Represents after.0 s }
    ensures collections { (c : MachineState) (s : State) → Represents c s → (after : MachineState × Report) → IsTransition c Gc after → Represents after.0 s }
{}

/// Where marking is closed, all is marked that the frames of live threads and the static fields reach, through whatever objects: what is left
/// unmarked can be dropped (`is_closed` of `collector` is this test).
pub fn closed_marking_has_reached_all()
    ensures { (c : MachineState) → IsSound c → c.posts.posted_phase ≡ Mark → is_closed c.progress c.objects c.posts ≡ true → (a : AnyAddr) → IsReached c a → is_marked_address c.objects.spaces a ≡ true }
{}

/// A cycle of the collector takes a bounded number of working events, whatever the threads do meanwhile: after any of a run's events the newest one has
/// no more of them than 16 for each word of the larger one of its two spaces, one for each static field, and 64.
pub fn cycles_are_bounded()
    ensures { (tree : Tree) → IsAccepted tree → (limits : Limits) → IsTrue (are_in_range limits) → (events : List Event) (reports : List Report) (s : State) →
        IsRunOf tree limits events reports s → AreCyclesBounded tree limits (zip events reports) }
{}

/// The collector waits only for threads: its event reports Waiting only where not all live threads have acknowledged the posted phase, or not all have
/// answered a posted round. Then nothing changes.
pub fn the_collector_waits_only_for_threads()
    ensures { (c after : MachineState) → IsTransition c Gc (after, Waiting) → IsWaiting c.posts × (after ≡ c) }
{}

/// Between cycles the collector opens the next one, once all live threads have acknowledged that the last one is over.
pub fn the_next_cycle_opens()
    ensures { (c : MachineState) → c.posts.posted_phase ≡ Idle → all_seen c.posts ≡ true → (after : MachineState) (r : Report) → IsTransition c Gc (after, r) → (r ≡ Worked) × (after.posts.posted_phase ≡ Mark) }
{}

/// An acknowledgement counts exactly where a post is open to its thread. It acknowledges the posted phase, where the thread had not done so; else it
/// acknowledges the round, and nothing is open to the thread afterwards.
pub fn an_acknowledgement_is_answered_once()
    ensures counts { (c : MachineState) (t : ℕ) (after : MachineState) (r : Report) → IsTransition c (Ack t) (after, r) → (r ≡ Acked) ↔ (is_open c.posts t ≡ true) }
    ensures phase { (c : MachineState) → AreSeated c.posts c.threads → (t : ℕ) → is_live_at c.threads t ≡ true → (after : MachineState) (r : Report) → IsTransition c (Ack t) (after, r) →
        own_phase c.posts t ≢ c.posts.posted_phase → own_phase after.posts t ≡ after.posts.posted_phase }
    ensures round { (c : MachineState) → AreSeated c.posts c.threads → (t : ℕ) → is_live_at c.threads t ≡ true → (after : MachineState) (r : Report) → IsTransition c (Ack t) (after, r) →
        own_phase c.posts t ≡ c.posts.posted_phase → is_open after.posts t ≡ false }
{}

/// A step is refused memory exactly where the object that it would make has more words than the machine's spaces have left for it, where
/// the phase of the thread has it born.
pub fn births_are_refused_beyond_the_room()
    ensures { (c : MachineState) (s : State) → Represents c s → (t : ℕ) (after : MachineState × Report) → IsTransition c (Step t) after → IsTrue (is_refusal after.1) ↔ HasNoRoom c s t }
{}

/// In a run of steps alone, without a collector, a birth is refused exactly where its cell has more words than the limit less those of all
/// births so far: what the machine does then is what a machine with one space does that collects nothing.
pub fn steps_alone_refuse_beyond_all_births()
    ensures { (tree : Tree) → IsAccepted tree → (limits : Limits) → IsTrue (are_in_range limits) → (events : List Event) (reports : List Report) (s : State) →
        AreSteps events → IsRunOf tree limits events reports s → IsStateAfter tree limits (zip events reports) s }
{}

/// A legal program has one run by the same events within the same limits: each event has one transition of its machine, so all reports are the
/// same, and so is the state that the reference machine reaches.
pub fn the_run_is_one()
    ensures { (tree : Tree) → IsLegal tree → (limits : Limits) (events : List Event) (reports reports' : List Report) (s s' : State) →
        IsRunOf tree limits events reports s → IsRunOf tree limits events reports' s' → (reports ≡ reports') × (s ≡ s') }
{}

/// At the end of a cycle no more words are in use than are retained: those of the objects that were reachable in the state of the reference machine when the
/// cycle began, or were born since. They are all in one space.
pub fn a_cycle_leaves_what_is_retained()
    ensures { (tree : Tree) → IsAccepted tree → (limits : Limits) → IsTrue (are_in_range limits) → (events : List Event) (reports : List Report) (c : MachineState) → RefinesAfter tree limits events reports c →
        LeavesOnlyRetained tree limits events reports c }
{}

/// There are words that are retained from the beginning of a run's newest cycle on, whatever comes later; where a run ends a cycle, it has a newest one; and no
/// other number of words is retained.
pub fn each_cycle_has_retained_words()
    ensures begun { (tree : Tree) → IsAccepted tree → (limits : Limits) → IsTrue (are_in_range limits) → (events : List Event) (reports : List Report) (s : State) → IsRunOf tree limits events reports s →
        (earlier later : List (Event × Report)) → BeginsNewestCycle (zip events reports) earlier later → (words : ℕ) × RetainsAfter tree limits events reports words }
    ensures ended { (tree : Tree) → IsAccepted tree → (limits : Limits) → IsTrue (are_in_range limits) → (events : List Event) (reports : List Report) (s : State) → IsRunOf tree limits events reports s →
        (most : List (Event × Report)) → zip events reports ≡ most ++ (Gc, CycleDone) ∷ [] → (words : ℕ) × RetainsAfter tree limits events reports words }
    ensures one { (tree : Tree) (limits : Limits) (events : List Event) (reports : List Report) (words words' : ℕ) →
        RetainsAfter tree limits events reports words → RetainsAfter tree limits events reports words' → words ≡ words' }
{}

/// Local instructions on the top frame of a live thread are steps of the thread, each of which reports that it ran, as long as a step is left after them:
/// whatever else the machine holds, and whatever the phase of the thread.
pub fn local_instructions_are_steps()
    ensures { (c : MachineState) (t left n : ℕ) (f g : Frame) → (at : RunsFrame c t left f) → n < left → AreLocalSteps c.tree frame_room n f g →
        AreTransitions c (replicate n (Step t)) (with_live c t (left - n) (frames_over g at.below at.depth frame_room)) (replicate n Ran) }
{}

/// Where a machine represents a state, the top frame of a live thread is at an instruction that has a result, and so it is after local instructions on it.
pub fn lent_frames_are_ready()
    ensures { (c : MachineState) (s : State) → Represents c s → (t left n : ℕ) (f g : Frame) → RunsFrame c t left f → n < left → AreLocalSteps c.tree frame_room n f g →
        IsReadySomewhere c.tree frame_room g }
{}

/// An event that is neither a step nor an acknowledgement of a thread leaves that thread as it is.
pub fn other_events_keep_a_thread()
    ensures { (c : MachineState) (after : MachineState × Report) (t : ℕ) (thread : Thread) → slice_get c.threads t ≡ Some thread → (e : Event) → IsTransition c e after → e ≢ Step t → e ≢ Ack t →
        slice_get after.0.threads t ≡ Some thread }
{}
