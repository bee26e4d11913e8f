//! Threads: what each step takes from their budgets, and how they start, wait for one another and end.

ghost use Rattle.std.specs.Prelude.{◌≡◌, ◌≢◌, ◌<◌, ◌≤◌, ◌+◌, ◌*◌, ◌^◌, ◌∷◌, [], length, Some, None, IfOk, OnErr, true};
ghost use Rattle.object_memory.specs.Cells.{null};
ghost use Rattle.object_memory.specs.Objects.{object_slots};
ghost use Rattle.object_memory.specs.declared.values.Value.TheVariants.{Ref};
ghost use Rattle.barriers.specs.Barriers.{is_word_storable};
ghost use Rattle.threads_monitors.specs.Threads.{end_of, is_live, new_thread, end_after, report_of, charge, start_fault, thread_on, with_start, is_live_at, join_effect};

use crate::effects::Effect;
use crate::frames::FrameMemory;
use cil_model::limits::MOST_THREADS;
use cil_model::memory::NoMemory;
use cil_model::phases::Phase;
use cil_model::reports::{End, Fault, Report};
use object_memory::{Addr, Digest, Heap, Value, ValueKind};
use std::alloc::Global;

/// The slot of a `Cilvm.Thread` that identifies the thread which was started on it: its number plus one, or 0 (this profile).
const THREAD_SLOT: u32 = 0;

/// The word in a digest for a thread whose first method returned.
const DONE_WORD: u64 = u64::MAX;

/// The word in a digest for a thread that ended in any other way.
const ENDED_EARLY_WORD: u64 = u64::MAX - 1;

/// The status of a thread: with its frames while it is live, or as it ended. A thread that ended has no frames; the monitors
/// that it holds stay held (this profile).
#[derive(Drop)]
pub enum ThreadStatus {
    Live(FrameMemory),
    Ended(End),
}

/// A thread that was started, and the steps of its budget that are left.
#[derive(Drop)]
pub struct Thread {
    pub thread_status: ThreadStatus,
    pub steps_left: u32,
}

/// What a thread begins with: its first method, by number, with the kinds of its locals; how many frames it may have, how
/// many values one frame may hold (arguments, locals and stack), and how many steps it may make.
#[derive(Clone, Copy)]
pub struct ThreadStart<'a> {
    pub method: u32,
    pub locals: &'a [ValueKind],
    pub depth: usize,
    pub room: usize,
    pub budget: u32,
}

impl ThreadStatus {
    /// Whether two threads are both live with the same frames, or both ended in the same way. True only if so.
    pub fn is_like(&self, other: &ThreadStatus) -> bool
        ensures { result ≡ true → self.now ≡ other.now }
    {
        match (self, other) {
            (ThreadStatus::Live(frames), ThreadStatus::Live(others)) => frames.is_like(others),
            (ThreadStatus::Ended(end), ThreadStatus::Ended(other)) => end == other,
            _ => false,
        }
    }

    /// Adds the frames of a live thread to a digest, or a word for the end of a thread. Threads of which `is_like` is true add the same words.
    pub fn digest(&self, digest: &mut Digest) {
        match self {
            ThreadStatus::Live(frames) => frames.digest(digest),
            ThreadStatus::Ended(End::Done) => digest.add(DONE_WORD),
            ThreadStatus::Ended(_) => digest.add(ENDED_EARLY_WORD),
        }
    }
}

impl Thread {
    /// A thread before its first step: at the beginning of its first method, with its whole budget. The memory of all its
    /// frames is taken here. `NoMemory` where there is none; nothing is kept then.
    pub fn new(
        alloc: Global,
        beginning: ThreadStart,
        arguments: &[Value],
    ) -> Result<Thread, NoMemory>
        requires some { 0 < beginning.depth }
        requires limits { beginning.depth * beginning.room < 2 ^ 32 }
        requires fits { length arguments.now + length beginning.locals.now ≤ beginning.room }
        ensures { IfOk result (λ t. t ≡ new_thread beginning.entry arguments.now) }
    {
        let frames = FrameMemory::new(
            alloc,
            beginning.depth,
            beginning.room,
            beginning.method,
            arguments,
            beginning.locals,
        )?;
        Ok(Thread {
            thread_status: ThreadStatus::Live(frames),
            steps_left: beginning.budget,
        })
    }

    /// How the thread ended. None while it is live.
    pub fn end(&self) -> Option<End>
        ensures { result ≡ end_of self.now }
    {
        match &self.thread_status {
            ThreadStatus::Live(_) => None,
            ThreadStatus::Ended(end) => Some(*end),
        }
    }

    /// Whether the thread has not ended.
    pub fn is_live(&self) -> bool
        ensures { result ≡ is_live self.now }
    {
        match &self.thread_status {
            ThreadStatus::Live(_) => true,
            ThreadStatus::Ended(_) => false,
        }
    }

    /// Counts a step of the thread by the result of its instruction, and reports it. A blocked step counts too. The thread ends
    /// where its first method has returned or a fault was raised, and else where the budget is used up; its frames go then.
    /// Of a thread that has ended the report is `Absent`, and nothing changes.
    #[inline(always)]
    pub fn charge_step(&mut self, effect: Effect) -> Report
        ensures { (self.new, result) ≡ charge effect self.old }
    {
        if effect == Effect::Continues && self.steps_left > 1 && self.is_live() {
            self.steps_left -= 1;
            return Report::Ran;
        }
        self.charge_step_any(effect)
    }

    /// The same for any step. It is a separate function, so that a step after which the thread continues is short.
    #[cold]
    #[inline(never)]
    fn charge_step_any(&mut self, effect: Effect) -> Report
        ensures { (self.new, result) ≡ charge effect self.old }
    {
        if !self.is_live() {
            return Report::Absent;
        }
        self.steps_left = self.steps_left.saturating_sub(1);
        match end_after(effect, self.steps_left) {
            Some(end) => {
                self.thread_status = ThreadStatus::Ended(end);
                Report::Ended(end)
            }
            None => report_of(effect),
        }
    }
}

/// How a thread ends with an effect, where this number of steps is left. None where it stays live.
fn end_after(effect: Effect, steps_left: u32) -> Option<End>
    ensures { result ≡ end_after effect steps_left }
{
    match effect {
        Effect::Returns => Some(End::Done),
        Effect::Raises(fault) => Some(End::Fault(fault)),
        Effect::Continues | Effect::Blocks if steps_left == 0 => Some(End::Budget),
        Effect::Continues | Effect::Blocks => None,
    }
}

/// The report of a step after which the thread is live.
fn report_of(effect: Effect) -> Report
    ensures { result ≡ report_of effect }
{
    match effect {
        Effect::Blocks => Report::Blocked,
        _ => Report::Ran,
    }
}

/// The thread that was started on an object. None where none was.
pub fn thread_on(heap: &Heap, object: Addr) -> Option<u64>
    requires there { 0 < length (object_slots heap.now object) }
    ensures { result ≡ thread_on heap.now object }
{
    heap.slot(object, THREAD_SLOT).checked_sub(1)
}

/// Why no thread can be started on an object, in the order of the checks: `NullReference` for null, `ThreadState` where one was
/// started on it already, `TooManyThreads` where 16 were started in all. None where one can.
pub fn start_fault(threads: &[Thread], heap: &Heap, object: Addr) -> Option<Fault>
    requires there { object ≢ null → 0 < length (object_slots heap.now object) }
    ensures { result ≡ start_fault threads.now heap.now object }
{
    if object.is_null() {
        Some(Fault::NullReference)
    } else if thread_on(heap, object).is_some() {
        Some(Fault::ThreadState)
    } else if threads.len() >= MOST_THREADS {
        Some(Fault::TooManyThreads)
    } else {
        None
    }
}

/// `Cilvm.Thread.Start` on an object (this profile): a thread with the next number, whose first method has the object as its
/// argument. The fault is `NullReference` for null, then `ThreadState` where a thread was started on the object already, then
/// `TooManyThreads` where 16 were started in all.
///
/// After these checks the memory of all frames of the new thread is taken. `NoMemory` where there is none; nothing is changed then.
pub fn start(
    alloc: Global,
    threads: &mut Vec<Thread>,
    heap: &mut Heap,
    phase: Phase,
    object: Addr,
    beginning: ThreadStart,
) -> Result<Effect, NoMemory>
    requires there { object ≢ null → 0 < length (object_slots heap.old object) }
    requires ready { object ≢ null → is_word_storable phase heap.old object 0 ≡ true }
    requires some { 0 < beginning.depth }
    requires limits { beginning.depth * beginning.room < 2 ^ 32 }
    requires fits { 1 + length beginning.locals.now ≤ beginning.room }
    ensures started { IfOk result (λ effect. (threads.new.items, heap.new, effect) ≡ with_start phase threads.old.items heap.old object (new_thread beginning.entry (Ref object ∷ []))) }
    ensures refused { OnErr result ((threads.new.items ≡ threads.old.items) × (heap.new ≡ heap.old)) }
    ensures checked { OnErr result (start_fault threads.old.items heap.old object ≡ None) }
{
    if let Some(fault) = start_fault(threads, heap, object) {
        return Ok(Effect::Raises(fault));
    }
    threads.reserve(1)?;
    let thread = Thread::new(alloc, beginning, &[Value::Ref(object)])?;
    threads.push_reserved(thread);
    barriers::store_int(heap, phase, object, THREAD_SLOT, threads.len() as u64);
    Ok(Effect::Continues)
}

/// `Cilvm.Thread.Join` on an object (this profile): it blocks while the thread that was started on it is live, the calling one
/// itself too. The fault is `NullReference` for null, then `ThreadState` where none was started. It takes no memory.
pub fn join(threads: &[Thread], heap: &Heap, object: Addr) -> Effect
    requires there { object ≢ null → 0 < length (object_slots heap.now object) }
    ensures { result ≡ join_effect threads.now heap.now object }
{
    if object.is_null() {
        return Effect::Raises(Fault::NullReference);
    }
    match thread_on(heap, object) {
        None => Effect::Raises(Fault::ThreadState),
        Some(number) if is_live(threads, number) => Effect::Blocks,
        Some(_) => Effect::Continues,
    }
}

/// Whether the thread of a number was started and has not ended.
pub fn is_live(threads: &[Thread], number: u64) -> bool
    ensures { result ≡ is_live_at threads.now number }
{
    threads.get(number as usize).is_some_and(Thread::is_live)
}
