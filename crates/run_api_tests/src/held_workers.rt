//! Runs by two workers, one of which is held.

use crate::worker_runs::ROOM;
use cil_model::events::Event;
use cil_model::limits::Limits;
use cil_model::memory::NoMemory;
use cil_model::phases::Phase;
use cil_model::reports::Report;
use cil_model::stops::StopAt;
use source_runs::{Failure, Gate, Machine, Outcome, Run, open, run_threads};
use std::alloc::Global;
use std::sync::Wait;
use std::sync::atomic::AtomicU64;
use std::sync::atomic::Ordering::SeqCst;
use std::thread::{Threads, yield_now};

/// The first thread starts another one, in its first 20 passes, and then both loop until their budgets end them.
static ROUND: &str = ".assembly extern mscorlib {} .assembly extern cilvm {}
    .class public auto ansi T extends [cilvm]Cilvm.Thread {
    .method public specialname rtspecialname instance void .ctor() cil managed { .maxstack 1
    ldarg.0 call instance void [cilvm]Cilvm.Thread::.ctor() ret }
    .method public virtual instance void Run() cil managed { .maxstack 0
    again: nop br again } }
    .class public auto ansi P extends [mscorlib]System.Object {
    .method public static void Main() cil managed { .entrypoint .maxstack 1
    newobj instance void T::.ctor() callvirt instance void [cilvm]Cilvm.Thread::Start()
    again: nop br again } }";

/// Limits in which both threads live longer than any worker is held: a pass has 64 steps of a thread at most.
const LOOPING: Limits = Limits {
    budget: 20_000,
    ..ROOM
};

/// No waiting loop makes more iterations than this.
const MOST_TRANSITIONS: u32 = 50_000_000;

/// How many passes the other worker has to begin while one is held.
const PASSES_MEANWHILE: u64 = 50;

/// How many steps the thread of the other worker makes in them, at least. While nobody is held there are no more than two passes of the
/// other worker between two events, of 64 steps each.
const STEPS_MEANWHILE: u64 = 1_000;

/// How often the collector waits at the end of them, at least.
const WAITS_MEANWHILE: u64 = 10;

/// The passes at which a worker is held, one in each run, up to the first run after which all phases were seen. Both threads live by then, and
/// these are several cycles of the collector, so that no phase is missed, in whatever order the workers come.
const HELD_PASSES: std::ops::Range<u32> = 20..220;

/// The phases for whose acknowledgement the collector waits.
const PHASES: [Phase; 8] = [
    Phase::Idle,
    Phase::Mark,
    Phase::Allocate,
    Phase::Copy,
    Phase::PreFlip,
    Phase::HeapFlip,
    Phase::ThreadFlip,
    Phase::Reclaim,
];

/// Holds one of two workers at a pass until the other one has begun some more. Up to that pass neither is ahead of the other.
#[derive(Drop)]
struct HoldsOne {
    held: u8,
    /// The pass at which it is held.
    pass: u32,
    /// How many passes it has begun.
    own: AtomicU64,
    /// How many passes the other worker has begun.
    others: AtomicU64,
    /// 1 where a worker did not begin the required number of passes in time.
    late: AtomicU64,
}

impl HoldsOne {
    fn new(held: u8, pass: u32) -> HoldsOne {
        HoldsOne {
            held,
            pass,
            own: AtomicU64::new(0),
            others: AtomicU64::new(0),
            late: AtomicU64::new(0),
        }
    }

    /// How many passes the other worker has to have begun before the held one continues with this one.
    fn required_count(&self, transition: u32) -> u64 {
        if transition == self.pass {
            u64::from(transition) + PASSES_MEANWHILE
        } else {
            u64::from(transition)
        }
    }
}

/// Whether at least `least` passes are begun in time.
fn are_begun(passes: &AtomicU64, least: u64) -> bool {
    for _ in 0..MOST_TRANSITIONS {
        if passes.load(SeqCst) >= least {
            return true;
        }
        yield_now();
    }
    false
}

impl Gate for HoldsOne {
    fn pass(&self, worker: u8, transition: u32) {
        let (own, others, least) = if worker == self.held {
            (&self.own, &self.others, self.required_count(transition))
        } else {
            (&self.others, &self.own, u64::from(transition))
        };
        own.fetch_add(1, SeqCst);
        if transition <= self.pass && !are_begun(others, least) {
            self.late.store(1, SeqCst);
        }
    }
}

/// The outcome of two threads that two workers run, one of which is held.
fn run_held(
    threads: &(impl Threads + Wait + Sync),
    alloc: Global,
    gate: &HoldsOne,
) -> Result<Outcome, Failure> {
    let source = ROUND.as_bytes();
    run_threads(threads, alloc, source, LOOPING, 2, StopAt::End, None, gate)
}

/// Whether a second worker continues while the first one, which drives the collector, is held at a pass: the history has steps of its thread
/// between two events of the other.
pub(crate) fn continues_without_the_first(
    threads: &(impl Threads + Wait + Sync),
    alloc: Global,
) -> Result<bool, Failure> {
    let gate = HoldsOne::new(0, HELD_PASSES.start);
    let outcome = run_held(threads, alloc, &gate)?;
    Ok(gate.late.load(SeqCst) == 0 && has_steps_between(outcome.history.runs(), 0))
}

/// Whether the worker that was not held made a step of its thread, whose number is its own, between two events of the other.
fn has_steps_between(runs: &[Run], held: u8) -> bool {
    let mut left = runs.iter();
    left.any(|run| run.entry.worker == held)
        && left.any(|run| {
            run.entry.worker != held && run.entry.event == Event::Step(run.entry.worker)
        })
        && left.any(|run| run.entry.worker == held)
}

/// What happened between two events of the held worker.
#[derive(Clone, Copy)]
struct Meanwhile {
    /// How many steps of threads there were.
    steps: u64,
    /// How often the collector waited since its last work.
    waits: u64,
}

const NOTHING: Meanwhile = Meanwhile { steps: 0, waits: 0 };

impl Meanwhile {
    /// With equal events of the other worker.
    fn and(self, run: &Run) -> Meanwhile {
        match (run.entry.event, run.entry.report) {
            (Event::Step(_), _) => Meanwhile {
                steps: self.steps.saturating_add(u64::from(run.times)),
                ..self
            },
            (Event::Gc, Report::Waiting) => Meanwhile {
                waits: self.waits.saturating_add(u64::from(run.times)),
                ..self
            },
            (Event::Gc, _) => Meanwhile { waits: 0, ..self },
            (Event::Ack(_), _) => self,
        }
    }

    /// Whether the other worker continued for long.
    fn is_long(self) -> bool {
        self.steps >= STEPS_MEANWHILE
    }

    /// Whether the collector began to wait, and waited to the end.
    fn waits_to_its_end(self) -> bool {
        self.waits >= WAITS_MEANWHILE
    }
}

/// The runs of equal events that there were when the held worker was released, where the other one continued for long meanwhile and the
/// collector began to wait, to the end of that time.
fn let_go(runs: &[Run], held: u8) -> Option<&[Run]> {
    let mut meanwhile = NOTHING;
    for (index, run) in runs.iter().enumerate() {
        if run.entry.worker != held {
            meanwhile = meanwhile.and(run);
        } else if meanwhile.is_long() {
            return meanwhile.waits_to_its_end().then_some(&runs[..index]);
        } else {
            meanwhile = NOTHING;
        }
    }
    None
}

/// Does an event the given number of times.
fn step_often(
    alloc: Global,
    machine: &mut Machine,
    event: Event,
    times: u16,
) -> Result<(), NoMemory> {
    for _ in 0..times {
        machine.step(alloc, event)?;
    }
    Ok(())
}

/// The phase that is posted after these runs of equal events of the two threads.
fn posted_after(alloc: Global, runs: &[Run]) -> Result<Phase, Failure> {
    let (mut machine, _) = open(alloc, ROUND.as_bytes(), LOOPING, b"")?;
    step_all(alloc, &mut machine, runs)?;
    Ok(machine.posted_phase())
}

/// Does the events of these runs.
fn step_all(alloc: Global, machine: &mut Machine, runs: &[Run]) -> Result<(), NoMemory> {
    for run in runs {
        step_often(alloc, machine, run.entry.event, run.times)?;
    }
    Ok(())
}

/// Runs two threads by two workers, one of which is held at a pass, and returns the phase for whose acknowledgement the collector waited
/// meanwhile. None where the other worker did not continue, or the collector did not wait until the worker was released.
fn phase_of_held(
    threads: &(impl Threads + Wait + Sync),
    alloc: Global,
    held: u8,
    pass: u32,
) -> Result<Option<Phase>, Failure> {
    let gate = HoldsOne::new(held, pass);
    let outcome = run_held(threads, alloc, &gate)?;
    let runs = outcome.history.runs();
    match let_go(runs, held) {
        Some(before) if gate.late.load(SeqCst) == 0 => Ok(Some(posted_after(alloc, before)?)),
        _ => Ok(None),
    }
}

/// Whether these are all phases for whose acknowledgement the collector waits.
fn are_all(seen: &[Phase]) -> bool {
    PHASES.iter().all(|phase| seen.contains(phase))
}

/// The phases for which the collector waited while a worker was held, at most one a run, each at another pass, until all were seen.
fn phases_of_held(
    threads: &(impl Threads + Wait + Sync),
    alloc: Global,
    held: u8,
) -> Result<Vec<Phase>, Failure> {
    let mut seen = Vec::with_capacity(alloc, HELD_PASSES.len()).map_err(NoMemory::from)?;
    for pass in HELD_PASSES {
        if are_all(seen.as_slice()) {
            break;
        }
        if let Some(phase) = phase_of_held(threads, alloc, held, pass)? {
            seen.push(phase).map_err(NoMemory::from)?;
        }
    }
    Ok(seen)
}

/// Whether in each phase of a cycle there is a run in which the other of two workers continued while one was held, and the collector then
/// waited until it was released.
pub(crate) fn waits_in_each_phase(
    threads: &(impl Threads + Wait + Sync),
    alloc: Global,
    held: u8,
) -> Result<bool, Failure> {
    let seen = phases_of_held(threads, alloc, held)?;
    Ok(are_all(seen.as_slice()))
}
