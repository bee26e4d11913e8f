//! Runs by workers, and their records.

ghost use Rattle.std.specs.Prelude.{◌≤◌};

use api_tests::{LIMITS, SUM};
use cil_model::limits::Limits;
use cil_model::stops::StopAt;
use source_runs::{Failure, OpenGate, Outcome, run_source, run_threads, write_record};
use std::alloc::Global;
use std::sync::Wait;
use std::thread::Threads;

/// The first thread starts two others and prints 7; each of these counts from 0 to 4.
static COUNTING: &str = ".assembly extern mscorlib {} .assembly extern cilvm {}
    .class public auto ansi T extends [cilvm]Cilvm.Thread {
    .method public specialname rtspecialname instance void .ctor() cil managed { .maxstack 1
    ldarg.0 call instance void [cilvm]Cilvm.Thread::.ctor() ret }
    .method public virtual instance void Run() cil managed { .maxstack 2 .locals init (int32)
    again: ldloc.0 call void [mscorlib]System.Console::WriteLine(int32)
    ldloc.0 ldc.i4.1 add stloc.0 ldloc.0 ldc.i4.5 blt again ret } }
    .class public auto ansi P extends [mscorlib]System.Object {
    .method public static void Main() cil managed { .entrypoint .maxstack 1
    newobj instance void T::.ctor() callvirt instance void [cilvm]Cilvm.Thread::Start()
    newobj instance void T::.ctor() callvirt instance void [cilvm]Cilvm.Thread::Start()
    ldc.i4.7 call void [mscorlib]System.Console::WriteLine(int32) ret } }";

/// One thread makes 200 arrays, calls a method ten times after each, and then prints 200.
static GARBAGE: &str = ".assembly extern mscorlib {}
    .class public auto ansi P extends [mscorlib]System.Object {
    .method public static void Rest() cil managed { .maxstack 0 ret }
    .method public static void Main() cil managed { .entrypoint .maxstack 2 .locals init (int32, int32)
    again: ldc.i4.1 newarr int32 pop ldc.i4.0 stloc.1
    more: call void P::Rest() ldloc.1 ldc.i4.1 add dup stloc.1 ldc.i4 10 blt more
    ldloc.0 ldc.i4.1 add dup stloc.0 ldc.i4 200 blt again
    ldloc.0 call void [mscorlib]System.Console::WriteLine(int32) ret } }";

/// The first thread starts another one, prints 7 and waits for its end; the other one waits for its own end.
static WAITING: &str = ".assembly extern mscorlib {} .assembly extern cilvm {}
    .class public auto ansi T extends [cilvm]Cilvm.Thread {
    .method public specialname rtspecialname instance void .ctor() cil managed { .maxstack 1
    ldarg.0 call instance void [cilvm]Cilvm.Thread::.ctor() ret }
    .method public virtual instance void Run() cil managed { .maxstack 1
    ldarg.0 callvirt instance void [cilvm]Cilvm.Thread::Join() ret } }
    .class public auto ansi P extends [mscorlib]System.Object {
    .method public static void Main() cil managed { .entrypoint .maxstack 2 .locals init (class T)
    newobj instance void T::.ctor() dup stloc.0 callvirt instance void [cilvm]Cilvm.Thread::Start()
    ldc.i4.7 call void [mscorlib]System.Console::WriteLine(int32)
    ldloc.0 callvirt instance void [cilvm]Cilvm.Thread::Join() ret } }";

/// How many bytes the counting prints, in whichever order.
const COUNTED_BYTES: usize = 22;

/// Limits in which several threads run to their ends.
pub(crate) const ROOM: Limits = Limits {
    words: 1024,
    max_words: 1024,
    budget: 2000,
    depth: 8,
};

/// The outcome of a source that workers run without a bound on what is printed.
fn run_by(
    threads: &(impl Threads + Wait + Sync),
    alloc: Global,
    source: &str,
    limits: Limits,
    workers: u8,
    stop_at: StopAt,
) -> Result<Outcome, Failure>
    requires { (1 ≤ workers) × (workers ≤ 16) }
{
    let source = source.as_bytes();
    run_threads(
        threads, alloc, source, limits, workers, stop_at, None, &OpenGate,
    )
}

/// The record of a source that one worker runs to its end.
fn record_by_one(
    threads: &(impl Threads + Wait + Sync),
    alloc: Global,
    source: &str,
    limits: Limits,
) -> Result<String, Failure> {
    let outcome = run_by(threads, alloc, source, limits, 1, StopAt::End)?;
    Ok(write_record(alloc, &outcome.history)?)
}

/// Whether one worker leaves the record that its rule gives by hand: the three local instructions come first, in one pass. The first event
/// of the collector opens a cycle, and the second waits, so the next number is posted, and the pass after it begins with an
/// acknowledgement; from then on the collector marks. The last pass, which finds no live thread, has an event of the collector alone.
pub(crate) fn records_one_worker(
    threads: &(impl Threads + Wait + Sync),
    alloc: Global,
) -> Result<bool, Failure> {
    let outcome = run_by(threads, alloc, SUM, LIMITS, 1, StopAt::End)?;
    let is_recorded = has_record(alloc, &outcome, "s0*3 g s0 g a0 s0 g*2")?;
    Ok(is_recorded && outcome.console() == b"5\n".as_slice())
}

/// Limits in which a thread that waits has a budget of a million steps.
const PATIENT: Limits = Limits {
    budget: 1_000_000,
    ..ROOM
};

/// Limits in which the arrays have room only where the collector keeps up.
const TIGHT: Limits = Limits {
    words: 128,
    max_words: 128,
    budget: 30_000,
    ..ROOM
};

/// Whether a run of one thread by `workers` workers, with little memory, has the record of a run by one: the workers that drive no live
/// thread are not waited for.
pub(crate) fn has_record_of_one(
    threads: &(impl Threads + Wait + Sync),
    alloc: Global,
    workers: u8,
) -> Result<bool, Failure>
    requires { (1 ≤ workers) × (workers ≤ 16) }
{
    let record = record_by_one(threads, alloc, GARBAGE, TIGHT)?;
    let outcome = run_by(threads, alloc, GARBAGE, TIGHT, workers, StopAt::End)?;
    Ok(outcome.console() == b"200\n".as_slice() && has_record(alloc, &outcome, record.as_str())?)
}

/// The most events of a run that stops at its deadlock: before it each thread makes fewer than 10 steps.
const MOST_EVENTS_TO_A_DEADLOCK: u64 = 20_000;

/// Whether `workers` workers stop where both threads wait, with few events, both live and the stop mark set.
pub(crate) fn stops_at_a_deadlock(
    threads: &(impl Threads + Wait + Sync),
    alloc: Global,
    workers: u8,
) -> Result<bool, Failure>
    requires { (1 ≤ workers) × (workers ≤ 16) }
{
    let outcome = run_by(threads, alloc, WAITING, PATIENT, workers, StopAt::Deadlock)?;
    Ok(
        outcome.stopped
            && outcome.machine.live() == 2
            && outcome.console() == b"7\n".as_slice()
            && event_count(&outcome) <= MOST_EVENTS_TO_A_DEADLOCK,
    )
}

/// How many events a run had.
fn event_count(outcome: &Outcome) -> u64 {
    let mut count = 0u64;
    for run in outcome.history.runs() {
        count = count.saturating_add(u64::from(run.times));
    }
    count
}

/// Whether a run that may stop at a deadlock and reaches none ends without the stop mark, and with the record of one that may not.
pub(crate) fn ends_without_a_deadlock(
    threads: &(impl Threads + Wait + Sync),
    alloc: Global,
) -> Result<bool, Failure> {
    let record = record_by_one(threads, alloc, COUNTING, ROOM)?;
    let outcome = run_by(threads, alloc, COUNTING, ROOM, 1, StopAt::Deadlock)?;
    Ok(is_counted(&outcome) && has_record(alloc, &outcome, record.as_str())?)
}

/// Whether the history of a run has this record.
fn has_record(alloc: Global, outcome: &Outcome, required: &str) -> Result<bool, Failure> {
    let record = write_record(alloc, &outcome.history)?;
    Ok(record.as_str() == required)
}

/// Whether `workers` workers run three threads to their ends, and whoever replays their record gets the same bytes, the same ends and the
/// same record.
pub(crate) fn replays_workers(
    threads: &(impl Threads + Wait + Sync),
    alloc: Global,
    workers: u8,
) -> Result<bool, Failure>
    requires { (1 ≤ workers) × (workers ≤ 16) }
{
    let outcome = run_by(threads, alloc, COUNTING, ROOM, workers, StopAt::End)?;
    Ok(is_counted(&outcome) && is_repeated(threads, alloc, &outcome)?)
}

/// Whether whoever replays the record of a run of the three threads gets the same bytes, the same ends and the same record.
fn is_repeated(waits: &impl Wait, alloc: Global, outcome: &Outcome) -> Result<bool, Failure> {
    let record = write_record(alloc, &outcome.history)?;
    let again = run_source(
        waits,
        alloc,
        COUNTING.as_bytes(),
        ROOM,
        record.as_bytes(),
        None,
    )?;
    Ok(
        again.console() == outcome.console()
            && has_record(alloc, &again, record.as_str())?
            && have_same_ends(alloc, outcome, &again)?,
    )
}

/// Whether the threads of two runs have the same ends.
fn have_same_ends(alloc: Global, one: &Outcome, other: &Outcome) -> Result<bool, Failure> {
    let ends = one.ends(alloc)?;
    let others = other.ends(alloc)?;
    Ok(ends.as_slice() == others.as_slice())
}

fn is_counted(outcome: &Outcome) -> bool {
    outcome.console().len() == COUNTED_BYTES && outcome.machine.live() == 0 && !outcome.stopped
}
