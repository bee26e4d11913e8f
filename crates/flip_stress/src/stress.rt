//! The stress run.

ghost use Rattle.std.specs.Prelude.{◌≡◌, ◌+◌, ◌*◌, ◌%◌, ◌<◌, ◌≤◌, ◌^◌, ℕ, All, IfOk, true, sum_by, vec_len, slice_index};
ghost use Rattle.std.specs.Arc.{arc_value};
ghost use Rattle.word_flip.specs.Tokens.{initial_writers, IsCopierOf, IsWriterOf};
ghost use Rattle.flip_stress.specs.Promises.{promised_count, promised_by};
ghost use Rattle.flip_stress.specs.Stress.{own_count, slot_count, IsFlipOf};

use crate::collector::{CopierReport, run_copier};
use crate::seat::{SeatReport, run_seat};
use crate::sizes::Sizes;
use std::alloc::{AllocError, Global};
use std::snapshot::Snapshot;
use std::sync::Arc;
use std::thread;
use std::thread::{Promise, PromisedHandle, Threads};
use word_flip::{Copier, Flip, Writer};

/// The results of a stress run.
#[derive(Clone, Copy)]
pub struct StressOutcome {
    /// How often a load gave what its seat had stored just before.
    pub kept: u64,
    /// How many first copies were retired.
    pub retired: u64,
    /// Whether every loop that waits ended in time.
    pub finished: bool,
}

/// A seat keeps what it stores, in all rounds and all its slots.
#[derive(Drop)]
struct KeepsAll {
    rounds: u16,
    writer: Snapshot<Writer>,
}

impl Promise<SeatReport> for KeepsAll {
    ghost use Rattle.std.specs.Prelude.{◌≡◌};
    ghost use Rattle.flip_stress.specs.Promises.{promised_count};

    ghost kept_by = { λ promise report. report.kept ≡ promised_count promise };
}

/// The thread of a seat.
type SeatThread = PromisedHandle<SeatReport, KeepsAll>;

/// The seat that writes to the slot at each index.
fn owners(alloc: Global, sizes: Sizes) -> Result<Vec<u8>, AllocError>
    ensures each { IfOk result (λ owners. (vec_len owners ≡ slot_count sizes) × ((index : ℕ) → index < slot_count sizes → slice_index owners.items index ≡ index % sizes.seats)) }
{
    let mut owners = Vec::new(alloc);
    for index in 0..sizes.indices() {
        owners.push((index % usize::from(sizes.seats)) as u8)?;
    }
    Ok(owners)
}

/// Starts the thread of a seat.
fn start_seat(
    rt: &impl Threads,
    flip: &Arc<Flip>,
    writer: Writer,
    sizes: Sizes,
) -> Result<SeatThread, AllocError>
    requires { IsFlipOf sizes (arc_value flip.now) × IsWriterOf (arc_value flip.now) writer }
    ensures { IfOk result (λ thread. promised_count thread.promise ≡ sizes.rounds * own_count writer) }
{
    let theirs = Arc::try_clone(flip)?;
    let promise = KeepsAll {
        rounds: sizes.rounds,
        writer: Snapshot::of(&writer),
    };
    let thread = thread::spawn_with(rt, promise, move || run_seat(&theirs, writer, sizes))?;
    Ok(thread)
}

/// Waits for threads whose reports are not needed.
fn abandon(rt: &impl Threads, threads: Vec<SeatThread>) {
    for thread in threads {
        thread.join(rt);
    }
}

/// Starts a thread for each writer. Where one can't be started, those before it are joined.
fn start_all(
    rt: &impl Threads,
    alloc: Global,
    flip: &Arc<Flip>,
    writers: Vec<Writer>,
    sizes: Sizes,
) -> Result<Vec<SeatThread>, AllocError>
    requires { IsFlipOf sizes (arc_value flip.now) × All (IsWriterOf (arc_value flip.now)) writers.items }
    ensures { IfOk result (λ threads. sum_by promised_by threads.items ≡ sizes.rounds * sum_by own_count writers.items) }
{
    let mut threads = Vec::with_capacity(alloc, writers.len())?;
    for writer in writers {
        match start_seat(rt, flip, writer, sizes) {
            Ok(thread) => threads.push_reserved(thread),
            Err(refused) => {
                abandon(rt, threads);
                return Err(refused);
            }
        }
    }
    Ok(threads)
}

/// Joins each thread, and adds up what their seats found.
fn join_all(rt: &impl Threads, threads: Vec<SeatThread>) -> SeatReport
    requires { sum_by promised_by threads.items < 2 ^ 64 }
    ensures { result.kept ≡ sum_by promised_by threads.items }
{
    let mut kept = 0;
    let mut reclaims = true;
    for thread in threads {
        let report = thread.join(rt);
        kept += report.kept;
        reclaims = reclaims && report.reclaims;
    }
    SeatReport { kept, reclaims }
}

/// A flip of these sizes, its copier, and a writer for each seat, in order.
fn open(alloc: Global, sizes: Sizes) -> Result<(Flip, Copier, Vec<Writer>), AllocError>
    ensures flip { IfOk result (λ made. IsFlipOf sizes made.0) }
    ensures copier { IfOk result (λ made. IsCopierOf made.0 made.1) }
    ensures writers { IfOk result (λ made. made.2.items ≡ initial_writers made.0.table made.0.plan) }
{
    let owners = owners(alloc, sizes)?;
    Flip::new(
        alloc,
        sizes.objects,
        sizes.slots,
        owners.as_slice(),
        sizes.seats,
    )
}

/// The results of a stress run, by what its seats and its copier found.
fn outcome_of(seats: &SeatReport, copied: &CopierReport) -> StressOutcome
    ensures kept { result.kept ≡ seats.now.kept }
    ensures retired { result.retired ≡ copied.now.retired }
    ensures finished { result.finished ≡ true → copied.now.finished ≡ true }
{
    StressOutcome {
        kept: seats.kept,
        retired: copied.retired,
        finished: seats.reclaims && copied.finished,
    }
}

/// Runs the seats and the copier of a flip, and joins all threads.
fn run_flip(
    rt: &impl Threads,
    alloc: Global,
    flip: &Arc<Flip>,
    copier: Copier,
    writers: Vec<Writer>,
    sizes: Sizes,
) -> Result<StressOutcome, AllocError>
    requires flip { IsFlipOf sizes (arc_value flip.now) }
    requires copier { IsCopierOf (arc_value flip.now) copier }
    requires writers { writers.items ≡ initial_writers (arc_value flip.now).table (arc_value flip.now).plan }
    ensures kept { IfOk result (λ outcome. outcome.kept ≡ sizes.rounds * slot_count sizes) }
    ensures retired { IfOk result (λ outcome. outcome.finished ≡ true → outcome.retired ≡ slot_count sizes) }
    ensures few { IfOk result (λ outcome. outcome.retired ≤ slot_count sizes) }
{
    let threads = start_all(rt, alloc, flip, writers, sizes)?;
    let copied = run_copier(flip, copier, sizes);
    let seats = join_all(rt, threads);
    Ok(outcome_of(&seats, &copied))
}

/// Makes a stress run: each seat, in a thread of its own, stores an object to each of its slots, loads it, and takes up the
/// posted stage, round by round, while the calling thread copies each slot, advances to the last stage and retires each
/// first copy.
///
/// Each loop that waits makes at most 1,000,000 iterations, and yields up to 64 times after each. All threads are joined. The only errors are out of
/// memory, and a thread that can't be started.
pub fn run(rt: &impl Threads, alloc: Global, sizes: Sizes) -> Result<StressOutcome, AllocError>
    ensures kept { IfOk result (λ outcome. outcome.kept ≡ sizes.rounds * slot_count sizes) }
    ensures retired { IfOk result (λ outcome. outcome.finished ≡ true → outcome.retired ≡ slot_count sizes) }
    ensures few { IfOk result (λ outcome. outcome.retired ≤ slot_count sizes) }
{
    let (flip, copier, writers) = open(alloc, sizes)?;
    let flip = Arc::new(alloc, flip)?;
    run_flip(rt, alloc, &flip, copier, writers, sizes)
}
