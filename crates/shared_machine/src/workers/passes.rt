//! A worker's pass.

ghost use Rattle.std.specs.Prelude.{◌≡◌, ◌≢◌, ◌<◌, ◌≤◌, ℕ, false, true, IfSome};
ghost use Rattle.cil_model.specs.declared.limits.TheConstants.{MOST_THREADS};
ghost use Rattle.interleaving_core.specs.simulation.threads_monitors.Threads.{is_live_at};
ghost use Rattle.shared_machine.specs.declared.workers.passes.TheConstants.{MOST_LOCAL};
ghost use Rattle.cil_model.specs.declared.events.Event.TheVariants.{Step as StepOf};
ghost use Rattle.shared_machine.specs.Work.{HasWorked, IsHeraldOf, IsOwn, IsSeatHere, IsSeatOf, IsTheirs};

use crate::answer::Answer;
use crate::counts::book::Ticket;
use crate::counts::view::TableName;
use crate::shared::Shared;
use crate::workers::pace::{Pace, PassOutcome, Progress};
use crate::workers::pass_snapshot::{PassSnapshot, found_in, is_served, served_threads};
use crate::workers::plan::Plan;
use crate::workers::seats::{Parked, seat_of};
use crate::world::{Initial, Lent, World, check_in, lend, perform, run_local, step_locally, stop};
use cil_model::events::Event;
use cil_model::reports::Report;
use cil_model::stops::StopAt;
use epoch_words::{Epochs, Herald, Post, Seat};
use interleaving_core::Machine;
use std::alloc::{AllocError, Global};
use std::sync::{Mutex, MutexGuard, Wait};

/// The most local instructions of a thread in a pass.
const MOST_LOCAL: u32 = 64;

/// How many of them a worker other than worker 0 does under the lock, before it lends the frame for the others.
const FEW_LOCAL: u32 = 16;

/// How many passes a worker alone makes in a row with one look at the threads.
const PASSES_IN_A_ROW: u32 = 64;

/// How many worker 0 makes so where other workers wait for the lock meanwhile.
const PASSES_BESIDE_OTHERS: u32 = 16;

/// How many passes a worker makes on one loan, where they need nothing but the lent frame. The collector waits for their end, some 0.1 ms.
const PASSES_ON_A_LOAN: u32 = 256;

/// A worker at its work.
#[derive(Drop)]
pub(crate) struct Worker<M: Initial> {
    pub ticket: Ticket<M>,
    /// Its seat, while it drives a live thread. Else one is parked.
    pub seat: Option<Seat>,
    /// The number that it last acknowledged, 0 before it did.
    pub acknowledged: u64,
    /// Whether a newer number may be posted. Worker 0 knows: nobody else posts.
    pub polls: bool,
    /// The thread, if one is known, whose next instruction is not local.
    pub not_local: Option<u8>,
    /// The right to post, which worker 0 has.
    pub herald: Option<Herald>,
    /// How its passes went up to now.
    pub pace: Pace,
}

/// Does an event as `perform` does it. Where it is one of the worker's own, the worker has done nothing else.
// Where it is called for one kind of event, only that kind's code is left of it.
#[inline(always)]
fn ask<M: Initial>(
    alloc: Global,
    world: &mut World<M>,
    ticket: &mut Ticket<M>,
    event: Event,
) -> Answer
    ensures { (workers : ℕ) → IsOwn workers ticket.old.worker event → HasWorked workers ticket.old ticket.new }
{
    perform(world, alloc, ticket, event)
}

/// Takes a lent frame back. Where its thread is the worker's own, the worker has done nothing else.
fn take_back<M: Initial>(
    world: &mut World<M>,
    ticket: &mut Ticket<M>,
    lent: Lent<M>,
    thread: u8,
) -> Progress
    requires { lent.thread ≡ thread }
    ensures { (workers : ℕ) → IsOwn workers ticket.old.worker (StepOf thread) → HasWorked workers ticket.old ticket.new }
{
    match check_in(world, ticket, lent) {
        Ok(_) => Progress::MadeApart,
        Err(_) => Progress::OutOfMemory,
    }
}

/// The most local instructions that a worker other than worker 0 does on one loan, by how many live threads it drives: those of a pass, or of some passes
/// in a row that need nothing but the thread's frame, since no event of the collector and no other thread of the worker comes between them.
fn most_on_loan(plan: Plan, served: usize) -> u32
    ensures several { served ≢ 1 → result ≡ MOST_LOCAL }
    ensures held { plan.is_open ≡ false → result ≡ MOST_LOCAL }
    ensures least { MOST_LOCAL ≤ result }
{
    if plan.is_open && served == 1 {
        MOST_LOCAL * PASSES_ON_A_LOAN
    } else {
        MOST_LOCAL
    }
}

/// Has a thread do local instructions where it is, as `step_locally`, unless its next instruction is known not to be local. Where the thread is the
/// worker's own, the worker has done nothing else.
#[inline(always)]
fn step_in_place<M: Initial>(
    world: &mut World<M>,
    ticket: &mut Ticket<M>,
    thread: u8,
    most: u32,
    not_local: &mut Option<u8>,
) -> Result<u32, AllocError>
    ensures { (workers : ℕ) → IsOwn workers ticket.old.worker (StepOf thread) → HasWorked workers ticket.old ticket.new }
{
    if *not_local == Some(thread) {
        *not_local = None;
        return Ok(0);
    }
    let done = step_locally(world, ticket, thread, most);
    if matches!(done, Ok(count) if 0 < count && count < most) {
        *not_local = Some(thread);
    }
    done
}

/// Does local instructions on a lent frame without the lock, at most the given number, and takes the frame back. The lock is held again at the end.
/// Where the thread is the worker's own, the worker has done nothing else.
fn run_apart<'s, M: Initial, R: Wait>(
    rt: &R,
    shared: &'s Shared<M>,
    world: MutexGuard<'s, World<M>>,
    ticket: &mut Ticket<M>,
    lent: Lent<M>,
    thread: u8,
    most: u32,
) -> (Progress, MutexGuard<'s, World<M>>)
    requires { lent.thread ≡ thread }
    ensures { (workers : ℕ) → IsOwn workers ticket.old.worker (StepOf thread) → HasWorked workers ticket.old ticket.new }
{
    drop(world);
    let lent = run_local(lent, most);
    let mut again = shared.lock_soon(rt);
    let progress = take_back(&mut *again, ticket, lent, thread);
    (progress, again)
}

/// Advances a thread where it is, under the lock that is held: by at most this many local instructions, or, where its next instruction is not local, by one
/// step. Where the thread is the worker's own, the worker has done nothing else.
// A call costs more than the instructions of a short run.
#[inline(always)]
fn advance_in_place<M: Initial>(
    alloc: Global,
    world: &mut World<M>,
    ticket: &mut Ticket<M>,
    thread: u8,
    most: u32,
    not_local: &mut Option<u8>,
) -> (Progress, u32)
    ensures { (workers : ℕ) → IsOwn workers ticket.old.worker (StepOf thread) → HasWorked workers ticket.old ticket.new }
{
    match step_in_place(world, ticket, thread, most, not_local) {
        Ok(0) => (
            Progress::of(ask(alloc, world, ticket, Event::Step(thread))),
            0,
        ),
        Ok(done) => (Progress::MadeLocally, done),
        Err(_) => (Progress::OutOfMemory, 0),
    }
}

/// Advances a thread, under the lock that is held: by local instructions, the first few of them where it is and the others without the lock, or,
/// where its next instruction is not local, by one step. Worker 0, after which an event of the collector comes, does all of them under the lock. The lock
/// is held again at the end. Where the thread is the worker's own, the worker has done nothing else.
// To lend a frame takes longer than a few instructions.
fn advance<'s, M: Initial, R: Wait>(
    rt: &R,
    alloc: Global,
    shared: &'s Shared<M>,
    mut world: MutexGuard<'s, World<M>>,
    ticket: &mut Ticket<M>,
    not_local: &mut Option<u8>,
    plan: Plan,
    served: usize,
    thread: u8,
) -> (Progress, MutexGuard<'s, World<M>>)
    ensures { (workers : ℕ) → IsOwn workers ticket.old.worker (StepOf thread) → HasWorked workers ticket.old ticket.new }
{
    let few = if ticket.worker() == 0 {
        MOST_LOCAL
    } else {
        FEW_LOCAL
    };
    let (progress, done) = advance_in_place(alloc, &mut *world, ticket, thread, few, not_local);
    if done < FEW_LOCAL || few == MOST_LOCAL || !world.machine().is_next_local(thread) {
        return (progress, world);
    }
    let Some(lent) = lend(&mut *world, thread) else {
        return (progress, world);
    };
    let most = most_on_loan(plan, served) - FEW_LOCAL;
    run_apart(rt, shared, world, ticket, lent, thread, most)
}

/// Advances each live thread that the worker drives and that was started before the pass, in the order of their numbers. It stops where memory
/// does not last.
fn step_each<'s, M: Initial, R: Wait>(
    rt: &R,
    alloc: Global,
    shared: &'s Shared<M>,
    mut world: MutexGuard<'s, World<M>>,
    ticket: &mut Ticket<M>,
    not_local: &mut Option<u8>,
    plan: Plan,
    found: PassSnapshot,
) -> (Progress, MutexGuard<'s, World<M>>)
    requires some { 0 < plan.workers }
    requires few { found.started ≤ MOST_THREADS }
    ensures { HasWorked plan.workers ticket.old ticket.new }
{
    let mut progress = Progress::None;
    for thread in 0..found.started {
        let number = thread as u8;
        if is_served(world.machine(), plan.workers, ticket.worker(), number) {
            let (came, held) = advance(
                rt,
                alloc,
                shared,
                world,
                ticket,
                not_local,
                plan,
                found.served,
                number,
            );
            world = held;
            progress = progress.then(came);
            if !progress.lasts() {
                return (progress, world);
            }
        }
    }
    (progress, world)
}

/// Acknowledges for each live thread that the worker drives, in the order of their numbers. It stops where memory does not last.
fn acknowledge_each<M: Initial>(
    alloc: Global,
    world: &mut World<M>,
    ticket: &mut Ticket<M>,
    workers: u8,
    found: PassSnapshot,
) -> Progress
    requires some { 0 < workers }
    requires few { found.started ≤ MOST_THREADS }
    ensures { HasWorked workers ticket.old ticket.new }
{
    for thread in 0..found.started {
        let number = thread as u8;
        if is_served(world.machine(), workers, ticket.worker(), number) {
            let answer = ask(alloc, world, ticket, Event::Ack(number));
            if answer == Answer::NoMemory {
                return Progress::OutOfMemory;
            }
        }
    }
    Progress::Made
}

/// Polls, and, where the number is newer than the last one acknowledged, has each of the worker's threads acknowledge, and then
/// acknowledges itself. It gives back the seat and the number that is acknowledged now.
fn acknowledge<M: Initial>(
    alloc: Global,
    epochs: &Epochs,
    world: &mut World<M>,
    ticket: &mut Ticket<M>,
    seat: Seat,
    acknowledged: u64,
    workers: u8,
    found: PassSnapshot,
) -> (Progress, Seat, u64)
    requires some { 0 < workers }
    requires few { found.started ≤ MOST_THREADS }
    requires here { IsSeatOf epochs.now seat }
    ensures here { IsSeatOf epochs.now result.1 }
    ensures worked { HasWorked workers ticket.old ticket.new }
{
    let (posted, seat) = epochs.poll(seat);
    if posted <= acknowledged {
        return (Progress::None, seat, acknowledged);
    }
    let progress = acknowledge_each(alloc, world, ticket, workers, found);
    if progress.lasts() {
        (progress, epochs.ack(seat), posted)
    } else {
        (progress, seat, acknowledged)
    }
}

/// Has the worker's seat acknowledge, or a parked one where the worker has none, and parks it where the worker drives no live thread. It
/// gives back the seat that stays with the worker, and the number that is acknowledged now.
fn take_part<M: Initial, E: TableName, R: Wait>(
    rt: &R,
    alloc: Global,
    epochs: &Epochs,
    parked: &Mutex<Parked<E>>,
    world: &mut World<M>,
    ticket: &mut Ticket<M>,
    seat: Option<Seat>,
    acknowledged: u64,
    workers: u8,
    found: PassSnapshot,
) -> (Progress, Option<Seat>, u64)
    requires some { 0 < workers }
    requires few { found.started ≤ MOST_THREADS }
    requires here { IsSeatHere epochs.now seat }
    requires same { epochs.now.table ≡ E.table }
    ensures here { IsSeatHere epochs.now result.1 }
    ensures worked { HasWorked workers ticket.old ticket.new }
{
    let Some(seat) = seat_of(rt, parked, seat) else {
        return (Progress::None, None, acknowledged);
    };
    let (progress, seat, acknowledged) = acknowledge(
        alloc,
        epochs,
        world,
        ticket,
        seat,
        acknowledged,
        workers,
        found,
    );
    if found.served > 0 {
        (progress, Some(seat), acknowledged)
    } else {
        (progress, parked.lock(rt).put(seat), acknowledged)
    }
}

/// Takes part in what is posted, if a newer number may be, or if the worker drives no live thread and may have a seat to park.
fn acknowledge_news<M: Initial, E: TableName, R: Wait>(
    rt: &R,
    alloc: Global,
    epochs: &Epochs,
    parked: &Mutex<Parked<E>>,
    world: &mut World<M>,
    worker: &mut Worker<M>,
    workers: u8,
    found: PassSnapshot,
) -> Progress
    requires some { 0 < workers }
    requires few { found.started ≤ MOST_THREADS }
    requires here { IsSeatHere epochs.now worker.old.seat }
    requires same { epochs.now.table ≡ E.table }
    ensures here { IsSeatHere epochs.now worker.new.seat }
    ensures herald { worker.new.herald ≡ worker.old.herald }
    ensures worked { HasWorked workers worker.old.ticket worker.new.ticket }
{
    if !worker.polls && found.served > 0 {
        return Progress::None;
    }
    let Worker {
        ticket,
        seat,
        acknowledged,
        polls: _,
        not_local: _,
        herald: _,
        pace: _,
    } = worker;
    let (progress, held_seat, number) = take_part(
        rt,
        alloc,
        epochs,
        parked,
        world,
        ticket,
        seat.take(),
        *acknowledged,
        workers,
        found,
    );
    *seat = held_seat;
    *acknowledged = number;
    progress
}

/// Posts the next number, where the herald is here, and returns whether a seat was late.
fn post(epochs: &Epochs, herald: &mut Option<Herald>) -> bool
    requires { IsHeraldOf epochs.now herald.old }
    ensures { IsHeraldOf epochs.now herald.new }
{
    let Some(right) = herald.take() else {
        return false;
    };
    let (post, right) = epochs.post(right);
    *herald = Some(right);
    matches!(post, Post::Late)
}

/// How many workers drive no live thread.
fn idle_workers(machine: &Machine, workers: u8) -> usize {
    // Where there are no more threads than workers, each thread has a worker of its own.
    if machine.started() <= usize::from(workers) {
        return usize::from(workers).saturating_sub(machine.live());
    }
    let mut idle = 0;
    for worker in 0..workers {
        if served_threads(machine, workers, worker) == 0 {
            idle += 1;
        }
    }
    idle
}

/// What a worker asked for in a pass, after its acknowledgements.
#[derive(Clone, Copy)]
struct PassResults {
    /// The result of the steps of its threads.
    steps: Progress,
    /// The answer to the event of the collector, where it asked for one.
    collector: Option<Answer>,
    /// Whether the collector waits for a worker that has not acknowledged the posted number.
    is_late: bool,
    /// Whether it made passes in a row.
    is_row: bool,
}

impl PassResults {
    /// Before anything is asked for.
    fn none() -> PassResults {
        PassResults::new(Progress::None, None)
    }

    /// Of one pass, before anything is posted.
    fn new(steps: Progress, collector: Option<Answer>) -> PassResults {
        PassResults {
            steps,
            collector,
            is_late: false,
            is_row: false,
        }
    }

    /// Whether a row of passes of a worker alone continues after such a pass: the thread and the collector made progress.
    fn continues_row(&self) -> bool {
        self.steps != Progress::None && self.is_collecting()
    }

    /// Whether one beside other workers continues: the thread made local instructions alone, so that none was started or ended, and the collector made
    /// progress, or waits for another worker.
    fn continues_row_beside_others(&self) -> bool {
        self.steps == Progress::MadeLocally && (self.is_late || self.is_collecting())
    }

    /// Whether the collector made progress.
    fn is_collecting(&self) -> bool {
        matches!(
            self.collector,
            Some(Answer::Did(Report::Worked | Report::CycleDone))
        )
    }

    /// The result of the event of the collector.
    fn collector_progress(&self) -> Progress {
        match self.collector {
            Some(answer) => Progress::of(answer),
            None => Progress::None,
        }
    }
}

/// Does an event of the collector. That is for worker 0: another one does nothing.
#[inline(always)]
fn collect<M: Initial>(
    alloc: Global,
    world: &mut World<M>,
    ticket: &mut Ticket<M>,
) -> Option<Answer>
    ensures { (workers : ℕ) → HasWorked workers ticket.old ticket.new }
{
    if ticket.worker() == 0 {
        Some(ask(alloc, world, ticket, Event::Gc))
    } else {
        None
    }
}

/// Has a parked seat acknowledge for each worker that drives no live thread, posts the next number, and returns whether a seat was late.
fn acknowledge_and_post<M: Initial, E: TableName, R: Wait>(
    rt: &R,
    epochs: &Epochs,
    parked: &Mutex<Parked<E>>,
    world: &World<M>,
    herald: &mut Option<Herald>,
    workers: u8,
) -> bool
    requires here { IsHeraldOf epochs.now herald.old }
    requires same { epochs.now.table ≡ E.table }
    ensures { IsHeraldOf epochs.now herald.new }
{
    let idle = idle_workers(world.machine(), workers);
    if idle > 0 {
        parked.lock(rt).acknowledge(epochs, idle);
    }
    post(epochs, herald)
}

/// Does so where the collector waits. Else no seat is late.
#[inline(always)]
fn post_if_waiting<M: Initial, E: TableName, R: Wait>(
    rt: &R,
    epochs: &Epochs,
    parked: &Mutex<Parked<E>>,
    world: &World<M>,
    herald: &mut Option<Herald>,
    workers: u8,
    results: &PassResults,
) -> bool
    requires here { IsHeraldOf epochs.now herald.old }
    requires same { epochs.now.table ≡ E.table }
    ensures { IsHeraldOf epochs.now herald.new }
{
    matches!(results.collector, Some(Answer::Did(Report::Waiting)))
        && acknowledge_and_post(rt, epochs, parked, world, herald, workers)
}

/// Advances a thread under the lock that is held, and, as worker 0, does an event of the collector. Where the thread is the worker's own, the worker has done
/// nothing else.
#[inline(always)]
fn advance_and_collect<M: Initial>(
    alloc: Global,
    world: &mut World<M>,
    ticket: &mut Ticket<M>,
    thread: u8,
    not_local: &mut Option<u8>,
) -> PassResults
    ensures { (workers : ℕ) → IsOwn workers ticket.old.worker (StepOf thread) → HasWorked workers ticket.old ticket.new }
{
    let (steps, _) = advance_in_place(alloc, world, ticket, thread, MOST_LOCAL, not_local);
    let collector = if steps.lasts() {
        collect(alloc, world, ticket)
    } else {
        None
    };
    PassResults::new(steps, collector)
}

/// Asks for what the passes of a worker alone ask for while there is one thread: it advances, and an event of the collector follows, again and again while
/// both make progress and no thread is started or ends. It returns what the last pass asked for.
fn make_row<M: Initial>(
    alloc: Global,
    world: &mut World<M>,
    ticket: &mut Ticket<M>,
    not_local: &mut Option<u8>,
) -> PassResults
    ensures { ticket.old.worker ≡ 0 → HasWorked 1 ticket.old ticket.new }
{
    let mut results = PassResults::none();
    for _pass in 0..PASSES_IN_A_ROW {
        results = advance_and_collect(alloc, world, ticket, 0, not_local);
        if !results.continues_row()
            || world.machine().started() != 1
            || !world.machine().is_live(0)
        {
            break;
        }
    }
    results
}

/// The only live thread that worker 0 drives beside other workers, where no gate can hold it. None for another worker, and for a worker alone.
fn only_thread(machine: &Machine, plan: Plan, worker: u8, found: PassSnapshot) -> Option<u8>
    requires some { 0 < plan.workers }
    requires few { found.started ≤ MOST_THREADS }
    ensures { IfSome result (λ thread. IsTheirs plan.workers worker thread × (is_live_at machine.now.threads thread ≡ true)) }
{
    if worker != 0 || plan.workers == 1 || !plan.is_open || found.served != 1 {
        return None;
    }
    for thread in 0..found.started {
        if is_served(machine, plan.workers, worker, thread as u8) {
            return Some(thread as u8);
        }
    }
    None
}

/// Asks for what the passes of worker 0 ask for while it drives this thread alone and other workers wait for the lock: the thread makes local instructions,
/// and an event of the collector follows, again and again while both make progress or the collector waits for another worker. It returns what the
/// last pass asked for.
fn make_row_beside_others<M: Initial, E: TableName, R: Wait>(
    rt: &R,
    alloc: Global,
    epochs: &Epochs,
    parked: &Mutex<Parked<E>>,
    world: &mut World<M>,
    ticket: &mut Ticket<M>,
    not_local: &mut Option<u8>,
    herald: &mut Option<Herald>,
    workers: u8,
    thread: u8,
) -> PassResults
    requires own { IsTheirs workers ticket.old.worker thread }
    requires here { IsHeraldOf epochs.now herald.old }
    requires same { epochs.now.table ≡ E.table }
    ensures here { IsHeraldOf epochs.now herald.new }
    ensures worked { HasWorked workers ticket.old ticket.new }
{
    let mut results = PassResults::none();
    for _pass in 0..PASSES_BESIDE_OTHERS {
        results = advance_and_collect(alloc, world, ticket, thread, not_local);
        results.is_late = post_if_waiting(rt, epochs, parked, world, herald, workers, &results);
        if !results.continues_row_beside_others() {
            break;
        }
    }
    results.is_row = true;
    results
}

/// Has each thread of a worker make a step, and, as worker 0, does an event of the collector. It stops where memory does not last.
fn step_and_collect<'s, M: Initial, R: Wait>(
    rt: &R,
    alloc: Global,
    shared: &'s Shared<M>,
    mut world: MutexGuard<'s, World<M>>,
    ticket: &mut Ticket<M>,
    not_local: &mut Option<u8>,
    plan: Plan,
    found: PassSnapshot,
) -> (PassResults, MutexGuard<'s, World<M>>)
    requires some { 0 < plan.workers }
    requires few { found.started ≤ MOST_THREADS }
    ensures { HasWorked plan.workers ticket.old ticket.new }
{
    let is_alone = found.started == 1 && found.served == 1;
    if plan.workers == 1 && plan.is_open && is_alone && ticket.worker() == 0 {
        return (make_row(alloc, &mut *world, ticket, not_local), world);
    }
    let (steps, mut world) = step_each(rt, alloc, shared, world, ticket, not_local, plan, found);
    let collector = if steps.lasts() {
        collect(alloc, &mut *world, ticket)
    } else {
        None
    };
    (PassResults::new(steps, collector), world)
}

/// What a worker asks for in a pass after its acknowledgements: each of its threads makes a step, and, as worker 0, it does an event of the collector and posts
/// where that waits. Beside other workers worker 0 makes passes in a row where it drives one thread.
fn ask_for_events<'s, M: Initial, E: TableName, R: Wait>(
    rt: &R,
    alloc: Global,
    shared: &'s Shared<M>,
    epochs: &Epochs,
    parked: &Mutex<Parked<E>>,
    mut world: MutexGuard<'s, World<M>>,
    ticket: &mut Ticket<M>,
    not_local: &mut Option<u8>,
    herald: &mut Option<Herald>,
    plan: Plan,
    found: PassSnapshot,
) -> (PassResults, MutexGuard<'s, World<M>>)
    requires some { 0 < plan.workers }
    requires few { found.started ≤ MOST_THREADS }
    requires here { IsHeraldOf epochs.now herald.old }
    requires same { epochs.now.table ≡ E.table }
    ensures here { IsHeraldOf epochs.now herald.new }
    ensures worked { HasWorked plan.workers ticket.old ticket.new }
{
    if let Some(thread) = only_thread(world.machine(), plan, ticket.worker(), found) {
        let results = make_row_beside_others(
            rt,
            alloc,
            epochs,
            parked,
            &mut *world,
            ticket,
            not_local,
            herald,
            plan.workers,
            thread,
        );
        return (results, world);
    }
    let (mut results, world) = step_and_collect(
        rt, alloc, shared, world, ticket, not_local, plan, found,
    );
    results.is_late = post_if_waiting(rt, epochs, parked, &*world, herald, plan.workers, &results);
    (results, world)
}

/// What a worker does in a pass, under the lock that is held: it polls and acknowledges, lets each of its threads make a step, and, as worker 0,
/// does an event of the collector. Where memory does not last, it stops there and sets the stop mark.
fn serve<'s, M: Initial, E: TableName, R: Wait>(
    rt: &R,
    alloc: Global,
    shared: &'s Shared<M>,
    epochs: &Epochs,
    parked: &Mutex<Parked<E>>,
    mut world: MutexGuard<'s, World<M>>,
    worker: &mut Worker<M>,
    plan: Plan,
    found: PassSnapshot,
) -> (PassOutcome, MutexGuard<'s, World<M>>)
    requires some { 0 < plan.workers }
    requires few { found.started ≤ MOST_THREADS }
    requires here { IsSeatHere epochs.now worker.old.seat × IsHeraldOf epochs.now worker.old.herald }
    requires same { epochs.now.table ≡ E.table }
    ensures here { IsSeatHere epochs.now worker.new.seat × IsHeraldOf epochs.now worker.new.herald }
    ensures worked { HasWorked plan.workers worker.old.ticket worker.new.ticket }
{
    let mut progress = acknowledge_news(
        rt,
        alloc,
        epochs,
        parked,
        &mut *world,
        worker,
        plan.workers,
        found,
    );
    let Worker {
        ticket,
        seat: _,
        acknowledged: _,
        polls,
        not_local,
        herald,
        pace,
    } = worker;
    let mut results = PassResults::none();
    if progress.lasts() {
        (results, world) = ask_for_events(
            rt, alloc, shared, epochs, parked, world, ticket, not_local, herald, plan, found,
        );
        let came = results.collector_progress();
        // Worker 0 alone posts, where the collector waits and no seat is late.
        *polls = ticket.worker() != 0 || (came == Progress::None && !results.is_late);
        progress = progress.then(results.steps).then(came);
    }
    if !progress.lasts() {
        stop(&mut *world);
    }
    let passed = PassOutcome {
        progress,
        steps: results.steps,
        is_driving: found.served > 0,
        is_late: results.is_late,
        is_row: results.is_row,
        is_last: found.is_last,
    };
    pace.note_pass(&passed);
    (passed, world)
}

/// One pass of a worker, under the lock that is held: it looks, polls and acknowledges, lets each of its threads make a step, and, as worker 0, does an
/// event of the collector. Its threads are those that it drives and that are live as the pass begins. Where memory does not last, it stops
/// there and sets the stop mark. Where the run is to stop at a deadlock, a worker that finds the stop mark does nothing else.
///
/// The lock is given back meanwhile where a thread continues without it, and is held at the end.
pub(crate) fn pass<'s, M: Initial, E: TableName, R: Wait>(
    rt: &R,
    alloc: Global,
    shared: &'s Shared<M>,
    epochs: &Epochs,
    parked: &Mutex<Parked<E>>,
    world: MutexGuard<'s, World<M>>,
    worker: &mut Worker<M>,
    plan: Plan,
) -> (PassOutcome, MutexGuard<'s, World<M>>)
    requires some { 0 < plan.workers }
    requires here { IsSeatHere epochs.now worker.old.seat × IsHeraldOf epochs.now worker.old.herald }
    requires same { epochs.now.table ≡ E.table }
    ensures here { IsSeatHere epochs.now worker.new.seat × IsHeraldOf epochs.now worker.new.herald }
    ensures worked { HasWorked plan.workers worker.old.ticket worker.new.ticket }
{
    let found = found_in(&*world, plan.workers, worker.ticket.worker());
    if found.is_stopped && matches!(plan.stop_at, StopAt::Deadlock) {
        return (PassOutcome::nothing(), world);
    }
    serve(
        rt, alloc, shared, epochs, parked, world, worker, plan, found,
    )
}
