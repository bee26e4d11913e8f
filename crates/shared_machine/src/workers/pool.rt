//! Workers, each in a thread of its own.

ghost use Rattle.std.specs.Prelude.{◌≡◌, ◌<◌, ◌≤◌, length, All, IfErr, IfOk, vec_capacity, vec_len};
ghost use Rattle.epoch_words.specs.Tokens.{EpochsValue};
ghost use Rattle.shared_machine.specs.declared.shared.TheConstants.{MOST_WORKERS};
ghost use Rattle.shared_machine.specs.Work.{HasWorked, HaveWorked, IsHeraldOf, IsSeatHere, IsSeatOf};

use crate::counts::book::Ticket;
use crate::counts::view::TableName;
use crate::shared::Shared;
use crate::workers::gate::Gate;
use crate::workers::pace::Pace;
use crate::workers::passes::Worker;
use crate::workers::plan::Plan;
use crate::workers::seats::Parked;
use crate::workers::work::{set_stop_mark, work};
use crate::world::Initial;
use cil_model::stops::StopAt;
use epoch_words::{Epochs, Herald, Seat};
use std::alloc::Global;
use std::marker::{Brand, Send, Sync};
use std::snapshot::Snapshot;
use std::sync::{Mutex, Wait};
use std::thread;
use std::thread::{Promise, PromisedHandle, Scope, Threads};

/// A worker's thread gives back its ticket, which has counted what the worker did.
#[derive(Drop)]
struct GivesBack<M: Initial> {
    workers: u8,
    ticket: Snapshot<Ticket<M>>,
}

impl<M: Initial> Promise<Ticket<M>> for GivesBack<M> {
    ghost use Rattle.shared_machine.specs.Work.{HasWorked};

    ghost kept_by = { λ promise ticket. HasWorked promise.workers promise.ticket.value ticket };
}

/// Workers that are not sent to work yet: a ticket for each, and the right to post, which is for worker 0.
#[derive(Drop)]
struct WorkerPool<M: Initial> {
    tickets: Vec<Ticket<M>>,
    herald: Option<Herald>,
}

/// Starts the thread of a worker. Where it can't be started, the stop mark is set, and the ticket comes back after a pass here.
fn send<
    's,
    T,
    M: Initial + Send + Sync + 's,
    E: TableName + Send + Sync + 's,
    R: Threads + Wait + Sync + 's,
    G: Gate + Sync + 's,
>(
    scope: &Scope<'s, T>,
    rt: &'s R,
    alloc: Global,
    shared: &'s Shared<M>,
    epochs: &'s Epochs,
    parked: &'s Mutex<Parked<E>>,
    gate: &'s G,
    plan: Plan,
    worker: Worker<M>,
) -> Result<PromisedHandle<Ticket<M>, GivesBack<M>>, Ticket<M>>
    requires some { 0 < plan.workers }
    requires here { IsSeatHere epochs.now worker.seat × IsHeraldOf epochs.now worker.herald }
    requires same { epochs.now.table ≡ E.table }
    ensures sent { IfOk result (λ thread. (thread.promise.workers ≡ plan.workers) × (thread.promise.ticket.value ≡ worker.ticket)) }
    ensures back { IfErr result (HasWorked plan.workers worker.ticket) }
{
    let promise = GivesBack {
        workers: plan.workers,
        ticket: Snapshot::of(&worker.ticket),
    };
    let sent = scope.spawn_with(
        promise,
        move || -> Ticket<M>
            requires some { 0 < plan.workers }
            requires here { IsSeatHere epochs.now worker.seat × IsHeraldOf epochs.now worker.herald }
            requires same { epochs.now.table ≡ E.table }
            ensures { HasWorked plan.workers worker.ticket result }
        { work(rt, alloc, shared, epochs, parked, gate, plan, worker) },
    );
    match sent {
        Ok(thread) => Ok(thread),
        Err(refused) => {
            set_stop_mark(rt, shared);
            Err((refused.value)())
        }
    }
}

/// The right to post, where it is here and the worker is worker 0; else what is left stays.
fn take_for(worker: u8, herald: &mut Option<Herald>) -> Option<Herald>
    ensures { (epochs : EpochsValue) → IsHeraldOf epochs herald.old → IsHeraldOf epochs result × IsHeraldOf epochs herald.new }
{
    if worker == 0 { herald.take() } else { None }
}

/// Sends each worker to its work, waits for all, and gives their tickets back in order.
fn send_all<
    's,
    T,
    M: Initial + Send + Sync + 's,
    E: TableName + Send + Sync + 's,
    R: Threads + Wait + Sync + 's,
    G: Gate + Sync + 's,
>(
    scope: &Scope<'s, T>,
    rt: &'s R,
    alloc: Global,
    shared: &'s Shared<M>,
    epochs: &'s Epochs,
    parked: &'s Mutex<Parked<E>>,
    gate: &'s G,
    plan: Plan,
    pool: WorkerPool<M>,
) -> Vec<Ticket<M>>
    requires some { 0 < plan.workers }
    requires herald { IsHeraldOf epochs.now pool.herald }
    requires same { epochs.now.table ≡ E.table }
    ensures worked { HaveWorked plan.workers pool.tickets.items result.items }
    ensures room { (vec_len result ≡ vec_len pool.tickets) × (vec_capacity result ≡ vec_capacity pool.tickets) }
{
    let WorkerPool {
        mut tickets,
        mut herald,
    } = pool;
    let Some(ticket) = tickets.pop() else {
        return tickets;
    };
    let theirs = take_for(ticket.worker(), &mut herald);
    let worker = Worker {
        ticket,
        seat: None,
        acknowledged: 0,
        polls: true,
        not_local: None,
        herald: theirs,
        pace: Pace::new(),
    };
    let rest = WorkerPool { tickets, herald };
    let sent = send(scope, rt, alloc, shared, epochs, parked, gate, plan, worker);
    let mut tickets = send_all(scope, rt, alloc, shared, epochs, parked, gate, plan, rest);
    let ticket = match sent {
        Ok(thread) => thread.join(rt),
        Err(ticket) => ticket,
    };
    tickets.push_reserved(ticket);
    tickets
}

/// Runs these workers, whose seats are parked, each in a thread of its own.
fn run_threads<
    M: Initial + Send + Sync,
    E: TableName + Send + Sync,
    R: Threads + Wait + Sync,
    G: Gate + Sync,
>(
    rt: &R,
    alloc: Global,
    shared: &Shared<M>,
    epochs: &Epochs,
    parked: &Mutex<Parked<E>>,
    gate: &G,
    plan: Plan,
    pool: WorkerPool<M>,
) -> Vec<Ticket<M>>
    requires some { 0 < plan.workers }
    requires herald { IsHeraldOf epochs.now pool.herald }
    requires same { epochs.now.table ≡ E.table }
    ensures { HaveWorked plan.workers pool.tickets.items result.items }
{
    thread::scope(
        thread::scope_env(),
        rt,
        move |scope| -> Vec<Ticket<M>>
            requires some { 0 < plan.workers }
            requires herald { IsHeraldOf epochs.now pool.herald }
            requires same { epochs.now.table ≡ E.table }
            ensures { HaveWorked plan.workers pool.tickets.items result.items }
        { send_all(scope, rt, alloc, shared, epochs, parked, gate, plan, pool) },
    )
}

/// Runs these workers, with their seats, which are of the epochs that `E` names.
fn run_pool<
    M: Initial + Send + Sync,
    E: TableName + Send + Sync,
    R: Threads + Wait + Sync,
    G: Gate + Sync,
>(
    rt: &R,
    alloc: Global,
    shared: &Shared<M>,
    epochs: &Epochs,
    seats: Vec<Seat>,
    gate: &G,
    plan: Plan,
    pool: WorkerPool<M>,
) -> Vec<Ticket<M>>
    requires some { 0 < plan.workers }
    requires seats { All (IsSeatOf epochs.now) seats.items }
    requires herald { IsHeraldOf epochs.now pool.herald }
    requires same { epochs.now.table ≡ E.table }
    ensures { HaveWorked plan.workers pool.tickets.items result.items }
{
    let parked = Mutex::new(Parked::<E>::new(seats));
    run_threads(rt, alloc, shared, epochs, &parked, gate, plan, pool)
}

/// Runs workers, each in a thread of its own, until each has found in a pass that no thread of the machine is live or that the stop mark
/// is set, and gives all their tickets back, in order.
///
/// Of n tickets, the worker of number k drives the threads t for which k is left when t is divided by n; its own threads in a pass are those that are live as
/// the pass begins. A pass is reported to `gate`, which may leave some out where it is open. Then the worker polls its seat, if it may be that a number was
/// posted (worker 0 knows); where it is newer than the last one that it acknowledged, it does an `Ack` of each of its own threads and acknowledges. It
/// does a `Step` of each of them, in the order of their numbers. Worker 0 then does one `Gc`; where that returned `Waiting`, it acknowledges for the workers
/// that drive no live thread, and posts the next number. A worker that runs out of memory sets the stop mark and ends; so does this function where a thread
/// can't be started, and makes that worker's one pass itself.
///
/// With `StopAt::Deadlock` worker 0 sets the stop mark, too, where it finds after a pass that threads are live and each of them waits. It
/// looks only after passes in which none of its own threads made progress: the first of such a row, and then one in 64. A pass that begins at the stop
/// mark does nothing then.
///
/// The tickets, 1 to 16 of them, are all that this machine has; there is one seat for each, and the seats and the herald are of these epochs. Each ticket
/// has counted what its worker did: events of its own alone.
pub fn run_workers<M: Initial + Send + Sync, R: Threads + Wait + Sync, G: Gate + Sync>(
    rt: &R,
    alloc: Global,
    shared: &Shared<M>,
    tickets: Vec<Ticket<M>>,
    epochs: &Epochs,
    herald: Herald,
    seats: Vec<Seat>,
    stop_at: StopAt,
    gate: &G,
) -> Vec<Ticket<M>>
    requires tickets { (1 ≤ length tickets.items) × (length tickets.items ≤ MOST_WORKERS) }
    requires seats { (length seats.items ≡ length tickets.items) × All (IsSeatOf epochs.now) seats.items }
    requires herald { herald.table ≡ epochs.now.table }
    ensures { HaveWorked (length tickets.items) tickets.items result.items }
{
    let plan = Plan {
        workers: tickets.as_slice().len() as u8,
        stop_at,
        is_open: gate.is_open(),
    };
    let pool = WorkerPool {
        tickets,
        herald: Some(herald),
    };
    run_pool::<M, Brand, R, G>(rt, alloc, shared, epochs, seats, gate, plan, pool)
}
