//! A worker's passes.

ghost use Rattle.std.specs.Prelude.{◌≡◌, ◌<◌};
ghost use Rattle.shared_machine.specs.Work.{HasWorked, IsHeraldOf, IsSeatHere};

use crate::counts::book::Ticket;
use crate::counts::view::TableName;
use crate::shared::Shared;
use crate::workers::deadlock::is_deadlocked;
use crate::workers::gate::Gate;
use crate::workers::pace::{Pace, PassOutcome};
use crate::workers::passes::{Worker, pass};
use crate::workers::plan::Plan;
use crate::workers::seats::Parked;
use crate::world::{Initial, stop};
use cil_model::stops::StopAt;
use epoch_words::Epochs;
use std::alloc::Global;
use std::sync::{Mutex, Wait};
use std::thread::yield_now;

/// How many passes a worker makes in a hold of the lock, at most.
const PASSES_IN_A_HOLD: u32 = 64;

/// Sets the stop mark, under a lock of its own.
pub(crate) fn set_stop_mark<M: Initial, R: Wait>(rt: &R, shared: &Shared<M>) {
    let mut world = shared.lock(rt);
    stop(&mut *world);
}

/// Sets the stop mark where threads are live and each of them waits, under a lock of its own.
fn stop_at_deadlock<M: Initial, R: Wait>(rt: &R, shared: &Shared<M>) {
    let mut world = shared.lock(rt);
    if world.machine().live() > 0 && is_deadlocked(world.machine()) {
        stop(&mut *world);
    }
}

/// Has other host threads run.
fn yield_often(times: u32) {
    for _ in 0..times {
        yield_now();
    }
}

/// What a worker does between two passes: worker 0 looks for a deadlock, where the run is to stop at one, and one of several workers has
/// others run.
fn rest<M: Initial, R: Wait>(
    rt: &R,
    shared: &Shared<M>,
    worker: u8,
    plan: Plan,
    pace: Pace,
    passed: &PassOutcome,
) {
    if worker == 0 && matches!(plan.stop_at, StopAt::Deadlock) && pace.looks() {
        stop_at_deadlock(rt, shared);
    }
    if plan.workers > 1 {
        yield_often(pace.yields(passed));
    }
}

/// Makes a pass, and those after it for which the worker keeps the lock, where no gate can hold it.
fn pass_in_a_hold<M: Initial, E: TableName, R: Wait>(
    rt: &R,
    alloc: Global,
    shared: &Shared<M>,
    epochs: &Epochs,
    parked: &Mutex<Parked<E>>,
    plan: Plan,
    worker: &mut Worker<M>,
) -> PassOutcome
    requires some { 0 < plan.workers }
    requires here { IsSeatHere epochs.now worker.old.seat × IsHeraldOf epochs.now worker.old.herald }
    requires same { epochs.now.table ≡ E.table }
    ensures here { IsSeatHere epochs.now worker.new.seat × IsHeraldOf epochs.now worker.new.herald }
    ensures worked { HasWorked plan.workers worker.old.ticket worker.new.ticket }
{
    let mut passed = PassOutcome::nothing();
    let mut world = shared.lock_soon(rt);
    for _pass in 0..PASSES_IN_A_HOLD {
        (passed, world) = pass(rt, alloc, shared, epochs, parked, world, worker, plan);
        if passed.is_end() || !plan.is_open || !worker.pace.keeps_lock(&passed, plan.workers) {
            break;
        }
    }
    drop(world);
    passed
}

/// Makes passes until one has found no live thread or the stop mark, or memory did not last, and gives the ticket back. Where memory did
/// not last, the stop mark is set. So it is by worker 0 at a deadlock, where the run is to stop at one. One of several workers yields after a
/// pass without progress, or in which the collector waited for another worker.
pub(crate) fn work<M: Initial, E: TableName, R: Wait, G: Gate>(
    rt: &R,
    alloc: Global,
    shared: &Shared<M>,
    epochs: &Epochs,
    parked: &Mutex<Parked<E>>,
    gate: &G,
    plan: Plan,
    mut worker: Worker<M>,
) -> Ticket<M>
    requires some { 0 < plan.workers }
    requires here { IsSeatHere epochs.now worker.seat × IsHeraldOf epochs.now worker.herald }
    requires same { epochs.now.table ≡ E.table }
    ensures { HasWorked plan.workers worker.ticket result }
{
    for _ in rt.forever() {
        gate.pass(worker.ticket.worker(), worker.pace.passes());
        let passed = pass_in_a_hold(rt, alloc, shared, epochs, parked, plan, &mut worker);
        if passed.is_end() {
            break;
        }
        rest(
            rt,
            shared,
            worker.ticket.worker(),
            plan,
            worker.pace,
            &passed,
        );
    }
    worker.ticket
}
