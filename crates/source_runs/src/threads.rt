//! From the bytes of a source to what workers leave of its run, each of them in a thread of its own.

ghost use Rattle.std.specs.Prelude.{◌≡◌, ◌≤◌, All, false, IfErr, IfOk};
ghost use Rattle.acceptance.specs.Sources.{HasRunTo, IsNotRun, IsNotRunWithin};
ghost use Rattle.source_runs.specs.Runs.{IsPrintedUpTo};
ghost use Rattle.shared_machine.specs.Histories.{events_of, reports_of};
ghost use Rattle.shared_machine.specs.interleaving_core.Histories.{HasDone};
ghost use Rattle.shared_machine.specs.declared.shared.TheConstants.{MOST_WORKERS};
ghost use Rattle.shared_machine.specs.Work.{HasEnded, IsOwnOf};

use acceptance::{Failure, accept};
use cil_model::limits::Limits;
use cil_model::stops::StopAt;
use shared_machine::{Blank, Gate, Machine, Outcome, run_together};
use std::alloc::Global;
use std::marker::Brand;
use std::sync::Wait;
use std::thread::Threads;
use verifier::Verified;

/// Runs a source by `workers` workers, 1 to 16, each in a thread of its own, until no thread of the program is live, or with
/// `StopAt::Deadlock` until each live one waits, as `run_together` does, and returns the machine after that with the history. Each pass of a
/// worker calls `gate`.
///
/// Whatever the order in which the workers got the lock, the run is that of the history's events: as `run_events` runs them, the reference
/// machine's run over the steps among them is never stuck, with these reports, and the machine represents the state after it. So
/// a replay of them prints the same bytes and has the same ends. Each entry is an event of its worker's own, of a thread that a machine can have. With
/// `StopAt::End` no thread is live at the end. With `StopAt::Deadlock` threads may be: then each of them waits for a monitor that another
/// thread holds or for the end of a live thread, and the outcome has the stop mark. Where memory ran out before such an end, the outcome
/// says so. With `most_printed` the run is stopped in the same way before an event by which the program would have printed more bytes than that.
///
/// Faults are looked for in this order: the source (`accept`), the limits (`OutOfRange(401)`), memory before the first event (`Memory`).
pub fn run_threads<R: Threads + Wait + Sync, G: Gate + Sync>(
    rt: &R,
    alloc: Global,
    source: &[u8],
    limits: Limits,
    workers: u8,
    stop_at: StopAt,
    most_printed: Option<u32>,
    gate: &G,
) -> Result<Outcome, Failure>
    requires { (1 ≤ workers) × (workers ≤ MOST_WORKERS) }
    ensures printed { IfOk result (λ outcome. IsPrintedUpTo most_printed outcome.machine.printed) }
    ensures ran { IfOk result (λ outcome. HasRunTo source.now limits (events_of outcome.history.entries) (reports_of outcome.history.entries) outcome.machine) }
    ensures own { IfOk result (λ outcome. All (IsOwnOf workers) outcome.history.entries) }
    ensures ended { IfOk result (λ outcome. outcome.is_out_of_memory ≡ false → HasEnded stop_at outcome.machine outcome.stopped) }
    ensures refused { IfErr result (IsNotRun source.now limits) }
{
    let verified = accept(alloc, source)?;
    run(
        rt,
        alloc,
        verified,
        limits,
        workers,
        stop_at,
        most_printed,
        gate,
    )
}

/// The machine of a program after workers ran it.
fn run<R: Threads + Wait + Sync, G: Gate + Sync>(
    rt: &R,
    alloc: Global,
    program: Verified,
    limits: Limits,
    workers: u8,
    stop_at: StopAt,
    most_printed: Option<u32>,
    gate: &G,
) -> Result<Outcome, Failure>
    requires { (1 ≤ workers) × (workers ≤ MOST_WORKERS) }
    ensures printed { IfOk result (λ outcome. IsPrintedUpTo most_printed outcome.machine.printed) }
    ensures ran { IfOk result (λ outcome. HasDone program limits (events_of outcome.history.entries) (reports_of outcome.history.entries) outcome.machine) }
    ensures own { IfOk result (λ outcome. All (IsOwnOf workers) outcome.history.entries) }
    ensures ended { IfOk result (λ outcome. outcome.is_out_of_memory ≡ false → HasEnded stop_at outcome.machine outcome.stopped) }
    ensures refused { IfErr result (IsNotRunWithin limits) }
{
    let machine = Machine::new(alloc, program, limits)?;
    let blank = Blank::new(alloc)?;
    Ok(run_together::<Brand, _, _>(
        rt,
        alloc,
        blank,
        machine,
        workers,
        stop_at,
        most_printed,
        gate,
    )?)
}
