//! Events of a machine whose program may print a limited number of bytes.

ghost use Rattle.std.specs.Prelude.{◌≡◌, ◌≤◌, ◌∷◌, [], IfErr, IfOk, OnErr, OnOk, length, replicate};
ghost use Rattle.interleaving_core.specs.Histories.{DoesMore};
ghost use Rattle.interleaving_core.specs.simulation.Transitions.{IsTransition};
ghost use Rattle.schedule_text.specs.Items.{events_of, words};
ghost use Rattle.schedule_text.specs.Readings.{IsFirstFault};
ghost use Rattle.schedule_text.specs.declared.errors.TheConstants.{MOST_EVENTS};
ghost use Rattle.cilvm_c.specs.Steps.{Acts, ActsBy, HasDoneAll, IsNotDone, IsStopped, IsTextRun, MakesStepsBy};

use crate::codes::{Code, is_not_done, is_ran, number_of, reason_not_done, report_code};
use cil_model::events::Event;
use cil_model::reports::Report;
use interleaving_core::Machine;
use schedule_text::{Item, ScheduleError, read_schedule};
use std::alloc::Global;

/// Where events stopped: how many were done, and why the next was not.
#[derive(Clone, Copy)]
pub(crate) struct Stop {
    pub(crate) done: usize,
    pub(crate) code: Code,
}

/// Does an event, unless the program has printed more bytes than it may. An error changes nothing.
#[inline(always)]
fn act(
    machine: &mut Machine,
    alloc: Global,
    most_printed: usize,
    event: Event,
) -> Result<Report, Code>
    ensures within { IfOk result (λ _. length machine.old.printed ≤ most_printed) }
    ensures transitions { IfOk result (λ report. IsTransition machine.old event (machine.new, report)) }
    ensures does { IfOk result (λ report. DoesMore machine.old (event ∷ []) (report ∷ []) machine.new) }
    ensures same { OnErr result (machine.new ≡ machine.old) }
    ensures held { IfErr result (IsNotDone machine.old most_printed event) }
{
    if machine.console().len() > most_printed {
        return Err(Code::Full);
    }
    match machine.step(alloc, event) {
        Ok(report) => Ok(report),
        Err(_) => Err(Code::NoMemory),
    }
}

/// Does an event, and returns the code of its report, or why it was not done.
#[inline(always)]
fn act_by_code(machine: &mut Machine, alloc: Global, most_printed: usize, event: Event) -> Code
    ensures { Acts machine.old most_printed event result machine.new }
{
    match act(machine, alloc, most_printed, event) {
        Ok(report) => report_code(report),
        Err(code) => code,
    }
}

/// Does an event, and returns the number of its report, or of why it was not done. All events of all sessions are done here, so the machine's
/// code for an event is compiled once, and a call of a host for one event ends by a jump to it.
#[inline(never)]
pub(crate) fn act_by_number(
    machine: &mut Machine,
    alloc: Global,
    most_printed: usize,
    event: Event,
) -> u32
    ensures { ActsBy machine.old most_printed event result machine.new }
{
    number_of(act_by_code(machine, alloc, most_printed, event))
}

/// Has a thread make at most `most` steps, until one does not report that it ran. `done` says how many were made.
pub(crate) fn make_steps(
    machine: &mut Machine,
    alloc: Global,
    most_printed: usize,
    thread: u8,
    most: u32,
    done: &mut u32,
) -> u32
    ensures { MakesStepsBy machine.old most_printed thread most done.new result machine.new }
{
    for time in 0..most {
        let number = act_by_number(machine, alloc, most_printed, Event::Step(thread));
        if is_not_done(number) {
            *done = time;
            return number;
        }
        if !is_ran(number) {
            *done = time + 1;
            return number;
        }
    }
    *done = most;
    number_of(Code::Ran)
}

/// Does the event of an item the number of times that the item gives.
fn repeat(machine: &mut Machine, alloc: Global, most_printed: usize, item: Item) -> Result<(), Stop>
    ensures all { OnOk result (HasDoneAll machine.old (replicate item.count item.event) machine.new) }
    ensures stopped { IfErr result (λ stop. IsStopped machine.old most_printed (replicate item.count item.event) stop machine.new) }
{
    for time in 0..item.count {
        let number = act_by_number(machine, alloc, most_printed, item.event);
        if is_not_done(number) {
            return Err(Stop {
                done: time,
                code: reason_not_done(number),
            });
        }
    }
    Ok(())
}

/// Does the events that items represent, in order, and returns how many they are.
fn run_items(
    machine: &mut Machine,
    alloc: Global,
    most_printed: usize,
    items: &[Item],
) -> Result<usize, Stop>
    requires few { length (events_of items.now) ≤ MOST_EVENTS }
    ensures all { IfOk result (λ done. (done ≡ length (events_of items.now)) × HasDoneAll machine.old (events_of items.now) machine.new) }
    ensures stopped { IfErr result (λ stop. IsStopped machine.old most_printed (events_of items.now) stop machine.new) }
{
    let mut done = 0;
    for item in items {
        match repeat(machine, alloc, most_printed, *item) {
            Ok(()) => done += item.count,
            Err(stop) => {
                return Err(Stop {
                    done: done + stop.done,
                    code: stop.code,
                });
            }
        }
    }
    Ok(done)
}

/// Does the events that a schedule's text writes. `done` says how many were done. An error is the text's, and nothing is done then.
pub(crate) fn run_text(
    machine: &mut Machine,
    alloc: Global,
    most_printed: usize,
    text: &[u8],
    done: &mut u64,
) -> Result<Code, ScheduleError>
    ensures ran { IfOk result (λ code. IsTextRun machine.old most_printed text.now done.new code machine.new) }
    ensures unread { IfErr result (IsFirstFault (words text.now)) }
    ensures none { OnErr result (done.new ≡ 0) }
    ensures same { OnErr result (machine.new ≡ machine.old) }
{
    *done = 0;
    let items = read_schedule(alloc, text)?;
    match run_items(machine, alloc, most_printed, items.as_slice()) {
        Ok(count) => {
            *done = count as u64;
            Ok(Code::Ran)
        }
        Err(stop) => {
            *done = stop.done as u64;
            Ok(stop.code)
        }
    }
}
