//! Frames that are lent, local instructions on them, and their return.

ghost use Rattle.std.specs.Prelude.{◌≡◌, None};

use crate::library_runs::machine_of;
use api_tests::{LIMITS, SUM};
use cil_model::events::Event;
use cil_model::limits::Limits;
use cil_model::memory::NoMemory;
use cil_model::reports::{End, Fault, Report};
use shared_machine::{
    Answer, Blank, Initial, Shared, Ticket, World, check_in, lend, perform, run_local,
};
use source_runs::{Failure, Machine, Outcome};
use std::alloc::Global;
use std::marker::Brand;
use std::sync::Wait;

/// The third instruction divides by zero.
static DIVIDES: &str = ".assembly extern mscorlib {}
    .class public auto ansi P extends [mscorlib]System.Object {
    .method public static void Main() cil managed { .entrypoint .maxstack 2
    ldc.i4.1 ldc.i4.0 div pop ret } }";

/// Limits in which the sum's third step is the last one of its thread.
const THREE_STEPS: Limits = Limits {
    budget: 3,
    ..LIMITS
};

/// Puts a machine under a lock for one worker, and gives its ticket.
fn open_alone<M: Initial>(
    alloc: Global,
    blank: Blank,
    core: Machine,
) -> Result<Option<(Shared<M>, Ticket<M>)>, NoMemory>
    requires book { blank ≡ M.table }
    requires core { core ≡ M.initial_state }
    requires printed { M.most_printed ≡ None }
    requires workers { M.workers ≡ 1 }
{
    let (shared, mut tickets) = Shared::<M>::new(alloc, blank, core, 1, None)?;
    match tickets.pop() {
        Some(ticket) => Ok(Some((shared, ticket))),
        None => Ok(None),
    }
}

/// Lends the frame of thread 0 at its start, does local instructions, `most` at most, checks it in, and does the thread's next step. Returns
/// how many instructions were done, and the result of that step.
fn run_on_loan<M: Initial, R: Wait>(
    rt: &R,
    alloc: Global,
    blank: Blank,
    core: Machine,
    most: u32,
) -> Result<Option<(u32, Answer)>, NoMemory>
    requires book { blank ≡ M.table }
    requires core { core ≡ M.initial_state }
    requires printed { M.most_printed ≡ None }
    requires workers { M.workers ≡ 1 }
{
    let Some((shared, mut ticket)) = open_alone::<M>(alloc, blank, core)? else {
        return Ok(None);
    };
    let mut world = shared.lock(rt);
    Ok(run_lent(alloc, &mut *world, &mut ticket, most))
}

/// The same in a world that is locked.
fn run_lent<M: Initial>(
    alloc: Global,
    world: &mut World<M>,
    ticket: &mut Ticket<M>,
    most: u32,
) -> Option<(u32, Answer)> {
    let lent = run_local(lend(world, 0)?, most);
    let done = check_in(world, ticket, lent).ok()?;
    let next = perform(world, alloc, ticket, Event::Step(0));
    Some((done, next))
}

/// Whether the expected number of local instructions is done on the frame of a program's first thread, and its next step has the expected report.
fn does_on_loan(
    waits: &impl Wait,
    alloc: Global,
    (source, limits): (&str, Limits),
    most: u32,
    expected: (u32, Report),
) -> Result<bool, Failure> {
    let blank = Blank::new(alloc)?;
    let core = machine_of(alloc, source, limits)?;
    let found = run_on_loan::<Brand, _>(waits, alloc, blank, core, most)?;
    Ok(found.is_some_and(|(done, next)| done == expected.0 && next == Answer::Did(expected.1)))
}

/// Whether the three local instructions of the sum are done at once.
pub(crate) fn does_all(waits: &impl Wait, alloc: Global) -> Result<bool, Failure> {
    does_on_loan(waits, alloc, (SUM, LIMITS), 64, (3, Report::Ran))
}

/// Whether no more are done than were asked for.
pub(crate) fn does_one(waits: &impl Wait, alloc: Global) -> Result<bool, Failure> {
    does_on_loan(waits, alloc, (SUM, LIMITS), 1, (1, Report::Ran))
}

/// Whether the last step of a thread's budget is left to the machine.
pub(crate) fn leaves_the_last_step(waits: &impl Wait, alloc: Global) -> Result<bool, Failure> {
    let end = Report::Ended(End::Budget);
    does_on_loan(waits, alloc, (SUM, THREE_STEPS), 64, (2, end))
}

/// Whether an instruction that raises a fault is left to the machine.
pub(crate) fn leaves_the_fault(waits: &impl Wait, alloc: Global) -> Result<bool, Failure> {
    let end = Report::Ended(End::Fault(Fault::DivideByZero));
    does_on_loan(waits, alloc, (DIVIDES, LIMITS), 64, (2, end))
}

/// Whether a frame is lent once until it is checked in.
fn is_lent_once<M: Initial>(world: &mut World<M>, ticket: &mut Ticket<M>) -> bool {
    let Some(lent) = lend(world, 0) else {
        return false;
    };
    let is_refused = lend(world, 0).is_none();
    let is_back = matches!(check_in(world, ticket, lent), Ok(0));
    is_refused && is_back && lend(world, 0).is_some()
}

/// Whether a step and an acknowledgement of a lent thread return `Away`.
fn is_away<M: Initial>(alloc: Global, world: &mut World<M>, ticket: &mut Ticket<M>) -> bool {
    let lent = lend(world, 0);
    let step = perform(world, alloc, ticket, Event::Step(0));
    let acknowledgement = perform(world, alloc, ticket, Event::Ack(0));
    lent.is_some() && step == Answer::Away && acknowledgement == Answer::Away
}

/// Whether the collector waits for a lent thread that has not acknowledged `Mark`.
fn is_waited_for<M: Initial>(alloc: Global, world: &mut World<M>, ticket: &mut Ticket<M>) -> bool {
    let lent = lend(world, 0);
    let initial_state = perform(world, alloc, ticket, Event::Gc);
    let next = perform(world, alloc, ticket, Event::Gc);
    lent.is_some()
        && initial_state == Answer::Did(Report::Worked)
        && next == Answer::Did(Report::Waiting)
}

/// What is asked of the world of the sum.
#[derive(Clone, Copy)]
pub(crate) enum Question {
    IsLentOnce,
    IsAway,
    IsWaitedFor,
}

/// Whether what is asked holds of a machine before its first event. Where a lent thread is asked, the history stays empty.
fn is_so<M: Initial, R: Wait>(
    rt: &R,
    alloc: Global,
    blank: Blank,
    core: Machine,
    question: Question,
) -> Result<bool, NoMemory>
    requires book { blank ≡ M.table }
    requires core { core ≡ M.initial_state }
    requires printed { M.most_printed ≡ None }
    requires workers { M.workers ≡ 1 }
{
    let Some((shared, mut ticket)) = open_alone::<M>(alloc, blank, core)? else {
        return Ok(false);
    };
    let mut world = shared.lock(rt);
    let is_found = is_found(alloc, &mut *world, &mut ticket, question);
    drop(world);
    let mut tickets = Vec::new(alloc);
    tickets.push(ticket)?;
    match shared.finish(tickets) {
        Ok(outcome) => Ok(is_found && has_events(&outcome, question)),
        Err(_) => Ok(false),
    }
}

/// Whether what is asked holds of a world that is locked.
fn is_found<M: Initial>(
    alloc: Global,
    world: &mut World<M>,
    ticket: &mut Ticket<M>,
    question: Question,
) -> bool {
    match question {
        Question::IsLentOnce => is_lent_once(world, ticket),
        Question::IsAway => is_away(alloc, world, ticket),
        Question::IsWaitedFor => is_waited_for(alloc, world, ticket),
    }
}

/// Whether a run has events where the collector is asked, and none otherwise.
fn has_events(outcome: &Outcome, question: Question) -> bool {
    let is_collected = matches!(question, Question::IsWaitedFor);
    outcome.history.runs().is_empty() != is_collected
}

/// Whether what is asked holds of the sum before its first event.
pub(crate) fn answers(
    waits: &impl Wait,
    alloc: Global,
    question: Question,
) -> Result<bool, Failure> {
    let blank = Blank::new(alloc)?;
    let core = machine_of(alloc, SUM, LIMITS)?;
    Ok(is_so::<Brand, _>(waits, alloc, blank, core, question)?)
}
