//! Two workers of a shared machine, in threads of their own.

ghost use Rattle.std.specs.Prelude.{◌≡◌, ◌∷◌, [], IfOk, IfSome, None};
ghost use Rattle.shared_machine.specs.Codes.{add};
ghost use Rattle.shared_machine.specs.Histories.{count_of, events_of, reports_of};
ghost use Rattle.shared_machine.specs.Worlds.{AgreesWith, HasRun, IfDid, add_event, fresh};

use cil_model::events::Event;
use cil_model::memory::NoMemory;
use shared_machine::{Answer, Blank, Initial, Machine, Outcome, Shared, Ticket, Unfinished, stop};
use std::alloc::Global;
use std::sync::Wait;
use std::thread::{Threads, join};

/// The first two tickets.
fn two<M: Initial>(mut tickets: Vec<Ticket<M>>) -> Option<(Ticket<M>, Ticket<M>)>
    requires { tickets.items ≡ fresh 2 }
    ensures { IfSome result (λ t. (t.0 ≡ record { worker = 0; count = 0 }) × (t.1 ≡ record { worker = 1; count = 0 })) }
{
    let other = tickets.pop()?;
    let one = tickets.pop()?;
    Some((one, other))
}

/// Puts a machine under a lock for two workers, with their tickets.
fn open_both<M: Initial>(
    alloc: Global,
    blank: Blank,
    core: Machine,
) -> Result<Option<(Shared<M>, Ticket<M>, Ticket<M>)>, NoMemory>
    requires book { blank ≡ M.table }
    requires core { core ≡ M.initial_state }
    requires printed { M.most_printed ≡ None }
    requires workers { M.workers ≡ 2 }
    ensures { IfOk result (λ made. IfSome made (λ m. (m.1 ≡ record { worker = 0; count = 0 }) × (m.2 ≡ record { worker = 1; count = 0 }))) }
{
    let (shared, tickets) = Shared::<M>::new(alloc, blank, core, 2, None)?;
    match two(tickets) {
        None => Ok(None),
        Some((one, other)) => Ok(Some((shared, one, other))),
    }
}

/// Ends a run with the tickets of both workers. None where one is missing.
fn finish_both<M: Initial>(
    alloc: Global,
    shared: Shared<M>,
    one: Ticket<M>,
    other: Ticket<M>,
) -> Result<Option<Outcome>, NoMemory>
    ensures ran { IfOk result (λ end. IfSome end (λ o. HasRun M.initial_state (events_of o.history.entries) (reports_of o.history.entries) o.machine)) }
    ensures one { IfOk result (λ end. IfSome end (λ o. AgreesWith o.history.entries one)) }
    ensures other { IfOk result (λ end. IfSome end (λ o. AgreesWith o.history.entries other)) }
{
    match shared.finish(both(alloc, one, other)?) {
        Ok(outcome) => Ok(Some(outcome)),
        Err(_) => Ok(None),
    }
}

/// Two tickets in a list.
fn both<M: Initial>(
    alloc: Global,
    one: Ticket<M>,
    other: Ticket<M>,
) -> Result<Vec<Ticket<M>>, NoMemory>
    ensures { IfOk result (λ tickets. tickets.items ≡ one ∷ other ∷ []) }
{
    let mut tickets = Vec::new(alloc);
    tickets.push(one)?;
    tickets.push(other)?;
    Ok(tickets)
}

/// Two threads act once each, and the run ends. Whatever the schedule, each worker's entries in the history are those that its ticket had
/// and the event that it requested, with the report that was returned to it.
///
/// The only error is out of memory. None where a worker's ticket is missing.
fn act_both<M: Initial + Send + Sync, R: Threads + Wait + Sync>(
    rt: &R,
    alloc: Global,
    shared: Shared<M>,
    one: Ticket<M>,
    other: Ticket<M>,
    first: Event,
    second: Event,
) -> Result<Option<(Answer, Answer, Outcome)>, NoMemory>
    ensures ran { IfOk result (λ end. IfSome end (λ x. HasRun M.initial_state (events_of x.2.history.entries) (reports_of x.2.history.entries) x.2.machine)) }
    ensures one { IfOk result (λ end. IfSome end (λ x. IfDid x.0 (λ report. count_of one.worker x.2.history.entries ≡ add one.count first report))) }
    ensures other { IfOk result (λ end. IfSome end (λ x. IfDid x.1 (λ report. count_of other.worker x.2.history.entries ≡ add other.count second report))) }
{
    let lock = &shared;
    let ((answer, one), (other_answer, other)) = join(
        rt,
        move || -> (Answer, Ticket<M>)
            ensures did { IfDid result.0 (λ report. result.1 ≡ add_event one first report) }
        { lock.act(rt, alloc, one, first) },
        move || -> (Answer, Ticket<M>)
            ensures did { IfDid result.0 (λ report. result.1 ≡ add_event other second report) }
        { lock.act(rt, alloc, other, second) },
    );
    match finish_both(alloc, shared, one, other)? {
        None => Ok(None),
        Some(outcome) => Ok(Some((answer, other_answer, outcome))),
    }
}

/// The same from the initial state on: each worker has done one event.
pub fn run_both<M: Initial + Send + Sync, R: Threads + Wait + Sync>(
    rt: &R,
    alloc: Global,
    blank: Blank,
    core: Machine,
    first: Event,
    second: Event,
) -> Result<Option<(Answer, Answer, Outcome)>, NoMemory>
    requires book { blank ≡ M.table }
    requires core { core ≡ M.initial_state }
    requires printed { M.most_printed ≡ None }
    requires workers { M.workers ≡ 2 }
    ensures ran { IfOk result (λ end. IfSome end (λ x. HasRun M.initial_state (events_of x.2.history.entries) (reports_of x.2.history.entries) x.2.machine)) }
    ensures one { IfOk result (λ end. IfSome end (λ x. IfDid x.0 (λ report. count_of 0 x.2.history.entries ≡ add 0 first report))) }
    ensures other { IfOk result (λ end. IfSome end (λ x. IfDid x.1 (λ report. count_of 1 x.2.history.entries ≡ add 0 second report))) }
{
    let Some((shared, one, other)) = open_both::<M>(alloc, blank, core)? else {
        return Ok(None);
    };
    act_both(rt, alloc, shared, one, other, first, second)
}

/// Two threads act often, each with its own event, the stop mark is set, and the run ends.
pub fn act_many<M: Initial + Send + Sync, R: Threads + Wait + Sync>(
    rt: &R,
    alloc: Global,
    blank: Blank,
    core: Machine,
    events: (Event, Event),
    times: u32,
) -> Result<Option<Outcome>, NoMemory>
    requires book { blank ≡ M.table }
    requires core { core ≡ M.initial_state }
    requires printed { M.most_printed ≡ None }
    requires workers { M.workers ≡ 2 }
{
    let Some((shared, one, other)) = open_both::<M>(alloc, blank, core)? else {
        return Ok(None);
    };
    let (one, other) = act_often_both(rt, alloc, &shared, one, other, events, times);
    mark(rt, &shared);
    finish_both(alloc, shared, one, other)
}

/// Two threads act often, each with its own event and ticket.
fn act_often_both<M: Initial + Send + Sync, R: Threads + Wait + Sync>(
    rt: &R,
    alloc: Global,
    shared: &Shared<M>,
    one: Ticket<M>,
    other: Ticket<M>,
    events: (Event, Event),
    times: u32,
) -> (Ticket<M>, Ticket<M>) {
    join(
        rt,
        move || act_often(rt, alloc, shared, one, events.0, times),
        move || act_often(rt, alloc, shared, other, events.1, times),
    )
}

/// Worker 1 has the collector do an event, and then worker 0 has thread 0 step. The run ends with their tickets in this order or in the other
/// one.
pub fn act_in_transition<M: Initial, R: Wait>(
    rt: &R,
    alloc: Global,
    blank: Blank,
    core: Machine,
    is_reversed: bool,
) -> Result<Option<Outcome>, NoMemory>
    requires book { blank ≡ M.table }
    requires core { core ≡ M.initial_state }
    requires printed { M.most_printed ≡ None }
    requires workers { M.workers ≡ 2 }
{
    let Some((shared, one, other)) = open_both::<M>(alloc, blank, core)? else {
        return Ok(None);
    };
    let (_collected, other) = shared.act(rt, alloc, other, Event::Gc);
    let (_stepped, one) = shared.act(rt, alloc, one, Event::Step(0));
    if is_reversed {
        finish_both(alloc, shared, one, other)
    } else {
        finish_both(alloc, shared, other, one)
    }
}

/// The run ends with one ticket alone, which is refused, and then with both. None where the refusal has another number or does not give the
/// ticket back.
pub fn finish_twice<M: Initial>(
    alloc: Global,
    blank: Blank,
    core: Machine,
) -> Result<Option<Outcome>, NoMemory>
    requires book { blank ≡ M.table }
    requires core { core ≡ M.initial_state }
    requires printed { M.most_printed ≡ None }
    requires workers { M.workers ≡ 2 }
{
    let Some((shared, one, other)) = open_both::<M>(alloc, blank, core)? else {
        return Ok(None);
    };
    let mut tickets = Vec::new(alloc);
    tickets.push(one)?;
    match shared.finish(tickets) {
        Ok(_) => Ok(None),
        Err(unfinished) => finish_again(unfinished, other),
    }
}

/// Ends a run that was refused because one ticket was missing, with that ticket.
fn finish_again<M: Initial>(
    unfinished: Unfinished<M>,
    ticket: Ticket<M>,
) -> Result<Option<Outcome>, NoMemory> {
    if unfinished.number() != 601 || unfinished.tickets.len() != 1 {
        return Ok(None);
    }
    let Unfinished {
        shared,
        mut tickets,
    } = unfinished;
    tickets.push(ticket)?;
    Ok(shared.finish(tickets).ok())
}

/// Whether the stop mark is not set at first nor by an event, and is set by `stop`.
pub fn keeps_the_mark<M: Initial, R: Wait>(
    rt: &R,
    alloc: Global,
    blank: Blank,
    core: Machine,
) -> Result<bool, NoMemory>
    requires book { blank ≡ M.table }
    requires core { core ≡ M.initial_state }
    requires printed { M.most_printed ≡ None }
    requires workers { M.workers ≡ 2 }
{
    let Some((shared, one, other)) = open_both::<M>(alloc, blank, core)? else {
        return Ok(false);
    };
    let at_first = is_marked(rt, &shared);
    let (_stepped, one) = shared.act(rt, alloc, one, Event::Step(0));
    let after_an_event = is_marked(rt, &shared);
    mark(rt, &shared);
    let outcome = finish_both(alloc, shared, one, other)?;
    Ok(!at_first && !after_an_event && outcome.is_some_and(|outcome| outcome.stopped))
}

/// Whether the stop mark is set.
fn is_marked<M: Initial, R: Wait>(rt: &R, shared: &Shared<M>) -> bool {
    let world = shared.lock(rt);
    world.is_stopped()
}

/// Does the same event again and again, each time under a lock of its own. The ticket that comes back is the same worker's.
fn act_often<M: Initial, R: Wait>(
    rt: &R,
    alloc: Global,
    shared: &Shared<M>,
    mut ticket: Ticket<M>,
    event: Event,
    times: u32,
) -> Ticket<M>
    ensures { result.worker ≡ ticket.worker }
{
    for _time in 0..times {
        let (_answer, next) = shared.act(rt, alloc, ticket, event);
        ticket = next;
    }
    ticket
}

/// Sets the stop mark, under a lock of its own.
fn mark<M: Initial, R: Wait>(rt: &R, shared: &Shared<M>) {
    let mut world = shared.lock(rt);
    stop(&mut *world);
}
