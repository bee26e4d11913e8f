//! One worker alone.

ghost use Rattle.std.specs.Prelude.{◌≡◌, ◌<◌, ◌++◌, [], List, ℕ, IfOk, MatchResult, replicate};
ghost use Rattle.cil_model.specs.declared.events.Event.{Event};
ghost use Rattle.schedule_text.specs.Items.{events_of as events_in};
ghost use Rattle.shared_machine.specs.Histories.{events_of, reports_of};
ghost use Rattle.shared_machine.specs.Worlds.{AreDoneOf, HasCounted, HasCountedFirst, HasRun, IsPrintedWithin};

use crate::answer::Answer;
use crate::counts::book::{Blank, Ticket};
use crate::outcome::Outcome;
use crate::shared::Shared;
use crate::world::Initial;
use cil_model::memory::NoMemory;
use interleaving_core::Machine;
use schedule_text::Item;
use std::alloc::Global;
use std::sync::Wait;

/// Does an item's event as often as it says, each time by `act` of the ticket, and returns the ticket; as an error where it runs out of
/// memory before an event.
#[inline(always)]
fn act_item<M: Initial, R: Wait>(
    rt: &R,
    alloc: Global,
    shared: &Shared<M>,
    mut ticket: Ticket<M>,
    item: &Item,
) -> Result<Ticket<M>, Ticket<M>>
    ensures { (before : List Event) → HasCounted before ticket → MatchResult result
        (λ after. HasCounted (before ++ replicate item.now.count item.now.event) after)
        (λ after. (count : ℕ) × (count < item.now.count) × HasCounted (before ++ replicate count item.now.event) after) }
{
    for _time in 0..item.count {
        match shared.act(rt, alloc, ticket, item.event) {
            (Answer::Did(_), next) => ticket = next,
            (Answer::NoMemory | Answer::Away, same) => return Err(same),
        }
    }
    Ok(ticket)
}

/// Does so with each item, in order, by a ticket that has counted nothing yet.
fn act_items<M: Initial, R: Wait>(
    rt: &R,
    alloc: Global,
    shared: &Shared<M>,
    mut ticket: Ticket<M>,
    items: &[Item],
) -> Result<Ticket<M>, Ticket<M>>
    requires { HasCounted [] ticket }
    ensures { MatchResult result (HasCounted (events_in items.now)) (HasCountedFirst (events_in items.now)) }
{
    for item in items {
        ticket = act_item(rt, alloc, shared, ticket, item)?;
    }
    Ok(ticket)
}

/// Does so, and returns the ticket with whether it ran out of memory before an event.
fn act_while_memory_lasts<M: Initial, R: Wait>(
    rt: &R,
    alloc: Global,
    shared: &Shared<M>,
    ticket: Ticket<M>,
    items: &[Item],
) -> (Ticket<M>, bool)
    requires { HasCounted [] ticket }
    ensures worker { result.0.worker ≡ 0 }
    ensures done { (done : List Event) × HasCounted done result.0 × AreDoneOf (events_in items.now) done result.1 }
{
    match act_items(rt, alloc, shared, ticket, items) {
        Ok(ticket) => (ticket, false),
        Err(ticket) => (ticket, true),
    }
}

/// One worker does the events that these items represent, in order, each by `act` of its ticket, and the run ends. The history has these
/// events, each with its report, and the machine is in the state that its transitions over them make of the initial state.
///
/// Where memory runs out for an event or its entry, the run is stopped before that event: the history has those before it. So it is before an
/// event that would leave more than `most_printed` bytes on the console.
///
/// `blank` is the book of counts that `M` names, the machine holds what `M` names, and `M` names one worker and this bound. Out of memory is the
/// only error, for the lock; the machine is dropped then.
pub fn run_alone<M: Initial, R: Wait>(
    rt: &R,
    alloc: Global,
    blank: Blank,
    core: Machine,
    items: &[Item],
    most_printed: Option<u32>,
) -> Result<Outcome, NoMemory>
    requires book { blank ≡ M.table }
    requires core { core ≡ M.initial_state }
    requires printed { most_printed ≡ M.most_printed }
    requires alone { M.workers ≡ 1 }
    ensures events { IfOk result (λ outcome. AreDoneOf (events_in items.now) (events_of outcome.history.entries) outcome.is_out_of_memory) }
    ensures ran { IfOk result (λ outcome. HasRun M.initial_state (events_of outcome.history.entries) (reports_of outcome.history.entries) outcome.machine) }
    ensures printed { IfOk result (λ outcome. IsPrintedWithin most_printed M.initial_state outcome.machine) }
{
    let (shared, mut tickets) = Shared::<M>::new(alloc, blank, core, 1, most_printed)?;
    let Some(ticket) = tickets.pop() else {
        unreachable!()
    };
    let (ticket, is_out_of_memory) = act_while_memory_lasts(rt, alloc, &shared, ticket, items);
    tickets.push_reserved(ticket);
    match shared.finish(tickets) {
        Ok(mut outcome) => {
            outcome.is_out_of_memory = is_out_of_memory;
            Ok(outcome)
        }
        Err(_) => unreachable!(),
    }
}
