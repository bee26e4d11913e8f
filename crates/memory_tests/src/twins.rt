//! Two machines of one source that do the same events: one by `step`, and one, which is shared, by `perform`.

ghost use Rattle.std.specs.Prelude.{◌≡◌, None};

use crate::calls::open_machine;
use crate::machines::{Seen, perform_again, step_again};
use crate::stops::Stop;
use schedule_text::Item;
use shared_machine::{Blank, Initial, Machine, Outcome, Shared, Ticket, World};
use std::io;
use std::io::Write;
use std::marker::Brand;
use std::sync::Wait;

/// Runs a source by these items on both machines, and prints their outcome.
pub fn run_twins(
    rt: &HostRuntime,
    waits: &impl Wait,
    source: &[u8],
    items: &[Item],
) -> Result<(), Stop> {
    let mut twin = open_machine(rt, source)?;
    let core = open_machine(rt, source)?;
    let blank = Blank::new(rt.alloc())?;
    let outcome = run_shared::<Brand, _>(rt, waits, blank, core, &mut twin, items)?;
    if Seen::of(&twin) != Seen::of(&outcome.machine) || twin.console() != outcome.console() {
        return Err(Stop::Wrong("two machines that end differently"));
    }
    print_outcome(rt, &outcome)
}

/// Has one worker do the events of the items on a machine, and its twin the same.
fn run_shared<M: Initial, R: Wait>(
    rt: &HostRuntime,
    waits: &R,
    blank: Blank,
    core: Machine,
    twin: &mut Machine,
    items: &[Item],
) -> Result<Outcome, Stop>
    requires book { blank ≡ M.table }
    requires core { core ≡ M.initial_state }
    requires printed { M.most_printed ≡ None }
    requires alone { M.workers ≡ 1 }
{
    let Ok((shared, mut tickets)) = Shared::<M>::new(rt.alloc(), blank, core, 1, None) else {
        return Err(Stop::Beside);
    };
    let Some(mut ticket) = tickets.pop() else {
        return Err(Stop::Wrong("no ticket"));
    };
    run_items(rt, waits, &shared, &mut ticket, twin, items)?;
    tickets.push_reserved(ticket);
    match shared.finish(tickets) {
        Ok(outcome) => Ok(outcome),
        Err(_) => Err(Stop::Wrong("a run that is not finished")),
    }
}

/// Has both machines do the events of the items.
fn run_items<M: Initial, R: Wait>(
    rt: &HostRuntime,
    waits: &R,
    shared: &Shared<M>,
    ticket: &mut Ticket<M>,
    twin: &mut Machine,
    items: &[Item],
) -> Result<(), Stop> {
    let mut world = shared.lock(waits);
    for item in items {
        run_item(rt, &mut *world, ticket, twin, item)?;
    }
    Ok(())
}

/// Has both machines do the event of an item the number of times that the item gives. They report the same.
fn run_item<M: Initial>(
    rt: &HostRuntime,
    world: &mut World<M>,
    ticket: &mut Ticket<M>,
    twin: &mut Machine,
    item: &Item,
) -> Result<(), Stop> {
    for _time in 0..item.count {
        let report = step_again(rt, twin, item.event)?;
        if perform_again(rt, world, ticket, item.event)? != report {
            return Err(Stop::Wrong("two machines that report differently"));
        }
    }
    Ok(())
}

/// Prints each event with its report, what was printed, and the words in use and the sizes of both spaces.
fn print_outcome(rt: &HostRuntime, outcome: &Outcome) -> Result<(), Stop> {
    for run in outcome.history.runs() {
        println!(rt;
            "{} {:?} {:?}",
            run.times, run.entry.event, run.entry.report
        )?;
    }
    io::writer(rt).write_all(outcome.console())?;
    println!(rt;
        "used {:?}, sizes {:?}",
        outcome.machine.used(),
        outcome.machine.sizes()
    )?;
    Ok(())
}
