//! The most words in use during a run.

ghost use Rattle.std.specs.Prelude.{◌≡◌, IfSome, replicate, true};
ghost use Rattle.std.specs.List.{zip};
ghost use Rattle.run_statistics.specs.Lines.{words_in_use};
ghost use Rattle.run_statistics.specs.MostWords.{IsMostInUse};
ghost use Rattle.shared_machine.specs.Histories.{events_of, reports_of};
ghost use Rattle.shared_machine.specs.simulation.Transitions.{IsTransition};

use crate::lines::words_in_use;
use cil_model::reports::Report;
use shared_machine::{Entry, History, Machine, Run};
use std::alloc::Global;

/// The most words in use before the first event of a history and after each one. The machine is in the state in which the history began, and
/// performs the events again. None if memory runs out, or if it reports something else of an event than the history.
pub fn most_words(alloc: Global, machine: &mut Machine, history: &History) -> Option<u64>
    ensures { IfSome result (IsMostInUse machine.old (zip (events_of history.now.entries) (reports_of history.now.entries)) machine.new) }
{
    let mut most = words_in_use(machine);
    let runs = history.runs();
    for run in runs {
        most = most.max(most_words_of_run(alloc, machine, run)?);
    }
    Some(most)
}

/// The most words in use before the events of a run of equal entries and after each of them. None as for `most_words`.
fn most_words_of_run(alloc: Global, machine: &mut Machine, run: &Run) -> Option<u64>
    ensures { IfSome result (IsMostInUse machine.old (zip (replicate run.now.times run.now.entry.event) (replicate run.now.times run.now.entry.report)) machine.new) }
{
    let mut most = words_in_use(machine);
    for _time in 0..run.times {
        most = most.max(words_after(alloc, machine, &run.entry)?);
    }
    Some(most)
}

/// The words in use after the event of an entry. None as for `most_words`.
fn words_after(alloc: Global, machine: &mut Machine, entry: &Entry) -> Option<u64>
    ensures { IfSome result (λ words. IsTransition machine.old entry.now.event (machine.new, entry.now.report) × (words ≡ words_in_use machine.new)) }
{
    let Ok(report) = machine.step(alloc, entry.event) else {
        return None;
    };
    if !is_same(report, entry.report) {
        return None;
    }
    Some(words_in_use(machine))
}

/// Whether two reports are equal. Where it is true, contracts can replace one by the other.
fn is_same(report: Report, other: Report) -> bool
    ensures { result ≡ true → report ≡ other }
{
    report == other
}
