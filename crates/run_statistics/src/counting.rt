//! Counts in a history.

ghost use Rattle.std.specs.Prelude.{◌≡◌};
ghost use Rattle.run_statistics.specs.Counts.{number_of};
ghost use Rattle.shared_machine.specs.Histories.{events_of, reports_of};

use crate::quantity::Quantity;
use shared_machine::History;

/// How many events of a history with their reports a quantity includes: 2^64 - 1 where there are more.
pub fn count(history: &History, quantity: Quantity) -> u64
    ensures { result ≡ number_of quantity (events_of history.now.entries) (reports_of history.now.entries) }
{
    let mut number: u64 = 0;
    let runs = history.runs();
    for run in runs {
        if quantity.includes(run.entry.event, run.entry.report) {
            number = number.saturating_add(u64::from(run.times));
        }
    }
    number
}
