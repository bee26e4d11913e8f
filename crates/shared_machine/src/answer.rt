//! The result of an event under the lock.

use cil_model::reports::Report;

/// The answer to one event of a worker.
#[derive(Clone, Copy, PartialEq, Eq, Debug)]
pub enum Answer {
    /// The machine did the event, and reported this.
    Did(Report),
    /// No memory was left for the event or for its entry, or the event would have printed beyond the bound, and nothing changed.
    NoMemory,
    /// The top frame of the event's thread is lent, and nothing changed.
    Away,
}
