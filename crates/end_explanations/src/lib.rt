//! Says how threads of a run ended: for each thread that a fault or its budget ended, where it was before its last step, its callers, each
//! with the line of the source, what it waited for, and the threads that were deadlocked then.
//! `explain_ends` performs the events of a history again, on a machine in its initial state, with the reports of the history, and its text is exactly
//! what the states before those last steps say (`AreEndsExplained` in specs/Replays.antt).
#![tactic(auto)]

mod callers;
mod ends;
mod located;
mod names;
mod progress;
mod replaying;
mod texts;

pub use replaying::{ReplayError, explain_ends};
