//! Checks that a list of outcomes of a program is complete, and proves the laws on which the check rests.
//! A search gives lists of events, each with the list to which a step of each thread leads, and the outcomes that it found. `is_complete` replays the lists and compares the
//! machines: it is true only if no schedule leads to anything else, and no outcome is missing. `are_real` is true only if each outcome is that of its events.
//! `laws` states what follows for every run, with any events of a collector between its steps.
#![tactic(auto)]

mod checking;
mod found_outcomes;
pub mod laws;
mod replayers;

pub use checking::{FIRST_THREAD, are_real, is_complete, is_ordinary};
pub use found_outcomes::{FoundOutcome, Path, PathStep};
pub use interleaving_core::Machine;
pub use replayers::{First, Replayer};
