//! Writes the outcomes of a program as text.
//! An outcome has two lines: how its threads ended and what was printed, and a schedule that leads to it. The last line of an exploration says how much
//! was explored. The texts are exactly those of the definition.
#![tactic(auto)]

mod counts;
mod ends;
mod outcomes;
mod summaries;

pub use outcomes::{add_outcome, add_schedule, schedule_text};
pub use summaries::{Cause, Coverage, Summary};
