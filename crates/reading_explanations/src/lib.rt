//! Explains why a text can't be read: why a source has no tree (numbers 101 to 104), and why a text is no schedule (501 to 503).
//! The sentence says what is at the position of the error and what the grammar has there, and the last line what to write instead, where that is
//! known by the token and those beside it. What the texts say is only tested.
#![tactic(auto)]

mod file_kinds;
mod hints;
mod instead;
mod left_out;
mod locations;
mod readings;
mod schedules;
mod spots;
mod tables;

pub use ilasm_reader;
pub use readings::explain_reading;
pub use schedules::explain_schedule;
pub use source_positions::{Named, cil_model};
