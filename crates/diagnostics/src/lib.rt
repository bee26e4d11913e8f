//! Explains to a person why a source, a schedule or limits are refused: the clause that is broken, in words, and where.
//! `explain_error` puts the error of a refused source into words; `explain` examines a source, and returns None only if it is accepted, and a text only if
//! it is not; `explain_limits` returns None exactly where no limit is out of range. `note` has notes on an accepted source. Where a part of a source is
//! found, and what the texts say, is only tested.
#![tactic(auto)]

mod explanations;
mod limits;

pub use explanations::{explain, explain_error, note};
pub use limits::explain_limits;
pub use reading_explanations::explain_schedule;
