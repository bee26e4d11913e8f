//! A stress run of the flip: seats store and load slots, each in a thread of its own, while one thread copies, advances and retires.
//! `run`: each load of a seat's own slot gave what it had stored, and a run that says that it is finished has retired each first copy.
#![tactic(auto)]

mod collector;
mod seat;
mod sizes;
mod stress;

pub use sizes::Sizes;
pub use stress::{StressOutcome, run};
