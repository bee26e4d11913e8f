//! Finds every outcome of a program over all schedules.
//! A search visits states, and returns lists of events and outcomes; it promises nothing. `exploration` checks what it returns. `explore` says that
//! the outcomes are complete only if that check is passed, and returns only outcomes that it confirms.
#![tactic(auto)]

mod bounds;
mod exploring;
mod nodes;
mod searching;
mod states;
mod walks;

pub use bounds::{Bounds, Goal, Stop};
pub use exploration::FoundOutcome;
pub use exploring::{Exploration, explore};
