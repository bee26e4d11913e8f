//! Calls that no command makes: sources that are too long, lists that no text writes, barriers over a heap made by hand, threads that share.
#![tactic(auto)]

mod barrier_calls;
mod epochs;
mod library_calls;
mod two_workers;

pub use library_calls::{Call, LIMITS, SUM, call_result, calls, fallible_call};
pub use two_workers::{act_in_transition, act_many, finish_twice, keeps_the_mark, run_both};
