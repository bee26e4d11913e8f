//! Calls that run a source, and that no command makes: readers that fail, two workers of one machine, records, and workers that are held.
#![tactic(auto)]

mod held_workers;
mod library_runs;
mod loan_runs;
mod worker_runs;

pub use api_tests::{Call, LIMITS, SUM, call_result, calls};
pub use library_runs::RunCalls;
