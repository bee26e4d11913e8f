//! Takes the bytes of a source to what its run leaves: the source, its limits and its schedule are accepted, and a machine runs it.
//! `run_source` runs it by the text of a schedule, `run_events` by items, `run_threads` by workers until no thread is live, or, where asked, to a
//! deadlock; otherwise they say why not, the faults of the source first. `laws`: a source, a text and limits have one run, and a replay of a record
//! is the same run.
#![tactic(auto)]

pub mod laws;
mod running;
mod threads;

pub use acceptance::{
    Failure, SourceError, accept, examine, machine_of, report, status_of_failure, write_report,
};
pub use running::{open, run_events, run_source};
pub use shared_machine::{
    Answer, Gate, History, Initial, Machine, OpenGate, Outcome, Run, Shared, stop, write_record,
};
pub use threads::run_threads;
