//! Takes the bytes of a source to the machine of its program. `accept` returns a program only for a source that has a tree, which is legal and has a
//! typing of each method; `machine_of` makes its machine; otherwise they say why not, the faults of the source first. `examine` does what `accept` does, and
//! its error has the evidence that an explanation needs (`SourceError`). `Failure` is why any command fails, with the line that reports it and the
//! status. Nothing here knows of host threads: the crates above run the machine.
#![tactic(auto)]

mod errors;
mod failure;
mod sources;

pub use errors::SourceError;
pub use failure::{Failure, report, status_of_failure, write_report};
pub use sources::{accept, examine, machine_of};
