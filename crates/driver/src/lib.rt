//! Carries out commands on the bytes of their files, and prints the outcome or why there is none.
//! The contract of `drive` is the main theorem (`IsOutcomeOrCut` in specs/Outcomes.antt).
#![tactic(auto)]

mod command_outputs;
mod drawing;
mod driving;
mod explaining;
mod exploring;
mod outcome_pictures;
mod outcome_texts;
mod outcomes;
mod recording;
mod replays;
mod running_threads;
mod showing;
mod statistics;

pub use command_outputs::Outputs;
pub use driving::drive;
pub use outputs::{Device, Out, WriterOut};
pub use recording::RecordFiles;
pub use showing::emit;
pub use source_runs::{Failure, Run, report, run_events};
