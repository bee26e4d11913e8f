//! Explains why a tree is no legal program (numbers 201 to 207): what breaks a rule on names and limits, and where it stands.
//! `explain_rule` says it of a violation that `metadata` found, and adds the location with which the first one does not agree; `notes_on_runs` has notes on
//! methods `Run` that no thread runs. What the texts say, and which locations they show, is only tested.
#![tactic(auto)]

mod advice;
mod cycles;
mod duplicates;
mod entry;
mod idle_runs;
mod implemented;
mod kinds;
mod limits;
mod references;
mod rule_evidence;
mod rules;
mod sentences;
mod sites;
mod unknown;

pub use idle_runs::notes_on_runs;
pub use metadata;
pub use rules::explain_rule;
