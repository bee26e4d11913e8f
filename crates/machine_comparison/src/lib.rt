//! Compares the machine with the test interpreter `cil_oracle`, after each event of a run.
//!
//! `difference` compares them on the run of a command, `difference_by_chance` on a generated schedule, `difference_by_moves` on the
//! schedules that result from one by moving an event, `try_schedules` on all short schedules of one program, `try_insertions` on a cycle at
//! each index of its schedule, and `try_programs` on generated programs.
#![tactic(auto)]

mod machines;
mod made_up_runs;
mod made_up_sources;
mod moved_events;
mod random;
mod schedules;

pub use machines::difference;
pub use made_up_runs::{difference_by_chance, try_programs};
pub use moved_events::{difference_by_moves, try_insertions};
pub use schedules::try_schedules;
