//! Writes a line of text for each event of a run, and reports what live threads wait for and which of them are deadlocked.
//! `trace` does the events as `Machine::run` does, and has then written exactly their lines and an empty line; where it stops, it has done some number
//! of the first events and written a prefix of their lines. `laws`: a line has ten columns of printable ASCII; the first empty line ends the trace.
//! `deadlocked_threads` returns exactly the deadlocked threads of every state that the machine represents; each later step of them is blocked, up
//! to the first that uses up the budget of one (`deadlock_laws`).
#![tactic(auto)]

mod columns;
pub mod deadlock_laws;
mod errors;
mod explanations;
pub mod laws;
mod lines;
mod method_positions;
mod owned_methods;
mod pieces;
mod texts;
mod tracing;
mod waiting;

pub use columns::{EventText, ReportText, phase_name};
pub use errors::TraceError;
pub use explanations::{add_deadlock, add_thread_numbers, awaited_by, explain_threads};
pub use interleaving_core::{Machine, Position, Wait};
pub use lines::InstructionColumn;
pub use method_positions::MethodPositions;
pub use owned_methods::{InstructionPosition, LineText, Owner, line_at};
pub use texts::{AwaitedText, OwnerText};
pub use tracing::{instruction_at, position_for, trace};
pub use waiting::{deadlocked_threads, is_in};
