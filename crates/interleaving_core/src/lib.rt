//! The machine: its threads, its heap, and what it does on each event.
//! `Machine::new` refuses limits exactly where one is out of range. `step` does exactly the transition of the event (`IsTransition`), or nothing where memory
//! is out, which only a print, a start or the opening of a cycle can meet (`TakesMemory`). From every state that the machine represents, the
//! reference machine's run over the steps is never stuck, has the same reports and refused births, and reaches a state that the machine then
//! represents (`FollowsReference`). Of all events since it was made (`HasDone`, `DoesMore`): cycles are bounded, and leave no more words than are retained.
#![tactic(auto)]

mod acknowledgements;
mod alike;
mod collections;
mod cycle_memory;
mod engine;
mod forwards;
mod initial_states;
mod loans;
mod machine;
mod monitors;
mod positions;
mod prints;
mod steps;
mod thread_starts;
mod waits;

pub use loans::{Loan, LoanRoom};
pub use machine::{Machine, Refused};
pub use positions::Position;
pub use waits::Wait;
