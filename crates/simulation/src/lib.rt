//! Defines what a machine holds and does on each event, and proves that it does what the reference machine does.
//! It has no code: its rules are in specs/, its laws in src/laws.rt (on machines), src/counts.rt (no monitor is held more often than its owner
//! made steps) and src/sizes.rt (how large the parts of a legal program are). The proofs go by instructions, of any memory that is a `MemoryModel`;
//! the heap of a machine with a collector is one for each live thread, whatever its phase. Each acknowledgement and each event of the collector keeps
//! `IsSound` and the state that the machine represents.
#![tactic(auto)]

pub mod counts;
pub mod laws;
pub mod sizes;

pub use collector as collector_code;
pub use interpreter as interpreter_code;
