//! Runs for each linked instruction of a loaded program its function of `instructions`, by one match.
//! Each linked instruction does exactly its rule; a print that is out of memory does nothing. That the rule has a result is the condition; `simulation`
//! proves it where a machine represents a state.
#![tactic(auto)]

pub mod calls;
mod execution;
pub mod fetch;
pub mod local_runs;
pub mod outcomes;
pub mod stores;

pub use loaded_program as loaded_code;
