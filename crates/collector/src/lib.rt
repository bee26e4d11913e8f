//! The work of a concurrent copying collector (Hudson and Moss, "Sapphire") as single steps, and what holds of the heap in each phase.
//! `IsSoundHeap` in specs/ says what holds; each step does exactly its rule, and takes no memory. Lemmas in proofs/, for each posted phase and each
//! own phase of a thread: stores, births, marks, these steps and the posts keep the heap sound, and keep what a thread or a static field may hold;
//! what may be held is closed under loads; a closed marking has marked all that marked objects refer to.
#![tactic(auto)]

mod copier;
mod flips;
mod marker;
mod progress;
mod references;
mod walks;

pub use copier::{copy_step, shell_step};
pub use flips::{clear_step, flip_static_step, retire};
pub use marker::{is_closed, mark_step, mark_values, scan_statics};
pub use progress::{Attempt, MOST_FAILED_CHECKS, Progress, Stage};
