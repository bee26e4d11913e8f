//! Threads: their frames, their budgets, how they start, wait and end, and the monitors that they enter and leave.
//! All frames of a thread lie in memory that is taken whole before its first step; a call, a return, a push and a pop give exactly the frames that they
//! should. `Thread::charge_step` takes one from the budget for each step of a live thread, a blocked one too. `start` checks null, a second start and
//! the sixteen threads in this order, then takes the new thread's memory; `join` is blocked exactly while the thread is live. `enter` and `exit` set
//! the one monitor, or report that another thread holds it. `replace_references` replaces each reference that a frame holds, and nothing else.
#![tactic(auto)]

mod effects;
mod frames;
pub mod laws;
mod monitors;
mod mutators;
mod threads;

pub use effects::Effect;
pub use frames::{FrameMemory, are_same, zero_value};
pub use monitors::{enter, exit};
pub use mutators::Mutator;
pub use threads::{
    Thread, ThreadStart, ThreadStatus, is_live, join, start, start_fault, thread_on,
};
