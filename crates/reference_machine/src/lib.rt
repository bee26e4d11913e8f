//! The reference machine: what a program does, by names and whole lists, and what holds of every run of an accepted program.
//! It has no code: its rules are in specs/, its laws in src/. `laws`: no step takes back an object, its type, a field or what was printed; an
//! instruction raises only the faults that are listed for it; the same events within the same limits have one run. `soundness`: no run of an
//! accepted program is stuck, each step keeps the state typed, and no step makes an object reachable that was not, except those born in it.
//! `waits`: the step of a thread that waits is blocked or uses up its budget, that of any other is never blocked; a blocked set of threads
//! stays blocked until a step uses up the budget of one of them; where not all live threads are deadlocked, one waits for nothing.
#![tactic(auto)]

pub mod laws;
pub mod soundness;
pub mod waits;
