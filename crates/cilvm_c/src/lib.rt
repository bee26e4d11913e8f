//! The machine for programs that call C functions: a static library.
//! A host has a session as a pointer that it gives to one call at a time; besides it only numbers, slices and the limits cross. Each call's
//! contract is the machine's own, through the pointer: an event is its transition (`IsTransition`) and one more of what the machine has done since it
//! was opened (`DoesMore`), or nothing is changed. A source that is refused has the number of its fault (`IsNotRun`).
#![tactic(auto)]

mod codes;
mod hosts;
mod limits;
mod running;
mod sessions;
