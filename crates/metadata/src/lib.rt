//! Decides which trees are legal programs: `resolve` returns the program, or the least of the rules 201 to 207 that is broken; `contents` does it for
//! a tree that the caller keeps.
//!
//! The problem: each rule speaks of chains of bases and of all members in them, and a source can be made slow by long chains, by cycles of bases, by
//! wide interfaces that many classes list, and by abstract methods far up a chain. Rule 202 looks names up before 203 has excluded cycles.
//!
//! The algorithm: no chain is followed but that of the class that is refused. Names are found by `inheritance`, in cycles too. 203: one walk along
//! all bases finds the least class that they lead back to. 204: the methods of an interface are looked up for each class that lists it or, where that
//! is more than a quarter of the declarations, one walk over their changes determines for every class whether it lacks one. 205: one walk over all
//! changes determines for every class whether an abstract method is the nearest of its name, and one in the order of bases whether a method hides one.
//! Functions without a contract only propose what is broken (`suspect`); it is then tested, so a wrong guess costs time alone.
//!
//! The bound: time with the bytes, times a logarithm; rule 204 with at most the bytes to the power of 1.5. It can be used to find a triangle in a graph,
//! and no algorithm is known that does so in linear time. No contract says how long a check takes; docs/MEASUREMENTS.md has what was measured.
#![tactic(auto)]

mod cycles;
mod duplicates;
mod entry;
mod implemented;
mod kinds;
mod lacking;
mod limits;
pub mod mentions;
mod open_slots;
mod program;
mod rules;
mod unknown;
pub mod violations;

pub use program::{MetaError, contents, resolve};
pub use resolved_code::Program;
pub use rules::Rule;
