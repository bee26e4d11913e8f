//! The instructions of ECMA-335 III.3 and III.4, each as one function that does exactly its rule in specs/.
//! The rules: the frames of a thread (specs/Frames.antt); objects, arrays and static fields by slots (specs/ObjectTurns.antt); calls and returns by the
//! number of the method (specs/Calls.antt); the built-in members that print and lock (specs/BuiltInTurns.antt); casts and stores of references by
//! the types of objects (specs/TypeTurns.antt). The arithmetic on integers of 32 and of 64 bits, with its faults, is `Integer` (III.1.5 and III.3).
//!
//! A rule has no result where an operand is missing or of another kind, or where there is no such object, slot or room; that it has one is each
//! caller's condition, which verification gives. Of all calls only a print may be out of memory, and then changes nothing.
#![tactic(auto)]

pub mod arithmetic;
pub mod arrays;
pub mod births;
pub mod branches;
pub mod calls;
pub mod casts;
pub mod control;
mod conversions;
pub mod fields;
mod integers;
pub mod locks;
pub mod printing;
pub mod returns;
pub mod stack;
pub mod statics;
pub mod types;

pub use calls::Callee;
