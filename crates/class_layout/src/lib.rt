//! Computes where the fields of a legal program lie, which method each call runs, and which types are assignable, as tables of numbers.
//! What a `Layout` returns is exactly what the definitions say, of every class, field, method and pair of types that the program has. No two
//! instance fields of an object have the same slot, whichever class of the chain declares them, and a slot holds what its field holds
//! (`slots_are_apart`).
#![tactic(auto)]

mod ancestry;
mod classes;
mod fields;
mod kinds;
pub mod laws;
mod layout;
mod method_families;
mod program;
mod rows;
mod slot_uses;
mod slots;
mod targets;

pub use kinds::SlotKind;
pub use layout::Layout;
pub use program::lay_out;
