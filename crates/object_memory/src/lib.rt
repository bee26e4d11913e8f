//! Objects in blocks of words: contracts see cells, and no caller sees an offset in a block.
//! A heap has one block, or two while a cycle is open, and the monitors of the literals. `birth` makes the cell where the phase of its thread has it,
//! and returns None exactly beyond the room there. A store changes one slot of one cell, or one monitor; `mark`, `shell` and `clear` change the
//! headers that they should and nothing else. `is_like` compares two heaps, and `reset` takes a heap back to its initial state. Only `Heap::new`
//! takes memory: the grey list always has room, and the shell of an object without
//! other copy always fits (`shells_fit`).
#![tactic(auto)]

mod addresses;
mod birth_spaces;
mod copies;
mod digests;
mod grey;
mod heap;
mod kinds;
pub mod laws;
mod monitors;
mod space;
mod values;

pub use addresses::Addr;
pub use birth_spaces::BirthSpace;
pub use cil_model::values::ValueKind;
pub use digests::Digest;
pub use heap::Heap;
pub use kinds::{ArrayElement, ElementType, Kind};
pub use monitors::Monitor;
pub use values::Value;
