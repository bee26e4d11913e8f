//! The barriers of the collector: each store, birth and comparison of references is one call, by the phase that its thread has acknowledged.
//! While no cycle is open each call is the plain one. A stored reference is marked in `Mark`; a store reaches both copies from `Copy` to `ThreadFlip`,
//! the new one with the forward up to `HeapFlip`; references are compared by their forwards from `Copy` to `HeapFlip`.
#![tactic(auto)]

mod births;
mod references;
mod stores;

pub use births::birth;
pub use references::same;
pub use stores::{forward, mark, store_int, store_monitor, store_ref, store_static, store_value};
