//! A thread, as the collector sees it.

use cil_model::phases::Phase;

/// A thread that changes the heap while it is collected: its number, and the phase that it has acknowledged.
#[derive(Clone, Copy)]
pub struct Mutator {
    pub number: u8,
    pub phase: Phase,
}
