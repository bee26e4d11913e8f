//! Slots that name objects, kept in two copies: seats use them while a copier moves them to the second copy, without a lock or waiting.
//!
//! A flip has three stages. At 0 each slot is copied, at 1 the seats switch to the second copy one after another, and at 2 the first copies are
//! retired. Under any order of single steps: no load returns a retired word; a seat loads what it last stored from its own slots, through all
//! stages; from those of another seat it loads null or a number below the population; a retired mark stays.
#![tactic(auto)]

mod flip;
mod objects;

pub use flip::{Advance, Copier, Copy, Flip, Retire, Writer};
