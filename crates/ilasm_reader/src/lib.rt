//! Reads ilasm text: the tree of a source, or why it has none (ECMA-335 II.5).
//! `read` returns exactly what the grammar says: too long; otherwise a byte above 127; otherwise no tokens; otherwise tokens without a tree;
//! otherwise the tree. Out of memory may be returned in place of the last three. `laws`: a list of tokens has at most one tree, and a source has
//! one result.
#![tactic(auto)]

mod classes;
mod code;
mod instructions;
pub mod laws;
mod lists;
mod methods;
mod operands;
mod reading;
mod single;
mod types;

pub use reading::{ReadError, read};
