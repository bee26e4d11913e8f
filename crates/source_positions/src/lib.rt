//! Finds the offset of a part of a source, and lays out a message: its location, its sentence and the line with carets.
//! `offset_of` finds a part by its numbers in the tree, `position_of` is the line and the column of an offset, and a `Named` lays messages out. Names
//! and types print as sources write them (`ClassText`, `MethodText`, `TypeText`). What a text says, and where a part is found, is only tested.
//! It passes on the crates whose types it speaks of.
#![tactic(auto)]

mod excerpts;
mod lexemes;
mod lines;
mod locations;
mod marks;
mod members;
mod messages;
mod name_texts;
mod outlines;
mod tokens;

pub use cil_model;
pub use ilasm_tokens;
pub use lexemes::token_at;
pub use lines::{Position, position_of};
pub use locations::{ClassPart, LinePart, Location, MemberPart};
pub use members::{MethodPosition, method_of_number, nth_field, nth_method};
pub use messages::Named;
pub use name_tables;
pub use name_texts::{ClassText, MethodText, TypeText};
pub use outlines::{FoundMember, offset_of};
pub use tokens::{token_after, token_before};
