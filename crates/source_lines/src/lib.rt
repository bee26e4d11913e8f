//! Finds the lines of instructions in a source.
//! `SourceLines::line` returns exactly the line of the token that names an instruction, given the index of its method among those of the source and
//! its own index in the method (`instruction_line` in specs/Lines.antt). `line_of_byte` is the line of a byte.
#![tactic(auto)]

mod finding;
mod lines;

pub use lines::{SourceLines, line_of_byte};
