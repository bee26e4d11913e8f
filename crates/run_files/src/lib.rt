//! The text of a `.run` file: what a replay of a record needs of its run, and what it compares with it.
//! `RunFile::of` makes it of a run, `write` writes its text, `read` reads that again, and `compare` compares it with that of another run.
//! `laws`: two runs differ in nothing exactly where their files say the same, and a text says one thing.
#![tactic(auto)]

mod differences;
mod file;
pub mod laws;
mod reading;
mod writing;

pub use differences::{Differences, compare};
pub use file::{CHECKSUM_BYTES, RunFile};
pub use reading::{MALFORMED, read};
pub use writing::write;
