//! Parses the command line of `cilvm`, and writes its help, its usage errors and the line of a file that is not read or not written.
//! `order` returns what the arguments ask for, as `clap` finds it, with defaults and all numbers in range; help and the version only where `clap`
//! lists them, and a usage error only where it lists one or the arguments ask for nothing. Control characters of a file name are written as `?`.
#![tactic(auto)]

mod clap_commands;
mod line;
mod unread;
mod version;

pub use line::{LineFault, order};
pub use unread::{Malformed, Unread, Unwritten};
