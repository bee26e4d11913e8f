//! Decides which legal programs are accepted: those whose methods all have a typing (ECMA-335 III.1.8).
//! `find_typing` finds the least typing of a method's code, exactly where it has one (III.1.8.1.3), by numbers. Of a program that is not accepted
//! the error of `verify` has the number of the first method in source order without a typing (`IsVerdict`); which instruction and which reason it
//! names is not promised. A `Verified` keeps the program, its layout and a typing of each method; `typings_of` finds these of a program that the caller keeps.
#![tactic(auto)]

mod arguments;
pub mod failures;
pub mod kept_stacks;
mod members;
pub mod merging;
mod order;
mod refusals;
pub mod search;
pub mod stacks;
mod typings;
mod verified;
pub mod ways;

pub use refusals::VerifyError;
pub use typings::{Typing, typings_of};
pub use verified::{Verified, verify};
