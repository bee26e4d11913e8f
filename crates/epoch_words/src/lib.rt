//! Epochs: numbers that one herald posts, one after another, and that every worker acknowledges.
//!
//! There is no lock and nobody waits: each call takes single atomic steps on words that all share. Every number seen is the posted one or one less.
//! `post` returns Posted only where every seat was found to have seen the posted number, Late only where a look of this call found one that
//! had not, and Spent exactly at the last number; `poll` and `seen_by` return what one load of the call gave.
#![tactic(auto)]

mod epochs;
mod word_table;

pub use epochs::{Epochs, Herald, Post, Seat};
