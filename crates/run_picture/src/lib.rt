//! Draws a run as a picture: one document of SVG.
//! `picture` performs the events as `Machine::run` does, and writes a well-formed document in which each event of the window is drawn exactly once, in the
//! row of its thread or of the collector and of its report, and in which a sentence names exactly the threads that are deadlocked after the last event.
//! Colors, letters, labels, arrows, lines of fields, tooltips and other sentences are only tested.
#![tactic(auto)]

mod deadlocks;
mod document;
mod errors;
mod event_instructions;
mod fields;
pub mod laws;
mod monitors;
mod parts;
mod picturing;
mod plots;
mod rows;
mod seeing;
mod windows;

pub use errors::PictureError;
pub use picturing::picture;
pub use windows::{MOST_EVENTS, Window};
