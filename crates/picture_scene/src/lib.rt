//! What a picture of a run shows beside its rows: a `Scene` gathers marks while the events are done, and is then drawn, part by part, where a `Layout` says.
//! Colors, letters, labels and arrows are only tested.
#![tactic(auto)]

mod above;
mod arrows;
mod front;
mod ground;
mod heap;
mod layout;
mod legend;
mod lines;
mod marks;
mod phases;
mod scene;
mod stripes;
mod tooltips;

pub use front::add_front;
pub use ground::{add_below, add_ground, tints};
pub use layout::{LEFT, Layout, WHOLE_WIDTH, WIDTH};
pub use marks::{COLLECTOR, Kind, Mark, Part};
pub use scene::{Deadlock, Field, Lane, Scene};
pub use stripes::letter_of;
pub use tooltips::{MOST_TIPS, tips};
