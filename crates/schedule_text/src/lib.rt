//! Reads and writes the text of a schedule: events in their order.
//! `read_schedule` returns items (an event and its repetitions) for exactly the events of the text, or the fault of its first bad item; `write_schedule`
//! returns the text of the events, or why there is none; `insert_at` puts events among others, or says that they would be more than a schedule has.
//! `laws`: a written text is read as its list; a text has one result, and a list one text.
#![tactic(auto)]

mod errors;
mod inserting;
mod items;
pub mod laws;
mod reading;
mod writing;

pub use errors::{MOST_EVENTS, ScheduleError};
pub use inserting::insert_at;
pub use items::Item;
pub use reading::read_schedule;
pub use writing::write_schedule;
