//! Keeps which phase a collector has posted, and what each live thread has acknowledged of it.
//! Of every `Posts`: each live thread has acknowledged the posted phase or the one before it, and then the post is open to it; none has answered a
//! round that is not posted (`AreClose`). `post` requires that all have acknowledged the posted phase and that the new one is the next. `laws`:
//! no two live threads are more than one phase apart; the collector waits exactly while a post is open to some thread. No call takes memory, and
//! no contract here says what a phase or a round is for.
#![tactic(auto)]

pub mod laws;
mod posts;

pub use posts::{Posts, Seat};
