//! Numbers of a run: the steps of its threads, its events, the cycles of the collector, the words in use and of the heap at its end, the most words
//! that were in use, and its refused allocations. `count` counts them in a history, `most_words` performs the history again, and `write_statistics`
//! writes all numbers, a line for each.
#![tactic(auto)]

mod counting;
mod lines;
mod most;
mod quantity;

pub use counting::count;
pub use lines::write_statistics;
pub use most::most_words;
pub use quantity::Quantity;
