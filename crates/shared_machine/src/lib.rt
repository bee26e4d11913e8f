//! A machine that workers share under a lock, and workers that run its threads, each worker in a thread of its own.
//! Whenever the lock is free, the machine is at what its transitions over the events of the history make of its initial machine state, with the
//! history's reports, and each worker's count is that of its entries (`World::laws`): a history that a single thread could have made. `perform` adds
//! exactly one entry, or changes nothing where memory is out; `finish` refuses exactly where a ticket is missing. Equal counts have equal events,
//! reports and order (`counts_fix_events`). A ticket and the book agree by ghost words (`renew`): counts are in proofs alone.
#![tactic(auto)]

mod alone;
mod answer;
mod counts;
mod history;
mod outcome;
mod record;
mod shared;
mod together;
mod workers;
mod world;

pub use alone::run_alone;
pub use answer::Answer;
pub use counts::book::{Blank, Book, Ticket};
pub use counts::view::{Next, TableName};
pub use history::{Entry, History, Run, counts_fix_events};
pub use interleaving_core::{Machine, Refused};
pub use outcome::Outcome;
pub use record::write_record;
pub use shared::{MOST_WORKERS, Shared, Unfinished};
pub use together::run_together;
pub use workers::gate::{Gate, OpenGate};
pub use workers::pool::run_workers;
pub use world::{Initial, Lent, World, check_in, lend, perform, run_local, stop};
