//! Two copies of every slot, which seats read and write and one copier copies, without a lock: each call is one atomic step.
//! Each step keeps one rule: each live word is null or among what its one writer wrote.
#![tactic(auto)]

mod flip_table;
mod slot_table;

pub use flip_table::{Copier, FlipTable, Writer};
pub use slot_table::{CopierView, Plan, PlanView, WriterView};
