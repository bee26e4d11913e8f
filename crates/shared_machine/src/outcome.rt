//! What is left of a run that ended.

ghost use Rattle.std.specs.Prelude.{◌≡◌, map, IfOk};
ghost use Rattle.threads_monitors.specs.Threads.{end_of};

use crate::history::History;
use cil_model::reports::End;
use interleaving_core::Machine;
use std::alloc::{AllocError, Global};

/// What is left when all tickets came back.
#[derive(Drop)]
pub struct Outcome {
    /// The machine as the history left it.
    pub machine: Machine,
    /// All that was done, in order.
    pub history: History,
    /// Whether the stop mark was set.
    pub stopped: bool,
    /// Whether the run was stopped before its end because memory ran out, or because an event would have printed beyond the bound.
    pub is_out_of_memory: bool,
}

impl Outcome {
    /// The bytes that the run printed.
    pub fn console(&self) -> &[u8]
        ensures { result.now ≡ self.now.machine.printed }
    {
        self.machine.console()
    }

    /// How each thread that was started has ended, in the order of their numbers: none where it is live. The only error is out of memory.
    pub fn ends(&self, alloc: Global) -> Result<Vec<Option<End>>, AllocError>
        ensures { IfOk result (λ ends. ends.items ≡ map end_of self.now.machine.threads) }
    {
        self.machine.ends(alloc)
    }
}
