//! The monitors that threads enter.

use cil_model::phases::Phase;
use event_trace::Machine;
use object_memory::Addr;
use std::alloc::{AllocError, Global};

/// The largest number of monitors that are drawn. Those that are first entered later are not.
const MOST_MONITORS: usize = 52;

/// An object whose monitor has been entered.
#[derive(Clone, Copy)]
struct KnownObject {
    address: Addr,
    /// The number of its monitor.
    number: usize,
}

/// The objects whose monitors have been entered. A monitor keeps its number when its object is copied.
#[derive(Drop)]
pub(crate) struct Monitors {
    known: Vec<KnownObject>,
    /// The number of monitors that have been entered, including those of objects that have been collected.
    pub(crate) count: usize,
}

impl Monitors {
    /// No monitor has been entered.
    pub(crate) fn new(alloc: Global) -> Monitors {
        Monitors {
            known: Vec::new(alloc),
            count: 0,
        }
    }

    /// The number of an object's monitor, by the address of either copy of the object. None if it has not been entered, or is beyond `MOST_MONITORS`.
    pub(crate) fn number(&self, machine: &Machine, address: Addr) -> Option<usize> {
        let has_copies = !matches!(machine.posted_phase(), Phase::Idle);
        for known in self.known.as_slice() {
            if known.address == address || has_copies && machine.is_same(known.address, address) {
                return Some(known.number);
            }
        }
        None
    }

    /// The number of an object's monitor that a thread enters. None beyond `MOST_MONITORS`.
    pub(crate) fn enter(
        &mut self,
        machine: &Machine,
        address: Addr,
    ) -> Result<Option<usize>, AllocError> {
        let known = self.number(machine, address);
        if known.is_some() || self.count >= MOST_MONITORS {
            return Ok(known);
        }
        let number = self.count;
        let address = machine.live_forward(address).unwrap_or(address);
        self.known.push(KnownObject { address, number })?;
        self.count = number + 1;
        Ok(Some(number))
    }

    /// Replaces each address by that of the new copy, and forgets objects without one: they are unreachable, and their addresses may be reused.
    pub(crate) fn forward(&mut self, alloc: Global, machine: &Machine) -> Result<(), AllocError> {
        let mut kept = Vec::new(alloc);
        for known in self.known.as_slice() {
            if let Some(address) = machine.live_forward(known.address) {
                kept.push(KnownObject {
                    address,
                    number: known.number,
                })?;
            }
        }
        self.known = kept;
        Ok(())
    }
}
