//! By which addresses an object is found while it has two copies.

ghost use Rattle.std.specs.Prelude.{◌≡◌, is_some};
ghost use Rattle.cil_model.specs.declared.phases.Phase.TheVariants.{Copy as CopyOf};
ghost use Rattle.object_memory.specs.Cells.{cell_in};
ghost use Rattle.object_memory.specs.Spaces.{AreSpaces, forward};
ghost use Rattle.simulation.specs.instructions.barriers.Barriers.{are_same};
ghost use Rattle.simulation.specs.Sound.{IsSound};
ghost use Rattle.interleaving_core.specs.Forwards.{live_forward};
ghost use Rattle.interleaving_core.specs.Views.{machine_state_of};

use crate::engine::Engine;
use object_memory::{Addr, Heap};

impl Engine {
    /// The forward of any address: that of the new copy where an old object with two copies lies there, else the address itself.
    fn forward_of(&self, address: Addr) -> Addr
        requires sound { IsSound (machine_state_of self.now) }
        ensures { result ≡ forward self.now.store.heap.spaces address }
    {
        let heap = &self.store.heap;
        if heap.is_open() && is_in_old(heap, address) {
            heap.forward(address)
        } else {
            address
        }
    }

    /// The forward of an address where it is that of a literal or of an object of the new space. None of any other.
    pub(crate) fn live_forward(&self, address: Addr) -> Option<Addr>
        requires sound { IsSound (machine_state_of self.now) }
        ensures { result ≡ live_forward self.now.store.heap address }
    {
        let forward = self.forward_of(address);
        if forward.literal_number().is_some() || is_in_new(&self.store.heap, forward) {
            Some(forward)
        } else {
            None
        }
    }

    /// Whether two addresses are equal or those of the two copies of one object.
    pub(crate) fn is_same(&self, first: Addr, second: Addr) -> bool
        requires sound { IsSound (machine_state_of self.now) }
        ensures { result ≡ are_same CopyOf self.now.store.heap first second }
    {
        first == second || self.forward_of(first) == self.forward_of(second)
    }
}

/// Whether an object of the old space, or of the only one, has this address. It looks at one object after another.
fn is_in_old(heap: &Heap, address: Addr) -> bool
    requires { AreSpaces heap.now.spaces }
    ensures { result ≡ is_some (cell_in heap.now.spaces.old address) }
{
    let mut offset = 0;
    while let Some(object) = heap.old_at(offset) {
        if object == address {
            return true;
        }
        offset += heap.size(object);
    }
    false
}

/// Whether an object of the new space has this address. It looks at one object after another.
fn is_in_new(heap: &Heap, address: Addr) -> bool
    requires { AreSpaces heap.now.spaces }
    ensures { result ≡ is_some (cell_in heap.now.spaces.new address) }
{
    let mut offset = 0;
    while let Some(object) = heap.new_at(offset) {
        if object == address {
            return true;
        }
        offset += heap.size(object);
    }
    false
}
