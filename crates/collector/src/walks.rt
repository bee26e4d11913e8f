//! The next object of a block that there is work at, from an offset on.

ghost use Rattle.std.specs.Prelude.{◌≡◌, ◌+◌, Some, IfSome, IsSome, option_map};
ghost use Rattle.object_memory.specs.Cells.{Cell, cell_in};
ghost use Rattle.object_memory.specs.Spaces.{AreSpaces, IsOffset, cell_at, found_in, has_other, is_noted};
ghost use Rattle.collector.specs.Conditions.{found_at};

use object_memory::{Addr, Heap};

/// An object of a block, and how many words of the block lie before it.
#[derive(Clone, Copy)]
pub(crate) struct FoundObject {
    pub offset: u32,
    pub object: Addr,
}

/// An old object with two copies, and the address of the new one.
#[derive(Clone, Copy)]
pub(crate) struct Twin {
    pub found: FoundObject,
    pub copy: Addr,
}

/// The first object of the old block that has another copy, at an offset or after it.
pub(crate) fn next_copied(heap: &Heap, offset: u32) -> Option<Twin>
    requires spaces { AreSpaces heap.now.spaces }
    requires offset { IsOffset heap.now.spaces.old (heap.now.spaces.old.start + offset) }
    ensures found { option_map (λ t. t.found) result ≡ option_map (found_at heap.now.spaces.old) (found_in has_other heap.now.spaces.old (heap.now.spaces.old.start + offset)) }
    ensures there { IfSome result (λ t. IsSome (cell_in heap.now.spaces.old t.found.object)) }
    ensures copy { IfSome result (λ t. option_map (λ c. c.other) (cell_at heap.now.spaces t.found.object) ≡ Some (Some t.copy)) }
{
    let mut at = offset;
    while let Some(object) = heap.old_at(at) {
        if let Some(copy) = heap.other(object) {
            let found = FoundObject { offset: at, object };
            return Some(Twin { found, copy });
        }
        at += heap.size(object);
    }
    None
}

/// The first object of the new block that has a mark or another copy, at an offset or after it.
pub(crate) fn next_noted(heap: &Heap, offset: u32) -> Option<FoundObject>
    requires spaces { AreSpaces heap.now.spaces }
    requires offset { IsOffset heap.now.spaces.new (heap.now.spaces.new.start + offset) }
    ensures found { result ≡ option_map (found_at heap.now.spaces.new) (found_in is_noted heap.now.spaces.new (heap.now.spaces.new.start + offset)) }
    ensures there { IfSome result (λ f. IsSome (cell_in heap.now.spaces.new f.object)) }
{
    let mut at = offset;
    while let Some(object) = heap.new_at(at) {
        if is_noted(heap, object) {
            return Some(FoundObject { offset: at, object });
        }
        at += heap.size(object);
    }
    None
}

/// Whether an object of the new block has a mark or another copy.
fn is_noted(heap: &Heap, object: Addr) -> bool
    requires spaces { AreSpaces heap.now.spaces }
    requires there { IsSome (cell_in heap.now.spaces.new object) }
    ensures { (c : Cell) → cell_in heap.now.spaces.new object ≡ Some c → result ≡ is_noted c }
{
    heap.is_marked(object) || heap.other(object).is_some()
}
