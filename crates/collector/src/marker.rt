//! The work of Mark: what static fields, frames and marked objects refer to is marked.

ghost use Rattle.std.specs.Prelude.{◌≡◌, true, Some};
ghost use Rattle.cil_model.specs.declared.phases.Phase.TheVariants.{Mark};
ghost use Rattle.cil_model.specs.declared.trees.Tree.{Tree};
ghost use Rattle.class_layout.specs.Layouts.{IsLayout};
ghost use Rattle.object_memory.specs.Cells.{Cell, cell_in};
ghost use Rattle.collector.specs.Conditions.{AreValuesInHeap, IsReadable, IsSoundFor};
ghost use Rattle.collector.specs.MarkSteps.{is_closed, next_mark_step, slot_scanned, statics_scanned, with_all_marked};

use crate::progress::Progress;
use crate::references::holds_reference;
use barriers::mark;
use class_layout::Layout;
use object_memory::{Addr, Heap, Value, ValueKind};
use phase_handshake::Posts;

/// Marks what the static fields refer to, all of them in one step. They are roots: a store to one later marks what it stores.
pub fn scan_statics(progress: &mut Progress, heap: &mut Heap, statics: &[Value])
    requires open { heap.old.spaces.is_open ≡ true }
    requires there { AreValuesInHeap heap.old statics.now }
    ensures { (progress.new, heap.new) ≡ statics_scanned progress.old heap.old statics.now }
{
    mark_values(heap, statics);
    progress.scanned_statics = true;
}

/// Marks what values refer to, as those that the frames of a thread hold. Nothing else changes.
pub fn mark_values(heap: &mut Heap, values: &[Value])
    requires open { heap.old.spaces.is_open ≡ true }
    requires there { AreValuesInHeap heap.old values.now }
    ensures { heap.new ≡ with_all_marked heap.old values.now }
{
    for value in values {
        mark(heap, *value);
    }
}

/// Scans one slot of the oldest grey object, or takes the object off the grey list once each slot is scanned: it is black then.
/// False where no object is grey; nothing changes then.
pub fn mark_step(progress: &mut Progress, heap: &mut Heap, layout: &Layout) -> bool
    requires { IsSoundFor layout.now Mark progress.old heap.old }
    ensures { (tree : Tree) → IsLayout tree layout.now → (progress.new, heap.new, result) ≡ next_mark_step tree progress.old heap.old }
{
    let Some(oldest) = heap.grey_front() else {
        return false;
    };
    let slot = progress.scanned_slots;
    if slot < heap.slots(oldest) {
        scan_slot(heap, layout, oldest, slot);
        progress.scanned_slots = slot + 1;
    } else {
        heap.take_grey();
        progress.scanned_slots = 0;
    }
    true
}

/// Marks what a slot of an old object refers to, where it holds a reference. Nothing else changes.
fn scan_slot(heap: &mut Heap, layout: &Layout, object: Addr, slot: u32)
    requires open { heap.old.spaces.is_open ≡ true }
    requires readable { IsReadable layout.now heap.old object slot }
    ensures { (tree : Tree) → IsLayout tree layout.now → (c : Cell) → cell_in heap.old.spaces.old object ≡ Some c → heap.new ≡ slot_scanned tree heap.old c slot }
{
    if holds_reference(layout, heap.kind(object), slot) {
        let word = heap.slot(object, slot);
        mark(heap, Value::of_word(ValueKind::Ref, word));
    }
}

/// Whether nothing is left to mark: the static fields were scanned, no object is grey, and each live thread has answered a round
/// since whose post nothing was marked.
pub fn is_closed(progress: &Progress, heap: &Heap, posts: &Posts) -> bool
    ensures { result ≡ is_closed progress.now heap.now posts.now }
{
    progress.scanned_statics
        && heap.grey_front().is_none()
        && posts.has_round()
        && posts.all_answered()
        && !heap.has_marked()
}
