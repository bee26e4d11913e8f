//! The work of HeapFlip and of Reclaim: static fields get forwards, and the new block becomes the only one.

ghost use Rattle.std.specs.Prelude.{◌≡◌, ◌<◌, ◌^◌, [], true, length};
ghost use Rattle.space_block.specs.Rows.{blank};
ghost use Rattle.cil_model.specs.declared.phases.Phase.TheVariants.{Reclaim};
ghost use Rattle.collector.specs.Conditions.{AreValuesInHeap, IsSoundIn};
ghost use Rattle.collector.specs.Flips.{next_clear_step, next_flip_step, retire_old};

use crate::progress::Progress;
use crate::walks::next_noted;
use barriers::forward;
use object_memory::{Addr, Heap, Value};
use space_block::Block;

/// Flips the next static field: a reference becomes its forward, and an integer stays. False where each field was flipped; nothing
/// changes then.
pub fn flip_static_step(progress: &mut Progress, heap: &Heap, statics: &mut [Value]) -> bool
    requires there { AreValuesInHeap heap.now statics.old }
    requires few { length statics.old < 2 ^ 32 }
    ensures { (progress.new, statics.new, result) ≡ next_flip_step progress.old heap.now statics.old }
{
    let number = progress.flipped_statics as usize;
    if number >= statics.len() {
        return false;
    }
    statics[number] = forward(heap, statics[number]);
    progress.flipped_statics += 1;
    true
}

/// Takes mark and other copy off the next object of the new block that has either, from the cursor on; the others are passed over in the
/// same step. False where none has; nothing changes then.
pub fn clear_step(progress: &mut Progress, heap: &mut Heap) -> bool
    requires { IsSoundIn Reclaim progress.old heap.old }
    ensures { (progress.new, heap.new, result) ≡ next_clear_step progress.old heap.old }
{
    let Some(next) = next_noted(heap, progress.cursor) else {
        return false;
    };
    progress.cursor = next.offset + heap.size(next.object);
    heap.clear(next.object);
    true
}

/// Retires the old block: the new one is the only one, and the cycle is over. The old block, with no word in use, and the empty
/// grey list are handed out.
pub fn retire(heap: &mut Heap) -> (Block, Vec<Addr>)
    requires { heap.old.spaces.is_open ≡ true }
    ensures heap { heap.new ≡ retire_old heap.old }
    ensures block { result.0 ≡ blank heap.old.spaces.old.words }
    ensures grey { result.1.items ≡ [] }
{
    heap.close()
}
