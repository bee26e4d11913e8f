//! The memory of a cycle of the collector: its second block and its grey list.

ghost use Rattle.std.specs.Prelude.{◌≡◌, ◌≤◌, ◌==◌, ◌&&◌, [], length, nat_le, vec_capacity, IfOk};
ghost use Rattle.space_block.specs.Rows.{blank};

use cil_model::memory::NoMemory;
use object_memory::Addr;
use space_block::Block;
use std::alloc::Global;
use std::marker::Model;

/// A block without a word in use, and an empty grey list. A cycle that ends leaves those of its old space to the next one. Contracts see
/// the number of words of the block, and the number of objects that the list has room for.
pub struct CycleMemory {
    block: Block,
    grey: Vec<Addr>,
}

impl Model for CycleMemory {
    ghost use Rattle.std.specs.Prelude.{◌≡◌, [], length, vec_capacity};
    ghost use Rattle.space_block.specs.Rows.{blank};
    ghost use Rattle.interleaving_core.specs.CycleMemories.{CycleRoom};

    ghost Value = { CycleRoom };

    ghost view = { λ m. record { words = length m.block.words; objects = vec_capacity m.grey } };

    ghost invariant = { λ m. (m.block ≡ blank (length m.block.words)) × (m.grey.items ≡ []) };
}

/// Both parts give back their memory.
impl Drop for CycleMemory {
    fn drop(self) {
        let CycleMemory {
            block: _block,
            grey: _grey,
        } = self;
    }
}

impl CycleMemory {
    /// New memory: a block of that many words, and a list with room for that many objects.
    pub fn new(alloc: Global, words: usize, objects: usize) -> Result<CycleMemory, NoMemory>
        ensures { IfOk result (λ m. (m.words ≡ words) × (objects ≤ m.objects)) }
    {
        let block = Block::new(alloc, words)?;
        let grey = Vec::with_capacity(alloc, objects)?;
        Ok(CycleMemory { block, grey })
    }

    /// The memory that a cycle leaves when it ends.
    pub fn of_parts(block: Block, grey: Vec<Addr>) -> CycleMemory
        requires blank { block ≡ blank (length block.words) }
        requires empty { grey.items ≡ [] }
        ensures { result ≡ record { words = length block.words; objects = vec_capacity grey } }
    {
        CycleMemory { block, grey }
    }

    /// The block and the list.
    pub fn into_parts(self) -> (Block, Vec<Addr>)
        ensures block { result.0 ≡ blank self.words }
        ensures grey { (result.1.items ≡ []) × (vec_capacity result.1 ≡ self.objects) }
    {
        let CycleMemory { block, grey } = self;
        (block, grey)
    }

    /// Whether a cycle can be opened with it that needs a block of that many words, and a list with room for that many objects.
    fn fits(&self, words: usize, objects: usize) -> bool
        ensures { result ≡ ((self.now.words == words) && nat_le objects self.now.objects) }
    {
        self.block.len() == words && objects <= self.grey.capacity()
    }

    /// Memory for a cycle: the spare, where it fits, else new memory. A spare that does not fit is given back first: spaces never get
    /// smaller, so no later cycle has a use for it.
    pub fn take_or_new(
        spare: &mut Option<CycleMemory>,
        alloc: Global,
        words: usize,
        objects: usize,
    ) -> Result<CycleMemory, NoMemory>
        ensures { IfOk result (λ m. (m.words ≡ words) × (objects ≤ m.objects)) }
    {
        if let Some(memory) = spare.take() {
            if memory.fits(words, objects) {
                return Ok(memory);
            }
        }
        CycleMemory::new(alloc, words, objects)
    }
}
