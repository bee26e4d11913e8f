//! The objects of one block.

ghost use Rattle.cil_model.specs.declared.limits.TheConstants.{MOST_WORDS};
ghost use Rattle.object_memory.specs.Cells.{first, size, free_words, used_words, begins_after, cell_in, slots_in, change_in, new_cell, with_last, next_address, store_slot, store_monitor, store_copies};
ghost use Rattle.object_memory.specs.Spaces.{second, other_start, IsOffset};
ghost use Rattle.space_block.specs.Rows.{blank};
ghost use Rattle.std.specs.Prelude.{◌≡◌, ◌⊎◌, ℕ, ◌+◌, ◌<◌, ◌≤◌, length, slice_index, [], true, Some, IsSome, option_map};

use crate::addresses::Addr;
use crate::copies::Copies;
use crate::digests::Digest;
use crate::kinds::Kind;
use crate::monitors::Monitor;
use cil_model::limits::MOST_WORDS;
use space_block::Block;
use std::marker::Model;

/// The words before an object's slots: what it is, what the collector notes at it, and its monitor.
pub(crate) const HEADER_WORDS: usize = 3;

/// Which of them represents the mark and the other copy.
const COPIES_WORD: usize = 1;

/// Which of them represents the monitor.
const MONITOR_WORD: usize = 2;

/// The address of the first object of a heap's first block, and of a second one beside it.
pub(crate) const FIRST: u32 = 1;

const SECOND: u32 = 1_048_577;

/// The objects of one block, in the order of their births. Contracts see cells.
#[derive(Drop)]
pub(crate) struct Space {
    block: Block,
    start: u32,
}

impl Model for Space {
    ghost use Rattle.std.specs.Prelude.{◌≤◌, ◌≡◌, ◌⊎◌, length, take};
    ghost use Rattle.object_memory.specs.Cells.{Cells, first};
    ghost use Rattle.object_memory.specs.Spaces.{second};
    ghost use Rattle.object_memory.specs.Words.{cells_of, IsLaid};
    ghost use Rattle.cil_model.specs.declared.limits.TheConstants.{MOST_WORDS};

    ghost Value = { Cells };

    ghost view = { λ s. record { start = s.start; cells = cells_of (take s.block.used s.block.words); words = length s.block.words } };

    ghost invariant = { λ s. (length s.block.words ≤ MOST_WORDS) × IsLaid s.block.words s.block.used × ((s.start ≡ first) ⊎ (s.start ≡ second)) };
}

impl Space {
    /// A block without objects, whose first one will have this address.
    pub(crate) fn new(block: Block, start: u32) -> Space
        requires blank { block ≡ blank (length block.words) }
        requires limit { length block.words ≤ MOST_WORDS }
        requires start { (start ≡ first) ⊎ (start ≡ second) }
        ensures { result ≡ record { start = start; cells = []; words = length block.words } }
    {
        Space { block, start }
    }

    /// Whether two spaces hold the same cells at the same addresses. True only if they do.
    pub(crate) fn is_like(&self, other: &Space) -> bool
        ensures { result ≡ true → self.now ≡ other.now }
    {
        self.start == other.start
            && self.block.len() == other.block.len()
            && self.block.is_like(&other.block)
    }

    /// Adds the words of all cells to a digest.
    pub(crate) fn digest(&self, digest: &mut Digest) {
        for offset in 0..self.block.used() {
            digest.add(self.block.read(offset));
        }
    }

    /// Drops all objects. The next object gets the first address of a new heap.
    pub(crate) fn reset(&mut self)
        ensures { self.new ≡ record { start = first; cells = []; words = self.old.words } }
    {
        self.block.reset();
        self.start = FIRST;
    }

    /// The number of words of the block.
    pub(crate) fn words(&self) -> usize
        ensures { result ≡ self.now.words }
    {
        self.block.len()
    }

    /// The block, of which no word is in use.
    pub(crate) fn into_block(self) -> Block
        ensures { result ≡ blank self.words }
    {
        let mut block = self.block;
        block.reset();
        block
    }

    /// The address of the first object of a second block beside this one.
    pub(crate) fn other_start(&self) -> u32
        ensures start { result ≡ other_start self.now.start }
        ensures either { (result ≡ first) ⊎ (result ≡ second) }
    {
        FIRST + SECOND - self.start
    }

    /// The words that no object takes.
    pub(crate) fn free_words(&self) -> usize
        ensures free { result ≡ free_words self.now }
        ensures few { result ≤ MOST_WORDS }
    {
        self.block.len() - self.block.used()
    }

    /// The words that objects take, their headers counted.
    pub(crate) fn used_words(&self) -> usize
        ensures used { result ≡ used_words self.now.cells }
        ensures few { result ≤ MOST_WORDS }
    {
        self.block.used()
    }

    /// Makes an object with the given number of slots, which all hold 0 or null, at the front of what is free, and returns its
    /// address.
    pub(crate) fn append(&mut self, kind: Kind, slots: u32) -> Addr
        requires { 3 + slots ≤ free_words self.old }
        ensures cell { self.new ≡ with_last self.old (new_cell kind slots) }
        ensures address { result ≡ next_address self.old }
    {
        let size = HEADER_WORDS + slots as usize;
        let offset = self.block.used();
        self.block.extend(size);
        self.block.write(offset, kind.header(slots));
        Addr {
            number: offset as u32 + self.start,
        }
    }

    /// Whether an address is one of those that its objects may have.
    pub(crate) fn spans(&self, address: Addr) -> bool
        ensures own { IsSome (cell_in self.now address) → result ≡ true }
        ensures range { result ≡ true → (self.now.start ≤ address.number) × (address.number < self.now.start + MOST_WORDS) }
    {
        address.number.wrapping_sub(self.start) < MOST_WORDS
    }

    /// The object that begins after the given number of words of the block. None where these are the words of all objects.
    pub(crate) fn at(&self, offset: u32) -> Option<Addr>
        requires { IsOffset self.now (self.now.start + offset) }
        ensures { result ≡ begins_after self.now offset }
    {
        if offset as usize == self.block.used() {
            return None;
        }
        Some(Addr {
            number: self.start + offset,
        })
    }

    /// What the object is.
    pub(crate) fn kind(&self, address: Addr) -> Kind
        requires { IsSome (cell_in self.now address) }
        ensures { option_map (λ c. c.kind) (cell_in self.now address) ≡ Some result }
    {
        Kind::from_header(self.block.read(address.offset(self.start)))
    }

    /// The number of its fields or elements.
    pub(crate) fn slots(&self, address: Addr) -> u32
        requires { IsSome (cell_in self.now address) }
        ensures slots { result ≡ length (slots_in self.now address) }
        ensures few { result ≤ MOST_WORDS }
    {
        Kind::slots_decoded(self.block.read(address.offset(self.start)))
    }

    /// The words that it takes, its header counted.
    pub(crate) fn size(&self, address: Addr) -> u32
        requires { IsSome (cell_in self.now address) }
        ensures { option_map size (cell_in self.now address) ≡ Some result }
    {
        HEADER_WORDS as u32 + self.slots(address)
    }

    /// The word of a field or element. They count from 0.
    pub(crate) fn slot(&self, address: Addr, index: u32) -> u64
        requires { index < length (slots_in self.now address) }
        ensures { result ≡ slice_index (slots_in self.now address) index }
    {
        self.block
            .read(address.offset(self.start) + HEADER_WORDS + index as usize)
    }

    /// Stores the word of a field or element. Nothing else changes.
    pub(crate) fn set_slot(&mut self, address: Addr, index: u32, word: u64)
        requires { index < length (slots_in self.old address) }
        ensures { self.new ≡ change_in (store_slot index word) self.old address }
    {
        self.block.write(
            address.offset(self.start) + HEADER_WORDS + index as usize,
            word,
        );
    }

    /// Whether the collector has marked the object.
    pub(crate) fn is_marked(&self, address: Addr) -> bool
        requires { IsSome (cell_in self.now address) }
        ensures { option_map (λ c. c.marked) (cell_in self.now address) ≡ Some result }
    {
        Copies::from_word(self.block.read(address.offset(self.start) + COPIES_WORD)).marked
    }

    /// The address of the object's other copy, where it has one.
    pub(crate) fn other(&self, address: Addr) -> Option<Addr>
        requires { IsSome (cell_in self.now address) }
        ensures { option_map (λ c. c.other) (cell_in self.now address) ≡ Some result }
    {
        Copies::from_word(self.block.read(address.offset(self.start) + COPIES_WORD)).other
    }

    /// Sets whether the object is marked, and what its other copy is. Nothing else changes.
    pub(crate) fn set_copies(&mut self, address: Addr, marked: bool, other: Option<Addr>)
        requires { IsSome (cell_in self.old address) }
        ensures { self.new ≡ change_in (store_copies marked other) self.old address }
    {
        let copies = Copies { marked, other };
        self.block
            .write(address.offset(self.start) + COPIES_WORD, copies.word());
    }

    /// The monitor of an object.
    pub(crate) fn cell_monitor(&self, address: Addr) -> Monitor
        requires { IsSome (cell_in self.now address) }
        ensures { option_map (λ c. c.monitor) (cell_in self.now address) ≡ Some result }
    {
        Monitor::from_word(self.block.read(address.offset(self.start) + MONITOR_WORD))
    }

    /// Sets the monitor of an object. Nothing else changes.
    pub(crate) fn set_cell_monitor(&mut self, address: Addr, monitor: Monitor)
        requires { IsSome (cell_in self.old address) }
        ensures { self.new ≡ change_in (store_monitor monitor) self.old address }
    {
        self.block
            .write(address.offset(self.start) + MONITOR_WORD, monitor.word());
    }
}
