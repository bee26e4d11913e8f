//! Blocks of raw memory: consecutive words of 64 bits. A word is cleared as it comes into use, so a block costs what is used of it.
//! Four functions follow a pointer. Each is proved by hand against what its caller owns, so no word outside a held block is read or written, and
//! none after the block was given back.
#![tactic(auto)]

ghost use Rattle.std.specs.Prelude.{◌≡◌, ◌+◌, ◌<◌, ◌≤◌, length, take, true, slice_index, slice_set, IfOk};
ghost use Rattle.space_block.specs.Rows.{blank};

mod words;

use crate::words::{Front, Lease, Words, give_back, take};
use std::alloc::{AllocError, Global};
use std::marker::Model;

/// No block has more words, since their bytes fit an `isize`.
const MOST_WORDS: usize = 1_152_921_504_606_846_975;

/// Words that are held until the block is dropped, the first of which are in use. Contracts see the words, of which those that are not in use
/// are 0, and how many are in use. The number of words never changes.
pub struct Block {
    front: Front,
    count: usize,
    used: usize,
    words: Words,
    lease: Lease<Global>,
    alloc: Global,
}

impl Model for Block {
    ghost use Rattle.std.specs.Prelude.{◌≡◌, ◌≤◌, length};
    ghost use Rattle.space_block.specs.Rows.{Row};
    ghost use Rattle.space_block.specs.WrittenWords.{AreWritten, row_of};

    ghost Value = { Row };

    ghost view = { λ b. row_of b.words.slots b.used };

    ghost invariant = { λ b. (b.words.at ≡ b.front.start) × AreWritten b.words.slots b.used × (b.used ≤ b.count) × (b.count ≡ length b.words.slots)
        × (b.lease.at ≡ b.front.start) × (b.lease.count ≡ b.count) × (b.lease.alloc ≡ b.alloc) };
}

/// Gives the memory back.
impl Drop for Block {
    fn drop(self) {
        let Block {
            front,
            count,
            used: _used,
            words,
            lease,
            alloc,
        } = self;
        give_back(&alloc, front, count, words, lease);
    }
}

impl Block {
    /// Takes a block of that many words, of which none is in use. `AllocError` where there is no memory for it; nothing is taken then.
    pub fn new(alloc: Global, words: usize) -> Result<Block, AllocError>
        ensures { IfOk result (λ b. b ≡ blank words) }
    {
        if words > MOST_WORDS {
            return Err(AllocError);
        }
        let (front, held, lease) = take(&alloc, words)?;
        Ok(Block {
            front,
            count: words,
            used: 0,
            words: held,
            lease,
            alloc,
        })
    }

    /// The number of its words.
    pub fn len(&self) -> usize
        ensures { result ≡ length self.now.words }
    {
        self.count
    }

    /// The number of its words in use.
    pub fn used(&self) -> usize
        ensures { result ≡ self.now.used }
    {
        self.used
    }

    /// Whether two blocks have the same number of words in use, and these words are equal. True only if so.
    pub fn is_like(&self, other: &Block) -> bool
        ensures number { result ≡ true → self.now.used ≡ other.now.used }
        ensures words { result ≡ true → take self.now.used self.now.words ≡ take self.now.used other.now.words }
    {
        if self.used != other.used {
            return false;
        }
        for index in 0..self.used {
            if self.read(index) != other.read(index) {
                return false;
            }
        }
        true
    }

    /// The word at an index, which counts from 0. The word is in use.
    pub fn read(&self, index: usize) -> u64
        requires { index < self.now.used }
        ensures { result ≡ slice_index self.now.words index }
    {
        self.words.read(self.front, index)
    }

    /// Stores a word at an index. The word there is in use. All other words stay.
    pub fn write(&mut self, index: usize, word: u64)
        requires { index < self.old.used }
        ensures { self.new ≡ record self.old { words = slice_set self.old.words index word } }
    {
        self.words.write(self.front, index, word);
    }

    /// Brings the next `count` words into use, all of them 0. That takes time for these words alone.
    pub fn extend(&mut self, count: usize)
        requires { self.old.used + count ≤ length self.old.words }
        ensures { self.new ≡ record self.old { used = self.old.used + count } }
    {
        let end = self.used + count;
        self.words.clear(self.front, self.used, end);
        self.used = end;
    }

    /// Takes all words out of use. That takes the same short time for every block.
    pub fn reset(&mut self)
        ensures { self.new ≡ blank (length self.old.words) }
    {
        self.used = 0;
    }
}
