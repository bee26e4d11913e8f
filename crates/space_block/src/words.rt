//! Words at a pointer. No function but the four of this file follows one.

ghost use Rattle.std.specs.Prelude.{◌≡◌, ◌-◌, ◌<◌, ◌≤◌, ◌++◌, ℕ, List, Option, Some, None, length, take, drop, replicate, get_or, slice_set, IfOk};
ghost use denote.RawPtr.{Ptr};
ghost use Rattle.space_block.specs.Memory.{FitsBlock, words_owned, words_lent};
ghost use Rattle.space_block.specs.WrittenWords.{IsWritten};

use std::alloc::{AllocError, Allocator};
use std::marker::{Model, PhantomData, Send, Sync};
use std::mem::{align_of, size_of};

/// Where words begin. It owns nothing.
#[derive(Clone, Copy)]
pub(crate) struct Front {
    start: *mut u64,
}

// It owns nothing, and leads to no word without the words' owner.
unsafe impl Send for Front {}

unsafe impl Sync for Front {}

/// The owner of the words at a front. It takes no space.
pub(crate) struct Words {
    ghost at: { Ptr },
    ghost slots: { List (Option ℕ) },
}

impl Model for Words {
    ghost also_owns = { λ w. words_owned w.at w.slots };

    ghost also_shares = { λ w _ κ. words_lent w.at w.slots κ };
}

// The words go where their owner goes.
unsafe impl Send for Words {}

unsafe impl Sync for Words {}

/// The right to give the words at a front back to the allocator that they are from. It takes no space.
pub(crate) struct Lease<A: Allocator> {
    mark: PhantomData<A>,
    ghost at: { Ptr },
    ghost count: { ℕ },
    ghost alloc: { A },
}

impl<A: Allocator> Model for Lease<A> {
    ghost use base.Fml.{ftrue};
    ghost use Rattle.space_block.specs.Memory.{lease_owned};

    ghost also_owns = { λ l. lease_owned (A.dealloc_token l.alloc) l.at l.count };

    ghost also_shares = { λ _ _ _. ftrue };
}

unsafe impl<A: Allocator + Send> Send for Lease<A> {}

// A `&` to it holds nothing.
unsafe impl<A: Allocator> Sync for Lease<A> {}

/// Takes room for that many words. None of them is written yet.
pub(crate) fn take<A: Allocator>(
    alloc: &A,
    count: usize,
) -> Result<(Front, Words, Lease<A>), AllocError>
    requires { FitsBlock count }
    ensures { IfOk result (λ r. (r.1.at ≡ r.0.start) × (r.1.slots ≡ replicate count None) × (r.2.at ≡ r.0.start) × (r.2.count ≡ count) × (r.2.alloc ≡ alloc.now)) }
{
    match alloc.allocate(count * size_of::<u64>(), align_of::<u64>()) {
        Ok(block) => {
            let front = Front {
                start: block as *mut u64,
            };
            Ok((front, Words {}, Lease { mark: PhantomData }))
        }
        Err(error) => Err(error),
    }
}

/// Gives the words back.
pub(crate) fn give_back<A: Allocator>(
    alloc: &A,
    front: Front,
    count: usize,
    words: Words,
    lease: Lease<A>,
)
    requires { (words.at ≡ front.start) × (length words.slots ≡ count) × (lease.at ≡ front.start) × (lease.count ≡ count) × (lease.alloc ≡ alloc.now) }
{
    let Words {} = words;
    let Lease { mark: _ } = lease;
    unsafe {
        alloc.deallocate(
            front.start as *mut u8,
            count * size_of::<u64>(),
            align_of::<u64>(),
        );
    }
}

impl Words {
    /// The word at an offset that holds one.
    pub(crate) fn read(&self, front: Front, index: usize) -> u64
        requires { (front.start ≡ self.now.at) × IsWritten self.now.slots index }
        ensures { get_or self.now.slots index None ≡ Some result }
    {
        unsafe { *front.start.add(index) }
    }

    /// Stores a word at an offset.
    pub(crate) fn write(&mut self, front: Front, index: usize, word: u64)
        requires { (front.start ≡ self.old.at) × (index < length self.old.slots) }
        ensures { (self.new.at ≡ self.old.at) × (self.new.slots ≡ slice_set self.old.slots index (Some word)) }
    {
        unsafe { *front.start.add(index) = word };
    }

    /// Stores 0 in each slot from `from` on and below `to`.
    pub(crate) fn clear(&mut self, front: Front, from: usize, to: usize)
        requires { (front.start ≡ self.old.at) × (from ≤ to) × (to ≤ length self.old.slots) }
        ensures { (self.new.at ≡ self.old.at) × (self.new.slots ≡ take from self.old.slots ++ replicate (to - from) (Some 0) ++ drop to self.old.slots) }
    {
        for index in from..to {
            self.write(front, index, 0);
        }
    }
}
