//! Comparisons of references.

ghost use Rattle.std.specs.Prelude.{◌≡◌, true};
ghost use Rattle.object_memory.specs.Spaces.{forward, is_there};
ghost use Rattle.barriers.specs.Barriers.{are_comparable, are_same, comparison_address, compares_forwards};

use cil_model::phases::Phase;
use object_memory::{Addr, Heap};

/// Whether two references are of one object, or both null (ECMA-335 III.1.5, table 4), for a thread in this phase: from `Copy` to
/// `HeapFlip` it may hold the addresses of both copies of an object.
pub fn same(heap: &Heap, phase: Phase, first: Addr, second: Addr) -> bool
    requires { are_comparable phase heap.now first second ≡ true }
    ensures { result ≡ are_same phase heap.now first second }
{
    comparison_address(heap, phase, first) == comparison_address(heap, phase, second)
}

/// The address by which a reference is compared.
fn comparison_address(heap: &Heap, phase: Phase, reference: Addr) -> Addr
    requires { compares_forwards phase ≡ true → is_there heap.now.spaces reference ≡ true }
    ensures { result ≡ comparison_address phase heap.now reference }
{
    match phase {
        Phase::Copy | Phase::PreFlip | Phase::HeapFlip => forward(heap, reference),
        Phase::Idle | Phase::Mark | Phase::Allocate | Phase::ThreadFlip | Phase::Reclaim => {
            reference
        }
    }
}

/// The forward of a reference. Apart, so that a step between cycles is short.
#[cold]
fn forward(heap: &Heap, reference: Addr) -> Addr
    requires { is_there heap.now.spaces reference ≡ true }
    ensures { result ≡ forward heap.now.spaces reference }
{
    heap.forward(reference)
}
