//! Where an object is made.

ghost use Rattle.object_memory.specs.Spaces.{birth_space_of};
ghost use Rattle.std.specs.Prelude.{◌≡◌};

use cil_model::phases::Phase;

/// The blocks in which an object is made.
#[derive(Clone, Copy)]
pub enum BirthSpace {
    /// The old block, or the only one.
    InOld,
    /// The old block. The object is marked and put on the grey list.
    Listed,
    /// Both blocks. Each copy is marked and has the other's address.
    InBoth,
    /// The new block.
    InNew,
}

impl BirthSpace {
    /// Where a thread in this phase makes an object, while a cycle is open or not.
    pub fn of(phase: Phase, is_open: bool) -> BirthSpace
        ensures { result ≡ birth_space_of phase is_open }
    {
        match phase {
            Phase::Idle => BirthSpace::InOld,
            Phase::Mark => BirthSpace::Listed,
            Phase::Allocate | Phase::Copy | Phase::PreFlip | Phase::HeapFlip => BirthSpace::InBoth,
            Phase::ThreadFlip => BirthSpace::InNew,
            Phase::Reclaim => {
                if is_open {
                    BirthSpace::InNew
                } else {
                    BirthSpace::InOld
                }
            }
        }
    }
}
