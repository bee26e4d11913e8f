//! What the copier does in a stress run.

ghost use Rattle.std.specs.Prelude.{◌≡◌, ◌+◌, ◌*◌, ◌<◌, ◌≤◌, true};
ghost use Rattle.word_flip.specs.Tokens.{IsCopierOf};
ghost use Rattle.flip_stress.specs.Stress.{slot_count, IsFlipOf, IsSameCopier};

use crate::seat::{MOST_TRANSITIONS, yield_after};
use crate::sizes::{Sizes, Slot};
use word_flip::{Advance, Copier, Copy, Flip, Retire};

/// The outcome of the copier's work.
#[derive(Drop)]
pub(crate) struct CopierReport {
    /// How many first copies were retired.
    pub retired: u64,
    /// Whether every loop ended in time.
    pub finished: bool,
}

/// Copies a slot until it is copied, and returns whether that was in time.
fn copy_slot(flip: &Flip, copier: Copier, sizes: Sizes, slot: Slot) -> (bool, Copier)
    requires flip { IsFlipOf sizes flip.now × IsCopierOf flip.now copier }
    requires slot { (slot.object < sizes.objects) × (slot.slot < sizes.slots) }
    ensures { IsSameCopier copier result.1 }
{
    let mut copier = copier;
    for transition in 0..MOST_TRANSITIONS {
        let (answer, after) = flip.copy_word(copier, slot.object, slot.slot);
        if answer == Copy::Copied {
            return (true, after);
        }
        copier = after;
        yield_after(transition);
    }
    (false, copier)
}

/// Copies each slot, in order, and returns whether each was copied in time.
fn copy_all(flip: &Flip, copier: Copier, sizes: Sizes) -> (bool, Copier)
    requires { IsFlipOf sizes flip.now × IsCopierOf flip.now copier }
    ensures { IsSameCopier copier result.1 }
{
    let mut copier = copier;
    for index in 0..sizes.indices() {
        let (copied, after) = copy_slot(flip, copier, sizes, sizes.slot_at(index));
        copier = after;
        if !copied {
            return (false, copier);
        }
    }
    (true, copier)
}

/// Advances to the last stage, and returns whether that was in time.
fn advance_all(flip: &Flip, copier: Copier) -> (bool, Copier)
    requires { IsCopierOf flip.now copier }
    ensures { IsSameCopier copier result.1 }
{
    let mut copier = copier;
    for transition in 0..MOST_TRANSITIONS {
        let (answer, after) = flip.advance(copier);
        copier = after;
        if answer == Advance::Last {
            return (true, copier);
        }
        yield_after(transition);
    }
    (false, copier)
}

/// Retires the first copy of a slot, and returns whether that was in time.
fn retire_slot(flip: &Flip, copier: Copier, sizes: Sizes, slot: Slot) -> (bool, Copier)
    requires flip { IsFlipOf sizes flip.now × IsCopierOf flip.now copier }
    requires slot { (slot.object < sizes.objects) × (slot.slot < sizes.slots) }
    ensures { IsSameCopier copier result.1 }
{
    let mut copier = copier;
    for transition in 0..MOST_TRANSITIONS {
        let (answer, after) = flip.retire(copier, slot.object, slot.slot);
        copier = after;
        if answer == Retire::Retired {
            return (true, copier);
        }
        yield_after(transition);
    }
    (false, copier)
}

/// Retires each first copy, in order, up to one that wasn't retired in time.
fn retire_all(flip: &Flip, copier: Copier, sizes: Sizes) -> CopierReport
    requires { IsFlipOf sizes flip.now × IsCopierOf flip.now copier }
    ensures all { result.finished ≡ true → result.retired ≡ slot_count sizes }
    ensures few { result.retired ≤ slot_count sizes }
{
    let mut copier = copier;
    let mut retired = 0;
    for index in 0..sizes.indices() {
        let (is_retired, after) = retire_slot(flip, copier, sizes, sizes.slot_at(index));
        if !is_retired {
            return CopierReport {
                retired,
                finished: false,
            };
        }
        copier = after;
        retired += 1;
    }
    CopierReport {
        retired,
        finished: true,
    }
}

/// The work of the copier: to copy each slot, to advance to the last stage, and to retire each first copy.
pub(crate) fn run_copier(flip: &Flip, copier: Copier, sizes: Sizes) -> CopierReport
    requires { IsFlipOf sizes flip.now × IsCopierOf flip.now copier }
    ensures all { result.finished ≡ true → result.retired ≡ slot_count sizes }
    ensures few { result.retired ≤ slot_count sizes }
{
    if let (true, copier) = copy_all(flip, copier, sizes) {
        if let (true, copier) = advance_all(flip, copier) {
            return retire_all(flip, copier, sizes);
        }
    }
    CopierReport {
        retired: 0,
        finished: false,
    }
}
