//! What the writers and the copier know of the shared words.
//!
//! With m slots and n seats, word k is the first copy of slot k, word m + k the second, word 2 m + j the stage that
//! seat j has taken up, and word 2 m + n the stage.

use atomic_table::{Play, Split, Table, TableRule};
use std::alloc::Global;

/// What is fixed when the words are made.
#[derive(Drop)]
pub struct Plan {
    /// The seat that alone writes to each slot.
    pub writer_of: Vec<u8>,
    pub seats: usize,
    /// Every value that is stored is below this.
    pub limit: u64,
}

/// What is fixed when the words are made. Each view has it. It exists in proofs alone, as the views do, where an array
/// is a list of any length.
pub struct PlanView {
    /// The seat that alone writes to each slot.
    pub owners: [u64; 0],
    pub seats: u64,
    /// Every value that is stored is below this.
    pub limit: u64,
}

/// What the writer of one seat knows.
pub struct WriterView {
    pub plan: PlanView,
    pub index: u64,
    /// The stage that the seat has taken up.
    pub taken_up: u64,
    /// The stage that the seat last polled.
    pub polled: u64,
    /// How often it polled.
    pub polls: u64,
    /// How many loads of a slot it took.
    pub loads: u64,
    /// The word of its last load of a slot.
    pub loaded_word: u64,
    /// The value that this load gave.
    pub loaded: u64,
    /// The value that it last wrote to each slot of its own.
    pub written: [u64; 0],
    /// Every slot and value that it ever wrote.
    pub wrote: [(u64, u64); 0],
    /// The slot whose second copy it has still to store.
    pub pending: Option<u64>,
}

/// What the copier knows.
pub struct CopierView {
    pub plan: PlanView,
    pub stage: u64,
    /// How many writers were given out.
    pub dealt: u64,
    /// The stage that each seat was last found to have taken up.
    pub found: [u64; 0],
    /// How many looks at a seat's stage it took.
    pub looks: u64,
    /// The seat of its last look.
    pub looked_at: u64,
    /// The slot that it copies.
    pub copying: Option<u64>,
    /// The value that it loaded for this.
    pub value: u64,
    /// Whether that value is stored in the second copy.
    pub stored: bool,
    /// How many copies it checked.
    pub checks: u64,
    /// The slot of its last check.
    pub checked_slot: u64,
    /// The value that it loaded there before the copy was stored.
    pub first_load: u64,
    /// The value that it loaded there again, after the copy was stored.
    pub second_load: u64,
    /// Of each slot, whether it was copied.
    pub copied: [bool; 0],
    /// Of each slot, whether it was retired.
    pub retired: [bool; 0],
}

/// What the holder of a token knows.
pub enum View {
    OfWriter(WriterView),
    OfCopier(CopierView),
}

/// The rule that every step keeps. It is given the plan.
pub struct FlipRule;

impl TableRule<(), View, Plan> for FlipRule {
    ghost use Rattle.flip_table.specs.Plans.{plan_of};
    ghost use Rattle.flip_table.specs.Rule.{KeepsFlip, initial_view};

    ghost holds = { λ plan. KeepsFlip (plan_of plan) };

    ghost first = { λ plan. initial_view (plan_of plan) };
}

/// The shared words.
pub type WordTable = Table<(), View, Plan, FlipRule, Global>;

/// The right to step on the shared words, with what its holder knows. It has no bytes.
pub type Token = atomic_table::Seat<(), View>;

/// A seat loads a first copy.
pub(crate) struct LoadFirst;

impl Play<(), View> for LoadFirst {
    ghost use Rattle.flip_table.specs.Steps.{LoadsFirst};

    ghost then = { LoadsFirst };
}

/// A seat loads a second copy.
pub(crate) struct LoadSecond;

impl Play<(), View> for LoadSecond {
    ghost use Rattle.flip_table.specs.Steps.{LoadsSecond};

    ghost then = { LoadsSecond };
}

/// A seat stores to a first copy of its own.
pub(crate) struct StoreFirst;

impl Play<(), View> for StoreFirst {
    ghost use Rattle.flip_table.specs.Steps.{StoresFirst};

    ghost then = { StoresFirst };
}

/// A seat stores to the second copy, after the first.
pub(crate) struct StoreSecond;

impl Play<(), View> for StoreSecond {
    ghost use Rattle.flip_table.specs.Steps.{StoresSecond};

    ghost then = { StoresSecond };
}

/// A seat stores to a second copy alone.
pub(crate) struct StoreAlone;

impl Play<(), View> for StoreAlone {
    ghost use Rattle.flip_table.specs.Steps.{StoresAlone};

    ghost then = { StoresAlone };
}

/// A seat loads the stage.
pub(crate) struct PollStage;

impl Play<(), View> for PollStage {
    ghost use Rattle.flip_table.specs.Steps.{PollsStage};

    ghost then = { PollsStage };
}

/// A seat stores the stage that it takes up.
pub(crate) struct TakeUp;

impl Play<(), View> for TakeUp {
    ghost use Rattle.flip_table.specs.Steps.{TakesUp};

    ghost then = { TakesUp };
}

/// The copier loads a first copy.
pub(crate) struct LoadToCopy;

impl Play<(), View> for LoadToCopy {
    ghost use Rattle.flip_table.specs.Steps.{LoadsToCopy};

    ghost then = { LoadsToCopy };
}

/// The copier stores to a second copy.
pub(crate) struct StoreCopy;

impl Play<(), View> for StoreCopy {
    ghost use Rattle.flip_table.specs.Steps.{StoresCopy};

    ghost then = { StoresCopy };
}

/// The copier loads a first copy again.
pub(crate) struct LoadToCheck;

impl Play<(), View> for LoadToCheck {
    ghost use Rattle.flip_table.specs.Steps.{LoadsToCheck};

    ghost then = { LoadsToCheck };
}

/// The copier loads the stage that a seat has taken up.
pub(crate) struct FindStage;

impl Play<(), View> for FindStage {
    ghost use Rattle.flip_table.specs.Steps.{FindsStage};

    ghost then = { FindsStage };
}

/// The copier stores the next stage.
pub(crate) struct PostStage;

impl Play<(), View> for PostStage {
    ghost use Rattle.flip_table.specs.Steps.{PostsStage};

    ghost then = { PostsStage };
}

/// The copier stores the mark over a first copy.
pub(crate) struct Retire;

impl Play<(), View> for Retire {
    ghost use Rattle.flip_table.specs.Steps.{Retires};

    ghost then = { Retires };
}

/// The copier gives out the next writer.
pub(crate) struct DealWriter;

impl Split<View> for DealWriter {
    ghost use Rattle.flip_table.specs.Steps.{dealing_copier, dealt_writer};

    ghost left = { dealing_copier };

    ghost right = { dealt_writer };
}
