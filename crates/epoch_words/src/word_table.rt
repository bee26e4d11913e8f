//! The words that the herald and the seats share, and what each of them knows of these words.
//!
//! With n seats, word j is the number that seat j has seen, for j below n, and word n is the posted number.

use atomic_table::{Play, Split, Table, TableRule};
use std::alloc::Global;

/// What a seat knows. It exists in proofs alone.
pub struct SeatView {
    pub index: u64,
    /// The number that the seat's word has.
    pub seen: u64,
    /// The number that the seat last polled.
    pub polled: u64,
    /// How often it polled.
    pub polls: u64,
}

/// What the herald knows. It exists in proofs alone, where the array is a list of any length.
pub struct HeraldView {
    pub posted: u64,
    /// How many seats were given out.
    pub dealt: u64,
    /// The number that each seat was last found to have seen.
    pub found: [u64; 0],
    /// How many looks at a seat it took.
    pub looks: u64,
    /// The seat of its last look.
    pub looked_at: u64,
}

/// What the holder of a token knows. It exists in proofs alone.
pub enum View {
    OfSeat(SeatView),
    OfHerald(HeraldView),
}

/// The rule that every step keeps. It is given the number of seats.
pub struct EpochRule;

impl TableRule<(), View, usize> for EpochRule {
    ghost use Rattle.epoch_words.specs.Rule.{KeepsEpochs, initial_view};

    ghost holds = { KeepsEpochs };

    ghost first = { initial_view };
}

/// The shared words.
pub type WordTable = Table<(), View, usize, EpochRule, Global>;

/// The right to step on the shared words, with what its holder knows. It has no bytes.
pub type Token = atomic_table::Seat<(), View>;

/// The herald gives out the next seat.
pub(crate) struct DealSeat;

impl Split<View> for DealSeat {
    ghost use Rattle.epoch_words.specs.Steps.{dealt_seat, dealing_herald};

    ghost left = { dealing_herald };

    ghost right = { dealt_seat };
}

/// A seat loads the posted number.
pub(crate) struct LoadPosted;

impl Play<(), View> for LoadPosted {
    ghost use Rattle.epoch_words.specs.Steps.{LoadsPosted};

    ghost then = { LoadsPosted };
}

/// A seat stores its own seen number.
pub(crate) struct StoreSeen;

impl Play<(), View> for StoreSeen {
    ghost use Rattle.epoch_words.specs.Steps.{StoresSeen};

    ghost then = { StoresSeen };
}

/// The herald loads a seat's seen number.
pub(crate) struct LoadSeen;

impl Play<(), View> for LoadSeen {
    ghost use Rattle.epoch_words.specs.Steps.{LoadsSeen};

    ghost then = { LoadsSeen };
}

/// The herald stores the posted number.
pub(crate) struct StorePosted;

impl Play<(), View> for StorePosted {
    ghost use Rattle.epoch_words.specs.Steps.{StoresPosted};

    ghost then = { StoresPosted };
}
