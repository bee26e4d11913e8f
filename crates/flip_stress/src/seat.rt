//! What a seat does in a stress run.

ghost use Rattle.std.specs.Prelude.{◌≡◌, ◌+◌, ◌*◌, ◌<◌, ◌≤◌, ◌%◌, true};
ghost use Rattle.word_flip.specs.Tokens.{IsWriterOf};
ghost use Rattle.flip_stress.specs.Stress.{own_count, slot_count, IsFlipOf, IsSameSeat};

use crate::sizes::Sizes;
use std::thread::yield_now;
use word_flip::{Flip, Writer};

/// No waiting loop makes more iterations than this.
pub(crate) const MOST_TRANSITIONS: u32 = 1_000_000;

/// The most yields in an iteration.
const MOST_YIELDS: u32 = 64;

/// The last stage.
const RECLAIM: u64 = 2;

/// What a seat found.
#[derive(Drop)]
pub(crate) struct SeatReport {
    /// How often a load gave what was stored just before.
    pub kept: u64,
    /// Whether the last stage was found in time.
    pub reclaims: bool,
}

/// Stores an object to the slot at the index, loads it, and returns whether the load gave the same.
fn keep(flip: &Flip, writer: Writer, sizes: Sizes, index: usize, round: u16) -> (bool, Writer)
    requires flip { IsFlipOf sizes flip.now }
    requires writer { IsWriterOf flip.now writer }
    requires own { (index < slot_count sizes) × (index % sizes.seats ≡ writer.seat) }
    requires round { round < sizes.rounds }
    ensures kept { result.0 ≡ true }
    ensures writer { IsSameSeat writer result.1 }
{
    let slot = sizes.slot_at(index);
    let object = Some((round + slot.object) % sizes.objects);
    let writer = flip.store(writer, slot.object, slot.slot, object);
    let (loaded, writer) = flip.load(writer, slot.object, slot.slot);
    (loaded == object, writer)
}

/// Does so at each index of the seat's own, and counts where the load gave the same.
fn keep_all(flip: &Flip, writer: Writer, sizes: Sizes, round: u16) -> (u64, Writer)
    requires flip { IsFlipOf sizes flip.now }
    requires writer { IsWriterOf flip.now writer }
    requires round { round < sizes.rounds }
    ensures kept { result.0 ≡ own_count writer }
    ensures writer { IsSameSeat writer result.1 }
{
    let seat = writer.seat();
    let mut writer = writer;
    let mut kept = 0;
    for index in 0..sizes.indices() {
        if index % usize::from(sizes.seats) == seat {
            let (same, after) = keep(flip, writer, sizes, index, round);
            kept += u64::from(same);
            writer = after;
        }
    }
    (kept, writer)
}

/// Lets other threads of the host run after an iteration of a waiting loop: it yields once after the first iteration, once more after each later
/// one, and at most 64 times. So where processors are few or taken away, a million iterations last as long as the others need, and not as long as
/// the loop needs.
pub(crate) fn yield_after(transition: u32) {
    for _ in 0..=transition.min(MOST_YIELDS - 1) {
        yield_now();
    }
}

/// Takes up the posted stage until it is the last, and returns whether it came in time.
fn await_reclaim(flip: &Flip, writer: Writer) -> bool
    requires { IsWriterOf flip.now writer }
{
    let mut writer = writer;
    for transition in 0..MOST_TRANSITIONS {
        let (stage, after) = flip.flip_ack(writer);
        if stage == RECLAIM {
            return true;
        }
        writer = after;
        yield_after(transition);
    }
    false
}

/// The work of a seat: all rounds, each followed by taking up the posted stage, and then to wait for the last stage.
pub(crate) fn run_seat(flip: &Flip, writer: Writer, sizes: Sizes) -> SeatReport
    requires flip { IsFlipOf sizes flip.now }
    requires writer { IsWriterOf flip.now writer }
    ensures { result.kept ≡ sizes.rounds * own_count writer }
{
    let mut writer = writer;
    let mut kept = 0;
    for round in 0..sizes.rounds {
        let (more, after) = keep_all(flip, writer, sizes, round);
        kept += more;
        let (_stage, after) = flip.flip_ack(after);
        writer = after;
    }
    SeatReport {
        kept,
        reclaims: await_reclaim(flip, writer),
    }
}
