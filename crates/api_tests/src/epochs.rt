//! Epochs that one thread posts and two others acknowledge.

ghost use Rattle.std.specs.Prelude.{◌≡◌};

use epoch_words::{Epochs, Herald, Post, Seat};
use std::alloc::{AllocError, Global};
use std::thread::{Threads, join, yield_now};

/// No waiting loop makes more iterations than this.
const MOST_TRANSITIONS: u32 = 50_000_000;

/// Polls and acknowledges until it has seen `last`, and returns what it saw then, or 0.
fn follow(epochs: &Epochs, mut seat: Seat, last: u64) -> u64
    requires { seat.table ≡ epochs.now.table }
{
    for _ in 0..MOST_TRANSITIONS {
        let (polled, after) = epochs.poll(seat);
        seat = epochs.ack(after);
        if polled == last {
            return polled;
        }
        yield_now();
    }
    0
}

/// Posts until `last` is posted, and returns how many were.
fn lead(epochs: &Epochs, mut herald: Herald, last: u64) -> u64
    requires { herald.table ≡ epochs.now.table }
{
    let mut posted = 0;
    for _ in 0..MOST_TRANSITIONS {
        if posted == last {
            break;
        }
        let (answer, after) = epochs.post(herald);
        herald = after;
        if answer == Post::Posted {
            posted += 1;
        } else {
            yield_now();
        }
    }
    posted
}

/// Both seats follow, each in a thread of its own.
fn follow_both<R: Threads + Sync>(
    rt: &R,
    epochs: &Epochs,
    first: Seat,
    second: Seat,
    last: u64,
) -> (u64, u64)
    requires { (first.table ≡ epochs.now.table) × (second.table ≡ epochs.now.table) }
{
    join(
        rt,
        || follow(epochs, first, last),
        || follow(epochs, second, last),
    )
}

/// Whether both seats see each epoch that is posted up to 200, which are all that are posted.
fn all_are_seen<R: Threads + Sync>(
    rt: &R,
    epochs: &Epochs,
    herald: Herald,
    first: Seat,
    second: Seat,
) -> bool
    requires herald { herald.table ≡ epochs.now.table }
    requires seats { (first.table ≡ epochs.now.table) × (second.table ≡ epochs.now.table) }
{
    let (posted, seen) = join(
        rt,
        || lead(epochs, herald, 200),
        || -> (u64, u64)
            requires { (first.table ≡ epochs.now.table) × (second.table ≡ epochs.now.table) }
        { follow_both(rt, epochs, first, second, 200) },
    );
    posted == 200 && seen == (200, 200)
}

/// Whether a seat that acknowledged the first number is found to have seen it, the other seat not, and the next number is posted once that
/// one acknowledged too.
pub fn counts_in_transition(alloc: Global) -> Result<bool, AllocError> {
    let (epochs, herald, mut seats) = Epochs::new(alloc, 2)?;
    let Some(second) = seats.pop() else {
        return Ok(false);
    };
    let Some(first) = seats.pop() else {
        return Ok(false);
    };
    Ok(are_counted(&epochs, herald, first, second))
}

fn are_counted(epochs: &Epochs, herald: Herald, first: Seat, second: Seat) -> bool
    requires herald { (herald.table ≡ epochs.now.table) × (epochs.now.workers ≡ 2) }
    requires seats { (first.table ≡ epochs.now.table) × (second.table ≡ epochs.now.table) }
{
    let (begun, herald) = epochs.post(herald);
    let (polled, first) = epochs.poll(first);
    let _first = epochs.ack(first);
    let (of_first, herald) = epochs.seen_by(herald, 0);
    let (of_second, herald) = epochs.seen_by(herald, 1);
    let (held, herald) = epochs.post(herald);
    let (_polled, second) = epochs.poll(second);
    let _second = epochs.ack(second);
    let (last, _herald) = epochs.post(herald);
    begun == Post::Posted
        && (polled, of_first, of_second) == (1, 1, 0)
        && held == Post::Late
        && last == Post::Posted
}

/// Whether two threads see each epoch that a third one posts, under any schedule of them.
pub fn threads_see_every_epoch<R: Threads + Sync>(
    rt: &R,
    alloc: Global,
) -> Result<bool, AllocError> {
    let (epochs, herald, mut seats) = Epochs::new(alloc, 2)?;
    let Some(second) = seats.pop() else {
        return Ok(false);
    };
    let Some(first) = seats.pop() else {
        return Ok(false);
    };
    Ok(all_are_seen(rt, &epochs, herald, first, second))
}
