//! The seats of workers that drive no live thread.

ghost use Rattle.std.specs.Prelude.{◌≡◌, All, IfSome, length, vec_capacity, vec_len};
ghost use Rattle.epoch_words.specs.Tokens.{EpochsValue};
ghost use Rattle.shared_machine.specs.Work.{IsSeatHere, IsSeatIn, IsSeatOf};

use crate::counts::view::TableName;
use epoch_words::{Epochs, Seat};
use std::marker::{Model, PhantomData};
use std::sync::{Mutex, Wait};

/// The seats of the workers that drive no live thread, all of the epochs that `E` names. Any of them serves any worker.
#[derive(Drop)]
pub(crate) struct Parked<E: TableName> {
    seats: Vec<Seat>,
    of: PhantomData<E>,
}

impl<E: TableName> Model for Parked<E> {
    ghost use Rattle.std.specs.Prelude.{All, List};
    ghost use Rattle.epoch_words.specs.Tokens.{SeatValue};
    ghost use Rattle.shared_machine.specs.Work.{IsSeatIn};

    ghost Value = { List SeatValue };

    ghost view = { λ p. p.seats.items };

    ghost invariant = { λ p. All (IsSeatIn E.table) p.seats.items };
}

/// Has the last of these seats acknowledge the posted number, that many at most.
fn acknowledge_last(epochs: &Epochs, seats: &mut Vec<Seat>, most: usize)
    requires { All (IsSeatOf epochs.now) seats.old.items }
    ensures all { All (IsSeatOf epochs.now) seats.new.items }
    ensures room { (vec_len seats.new ≡ vec_len seats.old) × (vec_capacity seats.new ≡ vec_capacity seats.old) }
{
    if most == 0 {
        return;
    }
    let Some(seat) = seats.pop() else {
        return;
    };
    acknowledge_last(epochs, seats, most - 1);
    let (_posted, seat) = epochs.poll(seat);
    seats.push_reserved(epochs.ack(seat));
}

impl<E: TableName> Parked<E> {
    /// These seats, before any worker has looked for live threads.
    pub fn new(seats: Vec<Seat>) -> Parked<E>
        requires { All (IsSeatIn E.table) seats.items }
    {
        Parked {
            seats,
            of: PhantomData,
        }
    }

    /// Takes a seat. None where none is parked.
    pub fn take(&mut self) -> Option<Seat>
        ensures { IfSome result (IsSeatIn E.table) }
    {
        self.seats.pop()
    }

    /// Parks a seat. It comes back where there is no memory for it.
    pub fn put(&mut self, seat: Seat) -> Option<Seat>
        requires { IsSeatIn E.table seat }
        ensures { IfSome result (IsSeatIn E.table) }
    {
        if self.seats.reserve(1).is_err() {
            return Some(seat);
        }
        self.seats.push_reserved(seat);
        None
    }

    /// Acknowledges the posted number for that many workers at most, which drive no live thread that would have to acknowledge first.
    pub fn acknowledge(&mut self, epochs: &Epochs, idle: usize)
        requires { epochs.now.table ≡ E.table }
    {
        acknowledge_last(epochs, &mut self.seats, idle);
    }
}

/// The seat that a worker has, or else a parked one.
pub(crate) fn seat_of<E: TableName, R: Wait>(
    rt: &R,
    parked: &Mutex<Parked<E>>,
    seat: Option<Seat>,
) -> Option<Seat>
    ensures { (epochs : EpochsValue) → epochs.table ≡ E.table → IsSeatHere epochs seat → IsSeatHere epochs result }
{
    match seat {
        Some(own) => Some(own),
        None => parked.lock(rt).take(),
    }
}
