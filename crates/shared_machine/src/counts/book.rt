//! A count for each worker, in a book that lies under a lock and in tickets outside of it. A ticket's count is the one in the book
//! whenever the two meet.

ghost use Rattle.std.specs.Prelude.{◌≡◌, ℕ, ◌<◌, ◌++◌, ◌∷◌, [], length, slice_get, slice_set, Some, IfOk};
ghost use Rattle.shared_machine.specs.Counts.{keeper, claim, Count};

use crate::counts::view::{
    Comparison, CountAuthority, Deals, Meets, Next, Parts, Pass, Renewal, Rest, TableName,
};
use atomic_table::Badge;
use std::alloc::{AllocError, Global};
use std::marker::{Model, PhantomData};
use std::mem;

/// A book that no type names yet, so that a type can name it: `open` gives it the name that its caller picked for it. To contracts it is the
/// table that the name has to be of.
#[derive(Drop)]
pub struct Blank {
    table: CountAuthority,
    seat: Pass,
}

impl Model for Blank {
    ghost use Rattle.std.specs.Prelude.{◌≡◌, []};
    ghost use Rattle.atomic_table.specs.Seated.{TableId};
    ghost use Rattle.shared_machine.specs.Counts.{keeper};

    ghost Value = { TableId };

    ghost view = { λ b. b.table.shared.table_id };

    ghost invariant = { λ b. (b.table.shared.table_id.words ≡ 1) × (b.seat.table_id ≡ b.table.shared.table_id) × (b.seat.me ≡ (keeper [], [])) };
}

/// The count of each worker that was dealt a ticket. To contracts it is the list of the counts, by the workers' numbers.
///
/// The counts have no bytes and no bound: no code reads them, and contracts alone speak of them.
#[derive(Drop)]
pub struct Book<M: TableName> {
    table: CountAuthority,
    seat: Pass,
    of: PhantomData<M>,
}

impl<M: TableName> Model for Book<M> {
    ghost use Rattle.std.specs.Prelude.{◌≡◌, ℕ, List, []};
    ghost use Rattle.shared_machine.specs.Counts.{keeper};

    ghost Value = { List ℕ };

    ghost view = { λ b. b.seat.me.0.book };

    ghost invariant = { λ b. (b.table.shared.table_id ≡ M.table) × (b.table.shared.table_id.words ≡ 1) × (b.seat.table_id ≡ M.table) × (b.seat.me ≡ (keeper b.seat.me.0.book, [])) };
}

/// A worker's right to have its count renewed. To contracts it is the worker's number and its count.
///
/// Each worker has one at most, and nothing copies it. So nobody but its holder changes the worker's count.
#[derive(Drop)]
pub struct Ticket<M: TableName> {
    worker: u8,
    pass: Rest,
    of: PhantomData<M>,
}

impl<M: TableName> Model for Ticket<M> {
    ghost use Rattle.std.specs.Prelude.{◌≡◌, [], ◌∷◌};
    ghost use Rattle.shared_machine.specs.Counts.{Count, claim, count_in};

    ghost Value = { Count };

    ghost view = { λ t. record { worker = t.worker; count = count_in t.pass.views } };

    ghost invariant = { λ t. (t.pass.table_id ≡ M.table) × (t.pass.views ≡ claim t.worker (count_in t.pass.views) ∷ []) };
}

impl Blank {
    /// An empty book without a name. The only error is out of memory, and no other call here takes memory.
    pub fn new(alloc: Global) -> Result<Blank, AllocError> {
        let (table, seat) = CountAuthority::of_words(alloc, &[0], &())?;
        Ok(Blank { table, seat })
    }

    /// The same book under the name that a type has for it. No worker has a ticket yet.
    pub fn open<M: TableName>(self) -> Book<M>
        requires { self ≡ M.table }
        ensures { result ≡ [] }
    {
        let Blank { table, seat } = self;
        Book {
            table,
            seat,
            of: PhantomData,
        }
    }
}

impl<M: TableName> Book<M> {
    /// A ticket for one more worker, whose number is that of the workers before it. Its count is 0; the others' stay.
    pub fn deal(&mut self, worker: u8) -> Ticket<M>
        requires { worker ≡ length self.old }
        ensures book { self.new ≡ self.old ++ 0 ∷ [] }
        ensures ticket { result ≡ record { worker = worker; count = 0 } }
    {
        let Book { table, seat, of: _ } = self;
        let pass = table.shared.split_seat::<Deals>(seat).into_badge();
        Ticket {
            worker,
            pass,
            of: PhantomData,
        }
    }

    /// Takes a ticket back. Its count is the one that the book has for its worker, and the book stays as it was.
    pub fn compare(&mut self, ticket: Ticket<M>)
        ensures same { self.new ≡ self.old }
        ensures agreed { slice_get self.old ticket.worker ≡ Some ticket.count }
    {
        let Book { table, seat, of: _ } = self;
        let Ticket {
            worker: _,
            pass,
            of: _,
        } = ticket;
        table.shared.join_seat::<Meets>(seat, pass.into_seat());
        table.shared.load::<Comparison>(seat, 0);
        let _pass = table.shared.split_seat::<Parts>(seat);
    }

    /// Gives the ticket's worker the count that `N` picks, in the book and in the ticket together.
    ///
    /// The count before was the same in both. The other workers' counts stay.
    pub fn renew<N: Next>(&mut self, ticket: &mut Ticket<M>)
        ensures agreed { slice_get self.old ticket.old.worker ≡ Some ticket.old.count }
        ensures book { self.new ≡ slice_set self.old ticket.old.worker N.next }
        ensures ticket { ticket.new ≡ record { worker = ticket.old.worker; count = N.next } }
    {
        let Book { table, seat, of: _ } = self;
        let Ticket {
            worker: _,
            pass,
            of: _,
        } = ticket;
        let theirs: Pass = mem::replace(pass, Badge::blank()).into_seat();
        table.shared.join_seat::<Meets>(seat, theirs);
        table.shared.load::<Renewal<N>>(seat, 0);
        *pass = table.shared.split_seat::<Parts>(seat).into_badge();
    }
}

impl<M: TableName> Ticket<M> {
    /// The worker's number.
    pub fn worker(&self) -> u8
        ensures { result ≡ self.now.worker }
    {
        self.worker
    }
}
