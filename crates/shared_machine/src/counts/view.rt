//! What the book and the tickets know, the rule over it, and the steps by which it changes.

ghost use Rattle.std.specs.Prelude.{ℕ};

use atomic_table::{Badge, Join, Play, Seat, Split, Table, TableRule};
use std::alloc::Global;
use std::collections::LinkedList;
use std::marker::{Brand, PhantomData};

/// Names one book. Who opens it picks the name, at `Brand`.
pub trait TableName {
    ghost use Rattle.atomic_table.specs.Seated.{TableId};

    ghost table: { TableId };
}

impl TableName for Brand {
    ghost use Rattle.shared_machine.specs.Counts.{no_table};

    ghost table = { no_table };
}

/// What a seat knows: whether it has the book and which, whether it has a ticket and which. No value of it is made.
pub struct View {
    pub keeps: bool,
    pub book: LinkedList<u64>,
    pub claims: bool,
    pub worker: u64,
    pub count: u64,
}

/// The rule: one seat at most has the book, and each worker has one ticket at most, with the count that is in the book.
pub struct Agreement;

impl TableRule<u64, View, ()> for Agreement {
    ghost use Rattle.std.specs.Prelude.{[]};
    ghost use Rattle.shared_machine.specs.Counts.{keeper, Kept};

    ghost holds = { λ _ s. Kept s.views };

    ghost first = { λ _. keeper [] };
}

/// One more worker, with its ticket.
pub struct Deals;

impl Split<View> for Deals {
    ghost use Rattle.std.specs.Prelude.{length};
    ghost use Rattle.shared_machine.specs.Counts.{grow_view, claim};

    ghost left = { grow_view };

    ghost right = { λ v. claim (length v.book) 0 };
}

/// A ticket is joined with the book.
pub struct Meets;

impl Join<View> for Meets {
    ghost use Rattle.shared_machine.specs.Counts.{both, nobody};

    ghost both = { both };

    ghost spent = { nobody };
}

/// The ticket leaves the book.
pub struct Parts;

impl Split<View> for Parts {
    ghost use Rattle.shared_machine.specs.Counts.{without, ticket_of};

    ghost left = { without };

    ghost right = { ticket_of };
}

/// The next count of a ticket. Each call picks it.
pub trait Next {
    ghost next: { ℕ };
}

impl Next for Brand {
    ghost next = { 0 };
}

/// The step by which a worker has the next count, in the book and in its ticket.
pub struct Renewal<N: Next>(PhantomData<N>);

impl<N: Next> Play<u64, View> for Renewal<N> {
    ghost use Rattle.shared_machine.specs.Counts.{Renews};

    ghost then = { Renews N.next };
}

/// The step that changes nothing, and reports that the ticket's count is in the book.
pub struct Comparison;

impl Play<u64, View> for Comparison {
    ghost use Rattle.shared_machine.specs.Counts.{Compares};

    ghost then = { Compares };
}

/// The table of one word that the seats lie beside.
pub type CountAuthority = Table<u64, View, (), Agreement, Global>;

/// A seat of it.
pub type Pass = Seat<u64, View>;

/// A seat at rest in a ticket.
pub type Rest = Badge<View>;
