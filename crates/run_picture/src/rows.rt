//! The rows of a picture: in which of them an event is drawn.

ghost use Rattle.std.specs.Prelude.{◌≡◌, ◌<◌, ◌++◌, ◌∷◌, [], IfOk, OnOk, get_or, length, replicate, set};
ghost use Rattle.run_picture.specs.Rows.{row_of, thread_row, collector_row};
ghost use Rattle.run_picture.specs.declared.rows.TheConstants.{ROWS};
ghost use Rattle.cil_model.specs.declared.limits.TheConstants.{MOST_THREADS};

use cil_model::events::Event;
use cil_model::limits::MOST_THREADS;
use cil_model::reports::{End, Report};
use event_rows::Row;
use std::alloc::{AllocError, Global};

/// How many rows each thread has.
pub(crate) const KINDS: usize = 5;

/// The row of the events of the collector that did some work, the first one after those of the threads.
pub(crate) const WORKED: usize = 80;

/// The row of those that waited for a thread.
pub(crate) const WAITED: usize = 81;

/// The row of those that ended a cycle.
pub(crate) const CYCLE_ENDS: usize = 82;

/// The row of events for which no such thread was live.
pub(crate) const NO_THREAD: usize = 83;

/// How many rows there are.
pub(crate) const ROWS: usize = 84;

/// The row of an event, by its report.
pub(crate) fn row_of(event: Event, report: Report) -> usize
    ensures row { result ≡ row_of event report }
    ensures within { result < ROWS }
{
    match event {
        Event::Step(thread) | Event::Ack(thread) => {
            if usize::from(thread) < MOST_THREADS {
                thread_row(thread, report)
            } else {
                NO_THREAD
            }
        }
        Event::Gc => collector_row(report),
    }
}

/// The row of an event of a thread.
fn thread_row(thread: u8, report: Report) -> usize
    requires { thread < MOST_THREADS }
    ensures row { result ≡ thread_row thread report }
    ensures within { result < ROWS }
{
    let first = KINDS * usize::from(thread);
    match report {
        Report::Ran | Report::Ended(End::Done) => first,
        Report::Ended(End::Budget | End::Fault(_)) => first + 1,
        Report::Blocked => first + 2,
        Report::Acked => first + 3,
        Report::NothingPosted => first + 4,
        Report::Absent | Report::Worked | Report::Waiting | Report::CycleDone => NO_THREAD,
    }
}

/// The row of an event of the collector.
fn collector_row(report: Report) -> usize
    ensures row { result ≡ collector_row report }
    ensures within { result < ROWS }
{
    match report {
        Report::Worked => WORKED,
        Report::Waiting => WAITED,
        Report::CycleDone => CYCLE_ENDS,
        Report::Ran
        | Report::Blocked
        | Report::Ended(_)
        | Report::Absent
        | Report::Acked
        | Report::NothingPosted => NO_THREAD,
    }
}

/// The rows of a picture, by number.
#[derive(Drop)]
pub(crate) struct Rows {
    pub(crate) rows: Vec<Row>,
    ghost all: { length rows.items ≡ ROWS },
}

impl Rows {
    /// Rows that draw nothing.
    pub(crate) fn new(alloc: Global) -> Result<Rows, AllocError>
        ensures { IfOk result (λ drawn. drawn.rows.items ≡ replicate ROWS []) }
    {
        let mut rows = Vec::new(alloc);
        for _row in 0..ROWS {
            rows.push(Row::new(alloc))?;
        }
        Ok(Rows { rows })
    }

    /// Draws the event of this number, from 0, in a row.
    pub(crate) fn draw(&mut self, row: usize, number: usize) -> Result<(), AllocError>
        requires { row < ROWS }
        ensures { OnOk result (self.new.rows.items ≡ set self.old.rows.items row (get_or self.old.rows.items row [] ++ number ∷ [])) }
    {
        self.rows[row].draw(number)
    }

    /// All rows.
    pub(crate) fn as_slice(&self) -> &[Row]
        ensures { result.now ≡ self.now.rows.items }
    {
        self.rows.as_slice()
    }
}
