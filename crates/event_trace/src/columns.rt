//! The columns of a line.

ghost use Rattle.std.specs.Prelude.{◌≡◌};
ghost use Rattle.event_trace.specs.Columns.{phase_text};

use cil_model::events::Event;
use cil_model::phases::Phase;
use cil_model::reports::{End, Report};
use interleaving_core::Position;
use std::fmt;
use std::fmt::Display;

/// An event as a schedule writes it: `s0`, `a1` or `g`.
#[derive(Clone, Copy)]
pub struct EventText(pub Event);

impl fmt::Display for EventText {
    ghost use Rattle.std.specs.Prelude.{Some};
    ghost use Rattle.schedule_text.specs.Items.{name_of as event_text};

    ghost output = { λ event. Some (event_text event.0) };

    fn fmt<W: fmt::Write>(&self, f: &mut fmt::Formatter<W>) -> fmt::Result {
        match self.0 {
            Event::Step(thread) => write!(f, "s{thread}"),
            Event::Ack(thread) => write!(f, "a{thread}"),
            Event::Gc => f.write_str("g"),
        }
    }
}

/// A report, as words of small letters and hyphens, or the name of the fault that ended the thread (ECMA-335 IV).
#[derive(Clone, Copy)]
pub struct ReportText(pub Report);

impl fmt::Display for ReportText {
    ghost use Rattle.std.specs.Prelude.{Some};
    ghost use Rattle.event_trace.specs.Columns.{report_text};

    ghost output = { λ report. Some (report_text report.0) };

    fn fmt<W: fmt::Write>(&self, f: &mut fmt::Formatter<W>) -> fmt::Result {
        match &self.0 {
            Report::Ran => f.write_str("ran"),
            Report::Blocked => f.write_str("blocked"),
            Report::Ended(End::Done) => f.write_str("done"),
            Report::Ended(End::Budget) => f.write_str("budget"),
            Report::Ended(End::Fault(fault)) => fault.fmt(f),
            Report::Absent => f.write_str("absent"),
            Report::Acked => f.write_str("acked"),
            Report::NothingPosted => f.write_str("nothing-posted"),
            Report::Worked => f.write_str("worked"),
            Report::Waiting => f.write_str("waiting"),
            Report::CycleDone => f.write_str("cycle-done"),
        }
    }
}

/// The number of an event, the event and its report: three columns.
#[derive(Clone, Copy)]
pub(crate) struct EventColumns {
    /// The number of the event, from 1.
    pub(crate) number: usize,
    pub(crate) event: Event,
    pub(crate) report: Report,
}

impl fmt::Display for EventColumns {
    ghost use Rattle.std.specs.Prelude.{Some};
    ghost use Rattle.event_trace.specs.Columns.{event_columns};

    ghost output = { λ columns. Some (event_columns columns) };

    fn fmt<W: fmt::Write>(&self, f: &mut fmt::Formatter<W>) -> fmt::Result {
        let EventColumns { number, .. } = self;
        let event = EventText(self.event);
        let report = ReportText(self.report);
        write!(f, "{number}\t{event}\t{report}")
    }
}

/// How many frames a thread has, and how many values are on the stack of the one that runs: two columns. Hyphens where there is none.
#[derive(Clone, Copy)]
pub(crate) struct SizeColumns(pub(crate) Option<Position>);

impl fmt::Display for SizeColumns {
    ghost use Rattle.std.specs.Prelude.{Some};
    ghost use Rattle.event_trace.specs.Columns.{size_columns};

    ghost output = { λ columns. Some (size_columns columns.0) };

    fn fmt<W: fmt::Write>(&self, f: &mut fmt::Formatter<W>) -> fmt::Result {
        match self.0 {
            None => f.write_str("-\t-"),
            Some(position) => write!(f, "{}\t{}", position.frames, position.height),
        }
    }
}

/// The name of a phase of the collector, in small letters and hyphens.
pub fn phase_name(phase: Phase) -> &'static str
    ensures { result.now ≡ phase_text phase }
{
    match phase {
        Phase::Idle => "idle",
        Phase::Mark => "mark",
        Phase::Allocate => "allocate",
        Phase::Copy => "copy",
        Phase::PreFlip => "pre-flip",
        Phase::HeapFlip => "heap-flip",
        Phase::ThreadFlip => "thread-flip",
        Phase::Reclaim => "reclaim",
    }
}

/// A phase of the collector, by its name.
#[derive(Clone, Copy)]
pub(crate) struct PhaseText(pub(crate) Phase);

impl fmt::Display for PhaseText {
    ghost use Rattle.std.specs.Prelude.{Some};

    ghost output = { λ phase. Some (phase_text phase.0) };

    fn fmt<W: fmt::Write>(&self, f: &mut fmt::Formatter<W>) -> fmt::Result {
        f.write_str(phase_name(self.0))
    }
}

/// The phase that a thread has acknowledged. A hyphen where there is no such thread.
#[derive(Clone, Copy)]
pub(crate) struct OwnColumn(pub(crate) Option<Phase>);

impl fmt::Display for OwnColumn {
    ghost use Rattle.std.specs.Prelude.{Some};
    ghost use Rattle.event_trace.specs.Columns.{own_column};

    ghost output = { λ column. Some (own_column column.0) };

    fn fmt<W: fmt::Write>(&self, f: &mut fmt::Formatter<W>) -> fmt::Result {
        match &self.0 {
            None => f.write_str("-"),
            Some(phase) => PhaseText(*phase).fmt(f),
        }
    }
}

/// How much of the heap is in use, and how far the collector is: four columns.
#[derive(Clone, Copy)]
pub(crate) struct HeapColumns {
    /// The words that objects take in the old space, or the only one.
    pub(crate) old_words: u32,
    /// Those in the new space, 0 where there is none.
    pub(crate) new_words: u32,
    /// The phase that is posted.
    pub(crate) posted_phase: Phase,
    /// The phase that a thread has acknowledged.
    pub(crate) own: Option<Phase>,
}

impl fmt::Display for HeapColumns {
    ghost use Rattle.std.specs.Prelude.{Some};
    ghost use Rattle.event_trace.specs.Columns.{heap_columns};

    ghost output = { λ columns. Some (heap_columns columns) };

    fn fmt<W: fmt::Write>(&self, f: &mut fmt::Formatter<W>) -> fmt::Result {
        let HeapColumns {
            old_words,
            new_words,
            ..
        } = self;
        let posted_phase = PhaseText(self.posted_phase);
        let own = OwnColumn(self.own);
        write!(f, "{old_words}\t{new_words}\t{posted_phase}\t{own}")
    }
}
