//! The events of a row of a picture, as spans of events that follow one another.
//! A row draws exactly the numbers that it was given, in their order, and its path has a piece for each span: where it begins and how long it is.
#![tactic(auto)]

ghost use Rattle.std.specs.Prelude.{◌≡◌, ◌++◌, ◌∷◌, [], IfSome, List, OnErr, OnOk, string_bytes};
ghost use Rattle.event_rows.specs.Rows.{rows_of, drawn_by, path_text};
ghost use Rattle.event_rows.specs.declared.Span.{Span as AnySpan};

use std::alloc::{AllocError, Global};
use std::fmt::Write;
use std::marker::Model;

/// Events whose numbers follow one another.
#[derive(Clone, Copy)]
pub struct Span {
    /// The number of the first event.
    pub first: usize,
    /// The number of events.
    pub count: usize,
}

impl Span {
    /// The span of one event.
    fn of(event: usize) -> Span
        ensures { drawn_by result ≡ event ∷ [] }
    {
        Span {
            first: event,
            count: 1,
        }
    }

    /// The span with one event more. None where the event does not follow the last one.
    fn with(self, event: usize) -> Option<Span>
        ensures { IfSome result (λ longer. drawn_by longer ≡ drawn_by self ++ event ∷ []) }
    {
        let Span { first, count } = self;
        if first.checked_add(count) == Some(event) && count < usize::MAX {
            Some(Span {
                first,
                count: count + 1,
            })
        } else {
            None
        }
    }
}

/// A row of a picture, seen by contracts as the list of the numbers of the events that it draws.
#[derive(Drop)]
pub struct Row {
    whole: Vec<Span>,
    last: Option<Span>,
}

impl Model for Row {
    ghost use Rattle.std.specs.Prelude.{◌++◌, List, ℕ};
    ghost use Rattle.event_rows.specs.Rows.{rows_of, drawn_by_last};

    ghost Value = { List ℕ };

    ghost view = { λ r. rows_of r.whole.items ++ drawn_by_last r.last };
}

impl Row {
    /// A row that draws nothing. Takes no memory.
    pub fn new(alloc: Global) -> Row
        ensures { result ≡ [] }
    {
        Row {
            whole: Vec::new(alloc),
            last: None,
        }
    }

    /// Draws the event of this number too. Where it follows the last one, no span is added. The only error is out of memory; it changes
    /// nothing.
    pub fn draw(&mut self, event: usize) -> Result<(), AllocError>
        ensures drawn { OnOk result (self.new ≡ self.old ++ event ∷ []) }
        ensures refused { OnErr result (self.new ≡ self.old) }
    {
        let Some(last) = self.last else {
            self.last = Some(Span::of(event));
            return Ok(());
        };
        let Some(longer) = last.with(event) else {
            self.whole.push(last)?;
            self.last = Some(Span::of(event));
            return Ok(());
        };
        self.last = Some(longer);
        Ok(())
    }

    /// Appends the path of the row at this height: a piece for each span, which together draw exactly the row's events. Nothing where it
    /// draws none. The only error is out of memory; a part of the path may have been appended then.
    pub fn add_path(&self, y: usize, text: &mut String) -> Result<(), AllocError>
        ensures { OnOk result ((spans : List AnySpan) × (rows_of spans ≡ self.now) × (string_bytes text.new ≡ string_bytes text.old ++ path_text y spans)) }
    {
        add_spans(self.whole.as_slice(), y, text)?;
        if let Some(last) = self.last {
            add_spans(&[last], y, text)?;
        }
        Ok(())
    }
}

/// Appends the pieces of spans at this height.
fn add_spans(spans: &[Span], y: usize, text: &mut String) -> Result<(), AllocError>
    ensures { OnOk result (string_bytes text.new ≡ string_bytes text.old ++ path_text y spans.now) }
{
    for span in spans {
        let Span { first, count } = *span;
        write!(text, "M{first} {y}h{count}")?;
    }
    Ok(())
}
