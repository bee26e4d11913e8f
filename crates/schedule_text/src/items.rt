//! The items of a schedule's text.
ghost use Rattle.std.specs.Prelude.{◌≡◌};
ghost use Rattle.schedule_text.specs.Items.{has_thread_number};

use cil_model::events::Event;
use cil_model::limits::MOST_THREADS;

/// An event, and how many times it occurs.
#[derive(Clone, Copy)]
pub struct Item {
    /// The event.
    pub event: Event,
    /// How many times it occurs.
    pub count: usize,
}

/// Whether the event's thread is one that a machine can have; an event of the collector has none.
pub(crate) fn has_thread_number(event: Event) -> bool
    ensures { result ≡ has_thread_number event }
{
    match event {
        Event::Step(thread) | Event::Ack(thread) => usize::from(thread) < MOST_THREADS,
        Event::Gc => true,
    }
}
