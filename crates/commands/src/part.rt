//! Which events of a run a picture shows.
ghost use Rattle.std.specs.Prelude.{◌≡◌, ◌<◌, ◌≤◌};
ghost use Rattle.commands.specs.Parts.{count_in, last_in};

/// The number of the last event that a schedule can have.
pub const LAST_NUMBER: u32 = 1_000_000;

/// A part of the events of a run: from one of them on, up to another or the last. They count from 1.
#[derive(Clone, Copy)]
pub struct Part {
    /// The number of the first one, which a run need not have.
    pub first: u32,
    /// The number of the last one. None for the last that the run has.
    pub last: Option<u32>,
    ghost counted: { 0 < first },
}

impl Part {
    /// The events from the first number, from 1, to the last.
    pub fn new(first: u32, last: Option<u32>) -> Part
        requires { 0 < first }
        ensures first { result.first ≡ first }
        ensures last { result.last ≡ last }
    {
        Part { first, last }
    }

    /// The number of its last event in a run of the given number of events, which is not after them.
    pub fn last_of(self, events: usize) -> usize
        ensures last { result ≡ last_in self.last events }
        ensures within { result ≤ events }
    {
        match self.last {
            None => events,
            Some(last) => events.min(last as usize),
        }
    }

    /// How many events it has in a run of the given number of events.
    pub fn event_count(self, events: usize) -> usize
        ensures count { result ≡ count_in self.first self.last events }
        ensures within { result ≤ events }
    {
        let first = self.first as usize;
        let last = self.last_of(events);
        if last < first { 0 } else { last - first + 1 }
    }
}
