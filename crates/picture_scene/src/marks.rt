//! What is seen of a run, as marks from one event up to another.

/// The lane of the collector. A thread has the lane of its number.
pub const COLLECTOR: usize = 256;

/// The end of a mark that lasts up to the end of the picture.
pub(crate) const OPEN: usize = usize::MAX;

/// What a mark shows, and what its two numbers are, which are 0 where nothing is said.
#[derive(Clone, Copy, PartialEq, Eq)]
pub enum Kind {
    /// The phase that a thread has acknowledged, or that the collector has posted, by its index in a cycle: 0 is none.
    Phase,
    /// The words in use of the old or only space, and those of the new one.
    Words,
    /// A thread waits for the monitor that this thread holds.
    Wait,
    /// A thread waits for the end of this thread.
    Join,
    /// A thread holds the monitor of this number, in a stripe of this depth below its lane.
    Held,
    /// A thread printed: from the first of these bytes of what is printed, up to the second.
    Print,
    /// A thread acknowledged what was posted.
    Ack,
    /// A thread loaded the static field of this index.
    Load,
    /// A thread stored the static field of this index.
    Store,
    /// A load of the static field of this index, and the next store of the same thread.
    Update,
    /// An update that overwrites a store of another thread. The second number is the index of its mark.
    LostUpdate,
    /// The tooltip of an event, as a range of bytes of the text of the scene.
    Tip,
    /// The short name of the instruction of a step, as such a range.
    Name,
}

/// Something that is seen in a lane, from an event up to another one. Events have their numbers from 0.
#[derive(Clone, Copy)]
pub struct Mark {
    pub kind: Kind,
    pub lane: usize,
    pub from: usize,
    pub to: usize,
    pub value: usize,
    pub other: usize,
}

impl Mark {
    /// A mark of one event.
    pub fn at(kind: Kind, lane: usize, event: usize, value: usize, other: usize) -> Mark {
        Mark {
            kind,
            lane,
            from: event,
            to: event.saturating_add(1),
            value,
            other,
        }
    }

    /// Whether it is of this kind in a lane.
    pub(crate) fn is(&self, kind: Kind, lane: usize) -> bool {
        self.kind == kind && self.lane == lane
    }

    /// Whether it is a time of waiting of a thread.
    pub(crate) fn is_wait(&self, thread: usize) -> bool {
        self.lane == thread && matches!(self.kind, Kind::Wait | Kind::Join)
    }

    /// Whether it is an update of the static field of this index.
    pub(crate) fn is_update(&self, field: usize) -> bool {
        self.value == field && matches!(self.kind, Kind::Update | Kind::LostUpdate)
    }
}

/// A range of bytes of the text of a scene.
#[derive(Clone, Copy)]
pub struct Part {
    pub from: usize,
    pub to: usize,
}

/// The bytes from one index up to another. Empty if there is no such range.
pub(crate) fn part_of(bytes: &[u8], from: usize, to: usize) -> &[u8] {
    if from <= to && to <= bytes.len() {
        &bytes[from..to]
    } else {
        &[]
    }
}
