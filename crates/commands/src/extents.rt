//! The bounds of an exploration.

/// The outcome at which an exploration stops.
#[derive(Clone, Copy, PartialEq, Eq)]
pub enum Goal {
    /// One in which a thread ended by a fault.
    Fault,
    /// One in which a thread is blocked.
    Deadlock,
    /// One whose printed bytes differ from those of the first outcome.
    Output,
}

/// The bounds of an exploration.
#[derive(Clone, Copy)]
pub struct Extent {
    /// The maximum number of states.
    pub states: u32,
    /// The maximum number of preemptions of a schedule; None for no limit.
    pub preemptions: Option<u32>,
    /// The outcome at which it stops; None to find all outcomes.
    pub until: Option<Goal>,
}
