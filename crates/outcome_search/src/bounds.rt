//! How far a search goes, and why it stops.

/// The kind of outcome at which a search stops.
#[derive(Clone, Copy)]
pub enum Goal {
    /// A thread ended by a fault.
    Fault,
    /// A thread is blocked.
    Deadlock,
    /// The printed bytes differ from those of the first outcome.
    Output,
}

/// The bounds of a search.
#[derive(Clone, Copy)]
pub struct Bounds {
    /// The maximum number of states.
    pub states: usize,
    /// The maximum number of preemptions of a schedule; None for no limit.
    pub preemptions: Option<usize>,
    /// The outcome at which it stops; None to find all outcomes.
    pub until: Option<Goal>,
}

/// Why a search stopped before it visited all states.
#[derive(Clone, Copy)]
pub enum Stop {
    /// It reached the maximum number of states.
    States,
    /// It left out schedules with more preemptions than its bound.
    Preemptions,
    /// This thread used up its budget.
    Budget(u8),
    /// This thread was refused memory for an object.
    Refusal(u8),
    /// It found an outcome of this kind.
    Goal(Goal),
}
