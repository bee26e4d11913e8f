//! When a run by workers stops.

/// When a run by workers stops.
#[derive(Clone, Copy, Debug)]
pub enum StopAt {
    /// Once no thread of the program is live.
    End,
    /// Also once each live thread waits for a monitor that another thread holds or for the end of a live thread.
    Deadlock,
}
