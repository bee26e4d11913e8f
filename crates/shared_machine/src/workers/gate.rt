//! Where a worker can be held.

/// Is reported when a worker begins a pass, and may hold it there. Another worker's passes continue meanwhile.
pub trait Gate {
    /// The worker of this number begins a pass. `transition` is the number of its passes before, from 0; it stays at 2^32 - 1 once it is there.
    fn pass(&self, worker: u8, transition: u32);

    /// Whether it holds nobody. Then a worker may keep the lock from one pass to the next, and need not report each pass.
    fn is_open(&self) -> bool {
        false
    }
}

/// A gate that holds nobody.
#[derive(Clone, Copy)]
pub struct OpenGate;

impl Gate for OpenGate {
    fn pass(&self, _worker: u8, _transition: u32) {}

    fn is_open(&self) -> bool {
        true
    }
}
