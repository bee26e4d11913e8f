//! How many workers run a program.
ghost use Rattle.std.specs.Prelude.{◌≡◌, ◌<◌, ◌≤◌};

/// How many workers run the threads of a program.
#[derive(Clone, Copy)]
pub struct Workers {
    /// Their number: 1 to 16.
    pub count: u8,
    ghost some: { (0 < count) × (count ≤ 16) },
}

impl Workers {
    /// This number of workers: 1 to 16.
    pub fn new(count: u8) -> Workers
        requires { (0 < count) × (count ≤ 16) }
        ensures { result.count ≡ count }
    {
        Workers { count }
    }
}
