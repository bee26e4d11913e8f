//! Why a text is no schedule, or a list of events has no text.
ghost use Rattle.std.specs.Prelude.{◌≡◌};
ghost use Rattle.schedule_text.specs.Errors.{number_of};
ghost use Rattle.schedule_text.specs.declared.errors.ScheduleError.TheVariants.{OutOfMemory};

use std::alloc::AllocError;
use thiserror::Error;

/// Events of a schedule.
pub const MOST_EVENTS: usize = 1_000_000;

/// Why a text is no schedule, or a list of events has no text.
#[derive(Clone, Copy, Debug, PartialEq, Eq, Error)]
pub enum ScheduleError {
    /// An item is not `g`, `sN` or `aN`, alone or with `*COUNT` after it.
    #[error("an item is not of the form g, sN or aN, with or without *COUNT")]
    NoItem,
    /// A thread's number is above 15.
    #[error("a thread's number is above 15")]
    NoThread,
    /// There are more than 1,000,000 events.
    #[error("there are more than 1000000 events")]
    TooLong,
    #[error("out of memory")]
    OutOfMemory,
}

impl ScheduleError {
    /// The number that the program prints: 501 `NoItem`, 502 `NoThread`, 503 `TooLong`, and 504 for
    /// out of memory.
    pub fn number(&self) -> u16
        ensures { result ≡ number_of self.now }
    {
        match self {
            ScheduleError::NoItem => 501,
            ScheduleError::NoThread => 502,
            ScheduleError::TooLong => 503,
            ScheduleError::OutOfMemory => 504,
        }
    }
}

impl From<AllocError> for ScheduleError {
    ghost from_gives = { λ _ error. error ≡ OutOfMemory };

    fn from(_error: AllocError) -> ScheduleError {
        ScheduleError::OutOfMemory
    }
}
