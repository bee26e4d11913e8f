//! Why the calls end.

use crate::calls::Call;
use cil_model::memory::NoMemory;
use ilasm_reader::ReadError;
use interleaving_core::Refused;
use metadata::MetaError;
use schedule_text::ScheduleError;
use std::alloc::AllocError;
use std::io;
use verifier::VerifyError;

/// Why the calls end before the last one.
#[derive(Clone, Copy)]
pub enum Stop {
    /// This call was out of memory.
    OutOfMemory(Call),
    /// The source, the limits or the schedule were refused, with this number.
    Refused(u16),
    /// A call returned a result that it may not return.
    Wrong(&'static str),
    /// The arguments are not a source and a schedule.
    Usage,
    /// Memory ran out outside the calls, or a read or a write failed.
    Beside,
}

impl Stop {
    /// The status that the program ends with.
    pub fn status(self) -> u8 {
        match self {
            Stop::Refused(_) => 1,
            Stop::Usage => 2,
            Stop::OutOfMemory(_) | Stop::Wrong(_) => 3,
            Stop::Beside => 5,
        }
    }

    /// Why a call on a schedule failed.
    pub fn of_schedule(call: Call, error: ScheduleError) -> Stop {
        match error {
            ScheduleError::OutOfMemory => Stop::OutOfMemory(call),
            _ => Stop::Refused(error.number()),
        }
    }
}

impl From<io::Error> for Stop {
    fn from(_error: io::Error) -> Stop {
        Stop::Beside
    }
}

impl From<AllocError> for Stop {
    fn from(_error: AllocError) -> Stop {
        Stop::Beside
    }
}

impl From<ReadError> for Stop {
    fn from(error: ReadError) -> Stop {
        match error {
            ReadError::OutOfMemory => Stop::OutOfMemory(Call::Read),
            _ => Stop::Refused(error.number()),
        }
    }
}

impl From<MetaError> for Stop {
    fn from(error: MetaError) -> Stop {
        match error {
            MetaError::OutOfMemory => Stop::OutOfMemory(Call::Resolve),
            _ => Stop::Refused(error.number()),
        }
    }
}

/// The error of `lay_out`, which has no other.
impl From<NoMemory> for Stop {
    fn from(_error: NoMemory) -> Stop {
        Stop::OutOfMemory(Call::LayOut)
    }
}

impl From<VerifyError> for Stop {
    fn from(error: VerifyError) -> Stop {
        match error {
            VerifyError::OutOfMemory => Stop::OutOfMemory(Call::Verify),
            _ => Stop::Refused(error.number()),
        }
    }
}

impl From<Refused> for Stop {
    fn from(error: Refused) -> Stop {
        match error {
            Refused::OutOfMemory => Stop::OutOfMemory(Call::NewMachine),
            _ => Stop::Refused(error.number()),
        }
    }
}
