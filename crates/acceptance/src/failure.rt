//! Why a source is not run, or an order not carried out, and what is reported of it.

ghost use Rattle.std.specs.Prelude.{◌≡◌, OnErr, OnOk};
ghost use Rattle.outputs.specs.Streams.{Fails, Takes};
ghost use Rattle.acceptance.specs.Failures.{IsFailureOfDevice, IsReported, failure_of_making};
ghost use Rattle.acceptance.specs.Failures.{failure_of_schedule};
ghost use Rattle.acceptance.specs.Failures.{is_refusal, message_of, number_line, status_of_failure};
ghost use Rattle.acceptance.specs.declared.failure.Failure.TheVariants.{Device as BrokenDevice, Memory};

use cil_model::memory::NoMemory;
use interleaving_core::Refused;
use itoa::Buffer;
use outputs::{Device, Out};
use schedule_text::ScheduleError;
use std::alloc::AllocError;
use std::io;
use std::io::ErrorKind;

/// Why an order was not carried out.
#[derive(Clone, Copy, Debug, PartialEq, Eq)]
pub enum Failure {
    /// The source or the schedule was refused, with this number.
    Refused(u16),
    /// The limits were refused, with this number.
    OutOfRange(u16),
    /// Memory ran out.
    Memory,
    /// A read or a write failed.
    Device,
}

impl Failure {
    /// Whether the source, the limits or the schedule were refused.
    pub fn is_refusal(self) -> bool
        ensures { result ≡ is_refusal self }
    {
        match self {
            Failure::Refused(_) | Failure::OutOfRange(_) => true,
            Failure::Memory | Failure::Device => false,
        }
    }
}

impl From<AllocError> for Failure {
    ghost from_gives = { λ _ failure. failure ≡ Memory };

    fn from(_error: AllocError) -> Failure {
        Failure::Memory
    }
}

impl From<NoMemory> for Failure {
    ghost from_gives = { λ _ failure. failure ≡ Memory };

    fn from(_error: NoMemory) -> Failure {
        Failure::Memory
    }
}

impl From<io::Error> for Failure {
    ghost from_gives = { IsFailureOfDevice };

    fn from(error: io::Error) -> Failure {
        if error.kind() == ErrorKind::OutOfMemory {
            Failure::Memory
        } else {
            Failure::Device
        }
    }
}

impl From<Device> for Failure {
    ghost from_gives = { λ _ failure. failure ≡ BrokenDevice };

    fn from(_error: Device) -> Failure {
        Failure::Device
    }
}

impl From<Refused> for Failure {
    ghost from_gives = { λ error failure. failure ≡ failure_of_making error };

    fn from(error: Refused) -> Failure {
        match error {
            Refused::OutOfMemory => Failure::Memory,
            _ => Failure::OutOfRange(error.number()),
        }
    }
}

impl From<ScheduleError> for Failure {
    ghost from_gives = { λ error failure. failure ≡ failure_of_schedule error };

    fn from(error: ScheduleError) -> Failure {
        match error {
            ScheduleError::OutOfMemory => Failure::Memory,
            _ => Failure::Refused(error.number()),
        }
    }
}

/// Writes the line of a failure to the standard error, and returns its status. Where a write fails, it returns 5, and a prefix of the line
/// is written.
pub fn report<E: Out>(failure: Failure, err: &mut E) -> u8
    ensures { IsReported failure (E.taken err.old) (E.taken err.new) result }
{
    match write_report(failure, err) {
        Ok(()) => status_of_failure(failure),
        Err(_) => 5,
    }
}

/// Writes the line of a failure. Takes no memory. After a failed write a prefix of the line is written.
pub fn write_report<E: Out>(failure: Failure, err: &mut E) -> Result<(), Device>
    ensures whole { OnOk result (Takes (E.taken err.old) (E.taken err.new) (message_of failure)) }
    ensures cut { OnErr result (Fails (E.taken err.old) (E.taken err.new) (message_of failure)) }
{
    match failure {
        Failure::Refused(number) | Failure::OutOfRange(number) => write_number(number, err),
        Failure::Memory => err.write_whole(b"memory\n"),
        Failure::Device => err.write_whole(b"device\n"),
    }
}

/// Writes the line of a refusal's number.
fn write_number<E: Out>(number: u16, err: &mut E) -> Result<(), Device>
    ensures whole { OnOk result (Takes (E.taken err.old) (E.taken err.new) (number_line number)) }
    ensures cut { OnErr result (Fails (E.taken err.old) (E.taken err.new) (number_line number)) }
{
    let mut digits = Buffer::new();
    err.write_texts(&["error ", digits.format(number), "\n"])
}

/// The status that the program ends with on this failure: 1 for a source or a schedule that is refused, 2 for limits, and
/// 5 for memory and devices.
pub fn status_of_failure(failure: Failure) -> u8
    ensures { result ≡ status_of_failure failure }
{
    match failure {
        Failure::Refused(_) => 1,
        Failure::OutOfRange(_) => 2,
        Failure::Memory | Failure::Device => 5,
    }
}
