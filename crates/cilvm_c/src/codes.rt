//! What calls return, as numbers.

ghost use Rattle.std.specs.Prelude.{◌≡◌};
ghost use Rattle.cilvm_c.specs.Codes.{end_code, failure_code, fault_code, is_not_done, is_ran, number_of, reason_not_done, report_code, schedule_code, status_code, wait_code};

use acceptance::Failure;
use cil_model::reports::{End, Fault, Report};
use interleaving_core::Wait;
use schedule_text::ScheduleError;

/// What a call returns, if it is not the number of a refusal (101 to 104, 201 to 207, 301, 401, 501 to 503). A number keeps its meaning from
/// version to version; others may be added.
#[derive(Clone, Copy, PartialEq, Eq)]
pub enum Code {
    /// A step: the instruction was done. A run: all events were done. A thread: it is live. Any other call: it was done.
    Ran = 0,
    /// A step: the thread waits for a monitor or for another thread, and used a step of its budget.
    Blocked = 1,
    /// No such thread is live, and nothing changed. A thread: it was never started.
    Absent = 2,
    /// An acknowledgement: the thread acknowledged the posted phase or round.
    Acked = 3,
    /// An acknowledgement: the thread had nothing to acknowledge.
    NothingPosted = 4,
    /// The collector: some work was done.
    Worked = 5,
    /// The collector: it waits for a thread's acknowledgement.
    Waiting = 6,
    /// The collector: the cycle is done, and its old space was freed.
    CycleDone = 7,
    /// The thread ended: its first method returned.
    Done = 16,
    /// The thread ended: its budget of steps was used up.
    Budget = 17,
    /// The thread ended: a field, an element, the length or a method of null.
    NullReference = 32,
    /// The thread ended: an index out of the range of an array.
    IndexOutOfRange = 33,
    /// The thread ended: a store of an object into an array whose element type it doesn't fit.
    ArrayTypeMismatch = 34,
    /// The thread ended: a cast of an object to a type that it doesn't fit.
    InvalidCast = 35,
    /// The thread ended: a division or remainder by 0.
    DivideByZero = 36,
    /// The thread ended: a division or remainder of the least integer by -1.
    Arithmetic = 37,
    /// The thread ended: a checked sum, difference or product that doesn't fit, or an array of a negative length.
    Overflow = 38,
    /// The thread ended: an object that its heap has no room for.
    OutOfMemory = 39,
    /// The thread ended: a start of a seventeenth thread.
    TooManyThreads = 40,
    /// The thread ended: a call beyond the limit of frames.
    StackOverflow = 41,
    /// The thread ended: an enter or exit of the monitor of null.
    ArgumentNull = 42,
    /// The thread ended: an exit of a monitor that it doesn't hold.
    SynchronizationLock = 43,
    /// The thread ended: a start of a thread that was started before, or a join of one that was not started.
    ThreadState = 44,
    /// The program has printed more bytes than it may, and nothing changed.
    Full = 253,
    /// The session is closed.
    Closed = 254,
    /// Memory of the host ran out, and nothing changed. The same call may be made again.
    NoMemory = 255,
}

/// The number of a code.
pub(crate) fn number_of(code: Code) -> u32
    ensures { result ≡ number_of code }
{
    code as u32
}

/// The code of a fault.
pub(crate) fn fault_code(fault: Fault) -> Code
    ensures { result ≡ fault_code fault }
{
    match fault {
        Fault::NullReference => Code::NullReference,
        Fault::IndexOutOfRange => Code::IndexOutOfRange,
        Fault::ArrayTypeMismatch => Code::ArrayTypeMismatch,
        Fault::InvalidCast => Code::InvalidCast,
        Fault::DivideByZero => Code::DivideByZero,
        Fault::Arithmetic => Code::Arithmetic,
        Fault::Overflow => Code::Overflow,
        Fault::OutOfMemory => Code::OutOfMemory,
        Fault::TooManyThreads => Code::TooManyThreads,
        Fault::StackOverflow => Code::StackOverflow,
        Fault::ArgumentNull => Code::ArgumentNull,
        Fault::SynchronizationLock => Code::SynchronizationLock,
        Fault::ThreadState => Code::ThreadState,
    }
}

/// The code of an end.
pub(crate) fn end_code(end: End) -> Code
    ensures { result ≡ end_code end }
{
    match end {
        End::Done => Code::Done,
        End::Budget => Code::Budget,
        End::Fault(fault) => fault_code(fault),
    }
}

/// The code of a report.
#[inline(always)]
pub(crate) fn report_code(report: Report) -> Code
    ensures { result ≡ report_code report }
{
    match report {
        Report::Ran => Code::Ran,
        other => any_report_code(other),
    }
}

/// The same of any report. Apart, so that a step that ran costs a test and no jump by a table.
#[inline(never)]
fn any_report_code(report: Report) -> Code
    ensures { result ≡ report_code report }
{
    match report {
        Report::Ran => Code::Ran,
        Report::Blocked => Code::Blocked,
        Report::Ended(end) => end_code(end),
        Report::Absent => Code::Absent,
        Report::Acked => Code::Acked,
        Report::NothingPosted => Code::NothingPosted,
        Report::Worked => Code::Worked,
        Report::Waiting => Code::Waiting,
        Report::CycleDone => Code::CycleDone,
    }
}

/// Whether a number is that of a step that ran.
pub(crate) fn is_ran(number: u32) -> bool
    ensures { result ≡ is_ran number }
{
    number == 0
}

/// Whether a number says why an event was not done.
pub(crate) fn is_not_done(number: u32) -> bool
    ensures { result ≡ is_not_done number }
{
    number == 253 || number == 255
}

/// Why an event was not done, by the number that says so.
pub(crate) fn reason_not_done(number: u32) -> Code
    ensures { result ≡ reason_not_done number }
{
    if number == 253 {
        Code::Full
    } else {
        Code::NoMemory
    }
}

/// The code of a thread: of its end, or if it has not ended, whether it is live.
pub(crate) fn status_code(end: Option<End>, is_live: bool) -> Code
    ensures { result ≡ status_code end is_live }
{
    match end {
        Some(end) => end_code(end),
        None if is_live => Code::Ran,
        None => Code::Absent,
    }
}

/// Whom a thread waits for: 0 for nobody, 256 and the number of a monitor's owner, or 512 and the number of a thread whose end is awaited.
pub(crate) fn wait_code(wait: Option<Wait>) -> u32
    ensures { result ≡ wait_code wait }
{
    match wait {
        None => 0,
        Some(Wait::Monitor { owner, .. }) => 256 + u32::from(owner),
        Some(Wait::Join { thread }) => 512 + u32::from(thread),
    }
}

/// The number of a failure: that of a refusal, or `Code::NoMemory`.
pub(crate) fn failure_code(failure: Failure) -> u32
    ensures { result ≡ failure_code failure }
{
    match failure {
        Failure::Refused(number) | Failure::OutOfRange(number) => u32::from(number),
        Failure::Memory | Failure::Device => number_of(Code::NoMemory),
    }
}

/// The number of a schedule's fault: its own, or `Code::NoMemory`.
pub(crate) fn schedule_code(error: ScheduleError) -> u32
    ensures { result ≡ schedule_code error }
{
    match error {
        ScheduleError::OutOfMemory => number_of(Code::NoMemory),
        _ => u32::from(error.number()),
    }
}
