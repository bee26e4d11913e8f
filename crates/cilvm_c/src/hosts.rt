//! The calls of a host. Each one that is given a session calls a safe function of the same name, which does the work on the session itself.

ghost use Rattle.std.specs.Prelude.{◌≡◌};
ghost use types.Logic.{sem};
ghost use Rattle.cil_model.specs.declared.events.Event.TheVariants.{Step, Ack, Gc};
ghost use Rattle.cilvm_c.specs.Handles.{is_held, such_is_held};
ghost use Rattle.cilvm_c.specs.InitialStates.{IsChecked, IsInitialBy};
ghost use Rattle.cilvm_c.specs.Sessions.{AreUsed, SessionState, IsClosing, IsLiveCount, IsPrintedRead, IsReasonRead, IsStatus, IsWait};
ghost use Rattle.cilvm_c.specs.Steps.{HasDoneOne, HasRunText, HasStepped};
ghost use Rattle.cilvm_c.specs.contracts.sessions.Session as row;

use crate::codes::{Code, failure_code, number_of};
use crate::limits::{HostLimits, run_limits};
use crate::sessions::Session;
use acceptance::accept;
use cil_model::events::Event;
use std::alloc::Global;

/// The version of the library: 65,536 times the major number, 256 times the minor one, and the patch.
const VERSION: u32 = 0x00_01_00;

/// The version of the library that runs: a host compares it with the one of its header.
#[unsafe(no_mangle)]
pub extern "C" fn cilvm_version() -> u32
    ensures { result ≡ 256 }
{
    VERSION
}

/// Whether a source is accepted: 0, or the number of the refusal, or 255 where memory ran out.
#[unsafe(no_mangle)]
pub extern "C" fn cilvm_check(alloc: Global, source: &[u8]) -> u32
    ensures { IsChecked source.now result }
{
    match accept(alloc, source) {
        Ok(_) => number_of(Code::Ran),
        Err(failure) => failure_code(failure),
    }
}

/// Makes a closed session, and returns 0, or 255 where memory ran out.
#[unsafe(no_mangle)]
pub extern "C" fn cilvm_new(alloc: Global, out: &mut *mut u8) -> u32 {
    match Box::new(alloc, Session::new(alloc)) {
        Ok(it) => {
            *out = Box::into_raw(it).cast();
            number_of(Code::Ran)
        }
        Err(_) => number_of(Code::NoMemory),
    }
}

fn open(session: &mut Session, source: &[u8], limits: &HostLimits) -> u32
    ensures { IsInitialBy source.now limits.now result session.new }
{
    session.open(source, run_limits(limits), limits.printed)
}

/// Opens a session with the machine of a source, before its first event, and returns 0. Otherwise the session is closed, and the result says
/// why: 255 where memory ran out, or the number of the refusal.
#[unsafe(no_mangle)]
pub unsafe extern "C" fn cilvm_open(at: *mut u8, source: &[u8], limits: &HostLimits) -> u32
    ghost held: { SessionState }
    requires* { sem 𝓛 (is_held row.the_row at held) }
    ensures* { sem 𝓛 (such_is_held row.the_row at (IsInitialBy source.now limits.now result)) }
{
    let session: *mut Session = at.cast();
    open(&mut *session, source, limits)
}

fn why(session: &mut Session, from: usize, to: &mut [u8]) -> usize
    ensures { IsReasonRead session.old from to.new result session.new }
{
    session.why(from, to)
}

/// Copies the text that explains the last refusal, from this byte on, up to the length of the buffer, and returns the number of bytes copied.
#[unsafe(no_mangle)]
pub unsafe extern "C" fn cilvm_why(at: *mut u8, from: usize, to: &mut [u8]) -> usize
    ghost held: { SessionState }
    requires* { sem 𝓛 (is_held row.the_row at held) }
    ensures* { sem 𝓛 (such_is_held row.the_row at (IsReasonRead held from to.new result)) }
{
    let session: *mut Session = at.cast();
    why(&mut *session, from, to)
}

fn step(session: &mut Session, thread: u8) -> u32
    ensures { HasDoneOne (Step thread) session.old result session.new }
{
    session.event(Event::Step(thread))
}

/// Has a thread make a step, and returns the code of its report.
#[unsafe(no_mangle)]
pub unsafe extern "C" fn cilvm_step(at: *mut u8, thread: u8) -> u32
    ghost held: { SessionState }
    requires* { sem 𝓛 (is_held row.the_row at held) }
    ensures* { sem 𝓛 (such_is_held row.the_row at (HasDoneOne (Step thread) held result)) }
{
    let session: *mut Session = at.cast();
    step(&mut *session, thread)
}

/// Has a thread make steps until one does not report that it ran, at most `most`, and returns the last code. `done` says how many were made.
#[unsafe(no_mangle)]
pub unsafe extern "C" fn cilvm_steps(at: *mut u8, thread: u8, most: u32, done: &mut u32) -> u32
    ghost held: { SessionState }
    requires* { sem 𝓛 (is_held row.the_row at held) }
    ensures* { sem 𝓛 (such_is_held row.the_row at (HasStepped thread held most done.new result)) }
{
    let session: *mut Session = at.cast();
    (*session).steps(thread, most, done)
}

fn ack(session: &mut Session, thread: u8) -> u32
    ensures { HasDoneOne (Ack thread) session.old result session.new }
{
    session.event(Event::Ack(thread))
}

/// Has a thread acknowledge what the collector posted, and returns the code of the report.
#[unsafe(no_mangle)]
pub unsafe extern "C" fn cilvm_ack(at: *mut u8, thread: u8) -> u32
    ghost held: { SessionState }
    requires* { sem 𝓛 (is_held row.the_row at held) }
    ensures* { sem 𝓛 (such_is_held row.the_row at (HasDoneOne (Ack thread) held result)) }
{
    let session: *mut Session = at.cast();
    ack(&mut *session, thread)
}

fn gc(session: &mut Session) -> u32
    ensures { HasDoneOne Gc session.old result session.new }
{
    session.event(Event::Gc)
}

/// Has the collector do an event, and returns the code of its report.
#[unsafe(no_mangle)]
pub unsafe extern "C" fn cilvm_gc(at: *mut u8) -> u32
    ghost held: { SessionState }
    requires* { sem 𝓛 (is_held row.the_row at held) }
    ensures* { sem 𝓛 (such_is_held row.the_row at (HasDoneOne Gc held result)) }
{
    let session: *mut Session = at.cast();
    gc(&mut *session)
}

/// Does the events of a schedule's text, and returns 0, or why it stopped. `done` says how many were done: none where the text is refused.
#[unsafe(no_mangle)]
pub unsafe extern "C" fn cilvm_run(at: *mut u8, text: &[u8], done: &mut u64) -> u32
    ghost held: { SessionState }
    requires* { sem 𝓛 (is_held row.the_row at held) }
    ensures* { sem 𝓛 (such_is_held row.the_row at (HasRunText text.now held done.new result)) }
{
    let session: *mut Session = at.cast();
    (*session).run(text, done)
}

fn read(session: &mut Session, from: usize, to: &mut [u8]) -> usize
    ensures { IsPrintedRead session.old from to.new result session.new }
{
    session.read(from, to)
}

/// Copies what was printed, from this byte on, up to the length of the buffer, and returns the number of bytes copied.
#[unsafe(no_mangle)]
pub unsafe extern "C" fn cilvm_read(at: *mut u8, from: usize, to: &mut [u8]) -> usize
    ghost held: { SessionState }
    requires* { sem 𝓛 (is_held row.the_row at held) }
    ensures* { sem 𝓛 (such_is_held row.the_row at (IsPrintedRead held from to.new result)) }
{
    let session: *mut Session = at.cast();
    read(&mut *session, from, to)
}

fn end_of(session: &mut Session, thread: u8) -> u32
    ensures { IsStatus session.old thread result session.new }
{
    session.end_of(thread)
}

/// The state of a thread: 0 where it is live, 2 where it was never started, and otherwise the code of its end.
#[unsafe(no_mangle)]
pub unsafe extern "C" fn cilvm_end_of(at: *mut u8, thread: u8) -> u32
    ghost held: { SessionState }
    requires* { sem 𝓛 (is_held row.the_row at held) }
    ensures* { sem 𝓛 (such_is_held row.the_row at (IsStatus held thread result)) }
{
    let session: *mut Session = at.cast();
    end_of(&mut *session, thread)
}

fn live(session: &mut Session) -> u32
    ensures { IsLiveCount session.old result session.new }
{
    session.live()
}

/// How many threads are live.
#[unsafe(no_mangle)]
pub unsafe extern "C" fn cilvm_live(at: *mut u8) -> u32
    ghost held: { SessionState }
    requires* { sem 𝓛 (is_held row.the_row at held) }
    ensures* { sem 𝓛 (such_is_held row.the_row at (IsLiveCount held result)) }
{
    let session: *mut Session = at.cast();
    live(&mut *session)
}

fn used(session: &mut Session, new_words: &mut u32) -> u32
    ensures { AreUsed session.old result new_words.new session.new }
{
    let (old_words, words) = session.used();
    *new_words = words;
    old_words
}

/// The words in use of the old space, or the only one. `new_words` says those of the new one.
#[unsafe(no_mangle)]
pub unsafe extern "C" fn cilvm_used(at: *mut u8, new_words: &mut u32) -> u32
    ghost held: { SessionState }
    requires* { sem 𝓛 (is_held row.the_row at held) }
    ensures* { sem 𝓛 (such_is_held row.the_row at (λ after. AreUsed held result new_words.new after)) }
{
    let session: *mut Session = at.cast();
    used(&mut *session, new_words)
}

fn waits(session: &mut Session, thread: u8) -> u32
    ensures { IsWait session.old thread result session.new }
{
    session.waits(thread)
}

/// Whom a thread waits for: 0 for nobody, 256 and the number of the owner of a monitor, or 512 and the number of a thread whose end is awaited.
#[unsafe(no_mangle)]
pub unsafe extern "C" fn cilvm_waits(at: *mut u8, thread: u8) -> u32
    ghost held: { SessionState }
    requires* { sem 𝓛 (is_held row.the_row at held) }
    ensures* { sem 𝓛 (such_is_held row.the_row at (IsWait held thread result)) }
{
    let session: *mut Session = at.cast();
    waits(&mut *session, thread)
}

fn close(session: &mut Session) -> u32
    ensures { IsClosing result session.new }
{
    session.close();
    0
}

/// Frees all memory of a session but its own block, and returns 0. It may be opened again.
#[unsafe(no_mangle)]
pub unsafe extern "C" fn cilvm_close(at: *mut u8) -> u32
    ghost held: { SessionState }
    requires* { sem 𝓛 (is_held row.the_row at held) }
    ensures* { sem 𝓛 (such_is_held row.the_row at (IsClosing result)) }
{
    let session: *mut Session = at.cast();
    close(&mut *session)
}
