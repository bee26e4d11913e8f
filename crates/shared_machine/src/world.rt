//! What lies under the lock, and one event on it.

ghost use Rattle.std.specs.Prelude.{◌≡◌, ◌++◌, ◌↔◌, ◌<◌, ◌≤◌, ◌⊎◌, IfErr, IfOk, IfSome, OnErr, None, ℕ, replicate, [], ◌∷◌, Some, length, slice_get, slice_set, true, false, All};
ghost use Rattle.interleaving_core.specs.Histories.{DoesMore};
ghost use Rattle.interleaving_core.specs.simulation.MachineStates.{MachineState};
ghost use Rattle.interleaving_core.specs.simulation.Runs.{FollowsReference};
ghost use Rattle.interleaving_core.specs.simulation.Transitions.{IsTransition};
ghost use Rattle.interleaving_core.specs.Loans.{IsAtOrigin, IsLent, RanLocally};
ghost use Rattle.shared_machine.specs.Codes.{add, add_times};
ghost use Rattle.shared_machine.specs.Histories.{AreOf, IsSmall, entry, events_of, reports_of};
ghost use Rattle.cil_model.specs.declared.events.Event.TheVariants.{Step as StepOf};
ghost use Rattle.cil_model.specs.declared.reports.Report.{Report as AnyReport};
ghost use Rattle.cil_model.specs.declared.reports.Report.TheVariants.{Ran as RanOf};
ghost use Rattle.shared_machine.specs.Worlds.{AgreesWith, CannotLend, HasRooms, HasRun, HasSteppedLocally, IfDid, IfNoMemory, IsCheckedIn, IsDid, IsIn, IsKept, IsLentOut, IsPrintedWithin, IsSoundWorld, add_event, added_times, book_times, is_away, is_lent_in, lent_of};
ghost use Rattle.shared_machine.specs.declared.answer.Answer.TheVariants.{Away};

use crate::answer::Answer;
use crate::counts::book::{Book, Ticket};
use crate::counts::view::{Next, TableName};
use crate::history::{Entry, History};
use crate::outcome::Outcome;
use cil_model::events::Event;
use cil_model::limits::MOST_THREADS;
use cil_model::memory::NoMemory;
use cil_model::reports::Report;
use interleaving_core::{Loan, LoanRoom, Machine};
use std::alloc::{AllocError, Global};
use std::marker::{Brand, Model, PhantomData};

/// Names a shared machine: what it held when it was opened, how many workers it has, how many bytes it may print, if there is a bound, and its book
/// of counts. Who opens it picks all four, at `Brand`.
pub trait Initial: TableName {
    ghost use Rattle.std.specs.Prelude.{ℕ, Option};
    ghost use Rattle.interleaving_core.specs.simulation.MachineStates.{MachineState};

    ghost initial_state: { MachineState };

    ghost workers: { ℕ };

    ghost most_printed: { Option ℕ };
}

impl Initial for Brand {
    ghost use Rattle.std.specs.Prelude.{None};
    ghost use Rattle.interleaving_core.specs.InitialStates.{no_machine_state};

    ghost initial_state = { no_machine_state };

    ghost workers = { 0 };

    ghost most_printed = { None };
}

/// The machine, its history, the count of each worker, which threads are lent, and a stop mark. To contracts it is these five.
///
/// Whenever the lock is free, the machine is in the state that its transitions over the history's events make of the initial one, with the history's
/// reports, each entry is of one of the workers, and each worker's count is that of its entries. If there is a bound on what is printed, no more
/// bytes are printed. Nothing outside this crate can change a part of it alone.
pub struct World<M: Initial> {
    core: Machine,
    history: History,
    book: Book<M>,
    rooms: Vec<Option<LoanRoom>>,
    stopped: bool,
    most_printed: Option<u32>,
}

/// Each part is dropped.
impl<M: Initial> Drop for World<M> {
    fn drop(self) {
        let World {
            core: _core,
            history: _history,
            book: _book,
            rooms: _rooms,
            stopped: _stopped,
            most_printed: _most_printed,
        } = self;
    }
}

impl<M: Initial> Model for World<M> {
    ghost use Rattle.shared_machine.specs.Worlds.{IsWorld, WorldState, lent_of};

    ghost Value = { WorldState };

    ghost view = { λ w. record { core = w.core; history = w.history.entries; book = w.book; lent = lent_of w.rooms.items; stopped = w.stopped } };

    ghost invariant = { λ w. IsWorld M.initial_state M.workers M.most_printed w.most_printed w.core w.history.entries w.book w.rooms.items };
}

/// Sets the count after this entry in the ticket and, for its worker, in the book.
fn note<N: Next, M: Initial>(book: &mut Book<M>, ticket: &mut Ticket<M>, entry: Entry)
    requires { N.next ≡ add ticket.old.count entry.event entry.report }
    ensures agreed { slice_get book.old ticket.old.worker ≡ Some ticket.old.count }
    ensures book { book.new ≡ slice_set book.old ticket.old.worker (add ticket.old.count entry.event entry.report) }
    ensures ticket { ticket.new ≡ add_event ticket.old entry.event entry.report }
{
    book.renew::<N>(ticket)
}

/// An event names a thread by a byte. It does nothing; its contract says so.
fn thread_is_a_byte(event: Event)
    ensures { IsSmall event }
{
    match event {
        Event::Step(_thread) | Event::Ack(_thread) => {}
        Event::Gc => {}
    }
}

/// Whether the thread of a number is lent.
fn is_lent(rooms: &[Option<LoanRoom>], thread: u8) -> bool
    ensures { result ≡ is_lent_in (lent_of rooms.now) thread }
{
    match rooms.get(usize::from(thread)) {
        Some(room) => room.is_none(),
        None => false,
    }
}

/// Whether an event is of a thread that is lent.
fn is_away(rooms: &[Option<LoanRoom>], event: Event) -> bool
    ensures { result ≡ is_away (lent_of rooms.now) event }
{
    match event {
        Event::Step(thread) | Event::Ack(thread) => is_lent(rooms, thread),
        Event::Gc => false,
    }
}

/// Whether a machine may do an event. It may not if there is a bound on what is printed and the event would print beyond it.
fn is_print_within(core: &Machine, most_printed: Option<u32>, event: Event) -> bool
    ensures { result ≡ true → (initial_state : MachineState) (after : MachineState × AnyReport) → IsTransition core.now event after
        → IsPrintedWithin most_printed initial_state core.now → IsPrintedWithin most_printed initial_state after.0 }
{
    let Some(most) = most_printed else {
        return true;
    };
    core.print_length(event) <= (most as usize).saturating_sub(core.console().len())
}

/// Does an event for the ticket's worker, and returns the machine's report. It waits for nobody.
///
/// The reference machine does the same, with a birth refused exactly where it exceeds the room. Whatever the machine has done since it was made, it
/// has then done this event too: no cycle of the collector had more working events than its bound, and where this event ends a cycle, no more words
/// are in use than are retained.
///
/// The history has one entry more, the worker's count in the book and the ticket has that entry, and the stop mark stays as it was.
/// Running out of memory, for the entry or for what the event prints or starts, changes nothing. Neither does an event that would print beyond the
/// bound, whose result is `NoMemory` too, nor a step or an acknowledgement of a thread that is lent, which is checked first.
// A call on the way of an event is dear: what it saves on the stack has to be written before the lock is given back.
#[inline(always)]
pub fn perform<M: Initial>(
    world: &mut World<M>,
    alloc: Global,
    ticket: &mut Ticket<M>,
    event: Event,
) -> Answer
    ensures did { IfDid result (IsDid world.old ticket.old event world.new) }
    ensures follows { IfDid result (λ report. FollowsReference world.old.core world.new.core ((event, report) ∷ [])) }
    ensures does { IfDid result (λ report. DoesMore world.old.core (event ∷ []) (report ∷ []) world.new.core) }
    ensures counted { IfDid result (λ report. ticket.new ≡ add_event ticket.old event report) }
    ensures same { IfNoMemory result ((world.new ≡ world.old) × (ticket.new ≡ ticket.old)) }
    ensures away { (result ≡ Away) ↔ (is_away world.old.lent event ≡ true) }
    ensures small { IsSmall event }
{
    thread_is_a_byte(event);
    let World {
        core,
        history,
        book,
        rooms,
        stopped: _,
        most_printed,
    } = world;
    if is_away(rooms, event) {
        return Answer::Away;
    }
    if !is_print_within(core, *most_printed, event) {
        return Answer::NoMemory;
    }
    if history.make_room(1).is_err() {
        return Answer::NoMemory;
    }
    match core.step(alloc, event) {
        Ok(report) => {
            let entry = Entry {
                worker: ticket.worker(),
                event,
                report,
            };
            history.add(entry);
            note::<Brand, M>(book, ticket, entry);
            Answer::Did(report)
        }
        Err(_) => Answer::NoMemory,
    }
}

/// A thread's top frame on loan from a shared machine, and the local instructions that were done on it since.
pub struct Lent<M: Initial> {
    loan: Loan,
    of: PhantomData<M>,
}

/// The loan gives back its own.
impl<M: Initial> Drop for Lent<M> {
    fn drop(self) {
        let Lent { loan: _loan, of: _ } = self;
    }
}

impl<M: Initial> Model for Lent<M> {
    ghost use Rattle.std.specs.Prelude.{◌≡◌};
    ghost use Rattle.interleaving_core.specs.Loans.{Lent as LoanShown};

    ghost Value = { LoanShown };

    ghost view = { λ l. l.loan };

    ghost invariant = { λ l. l.loan.tree ≡ M.initial_state.tree };
}

impl<M: Initial> Lent<M> {
    /// What holds of it. It does nothing; its contract says so.
    pub fn laws(&self)
        ensures { IsLent self.now }
    {
        self.loan.laws();
    }

    /// The loan itself.
    fn into_loan(self) -> Loan
        ensures loan { result ≡ self }
        ensures tree { result.tree ≡ M.initial_state.tree }
    {
        let Lent { loan, of: _ } = self;
        loan
    }
}

/// Lends the top frame of a thread. None exactly where the thread is not live or is lent already; nothing changes then. It takes no memory, and
/// waits for nobody.
///
/// Steps and acknowledgements of the thread are answered `Away` until it is checked in. The machine, its history and its book stay.
pub fn lend<M: Initial>(world: &mut World<M>, thread: u8) -> Option<Lent<M>>
    ensures none { result ≡ None → (world.new ≡ world.old) × CannotLend world.old thread }
    ensures some { IfSome result (λ lent. IsLentOut world.old thread lent world.new) }
{
    let World { core, rooms, .. } = world;
    if !core.is_live(thread) {
        return None;
    }
    let _count = core.started();
    let room = rooms[usize::from(thread)].take()?;
    Some(Lent {
        loan: core.lend(thread, room),
        of: PhantomData,
    })
}

/// Does local instructions on a lent frame, `most` at most. It stops before one that is not local or that would raise a fault, and before the
/// last one of the thread's budget. It takes no lock and no memory.
pub fn run_local<M: Initial>(mut lent: Lent<M>, most: u32) -> Lent<M>
    ensures { RanLocally lent most result }
{
    lent.loan.run(most);
    lent
}

/// Sets the count after this entry `times` times in the ticket and, for its worker, in the book.
fn note_times<N: Next, M: Initial>(
    book: &mut Book<M>,
    ticket: &mut Ticket<M>,
    entry: Entry,
    times: u32,
)
    requires { N.next ≡ add_times times ticket.old.count entry.event entry.report }
    ensures agreed { slice_get book.old ticket.old.worker ≡ Some ticket.old.count }
    ensures book { book.new ≡ slice_set book.old ticket.old.worker (add_times times ticket.old.count entry.event entry.report) }
    ensures ticket { ticket.new ≡ added_times ticket.old times entry.event entry.report }
{
    book.renew::<N>(ticket)
}

/// Records and counts `times` steps of a thread that report that they ran, for which there has to be room. None is no step.
fn record_steps<M: Initial>(
    history: &mut History,
    book: &mut Book<M>,
    ticket: &mut Ticket<M>,
    thread: u8,
    times: u32,
)
    requires { 0 < times → times ≤ history.old.room }
    ensures history { history.new.entries ≡ history.old.entries ++ replicate times (entry ticket.old.worker (StepOf thread) RanOf) }
    ensures agreed { 0 < times → slice_get book.old ticket.old.worker ≡ Some ticket.old.count }
    ensures book { book.new ≡ book_times book.old ticket.old times (StepOf thread) RanOf }
    ensures ticket { ticket.new ≡ added_times ticket.old times (StepOf thread) RanOf }
{
    if times == 0 {
        return;
    }
    let entry = Entry {
        worker: ticket.worker(),
        event: Event::Step(thread),
        report: Report::Ran,
    };
    history.add_times(entry, times);
    note_times::<Brand, M>(book, ticket, entry, times);
}

/// Has a thread that is not lent do local instructions where it is, at most the given number, and returns how many it did. It stops as a loan does.
/// It waits for nobody.
///
/// Each of them is recorded and counted, for the ticket's worker, as a step of the thread that ran, and is one. A thread that is lent or not live
/// does none; nothing changes then.
///
/// # Errors
/// Out of memory, for the entry; nothing changes then. That never happens where the thread is lent.
pub(crate) fn step_locally<M: Initial>(
    world: &mut World<M>,
    ticket: &mut Ticket<M>,
    thread: u8,
    most: u32,
) -> Result<u32, AllocError>
    ensures done { IfOk result (λ n. HasSteppedLocally world.old ticket.old thread most n world.new ticket.new) }
    ensures same { OnErr result ((world.new ≡ world.old) × (ticket.new ≡ ticket.old)) }
    ensures needful { OnErr result (is_lent_in world.old.lent thread ≡ false) }
{
    let World {
        core,
        history,
        book,
        rooms,
        stopped: _,
        most_printed: _,
    } = world;
    if is_lent(rooms, thread) {
        return Ok(0);
    }
    history.make_room(most)?;
    let count = core.run_local(thread, most);
    record_steps(history, book, ticket, thread, count);
    Ok(count)
}

/// Takes a lent frame back, for the ticket's worker, and returns how many local instructions were done on it. It waits for nobody.
///
/// Each of them is recorded and counted as a step of the thread that ran, and is one: the machine is at what these steps make of it, whatever
/// others did meanwhile. None is recorded where none was done. The thread is no longer lent.
///
/// # Errors
/// The frame comes back, and nothing changes, where its thread is not lent or does not stand as it did when the frame was lent, or where memory
/// runs out for the entry; that never happens where no instruction was done.
pub fn check_in<M: Initial>(
    world: &mut World<M>,
    ticket: &mut Ticket<M>,
    lent: Lent<M>,
) -> Result<u32, Lent<M>>
    ensures done { IfOk result (λ n. IsCheckedIn world.old ticket.old lent n world.new ticket.new) }
    ensures back { IfErr result (λ back. (back ≡ lent) × (world.new ≡ world.old) × (ticket.new ≡ ticket.old)) }
    ensures needful { IfErr result (λ _. IsKept world.old lent → 0 < lent.done) }
{
    let World {
        core,
        history,
        book,
        rooms,
        stopped: _,
        most_printed: _,
    } = world;
    let thread = lent.loan.thread();
    let times = lent.loan.step_count();
    if !is_lent(rooms, thread) || !core.is_at_origin(&lent.loan) {
        return Err(lent);
    }
    if times > 0 && history.make_room(times).is_err() {
        return Err(lent);
    }
    rooms[usize::from(thread)] = Some(core.take_back(lent.into_loan()));
    record_steps(history, book, ticket, thread, times);
    Ok(times)
}

/// Sets the stop mark, and changes nothing else. It waits for nobody.
pub fn stop<M: Initial>(world: &mut World<M>)
    ensures { world.new ≡ record world.old { stopped = true } }
{
    world.stopped = true;
}

impl<M: Initial> World<M> {
    /// A world before its first event: no entries, each count 0, no thread lent, and no stop mark. With a bound, no event prints beyond it. It takes
    /// no memory.
    pub(crate) fn new(
        alloc: Global,
        core: Machine,
        book: Book<M>,
        rooms: Vec<Option<LoanRoom>>,
        most_printed: Option<u32>,
    ) -> World<M>
        requires core { core ≡ M.initial_state }
        requires printed { most_printed ≡ M.most_printed }
        requires each { length book ≡ M.workers }
        requires book { (worker count : ℕ) → slice_get book worker ≡ Some count → count ≡ 0 }
        requires rooms { HasRooms M.initial_state rooms.items }
        ensures { result ≡ record { core = core; history = []; book = book; lent = lent_of rooms.items; stopped = false } }
    {
        World {
            core,
            history: History::new(alloc),
            book,
            rooms,
            stopped: false,
            most_printed,
        }
    }

    /// What holds whenever the lock is free. It does nothing; its contract says so.
    pub fn laws(&self)
        ensures sound { IsSoundWorld M.initial_state M.workers self.now.core self.now.history self.now.book }
        ensures ran { HasRun M.initial_state (events_of self.now.history) (reports_of self.now.history) self.now.core }
        ensures printed { IsPrintedWithin M.most_printed M.initial_state self.now.core }
    {
        let _stopped = &self.stopped;
    }

    /// The machine, which is at what the history made of it.
    pub fn machine(&self) -> &Machine
        ensures { result.now ≡ self.now.core }
    {
        &self.core
    }

    /// Whether the stop mark is set.
    pub fn is_stopped(&self) -> bool
        ensures { result ≡ self.now.stopped }
    {
        self.stopped
    }

    /// Ends the run: what is left of it, with the stop mark as it is. The counts of the tickets that came back are those of their workers'
    /// entries.
    pub fn into_outcome(self, tickets: Vec<Ticket<M>>) -> Outcome
        ensures world { (result.history.entries ≡ self.history) × (result.machine ≡ self.core) × (result.stopped ≡ self.stopped) }
        ensures ran { HasRun M.initial_state (events_of result.history.entries) (reports_of result.history.entries) result.machine }
        ensures printed { IsPrintedWithin M.most_printed M.initial_state result.machine }
        ensures theirs { AreOf M.workers result.history.entries }
        ensures counts { All (AgreesWith result.history.entries) tickets.items }
    {
        let World {
            core,
            history,
            mut book,
            rooms: _rooms,
            stopped,
            most_printed: _,
        } = self;
        compare_all(&mut book, tickets);
        Outcome {
            machine: core,
            history,
            stopped,
            is_out_of_memory: false,
        }
    }
}

/// Memory for a loan of each thread that may be. The only error is out of memory.
pub(crate) fn rooms_for(alloc: Global, core: &Machine) -> Result<Vec<Option<LoanRoom>>, NoMemory>
    ensures { IfOk result (λ rooms. HasRooms core.now rooms.items) }
{
    let mut rooms = Vec::with_capacity(alloc, MOST_THREADS)?;
    for _thread in 0..MOST_THREADS {
        rooms.push(Some(core.loan_room(alloc)?))?;
    }
    Ok(rooms)
}

/// Takes the tickets back. Each one's count is in the book, which stays as it was.
fn compare_all<M: Initial>(book: &mut Book<M>, mut tickets: Vec<Ticket<M>>)
    ensures same { book.new ≡ book.old }
    ensures counts { All (IsIn book.old) tickets.items }
{
    while let Some(ticket) = tickets.pop() {
        book.compare(ticket);
    }
}
