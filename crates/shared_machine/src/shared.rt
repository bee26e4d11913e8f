//! The lock, and the tickets of the workers.

ghost use Rattle.std.specs.Prelude.{◌≡◌, ℕ, ◌≤◌, ◌↔◌, [], Some, length, slice_get, IfErr, IfOk, IsTrue, MatchResult, All};
ghost use Rattle.shared_machine.specs.Histories.{AreOf, IsSmall, events_of, reports_of};
ghost use Rattle.shared_machine.specs.Worlds.{AgreesWith, HasRun, HasTicket, IfDid, IfNoMemory, IsComplete, IsMissing, IsPrintedWithin, add_event, fresh};
ghost use Rattle.shared_machine.specs.declared.shared.TheConstants.{MOST_WORKERS};

use crate::answer::Answer;
use crate::counts::book::{Blank, Book, Ticket};
use crate::outcome::Outcome;
use crate::world::{Initial, World, perform, rooms_for};
use cil_model::events::Event;
use cil_model::memory::NoMemory;
use interleaving_core::Machine;
use std::alloc::{AllocError, Global};
use std::marker::Model;
use std::sync::{Mutex, MutexGuard, Wait};
use std::thread::yield_now;

/// How often a worker tries to take the lock before it sleeps until the lock is given back.
const TRIES: u32 = 1024;

/// After how many tries it yields, in case the worker that holds the lock has no processor.
const TRIES_TO_A_YIELD: u32 = 64;

/// Workers of a shared machine.
pub const MOST_WORKERS: u8 = 16;

/// A machine that workers share. To contracts it is the number of its workers.
#[derive(Drop)]
pub struct Shared<M: Initial> {
    world: Mutex<World<M>>,
    workers: u8,
}

impl<M: Initial> Model for Shared<M> {
    ghost use Rattle.std.specs.Prelude.{◌≡◌, ℕ};

    ghost Value = { ℕ };

    ghost view = { λ s. s.workers };

    ghost invariant = { λ s. s.workers ≡ M.workers };
}

/// A run that did not end, since a worker's ticket is missing: all that `finish` took, as it was.
#[derive(Drop)]
pub struct Unfinished<M: Initial> {
    /// The shared machine.
    pub shared: Shared<M>,
    /// The tickets that were given.
    pub tickets: Vec<Ticket<M>>,
}

impl<M: Initial> Unfinished<M> {
    /// The number that the program prints: 601.
    pub fn number(&self) -> u16
        ensures { result ≡ 601 }
    {
        601
    }
}

impl<M: Initial> Shared<M> {
    /// Puts a machine under a lock, for that many workers, from 1 to 16, and gives a ticket for each, in order, with count 0.
    ///
    /// With `most_printed` no event leaves more than that many bytes on the console: for one that would the result is `NoMemory`, and nothing changes.
    ///
    /// `blank` is the book of counts that `M` names, the machine holds what `M` names, and `M` names this number of workers and this bound. Out
    /// of memory is the only error; the machine is dropped then.
    pub fn new(
        alloc: Global,
        blank: Blank,
        core: Machine,
        workers: u8,
        most_printed: Option<u32>,
    ) -> Result<(Shared<M>, Vec<Ticket<M>>), NoMemory>
        requires book { blank ≡ M.table }
        requires core { core ≡ M.initial_state }
        requires printed { most_printed ≡ M.most_printed }
        requires workers { (1 ≤ workers) × (workers ≤ MOST_WORKERS) × (workers ≡ M.workers) }
        ensures { IfOk result (λ made. (made.0 ≡ workers) × (made.1.items ≡ fresh workers)) }
    {
        let mut book = blank.open::<M>();
        let tickets = deal_all(alloc, &mut book, workers)?;
        let rooms = rooms_for(alloc, &core)?;
        let world = Mutex::new(World::new(alloc, core, book, rooms, most_printed));
        Ok((Shared { world, workers }, tickets))
    }

    /// Takes the lock, and waits while another thread has it. The guard gives it back when it is dropped.
    pub fn lock<R: Wait>(&self, rt: &R) -> MutexGuard<'_, World<M>> {
        self.world.lock(rt)
    }

    /// Takes the lock as `lock` does, where it is held for a short time only: it tries many times before it sleeps.
    pub(crate) fn lock_soon<R: Wait>(&self, rt: &R) -> MutexGuard<'_, World<M>> {
        for attempt in 1..TRIES {
            if let Some(guard) = self.world.try_lock() {
                return guard;
            }
            if attempt % TRIES_TO_A_YIELD == 0 {
                yield_now();
            }
        }
        self.world.lock(rt)
    }

    /// Takes the lock, does an event for the ticket's worker as `perform` does it, and gives the lock and the ticket back.
    ///
    /// The ticket counts the event with the report that is returned. When memory runs out it is as it was, and so is the machine.
    #[inline(always)]
    pub fn act<R: Wait>(
        &self,
        rt: &R,
        alloc: Global,
        mut ticket: Ticket<M>,
        event: Event,
    ) -> (Answer, Ticket<M>)
        ensures counted { IfDid result.0 (λ report. result.1 ≡ add_event ticket event report) }
        ensures same { IfNoMemory result.0 (result.1 ≡ ticket) }
        ensures small { IsSmall event }
    {
        let mut world = self.world.lock(rt);
        let answer = perform(&mut *world, alloc, &mut ticket, event);
        (answer, ticket)
    }

    /// Ends the run, and returns what is left of it. It refuses exactly where a worker's ticket is missing; all comes back then as it was.
    ///
    /// The machine is in the state that its transitions over the history's events make of the initial one, with the history's reports, and the
    /// reference machine follows them. So its console and the ends of its threads are those of such transitions. Each entry is of one of the
    /// workers, and each ticket's count is that of its worker's entries in the history.
    pub fn finish(self, tickets: Vec<Ticket<M>>) -> Result<Outcome, Unfinished<M>>
        ensures exact { MatchResult result (λ _. IsComplete self tickets.items) (λ _. IsMissing self tickets.items) }
        ensures back { IfErr result (λ unfinished. (unfinished.shared ≡ self) × (unfinished.tickets ≡ tickets)) }
        ensures ran { IfOk result (λ outcome. HasRun M.initial_state (events_of outcome.history.entries) (reports_of outcome.history.entries) outcome.machine) }
        ensures printed { IfOk result (λ outcome. IsPrintedWithin M.most_printed M.initial_state outcome.machine) }
        ensures theirs { IfOk result (λ outcome. AreOf M.workers outcome.history.entries) }
        ensures counts { IfOk result (λ outcome. All (AgreesWith outcome.history.entries) tickets.items) }
    {
        for worker in 0..self.workers {
            if !has_ticket(&tickets, worker) {
                return Err(Unfinished {
                    shared: self,
                    tickets,
                });
            }
        }
        let Shared { world, workers: _ } = self;
        Ok(world.into_inner().into_outcome(tickets))
    }
}

/// A ticket for each worker, in order. Each count is 0.
fn deal_all<M: Initial>(
    alloc: Global,
    book: &mut Book<M>,
    workers: u8,
) -> Result<Vec<Ticket<M>>, AllocError>
    requires { book.old ≡ [] }
    ensures tickets { IfOk result (λ tickets. tickets.items ≡ fresh workers) }
    ensures each { IfOk result (λ _. length book.new ≡ workers) }
    ensures book { (worker count : ℕ) → slice_get book.new worker ≡ Some count → count ≡ 0 }
{
    let mut tickets = Vec::new(alloc);
    for worker in 0..workers {
        tickets.push(book.deal(worker))?;
    }
    Ok(tickets)
}

fn has_ticket<M: Initial>(tickets: &Vec<Ticket<M>>, worker: u8) -> bool
    ensures { IsTrue result ↔ HasTicket tickets.now.items worker }
{
    tickets.iter().any(|ticket| ticket.worker() == worker)
}
