//! What a collector posts, and what the threads acknowledge.

ghost use Rattle.std.specs.Prelude.{◌≡◌, map, true, IsTrue};
ghost use Rattle.std.specs.List.{list_all};
ghost use Rattle.reference_machine.specs.Cycles.{phase_after};
ghost use Rattle.phase_handshake.specs.Handshakes.{AreClose, acknowledge_phase, all_answered, all_seen, first_handshakes, has_answered, has_seen, is_open, join_thread, leave_handshakes, own_phase, posted_next, posted_round, seat_of, clear_answer};

use cil_model::limits::MOST_THREADS;
use cil_model::phases::Phase;
use std::marker::Model;

/// What a live thread has seen of the collector: the phase that it has acknowledged, and whether it has answered the round that
/// is posted.
#[derive(Clone, Copy, PartialEq, Eq)]
pub struct Seat {
    pub phase: Phase,
    pub answered: bool,
}

/// The phase that the collector has posted, whether it has posted a round of marking since the cycle opened, and the seat of
/// each live thread, by the thread's number.
///
/// Each live thread has acknowledged the posted phase or the one before it. Whether all have acknowledged the posted one is kept, so that
/// a step of the collector doesn't look at each seat. No call takes memory.
#[derive(Drop)]
pub struct Posts {
    posted_phase: Phase,
    has_round: bool,
    seats: [Option<Seat>; MOST_THREADS],
    is_seen: bool,
}

impl Model for Posts {
    ghost use Rattle.std.specs.Prelude.{◌≡◌};
    ghost use Rattle.phase_handshake.specs.Handshakes.{AreClose, Handshakes, all_seen};

    ghost Value = { Handshakes };

    ghost view = { λ p. record { posted_phase = p.posted_phase; has_round = p.has_round; seats = p.seats } };

    ghost invariant = { λ p. AreClose (record { posted_phase = p.posted_phase; has_round = p.has_round; seats = p.seats })
        × (p.is_seen ≡ all_seen (record { posted_phase = p.posted_phase; has_round = p.has_round; seats = p.seats })) };
}

impl Posts {
    /// The posts before the first cycle: thread 0 is live and has acknowledged the first phase, and no round is posted.
    pub fn new() -> Posts
        ensures { result ≡ first_handshakes }
    {
        let mut seats = [None; MOST_THREADS];
        seats[0] = Some(Seat {
            phase: Phase::Idle,
            answered: false,
        });
        Posts {
            posted_phase: Phase::Idle,
            has_round: false,
            seats,
            is_seen: true,
        }
    }

    /// The phase that is posted. Each live thread has acknowledged it or the one before it; where it has acknowledged the one
    /// before, an acknowledgement of it is still to come.
    pub fn posted_phase(&self) -> Phase
        ensures posted_phase { result ≡ self.now.posted_phase }
        ensures close { AreClose self.now }
    {
        self.posted_phase
    }

    /// Whether a round of marking was posted since the cycle opened. It stays posted until the next cycle opens.
    pub fn has_round(&self) -> bool
        ensures { result ≡ self.now.has_round }
    {
        self.has_round
    }

    /// Whether the posted phase, the posted round and the seats of all threads are equal. True only if they are.
    pub fn is_like(&self, other: &Posts) -> bool
        ensures { result ≡ true → self.now ≡ other.now }
    {
        self.posted_phase == other.posted_phase
            && self.has_round == other.has_round
            && are_same(&self.seats, &other.seats)
    }

    /// The seat of a thread. None where no thread of that number is live, as for every number from 16 on.
    pub fn seat(&self, thread: u8) -> Option<Seat>
        ensures { result ≡ seat_of self.now thread }
    {
        self.seats.get(usize::from(thread)).copied().flatten()
    }

    /// The phase that a thread has acknowledged. `Idle` where no thread of that number is live.
    pub fn phase(&self, thread: u8) -> Phase
        ensures { result ≡ own_phase self.now thread }
    {
        match self.seat(thread) {
            Some(seat) => seat.phase,
            None => Phase::Idle,
        }
    }

    /// Whether every live thread has acknowledged the posted phase. True where none is live.
    pub fn all_seen(&self) -> bool
        ensures { result ≡ all_seen self.now }
    {
        self.is_seen
    }

    /// Whether every live thread has answered the posted round. True where none is live, otherwise false where no round is posted.
    pub fn all_answered(&self) -> bool
        ensures { result ≡ all_answered self.now }
    {
        self.seats.iter().all(has_answered)
    }

    /// Posts the next phase, once every live thread has acknowledged the posted one. The phase that opens a cycle takes the
    /// posted round and its answers back; every other one leaves both as they are.
    pub fn post(&mut self, phase: Phase)
        requires next { phase ≡ phase_after self.old.posted_phase }
        requires seen { IsTrue (all_seen self.old) }
        ensures { self.new ≡ posted_next self.old }
    {
        self.posted_phase = phase;
        if phase == Phase::Mark {
            self.has_round = false;
            take_answers_back(&mut self.seats);
        }
        self.is_seen = have_seen(phase, &self.seats);
    }

    /// Posts a round of marking, which no thread has answered. The posted phase and what was acknowledged of it stay.
    pub fn post_round(&mut self)
        ensures { self.new ≡ posted_round self.old }
    {
        self.has_round = true;
        take_answers_back(&mut self.seats);
        self.is_seen = have_seen(self.posted_phase, &self.seats);
    }

    /// Acknowledges for a thread the posted phase, or otherwise, where it has done so, answers the posted round. False where neither
    /// was open to it, and where no thread of that number is live; nothing changes then.
    pub fn acknowledge(&mut self, thread: u8) -> bool
        ensures answer { result ≡ is_open self.old thread }
        ensures after { self.new ≡ acknowledge_phase self.old thread }
    {
        let Some(seat) = self.seat(thread) else {
            return false;
        };
        if !seat.is_open(self.posted_phase, self.has_round) {
            return false;
        }
        self.seats[usize::from(thread)] = Some(seat.after(self.posted_phase));
        self.is_seen = have_seen(self.posted_phase, &self.seats);
        true
    }

    /// Gives a thread that starts a seat like its starter's: it has acknowledged and answered what the starter has. A thread
    /// whose starter is not live has no seat. From number 16 on nothing changes.
    pub fn join(&mut self, thread: usize, starter: u8)
        ensures { self.new ≡ join_thread self.old thread starter }
    {
        let seat = self.seat(starter);
        if thread < MOST_THREADS {
            self.seats[thread] = seat;
            self.is_seen = have_seen(self.posted_phase, &self.seats);
        }
    }

    /// Takes the seat of a thread that has ended. Nothing is required of it any more.
    pub fn leave(&mut self, thread: u8)
        ensures { self.new ≡ leave_handshakes self.old thread }
    {
        if usize::from(thread) < MOST_THREADS {
            self.seats[usize::from(thread)] = None;
            self.is_seen = have_seen(self.posted_phase, &self.seats);
        }
    }
}

impl Seat {
    ghost use Rattle.phase_handshake.specs.Handshakes.{is_open_to, seat_after};

    /// Whether the posted phase or round is open to the seat's thread.
    fn is_open(self, posted_phase: Phase, has_round: bool) -> bool
        ensures { result ≡ is_open_to posted_phase has_round self }
    {
        self.phase != posted_phase || (has_round && !self.answered)
    }

    /// The seat once its thread has acknowledged the posted phase, or has answered the round where it had done so.
    fn after(self, posted_phase: Phase) -> Seat
        ensures { result ≡ seat_after posted_phase self }
    {
        if self.phase == posted_phase {
            Seat {
                answered: true,
                ..self
            }
        } else {
            Seat {
                phase: posted_phase,
                ..self
            }
        }
    }
}

/// Whether every live thread has acknowledged the posted phase.
fn have_seen(posted_phase: Phase, seats: &[Option<Seat>]) -> bool
    ensures { result ≡ list_all (has_seen posted_phase) seats.now }
{
    seats.iter().all(|seat| has_seen(posted_phase, seat))
}

/// Whether a thread has acknowledged the posted phase, if it is live.
fn has_seen(posted_phase: Phase, seat: &Option<Seat>) -> bool
    ensures { result ≡ has_seen posted_phase seat.now }
{
    seat.is_none_or(|seat| seat.phase == posted_phase)
}

/// Whether a thread has answered, if it is live.
fn has_answered(seat: &Option<Seat>) -> bool
    ensures { result ≡ has_answered seat.now }
{
    seat.is_none_or(|seat| seat.answered)
}

/// Takes the answer of each live thread back.
fn take_answers_back(seats: &mut [Option<Seat>])
    ensures { seats.new ≡ map clear_answer seats.old }
{
    for seat in seats.iter_mut() {
        *seat = clear_answer(*seat);
    }
}

/// The seat without its answer.
fn clear_answer(seat: Option<Seat>) -> Option<Seat>
    ensures { result ≡ clear_answer seat }
{
    seat.map(|seat| Seat {
        answered: false,
        ..seat
    })
}

/// Whether two lists of seats are equal. True only if they are.
fn are_same(seats: &[Option<Seat>], others: &[Option<Seat>]) -> bool
    ensures { result ≡ true → seats.now ≡ others.now }
{
    if seats.len() != others.len() {
        return false;
    }
    for index in 0..seats.len() {
        if seats[index] != others[index] {
            return false;
        }
    }
    true
}
