//! What the herald and the seats do.

ghost use Rattle.std.specs.Prelude.{◌≡◌, ℕ, ◌+◌, ◌-◌, ◌^◌, ◌<◌, ◌≤◌, ◌↔◌, length, slice_index, slice_set, replicate, [], IfOk};
ghost use Rattle.epoch_words.specs.Tokens.{initial_herald, initial_seat, initial_seats, FoundAll, FoundLate, FindsNoLess, IsPostedOrOneLess};
ghost use Rattle.epoch_words.specs.Rule.{dealt_herald, initial_view};
ghost use Rattle.epoch_words.specs.declared.word_table.View.TheVariants.{OfHerald};

use crate::word_table::{DealSeat, LoadPosted, LoadSeen, StorePosted, StoreSeen, Token, WordTable};
use atomic_table::Table;
use std::alloc::{AllocError, Global};
use std::marker::Model;

/// What became of a `post`.
#[derive(Clone, Copy)]
pub enum Post {
    /// The next number is posted.
    Posted,
    /// A seat was found that had not seen the posted number.
    Late,
    /// There is no number after the posted one: it is 2^64 - 1.
    Spent,
}

/// The words that a herald and its seats share.
#[derive(Drop)]
pub struct Epochs {
    words: WordTable,
    workers: usize,
}

impl Model for Epochs {
    ghost use Rattle.std.specs.Prelude.{◌≡◌, ◌+◌};
    ghost use Rattle.epoch_words.specs.Tokens.{EpochsValue};

    ghost Value = { EpochsValue };

    ghost view = { λ e. record { table = e.words.shared.table_id; workers = e.workers } };

    ghost invariant = { λ e.
        (e.words.shared.table_id.words ≡ e.workers + 1)
        × (e.words.shared.key ≡ e.workers) };
}

/// The right to poll and to acknowledge, as one of the seats.
#[derive(Drop)]
pub struct Seat {
    token: Token,
    index: usize,
    polled: u64,
}

impl Model for Seat {
    ghost use Rattle.std.specs.Prelude.{◌≡◌, ◌+◌, ◌<◌, []};
    ghost use Rattle.epoch_words.specs.Tokens.{SeatValue};
    ghost use Rattle.epoch_words.specs.Steps.{seat_part};
    ghost use Rattle.epoch_words.specs.declared.word_table.View.TheVariants.{OfSeat};

    ghost Value = { SeatValue };

    ghost view = { λ s. record {
      table = s.token.table_id;
      index = s.index;
      seen = (seat_part s.token.me.0).seen;
      polled = s.polled;
      polls = (seat_part s.token.me.0).polls;
    } };

    ghost invariant = { λ s. let known = seat_part s.token.me.0 in
        (s.token.me ≡ (OfSeat known, []))
        × (s.index ≡ known.index)
        × (s.polled ≡ known.polled)
        × (s.index + 1 < s.token.table_id.words) };
}

/// The right to post, and to look at what the seats have seen.
#[derive(Drop)]
pub struct Herald {
    token: Token,
    posted: u64,
}

impl Model for Herald {
    ghost use Rattle.std.specs.Prelude.{◌≡◌, ◌+◌, [], length};
    ghost use Rattle.epoch_words.specs.Tokens.{HeraldValue};
    ghost use Rattle.epoch_words.specs.Steps.{herald_part};
    ghost use Rattle.epoch_words.specs.declared.word_table.View.TheVariants.{OfHerald};

    ghost Value = { HeraldValue };

    ghost view = { λ h. record {
      table = h.token.table_id;
      posted = h.posted;
      found = (herald_part h.token.me.0).found;
      looks = (herald_part h.token.me.0).looks;
      looked_at = (herald_part h.token.me.0).looked_at;
    } };

    ghost invariant = { λ h. let known = herald_part h.token.me.0 in
        (h.token.me ≡ (OfHerald known, []))
        × (h.posted ≡ known.posted)
        × (length known.found + 1 ≡ h.token.table_id.words) };
}

/// The words of this number of seats, all 0, and the herald's token.
fn lay_words(alloc: Global, workers: usize) -> Result<(WordTable, Token), AllocError>
    ensures words { IfOk result (λ laid. (laid.0.shared.table_id.words ≡ workers + 1) × (laid.0.shared.key ≡ workers)) }
    ensures token { IfOk result (λ laid. (laid.1.table_id ≡ laid.0.shared.table_id) × (laid.1.me ≡ (initial_view workers, []))) }
{
    let count = workers.checked_add(1).ok_or(AllocError)?;
    let zeros = Vec::from_elem(alloc, 0, count)?;
    Table::of_words(alloc, zeros.as_slice(), &workers)
}

/// The seat of this index, which is the next one to be given out.
fn deal_seat(words: &WordTable, token: &mut Token, index: usize, workers: usize) -> Seat
    requires words { (token.old.table_id ≡ words.now.shared.table_id) × (words.now.shared.table_id.words ≡ workers + 1) × (words.now.shared.key ≡ workers) }
    requires next { (token.old.me ≡ (OfHerald (dealt_herald workers index), [])) × (index < workers) }
    ensures token { (token.new.table_id ≡ token.old.table_id) × (token.new.me ≡ (OfHerald (dealt_herald workers (index + 1)), [])) }
    ensures seat { result ≡ initial_seat token.old.table_id index }
{
    Seat {
        token: words.shared.split_seat::<DealSeat>(token),
        index,
        polled: 0,
    }
}

/// The herald, once each seat was given out.
fn herald_of(token: Token, workers: usize) -> Herald
    requires { (token.me ≡ (OfHerald (dealt_herald workers workers), [])) × (token.table_id.words ≡ workers + 1) }
    ensures { result ≡ initial_herald token.table_id workers }
{
    Herald { token, posted: 0 }
}

impl Epochs {
    /// Epochs for this number of workers, with the herald and a seat for each worker, in order. All numbers begin at 0.
    ///
    /// The only error is out of memory. No other call takes memory.
    pub fn new(alloc: Global, workers: usize) -> Result<(Epochs, Herald, Vec<Seat>), AllocError>
        ensures epochs { IfOk result (λ made. made.0.workers ≡ workers) }
        ensures herald { IfOk result (λ made. made.1 ≡ initial_herald made.0.table workers) }
        ensures seats { IfOk result (λ made. made.2.items ≡ initial_seats made.0.table workers) }
    {
        let mut seats = Vec::with_capacity(alloc, workers)?;
        let (words, mut token) = lay_words(alloc, workers)?;
        for index in 0..workers {
            seats.push_reserved(deal_seat(&words, &mut token, index, workers));
        }
        Ok((Epochs { words, workers }, herald_of(token, workers), seats))
    }

    /// The posted number, which the seat has then polled.
    ///
    /// It is the number that the seat has seen or one more, and no less than it polled before. The seat has to be of
    /// these epochs. This is one step: a load of the posted number.
    pub fn poll(&self, mut seat: Seat) -> (u64, Seat)
        requires { seat.table ≡ self.now.table }
        ensures seat { result.1 ≡ record seat { polled = result.0; polls = seat.polls + 1 } }
        ensures within_one_epoch { IsPostedOrOneLess seat.seen result.0 }
        ensures rises { seat.polled ≤ result.0 }
    {
        seat.polled = self
            .words
            .shared
            .load::<LoadPosted>(&mut seat.token, self.workers);
        (seat.polled, seat)
    }

    /// Stores, as seen by this seat, the number that it last polled.
    ///
    /// The seat has to be of these epochs. This is one step: a store of the seat's seen number.
    pub fn ack(&self, mut seat: Seat) -> Seat
        requires { seat.table ≡ self.now.table }
        ensures { result ≡ record seat { seen = seat.polled } }
    {
        self.words
            .shared
            .store::<StoreSeen>(&mut seat.token, seat.index, seat.polled);
        seat
    }

    /// The number that the seat of this index has seen.
    ///
    /// It is the posted number or one less, and no less than that seat was found to have seen before. The index has to
    /// be below the number of seats, and the herald of these epochs. This is one step, a look: a load of that seat's
    /// number.
    pub fn seen_by(&self, mut herald: Herald, index: usize) -> (u64, Herald)
        requires { (herald.table ≡ self.now.table) × (index < self.now.workers) }
        ensures herald { result.1 ≡ record herald { found = slice_set herald.found index result.0; looks = herald.looks + 1; looked_at = index } }
        ensures within_one_epoch { IsPostedOrOneLess result.0 herald.posted }
        ensures rises { slice_index herald.found index ≤ result.0 }
    {
        let seen = self.words.shared.load::<LoadSeen>(&mut herald.token, index);
        (seen, herald)
    }

    /// Stores the next number as posted, where each seat was found to have seen the posted one.
    fn post_next(&self, mut herald: Herald) -> Herald
        requires table { herald.table ≡ self.now.table }
        requires found { FoundAll self.now.workers herald.posted herald.found }
        requires next { herald.posted + 1 < 2 ^ 64 }
        ensures { result ≡ record herald { posted = herald.posted + 1 } }
    {
        herald.posted += 1;
        self.words
            .shared
            .store::<StorePosted>(&mut herald.token, self.workers, herald.posted);
        herald
    }

    /// Posts the next number, once each seat is found to have seen the posted one.
    ///
    /// `Spent` is decided first: the posted number is 2^64 - 1. Then the seats are looked at in order, up to the first
    /// that hasn't seen the posted number: `Late`. In both cases the posted number stays. The herald has to be of these
    /// epochs. The steps are one look for each seat, up to the late one if there is one, then perhaps a store of the
    /// posted number.
    pub fn post(&self, herald: Herald) -> (Post, Herald)
        requires { herald.table ≡ self.now.table }
        ensures spent { (result.0 ≡ Post.Spent) ↔ (herald.posted ≡ 2 ^ 64 - 1) }
        ensures unchanged { result.0 ≡ Post.Spent → result.1 ≡ herald }
        ensures late { result.0 ≡ Post.Late → FoundLate self.now.workers herald.posted result.1.found result.1.looked_at × (result.1.looks ≡ herald.looks + result.1.looked_at + 1) × (result.1.posted ≡ herald.posted) }
        ensures posted { result.0 ≡ Post.Posted → FoundAll self.now.workers herald.posted result.1.found × (result.1.looks ≡ herald.looks + self.now.workers) × (result.1.posted ≡ herald.posted + 1) }
        ensures herald { (result.1.table ≡ herald.table) × FindsNoLess herald.found result.1.found }
    {
        let posted = herald.posted;
        if posted == u64::MAX {
            return (Post::Spent, herald);
        }
        let mut herald = herald;
        for index in 0..self.workers {
            let (seen, after) = self.seen_by(herald, index);
            herald = after;
            if seen != posted {
                return (Post::Late, herald);
            }
        }
        (Post::Posted, self.post_next(herald))
    }
}
