//! The calls, each of which is one step.

ghost use Rattle.std.specs.Prelude.{◌≡◌, ◌≢◌, ◌+◌, ◌^◌, ◌<◌, ◌≤◌, [], ◌∷◌, ◌++◌, ℕ, length, slice_index, slice_set};
ghost use Rattle.std.specs.Prelude.{All, IfOk, vec_len, true, false};
ghost use Rattle.flip_table.specs.Plans.{plan_of};
ghost use Rattle.epoch_words.specs.Tokens.{FoundAll, IsPostedOrOneLess};
ghost use Rattle.flip_table.specs.Rule.{dealt_copier, forward, initial_view, AllMarked};
ghost use Rattle.flip_table.specs.Steps.{checking_copier, loading_writer, looking_copier};
ghost use Rattle.flip_table.specs.Tokens.{initial_seat, initial_writers, IsCopierOf, IsWriterOf};
ghost use Rattle.flip_table.specs.declared.slot_table.View.TheVariants.{OfCopier};

use crate::slot_table::{
    DealWriter, FindStage, LoadFirst, LoadSecond, LoadToCheck, LoadToCopy, Plan, PollStage,
    PostStage, Retire, StoreAlone, StoreCopy, StoreFirst, StoreSecond, TakeUp, Token, WordTable,
};
use atomic_table::Table;
use std::alloc::{AllocError, Global};
use std::marker::Model;

/// The word in a first copy that was retired.
pub const RETIRED_MARK: u64 = 65_536;

/// A second copy says a value by its multiple of this.
const FORWARD: u64 = 131_072;

/// The words that the writers and the copier share.
#[derive(Drop)]
pub struct FlipTable {
    words: WordTable,
    slots: usize,
    seats: usize,
}

impl Model for FlipTable {
    ghost use Rattle.std.specs.Prelude.{◌≡◌, ◌+◌, ◌<◌, ◌≤◌, ◌^◌, length};
    ghost use Rattle.flip_table.specs.Tokens.{FlipTableValue};
    ghost use Rattle.flip_table.specs.Plans.{plan_of};

    ghost Value = { FlipTableValue };

    ghost view = { λ t. record { table = t.words.shared.table_id; plan = plan_of t.words.shared.key } };

    ghost invariant = { λ t.
        (t.slots ≡ length (plan_of t.words.shared.key).owners)
        × (t.seats ≡ (plan_of t.words.shared.key).seats)
        × (t.words.shared.table_id.words ≡ t.slots + t.slots + t.seats + 1)
        × (t.slots + t.slots + t.seats + 1 < 2 ^ 64)
        × ((plan_of t.words.shared.key).limit ≤ 65536) };
}

/// The right to load every slot, and to store to the slots of one seat.
#[derive(Drop)]
pub struct Writer {
    token: Token,
    index: usize,
    taken_up: u64,
    polled: u64,
}

impl Model for Writer {
    ghost use Rattle.std.specs.Prelude.{◌≡◌, ◌<◌, []};
    ghost use Rattle.flip_table.specs.Tokens.{WriterValue};
    ghost use Rattle.flip_table.specs.Steps.{writer_part};
    ghost use Rattle.flip_table.specs.declared.slot_table.View.TheVariants.{OfWriter};

    ghost Value = { WriterValue };

    ghost view = { λ w. record { table = w.token.table_id; knows = writer_part w.token.me.0 } };

    ghost invariant = { λ w. let knows = writer_part w.token.me.0 in
        (w.token.me ≡ (OfWriter knows, []))
        × (w.index ≡ knows.index)
        × (w.taken_up ≡ knows.taken_up)
        × (w.polled ≡ knows.polled)
        × (knows.index < knows.plan.seats) };
}

impl Writer {
    /// Which seat this is, counted from 0.
    pub fn index(&self) -> usize
        ensures { result ≡ self.now.knows.index }
    {
        self.index
    }

    /// The stage that the seat has taken up: 0, 1 or 2.
    pub fn taken_up(&self) -> u64
        ensures { result ≡ self.now.knows.taken_up }
    {
        self.taken_up
    }
}

/// The right to copy, to move to the next stage and to retire.
#[derive(Drop)]
pub struct Copier {
    token: Token,
    stage: u64,
}

impl Model for Copier {
    ghost use Rattle.std.specs.Prelude.{◌≡◌, []};
    ghost use Rattle.flip_table.specs.Tokens.{CopierValue};
    ghost use Rattle.flip_table.specs.Steps.{copier_part};
    ghost use Rattle.flip_table.specs.declared.slot_table.View.TheVariants.{OfCopier};

    ghost Value = { CopierValue };

    ghost view = { λ c. record { table = c.token.table_id; knows = copier_part c.token.me.0 } };

    ghost invariant = { λ c. let knows = copier_part c.token.me.0 in
        (c.token.me ≡ (OfCopier knows, []))
        × (c.stage ≡ knows.stage) };
}

impl Copier {
    /// The stage: 0, 1 or 2.
    pub fn stage(&self) -> u64
        ensures { result ≡ self.now.knows.stage }
    {
        self.stage
    }
}

/// The words of this plan, all 0, and the copier's token.
fn lay_words(alloc: Global, plan: &Plan) -> Result<(WordTable, Token), AllocError>
    requires sizes { (vec_len plan.now.writer_of ≤ 4096) × (plan.now.seats ≤ 16) }
    requires owned { All (λ j. j < plan.now.seats) plan.now.writer_of.items }
    requires limit { 0 < plan.now.limit }
    ensures words { IfOk result (λ laid. (laid.0.shared.table_id.words ≡ vec_len plan.now.writer_of + vec_len plan.now.writer_of + plan.now.seats + 1) × (laid.0.shared.key ≡ plan.now)) }
    ensures token { IfOk result (λ laid. (laid.1.table_id ≡ laid.0.shared.table_id) × (laid.1.me ≡ (initial_view (plan_of plan.now), []))) }
{
    let slots = plan.writer_of.len();
    let zeros = Vec::from_elem(alloc, 0, slots + slots + plan.seats + 1)?;
    Table::of_words(alloc, zeros.as_slice(), plan)
}

/// The writer of this index, which is the next one to be given out.
fn deal_writer(words: &WordTable, token: &mut Token, index: usize) -> Writer
    requires words { (token.old.table_id ≡ words.now.shared.table_id) × (0 < words.now.shared.table_id.words) }
    requires next { (token.old.me ≡ (OfCopier (dealt_copier (plan_of words.now.shared.key) index), [])) × (index < words.now.shared.key.seats) }
    ensures token { (token.new.table_id ≡ token.old.table_id) × (token.new.me ≡ (OfCopier (dealt_copier (plan_of words.now.shared.key) (index + 1)), [])) }
    ensures writer { result ≡ initial_seat token.old.table_id (plan_of words.now.shared.key) index }
{
    Writer {
        token: words.shared.split_seat::<DealWriter>(token),
        index,
        taken_up: 0,
        polled: 0,
    }
}

/// The copier, once each writer was given out.
fn copier_of(token: Token, plan: &Plan) -> Copier
    requires { token.me ≡ (OfCopier (dealt_copier (plan_of plan.now) plan.now.seats), []) }
    ensures { result ≡ record { table = token.table_id; knows = dealt_copier (plan_of plan.now) plan.now.seats } }
{
    Copier { token, stage: 0 }
}

fn forward(value: u64) -> u64
    requires { value < 65536 }
    ensures { result ≡ forward value }
{
    FORWARD * value
}

impl FlipTable {
    /// A table of this plan, with the copier and a writer for each seat, in order. Every slot is null, and every stage 0.
    ///
    /// The only error is out of memory. No other call takes memory.
    pub fn new(alloc: Global, plan: Plan) -> Result<(FlipTable, Copier, Vec<Writer>), AllocError>
        requires sizes { (vec_len plan.writer_of ≤ 4096) × (plan.seats ≤ 16) }
        requires owned { All (λ j. j < plan.seats) plan.writer_of.items }
        requires limit { (0 < plan.limit) × (plan.limit ≤ 65536) }
        ensures table { IfOk result (λ made. made.0.plan ≡ plan_of plan) }
        ensures copier { IfOk result (λ made. made.1 ≡ record { table = made.0.table; knows = dealt_copier (plan_of plan) plan.seats }) }
        ensures writers { IfOk result (λ made. made.2.items ≡ initial_writers made.0.table (plan_of plan)) }
    {
        let (slots, seats) = (plan.writer_of.len(), plan.seats);
        let mut writers = Vec::with_capacity(alloc, seats)?;
        let (words, mut token) = lay_words(alloc, &plan)?;
        for index in 0..seats {
            writers.push_reserved(deal_writer(&words, &mut token, index));
        }
        let table = FlipTable {
            words,
            slots,
            seats,
        };
        Ok((table, copier_of(token, &plan), writers))
    }

    /// How many seats there are.
    pub fn seats(&self) -> usize
        ensures { result ≡ self.now.plan.seats }
    {
        self.seats
    }

    /// Loads the first copy of a slot, at stage 0: a value below the limit, and in a slot of the writer's own what it
    /// last wrote.
    pub fn load_first(&self, mut writer: Writer, slot: usize) -> (u64, Writer)
        requires table { IsWriterOf self.now writer × (slot < length self.now.plan.owners) }
        requires stage { writer.knows.taken_up ≡ 0 }
        ensures writer { result.1 ≡ record writer { knows = loading_writer writer.knows slot result.0 } }
        ensures small { result.0 < self.now.plan.limit }
        ensures own { slice_index self.now.plan.owners slot ≡ writer.knows.index → result.0 ≡ slice_index writer.knows.written slot }
    {
        let value = self.words.shared.load::<LoadFirst>(&mut writer.token, slot);
        (value, writer)
    }

    /// Loads the second copy of a slot, from stage 1 on, and returns the value whose forward is there: a value below
    /// the limit, and in a slot of the writer's own what it last wrote.
    pub fn load_second(&self, mut writer: Writer, slot: usize) -> (u64, Writer)
        requires table { IsWriterOf self.now writer × (slot < length self.now.plan.owners) }
        requires stage { (0 < writer.knows.taken_up) × (writer.knows.pending ≡ None) }
        ensures writer { result.1 ≡ record writer { knows = loading_writer writer.knows (length self.now.plan.owners + slot) result.0 } }
        ensures small { result.0 < self.now.plan.limit }
        ensures own { slice_index self.now.plan.owners slot ≡ writer.knows.index → result.0 ≡ slice_index writer.knows.written slot }
    {
        let word = self
            .words
            .shared
            .load::<LoadSecond>(&mut writer.token, self.slots + slot);
        (word / FORWARD, writer)
    }

    /// Stores to the first copy of a slot of the writer's own, at stages 0 and 1. The second copy is still to be stored.
    pub fn store_first(&self, mut writer: Writer, slot: usize, value: u64) -> Writer
        requires table { IsWriterOf self.now writer × (slot < length self.now.plan.owners) × (slice_index self.now.plan.owners slot ≡ writer.knows.index) }
        requires stage { (writer.knows.taken_up ≤ 1) × (writer.knows.pending ≡ None) }
        requires value { value < self.now.plan.limit }
        ensures { result ≡ record writer { knows = record writer.knows { written = slice_set writer.knows.written slot value; wrote = writer.knows.wrote ++ (slot, value) ∷ []; pending = Some slot } } }
    {
        self.words
            .shared
            .store::<StoreFirst>(&mut writer.token, slot, value);
        writer
    }

    /// Stores to the second copy of a slot what was stored to its first copy just before.
    pub fn store_second(&self, mut writer: Writer, slot: usize, value: u64) -> Writer
        requires table { IsWriterOf self.now writer × (slot < length self.now.plan.owners) × (slice_index self.now.plan.owners slot ≡ writer.knows.index) }
        requires pending { writer.knows.pending ≡ Some slot }
        requires value { (slice_index writer.knows.written slot ≡ value) × (value < self.now.plan.limit) }
        ensures { result ≡ record writer { knows = record writer.knows { pending = None } } }
    {
        let word = self.slots + slot;
        self.words
            .shared
            .store::<StoreSecond>(&mut writer.token, word, forward(value));
        writer
    }

    /// Stores to the second copy alone of a slot of the writer's own, at stage 2.
    pub fn store_alone(&self, mut writer: Writer, slot: usize, value: u64) -> Writer
        requires table { IsWriterOf self.now writer × (slot < length self.now.plan.owners) × (slice_index self.now.plan.owners slot ≡ writer.knows.index) }
        requires stage { (1 < writer.knows.taken_up) × (writer.knows.pending ≡ None) }
        requires value { value < self.now.plan.limit }
        ensures { result ≡ record writer { knows = record writer.knows { written = slice_set writer.knows.written slot value; wrote = writer.knows.wrote ++ (slot, value) ∷ []; pending = None } } }
    {
        let word = self.slots + slot;
        self.words
            .shared
            .store::<StoreAlone>(&mut writer.token, word, forward(value));
        writer
    }

    /// Loads the stage, which the seat has then polled: the stage that it has taken up or one more, and no less than it
    /// polled before.
    pub fn poll(&self, mut writer: Writer) -> (u64, Writer)
        requires { IsWriterOf self.now writer }
        ensures writer { result.1 ≡ record writer { knows = record writer.knows { polled = result.0; polls = writer.knows.polls + 1 } } }
        ensures within_one_stage { IsPostedOrOneLess writer.knows.taken_up result.0 }
        ensures rises { writer.knows.polled ≤ result.0 }
        ensures last { result.0 ≤ 2 }
    {
        let word = self.slots + self.slots + self.seats;
        writer.polled = self.words.shared.load::<PollStage>(&mut writer.token, word);
        (writer.polled, writer)
    }

    /// Takes up the stage that the seat last polled.
    pub fn take_up(&self, mut writer: Writer) -> Writer
        requires { IsWriterOf self.now writer × (writer.knows.pending ≡ None) }
        ensures { result ≡ record writer { knows = record writer.knows { taken_up = writer.knows.polled } } }
    {
        let word = self.slots + self.slots + writer.index;
        writer.taken_up = writer.polled;
        self.words
            .shared
            .store::<TakeUp>(&mut writer.token, word, writer.polled);
        writer
    }

    /// Loads the first copy of a slot for copying, at stage 0.
    pub fn load_to_copy(&self, mut copier: Copier, slot: usize) -> (u64, Copier)
        requires table { IsCopierOf self.now copier × (slot < length self.now.plan.owners) }
        requires stage { copier.knows.stage ≡ 0 }
        ensures copier { result.1 ≡ record copier { knows = record copier.knows { copying = Some slot; value = result.0; stored = false } } }
        ensures small { result.0 < self.now.plan.limit }
    {
        let value = self
            .words
            .shared
            .load::<LoadToCopy>(&mut copier.token, slot);
        (value, copier)
    }

    /// Stores the forward of the loaded value to the second copy of a slot. The slot stops counting as copied.
    pub fn store_copy(&self, mut copier: Copier, slot: usize, value: u64) -> Copier
        requires table { IsCopierOf self.now copier × (slot < length self.now.plan.owners) }
        requires stage { (copier.knows.stage ≡ 0) × (copier.knows.copying ≡ Some slot) }
        requires value { (copier.knows.value ≡ value) × (value < self.now.plan.limit) }
        ensures { result ≡ record copier { knows = record copier.knows { stored = true; copied = slice_set copier.knows.copied slot false } } }
    {
        let word = self.slots + slot;
        self.words
            .shared
            .store::<StoreCopy>(&mut copier.token, word, forward(value));
        copier
    }

    /// Loads the first copy again, which is a check. Where it has the same value, the slot counts as copied.
    pub fn load_to_check(&self, mut copier: Copier, slot: usize) -> (u64, Copier)
        requires table { IsCopierOf self.now copier × (slot < length self.now.plan.owners) }
        requires stage { (copier.knows.stage ≡ 0) × (copier.knows.copying ≡ Some slot) × (copier.knows.stored ≡ true) }
        ensures same { result.0 ≡ copier.knows.value → result.1 ≡ record copier { knows = record (checking_copier copier.knows slot result.0) { copied = slice_set copier.knows.copied slot true } } }
        ensures changed { result.0 ≢ copier.knows.value → result.1 ≡ record copier { knows = checking_copier copier.knows slot result.0 } }
    {
        let value = self
            .words
            .shared
            .load::<LoadToCheck>(&mut copier.token, slot);
        (value, copier)
    }

    /// Loads the stage that a seat has taken up, which is a look: the stage or one less, and no less than was found
    /// before.
    pub fn find(&self, mut copier: Copier, seat: usize) -> (u64, Copier)
        requires { IsCopierOf self.now copier × (seat < self.now.plan.seats) }
        ensures copier { result.1 ≡ record copier { knows = looking_copier copier.knows seat result.0 } }
        ensures within_one_stage { IsPostedOrOneLess result.0 copier.knows.stage }
        ensures rises { slice_index copier.knows.found seat ≤ result.0 }
    {
        let word = self.slots + self.slots + seat;
        let stage = self.words.shared.load::<FindStage>(&mut copier.token, word);
        (stage, copier)
    }

    /// Posts the next stage, once each seat was found to have taken up this one and, at stage 0, every slot is copied.
    pub fn post(&self, mut copier: Copier) -> Copier
        requires table { IsCopierOf self.now copier }
        requires found { FoundAll self.now.plan.seats copier.knows.stage copier.knows.found × (copier.knows.stage < 2) }
        requires copied { copier.knows.stage ≡ 0 → AllMarked copier.knows.copied }
        ensures { result ≡ record copier { knows = record copier.knows { stage = copier.knows.stage + 1 } } }
    {
        let word = self.slots + self.slots + self.seats;
        copier.stage += 1;
        self.words
            .shared
            .store::<PostStage>(&mut copier.token, word, copier.stage);
        copier
    }

    /// Stores the mark over the first copy of a slot, once each seat was found at stage 2.
    pub fn retire(&self, mut copier: Copier, slot: usize) -> Copier
        requires table { IsCopierOf self.now copier × (slot < length self.now.plan.owners) }
        requires found { FoundAll self.now.plan.seats 2 copier.knows.found }
        ensures { result ≡ record copier { knows = record copier.knows { retired = slice_set copier.knows.retired slot true } } }
    {
        self.words
            .shared
            .store::<Retire>(&mut copier.token, slot, RETIRED_MARK);
        copier
    }
}
