//! What the writers and the copier do.

ghost use Rattle.std.specs.Prelude.{◌≡◌, ◌≢◌, ◌⊎◌, ◌↔◌, ◌+◌, ◌*◌, ◌<◌, ◌≤◌, ℕ, true, false, Some, IsTrue, IfSome, IfOk, All, None, length, map, vec_len, slice_get, slice_index, slice_set};
ghost use Rattle.std.specs.Option.{ForSome};
ghost use Rattle.epoch_words.specs.Tokens.{FindsNoLess, FoundAll, FoundLate, IsPostedOrOneLess};
ghost use Rattle.flip_table.specs.Rule.{AllMarked};
ghost use Rattle.word_flip.specs.Objects.{object_of};
ghost use Rattle.word_flip.specs.Tokens.{writer_value, initial_copier, initial_writers, index_of, HasChecked, HasLoaded, HasSlot, IsCopierOf, IsOwn, IsWriterOf, SomeUncopied};

use crate::objects::{object_of, word_of};
use flip_table::{FlipTable, Plan};
use std::alloc::{AllocError, Global};
use std::marker::Model;

/// The last stage: first copies are retired.
const RECLAIM: u64 = 2;

/// What became of a `copy_word`.
#[derive(Clone, Copy)]
pub enum Copy {
    /// The second copy says what the first says.
    Copied,
    /// The first copy was written meanwhile: the slot is to be copied again.
    Again,
    /// The stage of copying is over.
    Past,
}

/// What became of an `advance`.
#[derive(Clone, Copy)]
pub enum Advance {
    /// The next stage is posted.
    Posted,
    /// A seat was found that has not taken up the stage.
    Late,
    /// A slot is still to be copied.
    Unfinished,
    /// There is no stage after this one.
    Last,
}

/// What became of a `retire`.
#[derive(Clone, Copy)]
pub enum Retire {
    /// The first copy has the retired mark.
    Retired,
    /// A seat was found that has not taken up the last stage.
    Late,
}

/// The slots of a number of objects, in two copies, and the stages of their seats.
#[derive(Drop)]
pub struct Flip {
    table: FlipTable,
    objects: u16,
    slots: u8,
}

impl Model for Flip {
    ghost use Rattle.std.specs.Prelude.{◌≡◌, ◌+◌, ◌*◌, ◌≤◌, length};
    ghost use Rattle.word_flip.specs.Tokens.{FlipValue};

    ghost Value = { FlipValue };

    ghost view = { λ f. record { table = f.table.table; plan = f.table.plan; objects = f.objects; slots = f.slots } };

    ghost invariant = { λ f.
        (f.objects ≤ 256)
        × (f.table.plan.limit ≡ f.objects + 1)
        × (length f.table.plan.owners ≡ f.objects * f.slots) };
}

/// The right to load every slot, and to store to the slots of one seat.
#[derive(Drop)]
pub struct Writer {
    token: flip_table::Writer,
}

impl Model for Writer {
    ghost use Rattle.std.specs.Prelude.{◌≡◌, ◌≤◌, None, length, map};
    ghost use Rattle.word_flip.specs.Objects.{object_of};
    ghost use Rattle.word_flip.specs.Tokens.{WriterValue};

    ghost Value = { WriterValue };

    ghost view = { λ w. record {
      table = w.token.table;
      plan = w.token.knows.plan;
      seat = w.token.knows.index;
      stage = w.token.knows.taken_up;
      polled = w.token.knows.polled;
      polls = w.token.knows.polls;
      loads = w.token.knows.loads;
      loaded_word = w.token.knows.loaded_word;
      loaded = object_of w.token.knows.loaded;
      stores = length w.token.knows.wrote;
      written = map object_of w.token.knows.written;
    } };

    ghost invariant = { λ w.
        (w.token.knows.pending ≡ None)
        × (length w.token.knows.written ≡ length w.token.knows.plan.owners) };
}

impl Writer {
    /// Which seat this is, counted from 0.
    pub fn seat(&self) -> usize
        ensures { result ≡ self.now.seat }
    {
        self.token.index()
    }
}

/// The right to copy, to move to the next stage and to retire.
#[derive(Drop)]
pub struct Copier {
    token: flip_table::Copier,
    copied: Vec<bool>,
}

impl Model for Copier {
    ghost use Rattle.std.specs.Prelude.{◌≡◌, ◌≤◌, None, length};
    ghost use Rattle.word_flip.specs.Tokens.{CopierValue};

    ghost Value = { CopierValue };

    ghost view = { λ c. record {
      table = c.token.table;
      plan = c.token.knows.plan;
      stage = c.token.knows.stage;
      found = c.token.knows.found;
      looks = c.token.knows.looks;
      looked_at = c.token.knows.looked_at;
      checks = c.token.knows.checks;
      slot_checked = c.token.knows.checked_slot;
      first_load = c.token.knows.first_load;
      second_load = c.token.knows.second_load;
      copied = c.token.knows.copied;
      retired = c.token.knows.retired;
    } };

    ghost invariant = { λ c.
        (c.copied.items ≡ c.token.knows.copied)
        × (c.token.knows.copying ≡ None)
        × (length c.token.knows.copied ≡ length c.token.knows.plan.owners)
        × (length c.token.knows.found ≡ c.token.knows.plan.seats)
        × (c.token.knows.stage ≤ 2) };
}

/// The writers of a table that was just made.
fn writers_of(alloc: Global, tokens: Vec<flip_table::Writer>) -> Result<Vec<Writer>, AllocError>
    requires idle { All (λ token. (token.knows.pending ≡ None) × (length token.knows.written ≡ length token.knows.plan.owners)) tokens.items }
    ensures { IfOk result (λ writers. writers.items ≡ map writer_value tokens.items) }
{
    let mut writers = Vec::with_capacity(alloc, tokens.len())?;
    for token in tokens {
        writers.push(Writer { token })?;
    }
    Ok(writers)
}

impl Flip {
    /// A flip over this number of objects with this number of slots each, with the copier and a writer for each seat, in order. All slots
    /// are null, and all stages 0.
    ///
    /// There are at most 256 objects, 16 slots and 16 seats. `writer_of` has for each slot, at
    /// `object * slots + slot`, the seat that alone writes to it. The only error is out of memory. No other call takes
    /// memory.
    pub fn new(
        alloc: Global,
        objects: u16,
        slots: u8,
        writer_of: &[u8],
        seats: u8,
    ) -> Result<(Flip, Copier, Vec<Writer>), AllocError>
        requires sizes { (objects ≤ 256) × (slots ≤ 16) × (seats ≤ 16) }
        requires writers { (length writer_of.now ≡ objects * slots) × All (λ seat. seat < seats) writer_of.now }
        ensures flip { IfOk result (λ made. made.0 ≡ record { table = made.0.table; plan = record { owners = writer_of.now; seats = seats; limit = objects + 1 }; objects = objects; slots = slots }) }
        ensures copier { IfOk result (λ made. made.1 ≡ initial_copier made.0.table made.0.plan) }
        ensures writers { IfOk result (λ made. made.2.items ≡ initial_writers made.0.table made.0.plan) }
    {
        let plan = Plan {
            writer_of: Vec::from_slice(alloc, writer_of)?,
            seats: usize::from(seats),
            limit: u64::from(objects) + 1,
        };
        let copied = Vec::from_elem(alloc, false, writer_of.len())?;
        let (table, token, tokens) = FlipTable::new(alloc, plan)?;
        let writers = writers_of(alloc, tokens)?;
        let flip = Flip {
            table,
            objects,
            slots,
        };
        Ok((flip, Copier { token, copied }, writers))
    }

    /// How many objects there are: 1 to 256.
    pub fn objects(&self) -> u16
        ensures { result ≡ self.now.objects }
    {
        self.objects
    }

    /// How many slots each object has: 1 to 16.
    pub fn slots(&self) -> u8
        ensures { result ≡ self.now.slots }
    {
        self.slots
    }

    fn index(&self, object: u16, slot: u8) -> usize
        requires { HasSlot self.now object slot }
        ensures index { result ≡ index_of self.now object slot }
        ensures inside { result < length self.now.plan.owners }
    {
        usize::from(object) * usize::from(self.slots) + usize::from(slot)
    }

    /// The word of a slot, from the copy that goes with the seat's stage.
    fn load_word(&self, writer: Writer, index: usize) -> (u64, Writer)
        requires { IsWriterOf self.now writer × (index < length self.now.plan.owners) }
        ensures loaded { HasLoaded self.now writer index result.1 × (result.1.loaded ≡ object_of result.0) }
        ensures rest { result.1 ≡ record writer { loads = result.1.loads; loaded_word = result.1.loaded_word; loaded = result.1.loaded } }
        ensures small { (result.0 ≤ self.now.objects) × (result.0 ≤ 256) }
        ensures own { slice_index self.now.plan.owners index ≡ writer.seat → slice_get writer.written index ≡ Some (object_of result.0) }
    {
        if writer.token.taken_up() == 0 {
            let (word, token) = self.table.load_first(writer.token, index);
            return (word, Writer { token });
        }
        let (word, token) = self.table.load_second(writer.token, index);
        (word, Writer { token })
    }

    /// The object that a slot names, or null.
    ///
    /// A seat at stage 0 loads the first copy, and at stage 1 or 2 the second. In a slot of the seat's own this is what
    /// it last wrote, whatever was copied and retired meanwhile. In another's it is null or an object number below the
    /// number of objects. The writer has to be of this flip, and the slot one of its slots. This is one step, the load that
    /// gives the result.
    pub fn load(&self, writer: Writer, object: u16, slot: u8) -> (Option<u16>, Writer)
        requires writer { IsWriterOf self.now writer }
        requires slot { HasSlot self.now object slot }
        ensures loaded { HasLoaded self.now writer (index_of self.now object slot) result.1 × (result.1.loaded ≡ result.0) }
        ensures rest { result.1 ≡ record writer { loads = result.1.loads; loaded_word = result.1.loaded_word; loaded = result.1.loaded } }
        ensures named { IfSome result.0 (λ named. named < self.now.objects) }
        ensures own { IsOwn self.now writer object slot → slice_get writer.written (index_of self.now object slot) ≡ Some result.0 }
    {
        let (word, writer) = self.load_word(writer, self.index(object, slot));
        (object_of(word), writer)
    }

    /// Writes an object, or null, to a slot of the seat's own.
    ///
    /// At stages 0 and 1 this is a store to the first copy and then one to the second, and at stage 2 one to the second.
    /// The writer has to be of this flip, and the object one of its objects.
    pub fn store(&self, writer: Writer, object: u16, slot: u8, value: Option<u16>) -> Writer
        requires writer { IsWriterOf self.now writer }
        requires slot { HasSlot self.now object slot }
        requires own { IsOwn self.now writer object slot }
        requires value { ForSome value (λ named. named < self.now.objects) }
        ensures { result ≡ record writer { stores = writer.stores + 1; written = slice_set writer.written (index_of self.now object slot) value } }
    {
        let index = self.index(object, slot);
        let word = word_of(value);
        if writer.token.taken_up() < RECLAIM {
            let token = self.table.store_first(writer.token, index, word);
            let token = self.table.store_second(token, index, word);
            return Writer { token };
        }
        let token = self.table.store_alone(writer.token, index, word);
        Writer { token }
    }

    /// Takes up the posted stage, which is the result: 0, 1 or 2.
    ///
    /// It is the stage that the seat had taken up or one more. The writer has to be of this flip. These are two steps, a
    /// load of the posted stage and a store of the seat's.
    pub fn flip_ack(&self, writer: Writer) -> (u64, Writer)
        requires { IsWriterOf self.now writer }
        ensures writer { result.1 ≡ record writer { stage = result.0; polled = result.0; polls = writer.polls + 1 } }
        ensures within_one_stage { IsPostedOrOneLess writer.stage result.0 }
        ensures last { result.0 ≤ 2 }
    {
        let (stage, token) = self.table.poll(writer.token);
        let token = self.table.take_up(token);
        (stage, Writer { token })
    }

    /// Copies a slot, at stage 0, and returns whether its first copy stayed the same meanwhile.
    fn copy_slot(&self, copier: Copier, index: usize) -> (bool, Copier)
        requires copier { IsCopierOf self.now copier × (copier.stage ≡ 0) }
        requires index { index < length self.now.plan.owners }
        ensures same { IsTrue result.0 ↔ (result.1.first_load ≡ result.1.second_load) }
        ensures copier { result.1 ≡ record copier { checks = copier.checks + 1; slot_checked = index; first_load = result.1.first_load; second_load = result.1.second_load; copied = slice_set copier.copied index result.0 } }
    {
        let mut copied = copier.copied;
        let (value, token) = self.table.load_to_copy(copier.token, index);
        let token = self.table.store_copy(token, index, value);
        let (again, token) = self.table.load_to_check(token, index);
        if again == value {
            copied[index] = true;
            return (true, Copier { token, copied });
        }
        copied[index] = false;
        (false, Copier { token, copied })
    }

    /// Copies a slot to its second copy, at stage 0.
    ///
    /// `Past`: stage 0 is over, and nothing is done. `Copied`: from now on the second copy says what the first says,
    /// whatever its writer stores. `Again`: the two loads of the first copy differ, so the slot is to be copied again,
    /// also where it was copied before. The copier has to be of this flip, and the slot one of its slots. These are no
    /// steps or three: a load of the first copy, a store to the second, and a load of the first, which is the check.
    pub fn copy_word(&self, copier: Copier, object: u16, slot: u8) -> (Copy, Copier)
        requires copier { IsCopierOf self.now copier }
        requires slot { HasSlot self.now object slot }
        ensures past { (result.0 ≡ Copy.Past) ↔ (0 < copier.stage) }
        ensures unchanged { result.0 ≡ Copy.Past → result.1 ≡ copier }
        ensures copied { result.0 ≡ Copy.Copied → HasChecked copier (index_of self.now object slot) result.1 × (result.1.first_load ≡ result.1.second_load) × (result.1.copied ≡ slice_set copier.copied (index_of self.now object slot) true) }
        ensures again { result.0 ≡ Copy.Again → HasChecked copier (index_of self.now object slot) result.1 × (result.1.first_load ≢ result.1.second_load) × (result.1.copied ≡ slice_set copier.copied (index_of self.now object slot) false) }
        ensures rest { result.1 ≡ record copier { checks = result.1.checks; slot_checked = result.1.slot_checked; first_load = result.1.first_load; second_load = result.1.second_load; copied = result.1.copied } }
    {
        if copier.token.stage() > 0 {
            return (Copy::Past, copier);
        }
        match self.copy_slot(copier, self.index(object, slot)) {
            (true, copier) => (Copy::Copied, copier),
            (false, copier) => (Copy::Again, copier),
        }
    }

    /// Finds the stage that a seat has taken up, by one look.
    fn find(&self, copier: Copier, seat: usize) -> (u64, Copier)
        requires { IsCopierOf self.now copier × (seat < self.now.plan.seats) }
        ensures copier { result.1 ≡ record copier { found = slice_set copier.found seat result.0; looks = copier.looks + 1; looked_at = seat } }
        ensures within_one_stage { IsPostedOrOneLess result.0 copier.stage }
        ensures rises { slice_index copier.found seat ≤ result.0 }
    {
        let copied = copier.copied;
        let (stage, token) = self.table.find(copier.token, seat);
        (stage, Copier { token, copied })
    }

    /// Looks at the seats in order, up to the first that has not taken up this stage, and returns whether all have.
    fn find_all(&self, copier: Copier, stage: u64) -> (bool, Copier)
        requires { IsCopierOf self.now copier × (copier.stage ≤ stage) }
        ensures all { result.0 ≡ true → FoundAll self.now.plan.seats stage result.1.found × (result.1.looks ≡ copier.looks + self.now.plan.seats) }
        ensures late { result.0 ≡ false → FoundLate self.now.plan.seats stage result.1.found result.1.looked_at × (result.1.looks ≡ copier.looks + result.1.looked_at + 1) }
        ensures copier { result.1 ≡ record copier { found = result.1.found; looks = result.1.looks; looked_at = result.1.looked_at } }
        ensures rises { FindsNoLess copier.found result.1.found }
    {
        let mut copier = copier;
        for seat in 0..self.table.seats() {
            let (found, after) = self.find(copier, seat);
            copier = after;
            if found != stage {
                return (false, copier);
            }
        }
        (true, copier)
    }

    /// Posts the next stage, once each slot is copied and each seat was found to have taken up the stage.
    ///
    /// Decided in this order: `Last`, at stage 2; `Unfinished`, at stage 0 while a slot is not copied; `Late`, where a
    /// seat was found that has not taken up the stage. In these cases the stage stays. The copier has to be of this flip.
    /// The steps are one look for each seat, up to the late one if there is one, then perhaps a store of the posted stage.
    pub fn advance(&self, copier: Copier) -> (Advance, Copier)
        requires { IsCopierOf self.now copier }
        ensures last { (result.0 ≡ Advance.Last) ↔ (copier.stage ≡ 2) }
        ensures unfinished { result.0 ≡ Advance.Unfinished → (copier.stage ≡ 0) × SomeUncopied copier.copied }
        ensures unchanged { (result.0 ≡ Advance.Last) ⊎ (result.0 ≡ Advance.Unfinished) → result.1 ≡ copier }
        ensures finished { (result.0 ≡ Advance.Late) ⊎ (result.0 ≡ Advance.Posted) → copier.stage ≡ 0 → AllMarked copier.copied }
        ensures late { result.0 ≡ Advance.Late → FoundLate self.now.plan.seats copier.stage result.1.found result.1.looked_at × (result.1.looks ≡ copier.looks + result.1.looked_at + 1) × (result.1.stage ≡ copier.stage) }
        ensures posted { result.0 ≡ Advance.Posted → FoundAll self.now.plan.seats copier.stage result.1.found × (result.1.looks ≡ copier.looks + self.now.plan.seats) × (result.1.stage ≡ copier.stage + 1) }
        ensures rest { result.1 ≡ record copier { stage = result.1.stage; found = result.1.found; looks = result.1.looks; looked_at = result.1.looked_at } }
        ensures rises { FindsNoLess copier.found result.1.found }
    {
        let stage = copier.token.stage();
        if stage == RECLAIM {
            return (Advance::Last, copier);
        }
        if stage == 0 && !copier.is_all_copied() {
            return (Advance::Unfinished, copier);
        }
        match self.find_all(copier, stage) {
            (true, copier) => (Advance::Posted, self.post(copier)),
            (false, copier) => (Advance::Late, copier),
        }
    }

    /// Posts the next stage.
    fn post(&self, copier: Copier) -> Copier
        requires copier { IsCopierOf self.now copier × (copier.stage < 2) }
        requires found { FoundAll self.now.plan.seats copier.stage copier.found }
        requires copied { copier.stage ≡ 0 → AllMarked copier.copied }
        ensures { result ≡ record copier { stage = copier.stage + 1 } }
    {
        let copied = copier.copied;
        let token = self.table.post(copier.token);
        Copier { token, copied }
    }

    /// Writes the retired mark over the first copy of a slot, once each seat was found at stage 2.
    ///
    /// The mark stays for good. `Late`: a seat was found that has not taken up stage 2, and nothing is written. The copier
    /// has to be of this flip, and the slot one of its slots. The steps are one look for each seat, up to the late one if
    /// there is one, then perhaps a store to the first copy.
    pub fn retire(&self, copier: Copier, object: u16, slot: u8) -> (Retire, Copier)
        requires copier { IsCopierOf self.now copier }
        requires slot { HasSlot self.now object slot }
        ensures retired { result.0 ≡ Retire.Retired → FoundAll self.now.plan.seats 2 result.1.found × (result.1.looks ≡ copier.looks + self.now.plan.seats) × (result.1.retired ≡ slice_set copier.retired (index_of self.now object slot) true) }
        ensures late { result.0 ≡ Retire.Late → FoundLate self.now.plan.seats 2 result.1.found result.1.looked_at × (result.1.looks ≡ copier.looks + result.1.looked_at + 1) × (result.1.retired ≡ copier.retired) }
        ensures rest { result.1 ≡ record copier { found = result.1.found; looks = result.1.looks; looked_at = result.1.looked_at; retired = result.1.retired } }
        ensures rises { FindsNoLess copier.found result.1.found }
    {
        match self.find_all(copier, RECLAIM) {
            (true, copier) => (Retire::Retired, self.mark(copier, self.index(object, slot))),
            (false, copier) => (Retire::Late, copier),
        }
    }

    /// Writes the retired mark over the first copy of a slot.
    fn mark(&self, copier: Copier, index: usize) -> Copier
        requires copier { IsCopierOf self.now copier × (index < length self.now.plan.owners) }
        requires found { FoundAll self.now.plan.seats 2 copier.found }
        ensures { result ≡ record copier { retired = slice_set copier.retired index true } }
    {
        let copied = copier.copied;
        let token = self.table.retire(copier.token, index);
        Copier { token, copied }
    }
}

impl Copier {
    /// Whether each slot is copied.
    fn is_all_copied(&self) -> bool
        ensures all { result ≡ true → AllMarked self.now.copied }
        ensures some { result ≡ false → SomeUncopied self.now.copied }
    {
        for &copied in self.copied.as_slice() {
            if !copied {
                return false;
            }
        }
        true
    }
}
