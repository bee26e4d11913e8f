//! Objects in one block, or in two during a cycle.

ghost use Rattle.cil_model.specs.declared.limits.TheConstants.{MOST_WORDS};
ghost use Rattle.object_memory.specs.declared.monitors.Monitor.TheVariants.{Free};
ghost use Rattle.space_block.specs.Rows.{blank};
ghost use Rattle.std.specs.Prelude.{◌≡◌, ◌≢◌, ℕ, ◌+◌, ◌*◌, ◌<◌, ◌≤◌, [], true, false, length, drop, replicate, slice_index, slice_get, Some, None, IfOk, IfSome, IsSome, option_map, vec_capacity};

use crate::addresses::Addr;
use crate::birth_spaces::BirthSpace;
use crate::digests::Digest;
use crate::grey::GreyList;
use crate::kinds::Kind;
use crate::monitors::Monitor;
use crate::space::{FIRST, HEADER_WORDS, Space};
use cil_model::limits::MOST_WORDS;
use cil_model::memory::NoMemory;
use cil_model::phases::Phase;
use space_block::Block;
use std::alloc::Global;
use std::marker::Model;
use std::mem;

/// What a heap has beside the old block while a cycle is open: the new block, the cells still to be scanned, and whether a
/// cell was marked since the newest round began.
#[derive(Drop)]
struct Cycle {
    to: Space,
    grey: GreyList,
    has_marked: bool,
}

/// The objects of one block, or of two while a cycle is open, and the monitors of the program's literals, which lie in no
/// block. Contracts see cells and a list of monitors.
pub struct Heap {
    from: Space,
    cycle: Option<Cycle>,
    literals: Vec<Monitor>,
}

/// Each part is dropped.
impl Drop for Heap {
    fn drop(self) {
        let Heap {
            from: _from,
            cycle: _cycle,
            literals: _literals,
        } = self;
    }
}

impl Model for Heap {
    ghost use Rattle.object_memory.specs.Objects.{Objects, spaces_of, IsHeld};

    ghost Value = { Objects };

    ghost view = { λ h. record { spaces = spaces_of h.from h.cycle; literals = h.literals.items } };

    ghost invariant = { λ h. IsHeld h.from h.cycle };
}

impl Heap {
    ghost use Rattle.object_memory.specs.declared.addresses.Addr.{Addr};
    ghost use Rattle.object_memory.specs.Cells.{null, literal_number, store_monitor, used_words, Cell, size, free_words, begins_after, cell_in, slots_in};
    ghost use Rattle.object_memory.specs.Spaces.{IsThere, IsOffset, cell_at, slots_at, is_old, forward, open_cycle, close_cycle, InOld, InBoth, Listed, InNew, is_within_cycle, room_at, room_for, with_shell, clear};
    ghost use Rattle.object_memory.specs.Objects.{no_objects, with_mark, with_birth_at, with_birth, with_cell, with_slot, monitor_at, with_monitor};

    /// A heap without objects, in a block of which no word is in use, beside that many literals, which no thread has entered.
    ///
    /// The memory of the literals' monitors is taken here, and no other call of a heap takes any. `NoMemory` where there
    /// is none for them; the block is then dropped.
    pub fn new(alloc: Global, block: Block, literals: u32) -> Result<Heap, NoMemory>
        requires blank { block ≡ blank (length block.words) }
        requires limit { length block.words ≤ MOST_WORDS }
        ensures { IfOk result (λ h. h ≡ no_objects (length block.words) literals) }
    {
        let monitors = vec![in alloc; Monitor::Free; literals as usize]?;
        Ok(Heap {
            from: Space::new(block, FIRST),
            cycle: None,
            literals: monitors,
        })
    }

    /// No object has the address of null or of a literal. It does nothing: its contract is the law.
    pub fn objects_are_distinct(&self)
        ensures null { (a : Addr) → IsSome (cell_at self.now.spaces a) → a ≢ null }
        ensures literals { (a : Addr) → IsSome (cell_at self.now.spaces a) → literal_number a ≡ None }
    {
        let _from = &self.from;
    }

    /// Whether two heaps hold the same objects at the same addresses, and the same monitors of literals. True only if they do; false while a cycle is
    /// open in either.
    pub fn is_like(&self, other: &Heap) -> bool
        ensures { result ≡ true → self.now ≡ other.now }
    {
        match (&self.cycle, &other.cycle) {
            (None, None) => {
                self.from.is_like(&other.from) && are_same(&self.literals, &other.literals)
            }
            _ => false,
        }
    }

    /// Adds the words of the old or only space and the monitors of the literals to a digest. Heaps of which `is_like` is true add the same words.
    pub fn digest(&self, digest: &mut Digest) {
        self.from.digest(digest);
        for monitor in &self.literals {
            digest.add(monitor.word());
        }
    }

    /// Drops all objects, closes an open cycle and frees the monitors of the literals, if the old or only space has `words` words and the heap has
    /// `literals` literals. If not, it returns false and changes nothing. It allocates nothing.
    pub fn reset(&mut self, words: usize, literals: usize) -> bool
        ensures done { result ≡ true → self.new ≡ no_objects words literals }
        ensures stays { result ≡ false → self.new ≡ self.old }
    {
        if self.from.words() != words || self.literals.len() != literals {
            return false;
        }
        self.cycle = None;
        self.from.reset();
        free_all(&mut self.literals);
        true
    }

    /// Whether a cycle is open.
    pub fn is_open(&self) -> bool
        ensures { result ≡ self.now.spaces.is_open }
    {
        self.cycle.is_some()
    }

    /// The words that objects take in the old block, or the only one, and in the new one.
    pub fn used_words(&self) -> (usize, usize)
        ensures used { result ≡ (used_words self.now.spaces.old.cells, used_words self.now.spaces.new.cells) }
        ensures few { (result.0 ≤ MOST_WORDS) × (result.1 ≤ MOST_WORDS) }
    {
        match &self.cycle {
            None => (self.from.used_words(), 0),
            Some(cycle) => (self.from.used_words(), cycle.to.used_words()),
        }
    }

    /// The free words of the old block, or the only one, and of the new one.
    pub fn free_words(&self) -> (usize, usize)
        ensures free { result ≡ (free_words self.now.spaces.old, free_words self.now.spaces.new) }
        ensures few { (result.0 ≤ MOST_WORDS) × (result.1 ≤ MOST_WORDS) }
    {
        match &self.cycle {
            None => (self.from.free_words(), 0),
            Some(cycle) => (self.from.free_words(), cycle.to.free_words()),
        }
    }

    /// The words that a birth of a thread in this phase may take, its header counted.
    pub fn room(&self, phase: Phase) -> usize
        ensures room { result ≡ room_for phase self.now.spaces }
        ensures few { result ≤ MOST_WORDS }
    {
        self.room_in(BirthSpace::of(phase, self.is_open()))
    }

    /// The words that a birth in this space may take, its header counted.
    #[inline(always)]
    fn room_in(&self, space: BirthSpace) -> usize
        ensures room { result ≡ room_at space self.now.spaces }
        ensures few { result ≤ MOST_WORDS }
    {
        match space {
            BirthSpace::InOld | BirthSpace::Listed => self.from.free_words(),
            BirthSpace::InBoth => {
                let (old, new) = self.free_words();
                old.min(new)
            }
            BirthSpace::InNew => self.free_words().1,
        }
    }

    /// What the object is.
    pub fn kind(&self, address: Addr) -> Kind
        requires { IsSome (cell_at self.now.spaces address) }
        ensures { option_map (λ c. c.kind) (cell_at self.now.spaces address) ≡ Some result }
    {
        self.space_of(address).kind(address)
    }

    /// The number of its fields or elements.
    pub fn slots(&self, address: Addr) -> u32
        requires { IsSome (cell_at self.now.spaces address) }
        ensures { result ≡ length (slots_at self.now.spaces address) }
    {
        self.space_of(address).slots(address)
    }

    /// The words that it takes in its block, its header counted.
    pub fn size(&self, address: Addr) -> u32
        requires { IsSome (cell_at self.now.spaces address) }
        ensures { option_map size (cell_at self.now.spaces address) ≡ Some result }
    {
        self.space_of(address).size(address)
    }

    /// Whether the collector has marked the object.
    pub fn is_marked(&self, address: Addr) -> bool
        requires { IsSome (cell_at self.now.spaces address) }
        ensures { option_map (λ c. c.marked) (cell_at self.now.spaces address) ≡ Some result }
    {
        self.space_of(address).is_marked(address)
    }

    /// The other copy of an object, where it has one.
    pub fn other(&self, address: Addr) -> Option<Addr>
        requires { IsSome (cell_at self.now.spaces address) }
        ensures { option_map (λ c. c.other) (cell_at self.now.spaces address) ≡ Some result }
    {
        self.space_of(address).other(address)
    }

    /// The word of a field or element. They count from 0.
    pub fn slot(&self, address: Addr, index: u32) -> u64
        requires { index < length (slots_at self.now.spaces address) }
        ensures { result ≡ slice_index (slots_at self.now.spaces address) index }
    {
        self.space_of(address).slot(address, index)
    }

    /// Stores the word of a field or element. Nothing else changes.
    pub fn set_slot(&mut self, address: Addr, index: u32, word: u64)
        requires { index < length (slots_at self.old.spaces address) }
        ensures { self.new ≡ with_slot self.old address index word }
    {
        match &mut self.cycle {
            None => self.from.set_slot(address, index, word),
            Some(cycle) => {
                if self.from.spans(address) {
                    self.from.set_slot(address, index, word);
                } else {
                    cycle.to.set_slot(address, index, word);
                }
            }
        }
    }

    /// The monitor of an object or a literal.
    pub fn monitor(&self, address: Addr) -> Monitor
        requires { IsSome (monitor_at self.now address) }
        ensures { monitor_at self.now address ≡ Some result }
    {
        match address.literal_number() {
            Some(number) => self.literals[number as usize],
            None => self.cell_monitor(address),
        }
    }

    /// Sets the monitor of an object or a literal. Nothing else changes.
    pub fn set_monitor(&mut self, address: Addr, monitor: Monitor)
        requires { IsSome (monitor_at self.old address) }
        ensures { self.new ≡ with_monitor self.old address monitor }
    {
        match address.literal_number() {
            Some(number) => self.literals[number as usize] = monitor,
            None => self.set_cell_monitor(address, monitor),
        }
    }

    /// The block in which an object lies.
    fn space_of(&self, address: Addr) -> &Space
        requires { IsSome (cell_at self.now.spaces address) }
        ensures { cell_in result.now address ≡ cell_at self.now.spaces address }
    {
        match &self.cycle {
            None => &self.from,
            Some(cycle) => {
                if self.from.spans(address) {
                    &self.from
                } else {
                    &cycle.to
                }
            }
        }
    }

    /// The monitor of an object that is no literal.
    pub fn cell_monitor(&self, address: Addr) -> Monitor
        requires { IsSome (cell_at self.now.spaces address) }
        ensures { option_map (λ c. c.monitor) (cell_at self.now.spaces address) ≡ Some result }
    {
        self.space_of(address).cell_monitor(address)
    }

    /// Sets the monitor of an object that is no literal. Nothing else changes.
    pub fn set_cell_monitor(&mut self, address: Addr, monitor: Monitor)
        requires { IsSome (cell_at self.old.spaces address) }
        ensures { self.new ≡ with_cell (store_monitor monitor) self.old address }
    {
        match &mut self.cycle {
            None => self.from.set_cell_monitor(address, monitor),
            Some(cycle) => {
                if self.from.spans(address) {
                    self.from.set_cell_monitor(address, monitor);
                } else {
                    cycle.to.set_cell_monitor(address, monitor);
                }
            }
        }
    }

    /// Makes an object with the given number of slots, which all hold 0 or null, for a thread in this phase, and returns its address:
    /// that of the old copy where it has two. None exactly where its header and its slots exceed the room; nothing is
    /// changed then.
    pub fn birth(&mut self, kind: Kind, slots: u32, phase: Phase) -> Option<Addr>
        requires { is_within_cycle phase ≡ true → self.old.spaces.is_open ≡ true }
        ensures birth { (self.new, result) ≡ with_birth phase self.old kind slots }
        ensures no_literal { IfSome result (λ a. literal_number a ≡ None) }
    {
        if phase == Phase::Idle {
            self.birth_in(BirthSpace::InOld, kind, slots)
        } else {
            self.birth_in_cycle(kind, slots, phase)
        }
    }

    /// The same in any phase. Apart from what is done between cycles, so that a step is short.
    #[cold]
    fn birth_in_cycle(&mut self, kind: Kind, slots: u32, phase: Phase) -> Option<Addr>
        requires { is_within_cycle phase ≡ true → self.old.spaces.is_open ≡ true }
        ensures birth { (self.new, result) ≡ with_birth phase self.old kind slots }
        ensures no_literal { IfSome result (λ a. literal_number a ≡ None) }
    {
        self.birth_in(BirthSpace::of(phase, self.is_open()), kind, slots)
    }

    /// The same in a space. The grey list takes an object only while a cycle is open.
    #[inline(always)]
    fn birth_in(&mut self, space: BirthSpace, kind: Kind, slots: u32) -> Option<Addr>
        requires { space ≡ Listed → self.old.spaces.is_open ≡ true }
        ensures birth { (self.new, result) ≡ with_birth_at space self.old kind slots }
        ensures no_literal { IfSome result (λ a. literal_number a ≡ None) }
    {
        let _from = &self.from;
        if self.room_in(space) < HEADER_WORDS + slots as usize {
            return None;
        }
        Some(self.allocate(space, kind, slots))
    }

    /// Makes an object in a space that has room for it, and returns its address: that of the old copy where it has two.
    #[inline(always)]
    fn allocate(&mut self, space: BirthSpace, kind: Kind, slots: u32) -> Addr
        requires open { space ≡ Listed → self.old.spaces.is_open ≡ true }
        requires room { 3 + slots ≤ room_at space self.old.spaces }
        ensures { (self.new, Some result) ≡ with_birth_at space self.old kind slots }
    {
        match space {
            BirthSpace::InOld => self.from.append(kind, slots),
            BirthSpace::Listed => self.append_listed(kind, slots),
            BirthSpace::InBoth => self.append_in_both(kind, slots),
            BirthSpace::InNew => self.append_in_new(kind, slots),
        }
    }

    /// Makes an object in the old block, marked and on the grey list.
    #[cold]
    fn append_listed(&mut self, kind: Kind, slots: u32) -> Addr
        requires open { self.old.spaces.is_open ≡ true }
        requires room { 3 + slots ≤ room_at Listed self.old.spaces }
        ensures { (self.new, Some result) ≡ with_birth_at Listed self.old kind slots }
    {
        match &mut self.cycle {
            None => unreachable!(),
            Some(cycle) => {
                let address = self.from.append(kind, slots);
                self.from.set_copies(address, true, None);
                cycle.grey.push(address);
                address
            }
        }
    }

    /// Makes an object with two copies, both marked, and returns the address of the old one.
    #[cold]
    fn append_in_both(&mut self, kind: Kind, slots: u32) -> Addr
        requires { 3 + slots ≤ room_at InBoth self.old.spaces }
        ensures { (self.new, Some result) ≡ with_birth_at InBoth self.old kind slots }
    {
        match &mut self.cycle {
            None => unreachable!(),
            Some(cycle) => {
                let address = self.from.append(kind, slots);
                let copy = cycle.to.append(kind, slots);
                self.from.set_copies(address, true, Some(copy));
                cycle.to.set_copies(copy, true, Some(address));
                address
            }
        }
    }

    /// Makes an object in the new block alone.
    #[cold]
    fn append_in_new(&mut self, kind: Kind, slots: u32) -> Addr
        requires { 3 + slots ≤ room_at InNew self.old.spaces }
        ensures { (self.new, Some result) ≡ with_birth_at InNew self.old kind slots }
    {
        match &mut self.cycle {
            None => unreachable!(),
            Some(cycle) => cycle.to.append(kind, slots),
        }
    }

    /// Begins a cycle, with a second block of which no word is in use, and an empty list that has room for every object.
    pub fn open(&mut self, block: Block, grey: Vec<Addr>)
        requires closed { self.old.spaces.is_open ≡ false }
        requires blank { block ≡ blank (length block.words) }
        requires limit { length block.words ≤ MOST_WORDS }
        requires long { self.old.spaces.old.words ≤ length block.words }
        requires empty { grey.items ≡ [] }
        requires room { self.old.spaces.old.words ≤ 3 * vec_capacity grey + 2 }
        ensures { self.new ≡ record self.old { spaces = open_cycle self.old.spaces (length block.words) } }
    {
        let start = self.from.other_start();
        self.cycle = Some(Cycle {
            to: Space::new(block, start),
            grey: GreyList::new(grey),
            has_marked: false,
        });
    }

    /// Ends a cycle: the new block is the only one. The old block, with no word in use, and the grey list, empty, are handed out: the
    /// next cycle can be opened with them.
    pub fn close(&mut self) -> (Block, Vec<Addr>)
        requires { self.old.spaces.is_open ≡ true }
        ensures heap { self.new ≡ record self.old { spaces = close_cycle self.old.spaces } }
        ensures block { result.0 ≡ blank self.old.spaces.old.words }
        ensures grey { result.1.items ≡ [] }
    {
        match self.cycle.take() {
            Some(cycle) => {
                let Cycle { to, grey, .. } = cycle;
                let block = mem::replace(&mut self.from, to).into_block();
                (block, grey.into_memory())
            }
            None => unreachable!(),
        }
    }

    /// Whether an object lies there, in the old block or the only one.
    pub fn is_old(&self, address: Addr) -> bool
        requires { IsThere self.now.spaces address }
        ensures { result ≡ is_old self.now.spaces address }
    {
        self.from.spans(address)
    }

    /// The forward of an address: its other copy where it is that of an old object which has one, and otherwise itself.
    pub fn forward(&self, address: Addr) -> Addr
        requires { IsThere self.now.spaces address }
        ensures { result ≡ forward self.now.spaces address }
    {
        if !self.is_old(address) {
            return address;
        }
        self.from.other(address).unwrap_or(address)
    }

    /// Marks an old object that isn't marked, puts it on the grey list, and says whether it did. Null, literals and new
    /// objects stay as they are.
    pub fn mark(&mut self, address: Addr) -> bool
        requires cell { IsThere self.old.spaces address }
        requires open { self.old.spaces.is_open ≡ true }
        ensures { (self.new, result) ≡ with_mark self.old address }
    {
        if !self.is_old(address) {
            return false;
        }
        if self.from.is_marked(address) {
            return false;
        }
        let other = self.from.other(address);
        if let Some(cycle) = &mut self.cycle {
            self.from.set_copies(address, true, other);
            cycle.grey.push(address);
            cycle.has_marked = true;
        }
        true
    }

    /// The object that has been on the grey list for longest. None where there is none, or no cycle is open.
    pub fn grey_front(&self) -> Option<Addr>
        ensures { result ≡ slice_get self.now.spaces.grey 0 }
    {
        match &self.cycle {
            None => None,
            Some(cycle) => cycle.grey.front(),
        }
    }

    /// Takes that object off the grey list.
    pub fn take_grey(&mut self)
        ensures { self.new ≡ record self.old { spaces = record self.old.spaces { grey = drop 1 self.old.spaces.grey } } }
    {
        match &mut self.cycle {
            None => {}
            Some(cycle) => cycle.grey.take(),
        }
    }

    /// Whether an object was marked since the newest round began. A birth doesn't count as marking.
    pub fn has_marked(&self) -> bool
        ensures { result ≡ self.now.spaces.has_marked }
    {
        match &self.cycle {
            None => false,
            Some(cycle) => cycle.has_marked,
        }
    }

    /// Begins a round: nothing was marked since.
    pub fn begin_round(&mut self)
        ensures { self.new ≡ record self.old { spaces = record self.old.spaces { has_marked = false } } }
    {
        match &mut self.cycle {
            None => {}
            Some(cycle) => cycle.has_marked = false,
        }
    }

    /// Makes the other copy of an old object that has none, with slots that all hold 0 or null.
    pub fn shell(&mut self, address: Addr)
        requires open { self.old.spaces.is_open ≡ true }
        requires cell { IsSome (cell_in self.old.spaces.old address) }
        requires room { 3 + length (slots_in self.old.spaces.old address) ≤ free_words self.old.spaces.new }
        ensures { (c : Cell) → cell_in self.old.spaces.old address ≡ Some c → self.new ≡ record self.old { spaces = with_shell self.old.spaces address c } }
    {
        let kind = self.from.kind(address);
        let slots = self.from.slots(address);
        let marked = self.from.is_marked(address);
        if let Some(cycle) = &mut self.cycle {
            let copy = cycle.to.append(kind, slots);
            cycle.to.set_copies(copy, false, Some(address));
            self.from.set_copies(address, marked, Some(copy));
        }
    }

    /// Takes the mark and the other copy off an object of the new block.
    pub fn clear(&mut self, address: Addr)
        requires { IsSome (cell_in self.old.spaces.new address) }
        ensures { self.new ≡ record self.old { spaces = clear self.old.spaces address } }
    {
        match &mut self.cycle {
            None => unreachable!(),
            Some(cycle) => cycle.to.set_copies(address, false, None),
        }
    }

    /// The object of the old block that begins after the given number of words of it. None where these are the words of all its
    /// objects. A walk over all of them begins at offset 0, and continues after each one's words. It takes as long for each
    /// object.
    pub fn old_at(&self, offset: u32) -> Option<Addr>
        requires { IsOffset self.now.spaces.old (self.now.spaces.old.start + offset) }
        ensures { result ≡ begins_after self.now.spaces.old offset }
    {
        self.from.at(offset)
    }

    /// The object of the new block that begins after the given number of words of it, in the same way. None while no cycle is open.
    pub fn new_at(&self, offset: u32) -> Option<Addr>
        requires { IsOffset self.now.spaces.new (self.now.spaces.new.start + offset) }
        ensures { result ≡ begins_after self.now.spaces.new offset }
    {
        match &self.cycle {
            None => None,
            Some(cycle) => cycle.to.at(offset),
        }
    }
}

/// Whether two lists of monitors are equal.
fn are_same(monitors: &[Monitor], others: &[Monitor]) -> bool
    ensures { result ≡ true → monitors.now ≡ others.now }
{
    if monitors.len() != others.len() {
        return false;
    }
    for index in 0..monitors.len() {
        if monitors[index] != others[index] {
            return false;
        }
    }
    true
}

/// Frees each monitor.
fn free_all(monitors: &mut [Monitor])
    ensures { monitors.new ≡ replicate (length monitors.old) Free }
{
    monitors.fill(Monitor::Free);
}
