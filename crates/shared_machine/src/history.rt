//! The history of a shared machine, as runs of equal entries.

ghost use Rattle.std.specs.Prelude.{◌≡◌, ◌<◌, ◌≤◌, ◌+◌, ◌*◌, ℕ, List, replicate, vec_len, vec_capacity, ◌∷◌, ◌++◌, [], true, false, OnOk};
ghost use Rattle.shared_machine.specs.Histories.{Fixes, plain};
ghost use Rattle.shared_machine.specs.declared.history.Entry.{Entry};
ghost use Rattle.shared_machine.specs.declared.history.TheConstants.{MOST_TIMES};

use cil_model::events::Event;
use cil_model::reports::Report;
use std::alloc::{AllocError, Global};
use std::marker::Model;

/// How often an entry is in a run at most.
const MOST_TIMES: u16 = u16::MAX;

/// One event of a worker, with what the machine reported of it.
#[derive(Clone, Copy, Debug)]
pub struct Entry {
    /// The worker's number.
    pub worker: u8,
    /// What the worker asked for.
    pub event: Event,
    /// What the machine reported.
    pub report: Report,
}

/// An entry, and how many times it occurs in a row.
#[derive(Clone, Copy)]
pub struct Run {
    /// The entry.
    pub entry: Entry,
    /// How often it is there.
    pub times: u16,
}

/// All entries, the oldest first. To contracts it is the plain list of them, and of how many more equal ones there is room for in any case.
///
/// Up to 65,535 equal entries in a row take the space of one, 8 bytes.
#[derive(Drop)]
pub struct History {
    runs: Vec<Run>,
}

impl Model for History {
    ghost use Rattle.std.specs.Prelude.{vec_len, vec_capacity};
    ghost use Rattle.shared_machine.specs.Histories.{Log, plain, room_in};

    ghost Value = { Log };

    ghost view = { λ h. record { entries = plain h.runs.items; room = room_in (vec_len h.runs) (vec_capacity h.runs) } };
}

impl History {
    /// A history without entries. It takes no memory.
    pub fn new(alloc: Global) -> History
        ensures { result.entries ≡ [] }
    {
        History {
            runs: Vec::new(alloc),
        }
    }

    /// Takes the memory that a number of equal entries more may need. The only error is out of memory. The entries stay as they were in any case.
    #[inline(always)]
    pub fn make_room(&mut self, times: u32) -> Result<(), AllocError>
        ensures entries { self.new.entries ≡ self.old.entries }
        ensures room { OnOk result (times ≤ self.new.room) }
    {
        let count = self.runs.len();
        let needed = runs_for(times);
        if needed <= self.runs.capacity() - count {
            return Ok(());
        }
        // Four times as much, since each growth moves all runs.
        self.runs
            .reserve(count.saturating_mul(3).saturating_add(needed))
    }

    /// Adds an entry at the end, for which there has to be room. The entries before it stay.
    pub fn add(&mut self, entry: Entry)
        requires { 0 < self.old.room }
        ensures { self.new.entries ≡ self.old.entries ++ entry ∷ [] }
    {
        if !lengthen(&mut self.runs, &entry) {
            self.runs.push_reserved(Run { entry, times: 1 });
        }
    }

    /// Adds an entry at the end `times` times, for which there has to be room. The entries before it stay.
    pub fn add_times(&mut self, entry: Entry, times: u32)
        requires { times ≤ self.old.room }
        ensures { self.new.entries ≡ self.old.entries ++ replicate times entry }
    {
        let most = u32::from(MOST_TIMES);
        let mut left = times;
        while left > most {
            self.runs.push_reserved(Run {
                entry,
                times: MOST_TIMES,
            });
            left -= most;
        }
        add_last(&mut self.runs, entry, left as u16);
    }

    /// The runs, the oldest first. One after another, each as often as it says, they are the entries.
    pub fn runs(&self) -> &[Run]
        ensures { plain result.now ≡ self.now.entries }
    {
        self.runs.as_slice()
    }
}

/// Equal counts fix a worker's events, their reports and their order: two histories in which a worker has the same count have the same
/// entries of this worker. It does nothing; its contract says so.
pub fn counts_fix_events()
    ensures { (worker : ℕ) (one other : List Entry) → Fixes worker one other }
{}

/// Whether the entries are equal. Where they are, contracts can replace one by the other.
fn is_same(one: &Entry, other: &Entry) -> bool
    ensures { result ≡ true → one.now ≡ other.now }
{
    one.worker == other.worker
        && is_same_event(one.event, other.event)
        && is_same_report(one.report, other.report)
}

fn is_same_event(one: Event, other: Event) -> bool
    ensures { result ≡ true → one ≡ other }
{
    one == other
}

fn is_same_report(one: Report, other: Report) -> bool
    ensures { result ≡ true → one ≡ other }
{
    one == other
}

/// Whether a run is one of this entry, and can be longer.
fn can_be_longer(run: &Run, entry: &Entry) -> bool
    ensures { result ≡ true → (run.now.entry ≡ entry.now) × (run.now.times < MOST_TIMES) }
{
    run.times < MOST_TIMES && is_same(&run.entry, entry)
}

/// Makes the last run longer by one, where it is one of this entry. Else it returns false, and the runs stay.
fn lengthen(runs: &mut Vec<Run>, entry: &Entry) -> bool
    ensures longer { result ≡ true → plain runs.new.items ≡ plain runs.old.items ++ entry.now ∷ [] }
    ensures same { result ≡ false → runs.new ≡ runs.old }
{
    let all = runs.as_slice();
    let count = all.len();
    if count == 0 || !can_be_longer(&all[count - 1], entry) {
        return false;
    }
    runs[count - 1].times += 1;
    true
}

/// How many runs a number of equal entries may need.
fn runs_for(times: u32) -> usize
    ensures { times ≤ result * MOST_TIMES }
{
    // A division costs more than the rest of a step's record.
    if times <= u32::from(MOST_TIMES) {
        1
    } else {
        (times as usize).div_ceil(usize::from(MOST_TIMES))
    }
}

/// Whether a run is one of this entry, and can be longer by that number.
fn can_be_longer_by(run: &Run, entry: &Entry, times: u16) -> bool
    ensures { result ≡ true → (run.now.entry ≡ entry.now) × (run.now.times + times ≤ MOST_TIMES) }
{
    times <= MOST_TIMES - run.times && is_same(&run.entry, entry)
}

/// Makes the last run longer by that number, where it is one of this entry and can be. Else it returns false, and the runs stay.
fn lengthen_by(runs: &mut Vec<Run>, entry: &Entry, times: u16) -> bool
    ensures longer { result ≡ true → plain runs.new.items ≡ plain runs.old.items ++ replicate times entry.now }
    ensures same { result ≡ false → runs.new ≡ runs.old }
{
    let all = runs.as_slice();
    let count = all.len();
    if count == 0 || !can_be_longer_by(&all[count - 1], entry, times) {
        return false;
    }
    runs[count - 1].times += times;
    true
}

/// Adds an entry at the end that number of times: to the last run, if that is one of this entry and can be longer, else as a run of its own, for which
/// there has to be room.
fn add_last(runs: &mut Vec<Run>, entry: Entry, times: u16)
    requires { 0 < times → vec_len runs.old < vec_capacity runs.old }
    ensures { plain runs.new.items ≡ plain runs.old.items ++ replicate times entry }
{
    if times > 0 && !lengthen_by(runs, &entry, times) {
        runs.push_reserved(Run { entry, times });
    }
}
