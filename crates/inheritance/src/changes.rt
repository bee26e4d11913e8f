//! What keys find, as it changes while the classes are visited.

ghost use Rattle.std.specs.Prelude.{◌≡◌, ◌<◌, true, None, OnOk, length, map};
ghost use Rattle.inheritance.specs.Changes.{changes_of, is_ordered, latest_known, known_of, found_from, is_earlier, AreOrdered, AreUpTo, AddsChange, AddsChanges};

use cil_model::memory::NoMemory;

/// Where a key is declared: the number of the class, and the index among the keys that it declares.
#[derive(Clone, Copy)]
pub struct Declared {
    pub class: usize,
    pub index: usize,
}

/// What a key finds from a time on.
#[derive(Clone, Copy)]
pub(crate) struct Change {
    pub time: usize,
    pub found: Option<Declared>,
}

/// What the keys that a class declares find from a time on: nothing, the class itself, or what they found at an earlier time.
#[derive(Clone, Copy)]
pub(crate) enum Source {
    Nothing,
    Class(usize),
    Time(usize),
}

/// What is found at a time, by halving.
fn latest(changes: &[Change], time: usize) -> Option<Declared>
    requires { is_ordered changes.now ≡ true }
    ensures { result ≡ latest_known None time changes.now }
{
    let mut found = None;
    let mut rest = changes;
    loop {
        let (earlier, later) = rest.split_at(rest.len() / 2);
        match later {
            [] => return found,
            [change, later @ ..] => {
                if change.time <= time {
                    found = change.found;
                    rest = later;
                } else {
                    rest = earlier;
                }
            }
        }
    }
}

/// The changes of a key.
pub(crate) fn changes_of(changes: &[Vec<Change>], key: usize) -> &[Change]
    ensures { result.now ≡ changes_of (map (λ v. v.items) changes.now) key }
{
    match changes.get(key) {
        None => &[],
        Some(row) => row.as_slice(),
    }
}

/// What a key finds at a time.
pub(crate) fn found_at(changes: &[Vec<Change>], key: usize, time: usize) -> Option<Declared>
    requires { AreOrdered (map (λ v. v.items) changes.now) }
    ensures { result ≡ known_of (map (λ v. v.items) changes.now) key time }
{
    latest(changes_of(changes, key), time)
}

/// Notes what a key finds from a time on, where there is such a key. The only error is out of memory.
fn record(changes: &mut Vec<Vec<Change>>, key: usize, change: Change) -> Result<(), NoMemory>
    ensures { OnOk result (AddsChange (map (λ v. v.items) changes.old.items) (map (λ v. v.items) changes.new.items) key change) }
{
    if key < changes.len() {
        changes[key].push(change)?;
    }
    Ok(())
}

fn found_from(changes: &[Vec<Change>], source: Source, key: usize, index: usize) -> Option<Declared>
    requires { AreOrdered (map (λ v. v.items) changes.now) }
    ensures { result ≡ found_from (map (λ v. v.items) changes.now) source key index }
{
    match source {
        Source::Nothing => None,
        Source::Class(class) => Some(Declared { class, index }),
        Source::Time(time) => found_at(changes, key, time),
    }
}

/// Notes what the keys that a class declares find from a time on. A key that it declares twice is found at the first index.
/// The only error is out of memory.
pub(crate) fn record_all(
    changes: &mut Vec<Vec<Change>>,
    keys: &[usize],
    source: Source,
    time: usize,
) -> Result<(), NoMemory>
    requires earlier { is_earlier time source ≡ true }
    requires up_to { AreUpTo time (map (λ v. v.items) changes.old.items) }
    ensures { OnOk result (AddsChanges (map (λ v. v.items) changes.old.items) (map (λ v. v.items) changes.new.items) keys.now 0 source time) }
{
    for index in (0..keys.len()).rev() {
        let key = keys[index];
        let found = found_from(changes.as_slice(), source, key, index);
        record(changes, key, Change { time, found })?;
    }
    Ok(())
}
