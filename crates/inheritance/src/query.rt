//! From which classes on one of some keys finds what is sought: a declaration that is marked, or nothing.

ghost use Rattle.std.specs.Prelude.{◌≡◌, ◌≤◌, ◌<◌, ◌↔◌, ◌∷◌, ℕ, Bool, true, false, None, Some, IfOk, IsTrue, is_none, length, map, nat_lt, slice_get, slice_index_or};
ghost use Rattle.std.specs.List.{list_all, list_any};
ghost use Rattle.inheritance.specs.Lines.{Ends};
ghost use Rattle.inheritance.specs.Changes.{changes_of, is_ordered, latest_known, AreOrdered};
ghost use Rattle.inheritance.specs.ScopedTables.{pair_of, nearest_from};
ghost use Rattle.inheritance.specs.MarkedDeclarations.{is_marked, FindsMarked};
ghost use Rattle.inheritance.specs.Query.{is_match, finds_some, finds_at, at_first, below, AreNoted, AreLater, HoldsTill, IsReach, IsReachOf};

use crate::changes::{Change, Declared, changes_of};
use crate::inheritance::Inheritance;
use cil_model::memory::NoMemory;
use std::alloc::Global;

/// What is sought among what keys find.
#[derive(Clone, Copy)]
pub(crate) enum Query<'m> {
    /// A declaration that is marked, by its class and index.
    Marked(&'m [Vec<bool>]),
    /// That nothing is found.
    Absent,
}

fn is_marked(marks: &[Vec<bool>], found: Option<Declared>) -> bool
    ensures { result ≡ is_marked (map (λ v. v.items) marks.now) (pair_of found) }
{
    let Some(declared) = found else {
        return false;
    };
    match marks.get(declared.class) {
        None => false,
        Some(row) => match row.get(declared.index) {
            None => false,
            Some(mark) => *mark,
        },
    }
}

fn is_match(query: Query, found: Option<Declared>) -> bool
    ensures { result ≡ is_match query.entry (pair_of found) }
{
    match query {
        Query::Marked(marks) => is_marked(marks, found),
        Query::Absent => found.is_none(),
    }
}

/// Notes a later end at a time.
fn raise(ends: &mut [usize], time: usize, end: usize)
    ensures later { AreLater ends.old ends.new }
    ensures noted { time < length ends.old → end ≤ slice_index_or ends.new time 0 }
    ensures only { (s t : ℕ) → slice_index_or ends.old s 0 ≤ t → t < slice_index_or ends.new s 0 → (s ≡ time) × (t < end) }
{
    if time < ends.len() && ends[time] < end {
        ends[time] = end;
    }
}

/// Notes until when a change holds, at its time, where it finds what is sought.
fn note(ends: &mut [usize], query: Query, change: Change, end: usize)
    ensures later { AreLater ends.old ends.new }
    ensures noted { is_match query.entry (pair_of change.found) ≡ true → change.time < length ends.old → end ≤ slice_index_or ends.new change.time 0 }
    ensures only { (s t : ℕ) → slice_index_or ends.old s 0 ≤ t → t < slice_index_or ends.new s 0 → (s ≡ change.time) × (t < end) × (is_match query.entry (pair_of change.found) ≡ true) }
{
    if is_match(query, change.found) {
        raise(ends, change.time, end);
    }
}

/// Notes until when a key finds what is sought, at the time from which on it does.
fn note_row(ends: &mut [usize], row: &[Change], query: Query)
    requires { is_ordered row.now ≡ true }
    ensures later { AreLater ends.old ends.new }
    ensures noted { AreNoted (is_match query.entry) ends.new (at_first ∷ row.now) }
    ensures found { HoldsTill (λ t. is_match query.entry (pair_of (latest_known None t row.now)) ≡ true) ends.old ends.new }
{
    let mut end = ends.len();
    for index in (0..row.len()).rev() {
        let change = row[index];
        note(ends, query, change, end);
        end = change.time;
    }
    let at_first = Change {
        time: 0,
        found: None,
    };
    note(ends, query, at_first, end);
}

/// The same for each of some keys.
fn note_rows(ends: &mut [usize], rows: &[Vec<Change>], keys: &[usize], query: Query)
    requires { AreOrdered (map (λ v. v.items) rows.now) }
    ensures later { AreLater ends.old ends.new }
    ensures noted { (index : ℕ) → index < length keys.now → AreNoted (is_match query.entry) ends.new (at_first ∷ changes_of (map (λ v. v.items) rows.now) (slice_index_or keys.now index 0)) }
    ensures found { HoldsTill (λ t. finds_at (is_match query.entry) (map (λ v. v.items) rows.now) keys.now t ≡ true) ends.old ends.new }
{
    for index in 0..keys.len() {
        note_row(ends, changes_of(rows, keys[index]), query);
    }
}

/// The latest of all ends up to each time. The only error is out of memory.
fn reach_of(alloc: Global, ends: &[usize]) -> Result<Vec<usize>, NoMemory>
    ensures reach { IfOk result (λ reach. IsReach ends.now reach.items) }
    ensures width { IfOk result (λ reach. length reach.items ≡ length ends.now) }
{
    let mut reach = Vec::new(alloc);
    let mut latest = 0;
    for time in 0..ends.len() {
        if latest < ends[time] {
            latest = ends[time];
        }
        reach.push(latest)?;
    }
    Ok(reach)
}

fn numbers_below(alloc: Global, end: usize) -> Result<Vec<usize>, NoMemory>
    ensures { IfOk result (λ numbers. numbers.items ≡ below end) }
{
    let mut numbers = Vec::new(alloc);
    for number in 0..end {
        numbers.push(number)?;
    }
    Ok(numbers)
}

impl Inheritance {
    /// The times up to which one of some keys finds what is sought, by times. The only error is out of memory.
    fn reach(&self, alloc: Global, keys: &[usize], query: Query) -> Result<Vec<usize>, NoMemory>
        ensures { IfOk result (λ reach. IsReachOf (is_match query.entry) (map (λ v. v.items) self.now.scoped_table.changes.items) keys.now reach.items) }
    {
        let mut ends = vec![in alloc; 0; self.forest.bases.len().saturating_mul(2)]?;
        note_rows(
            ends.as_mut_slice(),
            self.scoped_table.changes.as_slice(),
            keys,
            query,
        );
        reach_of(alloc, ends.as_slice())
    }

    /// Whether one of some keys finds what is sought from a class on, found by following the bases for each key.
    fn finds_along(&self, keys: &[usize], query: Query, class: usize) -> bool
        ensures { result ≡ finds_some (is_match query.entry) self.now.forest keys.now class }
    {
        for index in 0..keys.len() {
            if is_match(query, self.forest.nearest_along(class, keys[index])) {
                return true;
            }
        }
        false
    }

    /// Whether one of some keys finds what is sought from a class on, or the class's bases do not end: by the times up to which one
    /// does, where the class was entered at one of these.
    fn may_find(&self, reach: &[usize], keys: &[usize], query: Query, class: usize) -> bool
        requires reach { IsReachOf (is_match query) (map (λ v. v.items) self.now.scoped_table.changes.items) keys.now reach.now }
        requires keys { list_all (λ k. nat_lt k self.now.forest.keys) keys.now ≡ true }
        ensures reported { Ends self.now.forest.bases.items self.now.forest.most class → result ≡ finds_some (is_match query.entry) self.now.forest keys.now class }
        ensures ended { result ≡ false → Ends self.now.forest.bases.items self.now.forest.most class }
    {
        if let Some(entry) = self.scoped_table.entry(class) {
            if let Some(end) = reach.get(entry.time) {
                return entry.time < *end;
            }
        }
        !self.ends(class) || self.finds_along(keys, query, class)
    }

    /// Of each class, whether one of some keys finds what is sought from it on; the result is also true where the class's bases do not end.
    /// The only error is out of memory.
    fn finds(&self, alloc: Global, keys: &[usize], query: Query) -> Result<Vec<bool>, NoMemory>
        requires { list_all (λ k. nat_lt k self.now.forest.keys) keys.now ≡ true }
        ensures width { IfOk result (λ found. length found.items ≡ length self.now.forest.bases.items) }
        ensures reported { IfOk result (λ found. (class : ℕ) (b : Bool) → slice_get found.items class ≡ Some b → Ends self.now.forest.bases.items self.now.forest.most class → b ≡ finds_some (is_match query.entry) self.now.forest keys.now class) }
        ensures ended { IfOk result (λ found. (class : ℕ) → slice_get found.items class ≡ Some false → Ends self.now.forest.bases.items self.now.forest.most class) }
    {
        let reach = self.reach(alloc, keys, query)?;
        let mut found = Vec::new(alloc);
        for class in 0..self.forest.bases.len() {
            found.push(self.may_find(reach.as_slice(), keys, query, class))?;
        }
        Ok(found)
    }

    /// Of each class, whether some key finds, from it on, a declaration that is marked, by its class and index; the result is also true
    /// where the class's bases do not end. Takes time with the number of classes, of declarations and of keys, where the search entered
    /// every class whose bases end. The only error is out of memory.
    pub fn finds_marked(&self, alloc: Global, marks: &[Vec<bool>]) -> Result<Vec<bool>, NoMemory>
        ensures width { IfOk result (λ found. length found.items ≡ length self.now.forest.bases.items) }
        ensures marked { IfOk result (λ found. (class : ℕ) → slice_get found.items class ≡ Some true → Ends self.now.forest.bases.items self.now.forest.most class → FindsMarked (map (λ v. v.items) marks.now) self.now.forest class) }
        ensures unmarked { IfOk result (λ found. (class key : ℕ) → slice_get found.items class ≡ Some false → key < self.now.forest.keys → is_marked (map (λ v. v.items) marks.now) (nearest_from self.now.forest key self.now.forest.most (Some class)) ≡ false) }
        ensures ended { IfOk result (λ found. (class : ℕ) → slice_get found.items class ≡ Some false → Ends self.now.forest.bases.items self.now.forest.most class) }
    {
        let keys = numbers_below(alloc, self.forest.keys)?;
        self.finds(alloc, keys.as_slice(), Query::Marked(marks))
    }

    /// Of each class, whether one of some keys finds nothing from it on; the result is also true where the class's bases do not end. Takes
    /// time with the number of classes, of keys and of declarations of these, where the search entered every class whose bases end.
    /// The only error is out of memory.
    pub fn finds_nothing(&self, alloc: Global, keys: &[usize]) -> Result<Vec<bool>, NoMemory>
        requires { list_all (λ k. nat_lt k self.now.forest.keys) keys.now ≡ true }
        ensures width { IfOk result (λ found. length found.items ≡ length self.now.forest.bases.items) }
        ensures reported { IfOk result (λ found. (class : ℕ) (b : Bool) → slice_get found.items class ≡ Some b → Ends self.now.forest.bases.items self.now.forest.most class → b ≡ list_any (λ key. is_none (nearest_from self.now.forest key self.now.forest.most (Some class))) keys.now) }
        ensures ended { IfOk result (λ found. (class : ℕ) → slice_get found.items class ≡ Some false → Ends self.now.forest.bases.items self.now.forest.most class) }
    {
        self.finds(alloc, keys, Query::Absent)
    }
}
