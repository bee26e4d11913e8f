//! The members that classes have and inherit, each found by its key.

ghost use Rattle.std.specs.Prelude.{◌≡◌, ◌+◌, ◌<◌, ℕ, Some, IfOk, OnErr, OnOk, length, map, flat_map, option_map, slice_index_or, []};
ghost use Rattle.std.specs.List.{position_from};
ghost use Rattle.std.specs.Option.{ForSome};
ghost use Rattle.inheritance.specs.Lines.{index_in, Ends};
ghost use Rattle.inheritance.specs.ScopedTables.{pair_of, nearest_from};
ghost use Rattle.inheritance.specs.CutCycles.{IsCut};
ghost use Rattle.name_tables.specs.KeyIds.{number_in, HaveIds};

use crate::ids::ClassId;
use crate::key_indices::KeyIndices;
use cil_model::memory::NoMemory;
use inheritance::{CutCycles, Cyclic, Declared, Forest, Inheritance};
use std::alloc::Global;
use std::cmp::Eq;
use std::hash::Hash;

/// The nearest declaration of each key along the bases of each class. A key's number is the index of the first equal one among all
/// that are declared; another key's number is the one after them.
pub(crate) struct Inherited<K: Eq + Hash + Copy + Drop> {
    pub keys: KeyIndices<K>,
    pub inheritance: Inheritance,
    cycles: Option<CutCycles>,
    ghost cut: { ForSome cycles (λ c. IsCut inheritance.forest c.cut.forest) },
    ghost within: { inheritance.forest.keys ≡ length keys + 1 },
    ghost has_id: { HaveIds K.eq keys (map (λ r. r.items) inheritance.forest.declared.items) },
}

/// Each part is dropped.
impl<K: Eq + Hash + Copy + Drop> Drop for Inherited<K> {
    fn drop(self) {
        let Inherited {
            keys: _keys,
            inheritance: _inheritance,
            cycles: _cycles,
        } = self;
    }
}

/// The keys of all rows, with the first index of each.
fn all_keys<K: Eq + Hash + Copy + Drop>(
    alloc: Global,
    rows: &[Vec<K>],
) -> Result<KeyIndices<K>, NoMemory>
    ensures { IfOk result (λ keys. keys ≡ flat_map (λ row. row.items) rows.now) }
{
    let mut keys = Vec::new(alloc);
    for row in rows {
        keys.extend_from_slice(row.as_slice())?;
    }
    KeyIndices::new(alloc, keys)
}

/// The numbers of all keys, row by row.
fn own_numbers<K: Eq + Hash + Copy + Drop>(
    alloc: Global,
    keys: &KeyIndices<K>,
    rows: &[Vec<K>],
) -> Result<Vec<Vec<usize>>, NoMemory>
    requires { keys.now ≡ flat_map (λ row. row.items) rows.now }
    ensures { IfOk result (λ v. map (λ r. r.items) v.items ≡ map (λ row. map (number_in K.eq keys.now) row.items) rows.now) }
{
    let mut numbers = Vec::with_capacity(alloc, rows.len())?;
    let mut rest = keys.numbers();
    for row in rows {
        let (own, others) = rest.split_at(row.len());
        numbers.push(own.to_vec(alloc)?)?;
        rest = others;
    }
    Ok(numbers)
}

pub(crate) fn number_of<K: Eq + Hash + Copy + Drop>(keys: &KeyIndices<K>, key: K) -> usize
    ensures { result ≡ number_in K.eq keys.now key }
{
    match keys.first(key) {
        None => keys.keys().len(),
        Some(index) => index,
    }
}

/// The numbers of the keys of a row.
pub(crate) fn row_numbers<K: Eq + Hash + Copy + Drop>(
    alloc: Global,
    keys: &KeyIndices<K>,
    row: &[K],
) -> Result<Vec<usize>, NoMemory>
    ensures { IfOk result (λ v. v.items ≡ map (number_in K.eq keys.now) row.now) }
{
    let mut numbers = Vec::new(alloc);
    for index in 0..row.len() {
        numbers.push(number_of(keys, row[index]))?;
    }
    Ok(numbers)
}

/// The bases once more.
fn copy_of(alloc: Global, bases: &[Option<usize>]) -> Result<Vec<Option<usize>>, NoMemory>
    ensures { IfOk result (λ v. v.items ≡ bases.now) }
{
    let mut copies = Vec::with_capacity(alloc, bases.len())?;
    copies.extend_from_slice(bases)?;
    Ok(copies)
}

/// The classes with their bases and the numbers of the keys that each declares.
fn with_numbers<K: Eq + Hash + Copy + Drop>(
    alloc: Global,
    bases: &[Option<usize>],
    keys: &KeyIndices<K>,
    rows: &[Vec<K>],
    most: usize,
) -> Result<Forest, NoMemory>
    requires { keys.now ≡ flat_map (λ row. row.items) rows.now }
    ensures bases { IfOk result (λ f. f.bases.items ≡ bases.now) }
    ensures most { IfOk result (λ f. f.most ≡ most) }
    ensures keys { IfOk result (λ f. f.keys ≡ length keys.now + 1) }
    ensures declared { IfOk result (λ f. map (λ r. r.items) f.declared.items ≡ map (λ row. map (number_in K.eq keys.now) row.items) rows.now) }
{
    let Some(count) = keys.keys().len().checked_add(1) else {
        return Err(NoMemory);
    };
    let bases = copy_of(alloc, bases)?;
    Ok(Forest {
        bases,
        declared: own_numbers(alloc, keys, rows)?,
        keys: count,
        most,
    })
}

impl<K: Eq + Hash + Copy + Drop> Inherited<K> {
    /// From the base of each class and the keys that it declares. No chain has more classes than the most. The only error is out of
    /// memory.
    pub fn new(
        alloc: Global,
        bases: &[Option<usize>],
        rows: &[Vec<K>],
        most: usize,
    ) -> Result<Self, NoMemory>
        ensures bases { IfOk result (λ t. t.inheritance.forest.bases.items ≡ bases.now) }
        ensures most { IfOk result (λ t. t.inheritance.forest.most ≡ most) }
        ensures keys { IfOk result (λ t. t.keys ≡ flat_map (λ row. row.items) rows.now) }
        ensures declared { IfOk result (λ t. map (λ r. r.items) t.inheritance.forest.declared.items ≡ map (λ row. map (number_in K.eq t.keys) row.items) rows.now) }
        ensures indices { IfOk result (λ t. (key : K) (class : ℕ) → index_in (map (λ r. r.items) t.inheritance.forest.declared.items) (number_in K.eq t.keys key) class ≡ position_from (K.eq key) 0 (slice_index_or (map (λ row. row.items) rows.now) class [])) }
    {
        let keys = all_keys(alloc, rows)?;
        let forest = with_numbers(alloc, bases, &keys, rows, most)?;
        let cycles = CutCycles::new(alloc, &forest)?;
        let inheritance = Inheritance::new(alloc, forest)?;
        Ok(Inherited {
            keys,
            inheritance,
            cycles,
        })
    }

    /// The nearest declaration of a key, from a class on. An error exactly where the class's bases do not end.
    pub fn nearest(&self, class: ClassId, key: K) -> Result<Option<Declared>, Cyclic>
        ensures found { IfOk result (λ found. option_map (λ d. (d.class, d.index)) found ≡ nearest_from self.now.inheritance.forest (number_in K.eq self.now.keys key) self.now.inheritance.forest.most (Some class)) }
        ensures ended { OnOk result (Ends self.now.inheritance.forest.bases.items self.now.inheritance.forest.most class) }
        ensures cyclic { OnErr result (¬ Ends self.now.inheritance.forest.bases.items self.now.inheritance.forest.most class) }
    {
        self.inheritance
            .nearest(class.number(), number_of(&self.keys, key))
    }

    /// What the key of a number finds, from a class on whose bases do not end.
    fn nearest_round(&self, class: usize, number: usize) -> Option<Declared>
        requires { number < self.now.inheritance.forest.keys }
        ensures { pair_of result ≡ nearest_from self.now.inheritance.forest number self.now.inheritance.forest.most (Some class) }
    {
        match &self.cycles {
            None => self.inheritance.forest.nearest_along(class, number),
            Some(cycles) => cycles.nearest(&self.inheritance.forest, class, number),
        }
    }

    /// The same for each class.
    pub fn find(&self, class: ClassId, key: K) -> Option<Declared>
        ensures { option_map (λ d. (d.class, d.index)) result ≡ nearest_from self.now.inheritance.forest (number_in K.eq self.now.keys key) self.now.inheritance.forest.most (Some class) }
    {
        match self.nearest(class, key) {
            Ok(found) => found,
            Err(Cyclic) => self.nearest_round(class.number(), number_of(&self.keys, key)),
        }
    }
}
