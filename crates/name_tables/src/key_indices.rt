//! A list of keys, with the first index of each found by hash.

ghost use Rattle.std.specs.Prelude.{◌≡◌, ◌||◌, [], IfOk, OnOk, is_some, map};
ghost use Rattle.std.specs.List.{position_from};
ghost use Rattle.std.specs.HashMap.{get};
ghost use Rattle.cil_model.specs.Legality.{has_repeat};
ghost use Rattle.name_tables.specs.FirstIndices.{AreFirst, with_first};
ghost use Rattle.name_tables.specs.KeyIds.{number_in};

use cil_model::memory::NoMemory;
use std::alloc::Global;
use std::cmp::Eq;
use std::collections::HashMap;
use std::hash::Hash;
use std::marker::Model;

/// A list of keys that contracts see as such. The first index of a key is found by its hash.
pub struct KeyIndices<K: Eq + Hash + Copy + Drop> {
    keys: Vec<K>,
    numbers: Vec<usize>,
    firsts: HashMap<K, usize>,
    repeated: Option<usize>,
}

/// Each part is dropped.
impl<K: Eq + Hash + Copy + Drop> Drop for KeyIndices<K> {
    fn drop(self) {
        let KeyIndices {
            keys: _keys,
            numbers: _numbers,
            firsts: _firsts,
            repeated: _repeated,
        } = self;
    }
}

impl<K: Eq + Hash + Copy + Drop> Model for KeyIndices<K> {
    ghost use Rattle.std.specs.Prelude.{◌≡◌, List, is_some, map};
    ghost use Rattle.std.specs.HashMap.{get};
    ghost use Rattle.cil_model.specs.Legality.{has_repeat};
    ghost use Rattle.name_tables.specs.FirstIndices.{AreFirst};
    ghost use Rattle.name_tables.specs.KeyIds.{number_in};

    ghost Value = { List K };

    ghost view = { λ p. p.keys.items };

    ghost invariant = { λ p. AreFirst K.eq (get K.eq p.firsts) p.keys.items × (is_some p.repeated ≡ has_repeat K.eq p.keys.items) × (p.numbers.items ≡ map (number_in K.eq p.keys.items) p.keys.items) };
}

/// The lesser of two indices, where there are two.
fn lesser(one: Option<usize>, other: Option<usize>) -> Option<usize>
    ensures { is_some result ≡ is_some one || is_some other }
{
    match other {
        None => one,
        Some(index) => match one {
            Some(least) if least < index => one,
            _ => other,
        },
    }
}

/// The first index of a key that occurred before; none of a new one, whose first this index becomes. The only error is out of memory.
fn note_first<K: Eq + Hash + Copy + Drop>(
    firsts: &mut HashMap<K, usize>,
    key: K,
    index: usize,
) -> Result<Option<usize>, NoMemory>
    ensures known { IfOk result (λ known. known ≡ get K.eq firsts.old key) }
    ensures noted { OnOk result ((q : K) → get K.eq firsts.new q ≡ with_first K.eq (get K.eq firsts.old) key index q) }
{
    let known = firsts.get(&key).copied();
    if known.is_none() {
        firsts.insert(key, index)?;
    }
    Ok(known)
}

/// Notes the first index of each key. Of each key the first index of an equal one, and the least of those that occur again. The only
/// error is out of memory.
fn note_all<K: Eq + Hash + Copy + Drop>(
    alloc: Global,
    firsts: &mut HashMap<K, usize>,
    keys: &[K],
) -> Result<(Vec<usize>, Option<usize>), NoMemory>
    requires { AreFirst K.eq (get K.eq firsts.old) [] }
    ensures firsts { OnOk result (AreFirst K.eq (get K.eq firsts.new) keys.now) }
    ensures numbers { IfOk result (λ r. r.0.items ≡ map (number_in K.eq keys.now) keys.now) }
    ensures repeated { IfOk result (λ r. is_some r.1 ≡ has_repeat K.eq keys.now) }
{
    let mut numbers = Vec::with_capacity(alloc, keys.len())?;
    let mut repeated = None;
    for index in 0..keys.len() {
        let known = note_first(firsts, keys[index], index)?;
        repeated = lesser(repeated, known);
        numbers.push(known.unwrap_or(index))?;
    }
    Ok((numbers, repeated))
}

impl<K: Eq + Hash + Copy + Drop> KeyIndices<K> {
    /// Notes the first index of each key. The only error is out of memory.
    pub fn new(alloc: Global, keys: Vec<K>) -> Result<Self, NoMemory>
        ensures { IfOk result (λ p. p ≡ keys.items) }
    {
        let mut firsts = HashMap::with_capacity(alloc, keys.len())?;
        let (numbers, repeated) = note_all(alloc, &mut firsts, keys.as_slice())?;
        Ok(KeyIndices {
            keys,
            numbers,
            firsts,
            repeated,
        })
    }

    /// The first index of a key that is equal to this one.
    pub fn first(&self, key: K) -> Option<usize>
        ensures { result ≡ position_from (K.eq key) 0 self.now }
    {
        self.firsts.get(&key).copied()
    }

    /// Whether two of the keys are equal.
    pub fn has_repeat(&self) -> bool
        ensures { result ≡ has_repeat K.eq self.now }
    {
        self.repeated.is_some()
    }

    /// The first index of a key that occurs again further on; none where no two of the keys are equal.
    pub fn first_repeat(&self) -> Option<usize>
        ensures { is_some result ≡ has_repeat K.eq self.now }
    {
        self.repeated
    }

    /// Of each key the first index of an equal one.
    pub fn numbers(&self) -> &[usize]
        ensures { result.now ≡ map (number_in K.eq self.now) self.now }
    {
        self.numbers.as_slice()
    }

    /// The keys in their order.
    pub fn keys(&self) -> &[K]
        ensures { result.now ≡ self.now }
    {
        self.keys.as_slice()
    }
}
