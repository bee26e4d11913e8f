//! The nearest declaration of each key, from each class on.

ghost use Rattle.std.specs.Prelude.{◌≡◌, ◌==◌, ◌<◌, ◌↔◌, ℕ, Some, IfOk, IsTrue, OnErr, OnOk, length, map};
ghost use Rattle.inheritance.specs.declared.scoped_tables.Entry.{Entry};
ghost use Rattle.inheritance.specs.Lines.{Ends};
ghost use Rattle.inheritance.specs.Changes.{known_of, AreOrdered};
ghost use Rattle.inheritance.specs.ScopedTables.{pair_of, nearest_from, entry_in, IsCorrect, IsDone, IsLeftOut};

use crate::changes::{Declared, found_at};
use crate::forests::Forest;
use crate::left_out::is_complete;
use crate::scoped_tables::ScopedTable;
use crate::tours::tour;
use cil_model::memory::NoMemory;
use std::alloc::Global;

/// The bases of a class do not end within the number of classes that are looked at.
#[derive(Clone, Copy)]
pub struct Cyclic;

/// What each key finds from each class on: the class itself where it declares the key, otherwise its base, and so on.
pub struct Inheritance {
    pub forest: Forest,
    pub(crate) scoped_table: ScopedTable,
    /// Whether each class whose bases end was entered.
    pub(crate) is_complete: bool,
    ghost width: { length scoped_table.changes.items ≡ forest.keys },
    ghost ordered: { AreOrdered (map (λ v. v.items) scoped_table.changes.items) },
    ghost ended: { (class : ℕ) (entry : Entry) → entry_in scoped_table.entries.items class ≡ Some entry → Ends forest.bases.items forest.most class },
    ghost cyclic: { IsTrue is_complete → (class : ℕ) → IsLeftOut forest.bases.items scoped_table.entries.items class → ¬ Ends forest.bases.items forest.most class },
    ghost lookup_is_correct: { (class : ℕ) (entry : Entry) → entry_in scoped_table.entries.items class ≡ Some entry → (key : ℕ) → key < forest.keys → pair_of (known_of (map (λ v. v.items) scoped_table.changes.items) key entry.time) ≡ nearest_from forest key forest.most (Some class) },
}

/// Each part is dropped.
impl Drop for Inheritance {
    fn drop(self) {
        let Inheritance {
            forest: _forest,
            scoped_table: _scoped_table,
            is_complete: _is_complete,
        } = self;
    }
}

/// Visits all classes whose bases end. The only error is out of memory.
fn search(alloc: Global, forest: &Forest) -> Result<ScopedTable, NoMemory>
    ensures { IfOk result (λ scoped_table. IsDone forest.now scoped_table) }
{
    let mut scoped_table = ScopedTable::new(alloc, forest)?;
    let steps = tour(alloc, forest.bases.as_slice())?;
    for time in 0..steps.len() {
        scoped_table.step(forest, steps[time], time)?;
    }
    Ok(scoped_table)
}

impl Inheritance {
    /// Takes time and memory with the number of classes and of declarations, but for logarithms. The only error is out of memory.
    pub fn new(alloc: Global, forest: Forest) -> Result<Self, NoMemory>
        ensures { IfOk result (λ inheritance. inheritance.forest ≡ forest) }
    {
        let scoped_table = search(alloc, &forest)?;
        let is_complete = is_complete(&forest, &scoped_table);
        Ok(Inheritance {
            forest,
            scoped_table,
            is_complete,
        })
    }

    /// The nearest class that declares a key, from a class on, with the index of the key. `Cyclic` exactly where the bases of the class
    /// do not end. Takes time with the logarithm of the number of classes that declare the key. Where the search
    /// had left out a class whose bases end, it would follow them; it leaves out none, which no contract says.
    pub fn nearest(&self, class: usize, key: usize) -> Result<Option<Declared>, Cyclic>
        requires { key < self.now.forest.keys }
        ensures found { IfOk result (λ found. pair_of found ≡ nearest_from self.now.forest key self.now.forest.most (Some class)) }
        ensures ended { OnOk result (Ends self.now.forest.bases.items self.now.forest.most class) }
        ensures cyclic { OnErr result (¬ Ends self.now.forest.bases.items self.now.forest.most class) }
    {
        match self.scoped_table.entry(class) {
            Some(entry) => Ok(found_at(self.scoped_table.changes.as_slice(), key, entry.time)),
            None if self.ends(class) => Ok(self.forest.nearest_along(class, key)),
            None => Err(Cyclic),
        }
    }

    /// Whether the bases of a class end within the number of classes that are looked at.
    pub fn ends(&self, class: usize) -> bool
        ensures { IsTrue result ↔ Ends self.now.forest.bases.items self.now.forest.most class }
    {
        if self.scoped_table.entry(class).is_some() {
            return true;
        }
        if self.is_complete && class < self.forest.bases.len() {
            return false;
        }
        self.forest.ends_along(class)
    }
}
