//! What is known while the classes are visited, each after its base.

ghost use Rattle.std.specs.Prelude.{◌≡◌, ◌+◌, [], OnOk, IfOk, map, replicate};

use crate::changes::{Change, Source, record_all};
use crate::forests::Forest;
use crate::tours::Step;
use cil_model::memory::NoMemory;
use std::alloc::Global;

/// When a class was entered, and how many classes there are from it on through its bases.
#[derive(Clone, Copy)]
pub(crate) struct Entry {
    pub time: usize,
    pub length: usize,
}

/// What each key finds by times, when each class was entered, and the class in which the search is.
#[derive(Drop)]
pub(crate) struct ScopedTable {
    pub changes: Vec<Vec<Change>>,
    pub entries: Vec<Option<Entry>>,
    pub current: Option<usize>,
}

fn empty_rows(alloc: Global, keys: usize) -> Result<Vec<Vec<Change>>, NoMemory>
    ensures { IfOk result (λ rows. map (λ v. v.items) rows.items ≡ replicate keys []) }
{
    let mut rows = Vec::new(alloc);
    for _ in 0..keys {
        rows.push(Vec::new(alloc))?;
    }
    Ok(rows)
}

impl ScopedTable {
    ghost use Rattle.inheritance.specs.ScopedTables.{entry_in, IsCorrect, height_of, source_of};

    /// Nothing is entered yet. The only error is out of memory.
    pub fn new(alloc: Global, forest: &Forest) -> Result<Self, NoMemory>
        ensures { IfOk result (λ scoped_table. IsCorrect forest.now 0 scoped_table) }
    {
        Ok(ScopedTable {
            changes: empty_rows(alloc, forest.keys)?,
            entries: vec![in alloc; None; forest.bases.len()]?,
            current: None,
        })
    }

    /// What is entered for a class; None where nothing is.
    pub fn entry(&self, class: usize) -> Option<Entry>
        ensures { result ≡ entry_in self.now.entries.items class }
    {
        match self.entries.get(class) {
            None => None,
            Some(entry) => *entry,
        }
    }

    /// How many classes there are from the current one on through its bases.
    fn height(&self) -> Option<usize>
        ensures { result ≡ height_of self.now.entries.items self.now.current }
    {
        match self.current {
            None => Some(0),
            Some(class) => match self.entry(class) {
                None => None,
                Some(entry) => Some(entry.length),
            },
        }
    }

    /// What was found as a class was entered.
    fn source(&self, class: Option<usize>) -> Source
        ensures { result ≡ source_of self.now.entries.items class }
    {
        match class {
            None => Source::Nothing,
            Some(class) => match self.entry(class) {
                None => Source::Nothing,
                Some(entry) => Source::Time(entry.time),
            },
        }
    }

    /// Goes to a class from its base. A class with another base, or with too many classes after it, is left alone. The only error is
    /// out of memory.
    fn enter(&mut self, forest: &Forest, class: usize, time: usize) -> Result<(), NoMemory>
        requires { IsCorrect forest.now time self.old }
        ensures { OnOk result (IsCorrect forest.now (time + 1) self.new) }
    {
        if class >= self.entries.len() || forest.base(class) != self.current {
            return Ok(());
        }
        match self.height() {
            Some(height) if height < forest.most => {
                record_all(
                    &mut self.changes,
                    forest.keys_of(class),
                    Source::Class(class),
                    time,
                )?;
                self.entries[class] = Some(Entry {
                    time,
                    length: height + 1,
                });
                self.current = Some(class);
                Ok(())
            }
            _ => Ok(()),
        }
    }

    /// Goes back to the base of the current class. The only error is out of memory.
    fn leave(&mut self, forest: &Forest, time: usize) -> Result<(), NoMemory>
        requires { IsCorrect forest.now time self.old }
        ensures { OnOk result (IsCorrect forest.now (time + 1) self.new) }
    {
        let Some(class) = self.current else {
            return Ok(());
        };
        let base = forest.base(class);
        let source = self.source(base);
        record_all(&mut self.changes, forest.keys_of(class), source, time)?;
        self.current = base;
        Ok(())
    }

    /// Makes a step. The only error is out of memory.
    pub fn step(&mut self, forest: &Forest, step: Step, time: usize) -> Result<(), NoMemory>
        requires { IsCorrect forest.now time self.old }
        ensures { OnOk result (IsCorrect forest.now (time + 1) self.new) }
    {
        match step {
            Step::Enter(class) => self.enter(forest, class, time),
            Step::Leave => self.leave(forest, time),
        }
    }
}
