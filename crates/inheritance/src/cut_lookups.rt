//! What keys find where inheritance is cyclic, by the cycles that are cut.

ghost use Rattle.std.specs.Prelude.{◌≡◌, ◌<◌, ℕ, Some, None, IfOk};
ghost use Rattle.std.specs.Option.{ForSome};
ghost use Rattle.inheritance.specs.declared.changes.Declared.{Declared};
ghost use Rattle.inheritance.specs.ScopedTables.{pair_of, nearest_from};
ghost use Rattle.inheritance.specs.CutCycles.{part_in, IsCut};
ghost use Rattle.inheritance.specs.Cycles.{IsOnBaseCycle};

use crate::changes::Declared;
use crate::cut_cycles::{CutCycles, Part, cut_forest, part_in, parts_of};
use crate::cycles::Cycles;
use crate::forests::Forest;
use crate::inheritance::{Cyclic, Inheritance};
use cil_model::memory::NoMemory;
use std::alloc::Global;

impl CutCycles {
    /// Cuts each cycle of bases at one class; none only where there is no cyclic inheritance. Takes time and memory with the number of classes and of
    /// declarations, but for logarithms. The only error is out of memory.
    pub fn new(alloc: Global, forest: &Forest) -> Result<Option<Self>, NoMemory>
        ensures cut { IfOk result (λ found. ForSome found (λ cycles. IsCut forest.now cycles.cut.forest)) }
        ensures none { IfOk result (λ found. found ≡ None → (class : ℕ) → IsOnBaseCycle forest.now.bases.items class → ⊥) }
    {
        let cycles = Cycles::new(alloc, forest.bases.as_slice())?;
        let classes = cycles.classes.as_slice();
        if classes.is_empty() {
            return Ok(None);
        }
        let cut = Inheritance::new(alloc, cut_forest(alloc, forest, classes)?)?;
        let parts = parts_of(alloc, cut.forest.bases.as_slice())?;
        Ok(Some(CutCycles { cut, parts }))
    }

    fn part(&self, class: usize) -> Result<Part, Cyclic>
        ensures { IfOk result (λ part. part_in self.now.parts.items class ≡ Some part) }
    {
        match part_in(self.parts.as_slice(), class) {
            None => Err(Cyclic),
            Some(part) => Ok(part),
        }
    }

    /// What a key finds in the part of a class's line, where that is among the given number of classes. An error where it is not known.
    fn nearest_in_part(
        &self,
        forest: &Forest,
        class: usize,
        key: usize,
        left: usize,
    ) -> Result<Option<Declared>, Cyclic>
        requires cut { IsCut forest.now self.now.cut.forest }
        requires within { key < forest.now.keys }
        ensures found { IfOk result (λ found. (declared : Declared) → found ≡ Some declared → nearest_from forest.now key left (Some class) ≡ Some (declared.class, declared.index)) }
        ensures absent { IfOk result (λ found. found ≡ None → (n : ℕ) → nearest_from self.now.cut.forest key n (Some class) ≡ None) }
    {
        let Some(found) = self.cut.nearest(class, key)? else {
            return Ok(None);
        };
        let part = self.part(class)?;
        let rest = self.part(found.class)?;
        if part.length < rest.length.saturating_add(left) {
            Ok(Some(found))
        } else {
            Err(Cyclic)
        }
    }

    /// What a key finds after the part of a class's line, in which it finds nothing. An error where it is not known.
    fn nearest_after(
        &self,
        forest: &Forest,
        part: Part,
        key: usize,
    ) -> Result<Option<Declared>, Cyclic>
        requires cut { IsCut forest.now self.now.cut.forest }
        requires within { key < forest.now.keys }
        ensures { IfOk result (λ found. (class : ℕ) → part_in self.now.parts.items class ≡ Some part → ((n : ℕ) → nearest_from self.now.cut.forest key n (Some class) ≡ None) → pair_of found ≡ nearest_from forest.now key forest.now.most (Some class)) }
    {
        let Some(base) = forest.base(part.last) else {
            return Ok(None);
        };
        let next = self.part(base)?;
        let Some(left) = forest.most.checked_sub(part.length) else {
            return Err(Cyclic);
        };
        match self.nearest_in_part(forest, base, key, left)? {
            Some(found) => Ok(Some(found)),
            None if next.last == part.last => Ok(None),
            None => Err(Cyclic),
        }
    }

    /// What a key finds by the parts of a class's line. An error where it is not known.
    fn nearest_by_parts(
        &self,
        forest: &Forest,
        class: usize,
        key: usize,
    ) -> Result<Option<Declared>, Cyclic>
        requires cut { IsCut forest.now self.now.cut.forest }
        requires within { key < forest.now.keys }
        ensures { IfOk result (λ found. pair_of found ≡ nearest_from forest.now key forest.now.most (Some class)) }
    {
        let part = self.part(class)?;
        match self.nearest_in_part(forest, class, key, forest.most)? {
            Some(found) => Ok(Some(found)),
            None => self.nearest_after(forest, part, key),
        }
    }

    /// The nearest class that declares a key, from a class on, with the index of the key, within the number of classes that are looked at, whether
    /// the bases of the class end or not. Takes time with the logarithm of the number of classes that declare the key. Where the parts of
    /// the class's line do not determine it, it would follow the bases; they always do, which no contract says.
    pub fn nearest(&self, forest: &Forest, class: usize, key: usize) -> Option<Declared>
        requires cut { IsCut forest.now self.now.cut.forest }
        requires within { key < forest.now.keys }
        ensures { pair_of result ≡ nearest_from forest.now key forest.now.most (Some class) }
    {
        match self.nearest_by_parts(forest, class, key) {
            Ok(found) => found,
            Err(Cyclic) => forest.nearest_along(class, key),
        }
    }
}
