//! Cyclic inheritance.

ghost use Rattle.std.specs.Prelude.{◌≡◌, ℕ, [], Some, IfOk, is_some, length};
ghost use Rattle.std.specs.List.{position};
ghost use Rattle.inheritance.specs.Lines.{base_in};
ghost use Rattle.inheritance.specs.Cycles.{walk_at, HasWalked, IsOnBaseCycle, IsLeastOnBaseCycle, MarksBaseCycles};

use cil_model::memory::NoMemory;
use std::alloc::Global;

/// What a list has at the number of a class.
pub(crate) fn entry_at(entries: &[Option<usize>], class: usize) -> Option<usize>
    ensures { result ≡ base_in entries.now class }
{
    match entries.get(class) {
        None => None,
        Some(entry) => *entry,
    }
}

/// The class at which a walk along bases meets itself. Each class that it reaches is marked with the number of the walk, and it ends
/// at a class that is marked.
fn met_again(
    bases: &[Option<usize>],
    walks: &mut [Option<usize>],
    first: usize,
    walk: usize,
) -> Option<usize>
    requires width { length walks.old ≡ length bases.now }
    requires fresh { (class : ℕ) → walk_at walks.old class ≡ Some walk → ⊥ }
    ensures { HasWalked bases.now walks.old first walk walks.new result }
{
    let mut class = first;
    while class < walks.len() && walks[class].is_none() {
        walks[class] = Some(walk);
        class = entry_at(bases, class)?;
    }
    match entry_at(walks, class) {
        Some(other) if other == walk => Some(class),
        _ => None,
    }
}

/// The cycles of bases.
#[derive(Drop)]
pub(crate) struct Cycles {
    /// A class of each cycle.
    pub classes: Vec<usize>,
    /// The walk that found that bases lead back to a class; none where they do not.
    marks: Vec<Option<usize>>,
}

impl Cycles {
    /// Follows all bases: a class at which a walk meets itself is on a cycle, which is then followed once more and marked. Takes
    /// time with the number of classes. The only error is out of memory.
    pub(crate) fn new(alloc: Global, bases: &[Option<usize>]) -> Result<Self, NoMemory>
        ensures marks { IfOk result (λ cycles. MarksBaseCycles bases.now cycles.marks.items) }
        ensures classes { IfOk result (λ cycles. cycles.classes.items ≡ [] → (class : ℕ) → IsOnBaseCycle bases.now class → ⊥) }
    {
        let mut classes = Vec::new(alloc);
        let mut marks = vec![in alloc; None; bases.len()]?;
        let mut walks = vec![in alloc; None; bases.len()]?;
        for start in 0..bases.len() {
            if let Some(class) = met_again(bases, walks.as_mut_slice(), start, start) {
                met_again(bases, marks.as_mut_slice(), class, start);
                classes.push(class)?;
            }
        }
        Ok(Cycles { classes, marks })
    }
}

/// The first class that is marked.
fn first_marked(marks: &[Option<usize>]) -> Option<usize>
    ensures { result ≡ position is_some marks.now }
{
    marks.iter().position(|mark| mark.is_some())
}

/// The least class that bases lead back to; none where there is none. Takes time with the number of classes. The only error is out of
/// memory.
pub fn least_own_base(alloc: Global, bases: &[Option<usize>]) -> Result<Option<usize>, NoMemory>
    ensures { IfOk result (λ least. IsLeastOnBaseCycle bases.now least) }
{
    let cycles = Cycles::new(alloc, bases)?;
    Ok(first_marked(cycles.marks.as_slice()))
}
