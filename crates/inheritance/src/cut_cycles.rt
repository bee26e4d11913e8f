//! Cycles of bases, each cut at one class, so that lines along them end.

ghost use Rattle.std.specs.Prelude.{◌≡◌, Some, IfOk, map};
ghost use Rattle.inheritance.specs.declared.cut_cycles.Part.{Part};
ghost use Rattle.inheritance.specs.CutCycles.{part_in, part_of, AreParts, HasBasesOf, IsCut};

use crate::cycles::entry_at;
use crate::forests::Forest;
use crate::inheritance::Inheritance;
use crate::topological_order::classes_in_topological_order;
use cil_model::memory::NoMemory;
use std::alloc::Global;

/// The classes from one on through its bases up to where a cycle is cut or the bases end: the last of them, and how many they are.
#[derive(Clone, Copy)]
pub(crate) struct Part {
    pub last: usize,
    pub length: usize,
}

/// The same classes, but that each cycle of bases is cut: one class of it has no base. A cyclic line is made of two parts
/// without a cycle, that of its first class and that of the base at which it continues.
pub struct CutCycles {
    pub cut: Inheritance,
    pub(crate) parts: Vec<Option<Part>>,
    ghost parted: { AreParts cut.forest.bases.items parts.items },
}

/// Each part is dropped.
impl Drop for CutCycles {
    fn drop(self) {
        let CutCycles {
            cut: _cut,
            parts: _parts,
        } = self;
    }
}

/// Bases without those of some classes. The only error is out of memory.
fn cut_bases(
    alloc: Global,
    bases: &[Option<usize>],
    classes: &[usize],
) -> Result<Vec<Option<usize>>, NoMemory>
    ensures { IfOk result (λ cut. HasBasesOf bases.now cut.items) }
{
    let mut cut = Vec::new(alloc);
    cut.extend_from_slice(bases)?;
    for index in 0..classes.len() {
        let class = classes[index];
        if class < cut.len() {
            cut[class] = None;
        }
    }
    Ok(cut)
}

fn copies_of(alloc: Global, rows: &[Vec<usize>]) -> Result<Vec<Vec<usize>>, NoMemory>
    ensures { IfOk result (λ copies. map (λ v. v.items) copies.items ≡ map (λ v. v.items) rows.now) }
{
    let mut copies = Vec::new(alloc);
    for row in rows {
        copies.push(row.as_slice().to_vec(alloc)?)?;
    }
    Ok(copies)
}

/// The same classes without the bases of some. The only error is out of memory.
pub(crate) fn cut_forest(
    alloc: Global,
    forest: &Forest,
    classes: &[usize],
) -> Result<Forest, NoMemory>
    ensures { IfOk result (λ cut. IsCut forest.now cut) }
{
    Ok(Forest {
        bases: cut_bases(alloc, forest.bases.as_slice(), classes)?,
        declared: copies_of(alloc, forest.declared.as_slice())?,
        keys: forest.keys,
        most: forest.most,
    })
}

pub(crate) fn part_in(parts: &[Option<Part>], class: usize) -> Option<Part>
    ensures { result ≡ part_in parts.now class }
{
    match parts.get(class) {
        None => None,
        Some(part) => *part,
    }
}

/// The part of a class's line by that of its base; none where that is not known.
fn part_of(parts: &[Option<Part>], class: usize, base: Option<usize>) -> Option<Part>
    ensures { (part : Part) → result ≡ Some part → part_of parts.now class base ≡ Some part }
{
    let Some(base) = base else {
        return Some(Part {
            last: class,
            length: 1,
        });
    };
    let part = part_in(parts, base)?;
    Some(Part {
        last: part.last,
        length: part.length.checked_add(1)?,
    })
}

/// The parts of all lines that end. The only error is out of memory.
pub(crate) fn parts_of(
    alloc: Global,
    bases: &[Option<usize>],
) -> Result<Vec<Option<Part>>, NoMemory>
    ensures { IfOk result (λ parts. AreParts bases.now parts.items) }
{
    let mut parts = vec![in alloc; None; bases.len()]?;
    let classes = classes_in_topological_order(alloc, bases)?;
    for class in classes.as_slice() {
        if *class < parts.len() && parts[*class].is_none() {
            parts[*class] = part_of(parts.as_slice(), *class, entry_at(bases, *class));
        }
    }
    Ok(parts)
}
