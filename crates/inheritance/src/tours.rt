//! The order in which classes are visited.

use crate::cycles::entry_at;
use cil_model::memory::NoMemory;
use std::alloc::Global;

/// A step of the search.
#[derive(Clone, Copy)]
pub(crate) enum Step {
    /// To a class, from its base, or from nowhere where it has none.
    Enter(usize),
    /// Back to the base of the class.
    Leave,
}

/// The classes without a base, and those that have each class as their base, as chains.
#[derive(Drop)]
struct Children {
    /// The first class that has a class as its base; after these, the first without a base.
    first: Vec<Option<usize>>,
    /// The next class with the same base.
    next: Vec<Option<usize>>,
}

impl Children {
    fn new(alloc: Global, bases: &[Option<usize>]) -> Result<Self, NoMemory> {
        let mut first = vec![in alloc; None; bases.len().saturating_add(1)]?;
        let mut next = vec![in alloc; None; bases.len()]?;
        for class in 0..bases.len() {
            let base = bases[class].unwrap_or(bases.len());
            if class < next.len() && base < first.len() {
                next[class] = first[base];
                first[base] = Some(class);
            }
        }
        Ok(Children { first, next })
    }
}

/// A search through all classes whose bases end, each after its base. Its contract says nothing, since what is found is right
/// whatever the steps are: it is found fast for the classes that they enter.
pub(crate) fn tour(alloc: Global, bases: &[Option<usize>]) -> Result<Vec<Step>, NoMemory> {
    let children = Children::new(alloc, bases)?;
    let mut steps = Vec::new(alloc);
    let mut class = bases.len();
    let mut next = entry_at(children.first.as_slice(), class);
    for _ in 0..bases.len().saturating_mul(2) {
        let step = match next {
            Some(child) => {
                class = child;
                next = entry_at(children.first.as_slice(), child);
                Step::Enter(child)
            }
            None => {
                let Some(base) = bases.get(class) else {
                    break;
                };
                next = entry_at(children.next.as_slice(), class);
                class = base.unwrap_or(bases.len());
                Step::Leave
            }
        };
        steps.push(step)?;
    }
    Ok(steps)
}
