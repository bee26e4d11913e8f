//! Classes, each after its base.

ghost use Rattle.std.specs.Prelude.{◌≡◌, ◌++◌, ◌<◌, ℕ, [], true, false, Some, None, IfOk, reverse, length};
ghost use Rattle.inheritance.specs.TopologicalOrder.{is_met, is_listed_next, AreTopologicallyOrdered, HasMet, IsMetNext, MarksMore};

use crate::cycles::entry_at;
use cil_model::memory::NoMemory;
use std::alloc::Global;

/// What comes next, where it is a class that is not met.
fn not_met(met: &[bool], next: Option<usize>) -> Option<usize>
    ensures found { (class : ℕ) → result ≡ Some class → (next ≡ Some class) × (class < length met.now) × (is_met met.now class ≡ false) }
    ensures stops { result ≡ None → IsMetNext met.now next }
{
    let class = next?;
    match met.get(class) {
        Some(false) => Some(class),
        _ => None,
    }
}

/// Puts a class, its base, and so on, on a path, as far as they are not met yet, and returns what comes after them. The only error is
/// out of memory.
fn walk_up(
    bases: &[Option<usize>],
    met: &mut [bool],
    path: &mut Vec<usize>,
    first: usize,
) -> Result<Option<usize>, NoMemory>
    requires { path.old.items ≡ [] }
    ensures met { IfOk result (λ next. HasMet bases.now met.old first met.new path.new.items next) }
    ensures stops { IfOk result (λ next. IsMetNext met.new next) }
{
    let mut next = Some(first);
    while let Some(class) = not_met(met, next) {
        met[class] = true;
        path.push(class)?;
        next = entry_at(bases, class);
    }
    Ok(next)
}

/// Whether what comes after a path is listed, or no class.
fn is_listed_next(listed: &[bool], next: Option<usize>) -> bool
    ensures { result ≡ is_listed_next listed.now next }
{
    let Some(class) = next else {
        return true;
    };
    match listed.get(class) {
        None => true,
        Some(listed) => *listed,
    }
}

/// Lists the classes of a path, the last first, and leaves the path empty. The only error is out of memory.
fn list_back(
    path: &mut Vec<usize>,
    listed: &mut [bool],
    classes: &mut Vec<usize>,
) -> Result<(), NoMemory>
    ensures classes { IfOk result (λ done. classes.new.items ≡ classes.old.items ++ reverse path.old.items) }
    ensures listed { IfOk result (λ done. MarksMore listed.old path.old.items listed.new) }
    ensures empty { IfOk result (λ done. path.new.items ≡ []) }
{
    while let Some(class) = path.pop() {
        classes.push(class)?;
        if class < listed.len() {
            listed[class] = true;
        }
    }
    Ok(())
}

/// The classes whose bases end, each once, and after its base where that is a class. Takes time with the number of classes. The only
/// error is out of memory.
pub fn classes_in_topological_order(
    alloc: Global,
    bases: &[Option<usize>],
) -> Result<Vec<usize>, NoMemory>
    ensures { IfOk result (λ classes. AreTopologicallyOrdered bases.now classes.items) }
{
    let mut classes = Vec::new(alloc);
    let mut path = Vec::new(alloc);
    let mut met = vec![in alloc; false; bases.len()]?;
    let mut listed = vec![in alloc; false; bases.len()]?;
    for start in 0..bases.len() {
        let next = walk_up(bases, met.as_mut_slice(), &mut path, start)?;
        if is_listed_next(listed.as_slice(), next) {
            list_back(&mut path, listed.as_mut_slice(), &mut classes)?;
        } else {
            path.clear();
        }
    }
    Ok(classes)
}
