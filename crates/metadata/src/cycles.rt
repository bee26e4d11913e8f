//! Cyclic inheritance.

ghost use Rattle.std.specs.Prelude.{◌≡◌, ◌==◌, IfOk, is_some};
ghost use Rattle.std.specs.List.{list_any};
ghost use Rattle.cil_model.specs.Declarations.{source_name};
ghost use Rattle.cil_model.specs.Legality.{is_own_base, has_cycle};
ghost use Rattle.name_tables.specs.Methods.{line_of};

use cil_model::memory::NoMemory;
use cil_model::trees::Class;
use inheritance::least_own_base;
use name_tables::ids::ClassId;
use name_tables::keys::ClassKey;
use name_tables::lookups::NameTables;
use std::alloc::Global;

/// Whether a class is met from another one on along its bases.
fn is_along(names: &NameTables, first: Option<ClassId>, required: ClassId) -> bool
    ensures { result ≡ list_any (λ n. n == required) (line_of names.now.classes.tree.now first) }
{
    let mut next = first;
    let mut left = names.classes.longest_chain();
    while left > 0 {
        let Some(class) = next else {
            return false;
        };
        if class == required {
            return true;
        }
        next = names.base(class);
        left -= 1;
    }
    false
}

/// Whether a class is in the chain of its base. Most are seen at once to have bases that end.
fn is_own_base(names: &NameTables, class: &Class) -> bool
    ensures { result ≡ is_own_base names.now.classes.tree.now (source_name class.now) }
{
    let Some(number) = names.classes.id(ClassKey::of_source(class)) else {
        return false;
    };
    if names.ends(number) {
        return false;
    }
    is_along(names, names.base(number), number)
}

/// The index in the source of the first class that bases seem to lead back to. The only error is out of memory.
fn suspect(alloc: Global, names: &NameTables) -> Result<Option<usize>, NoMemory> {
    let sources = names.classes.tree.classes.as_slice().len();
    let built_in = names.classes.names().len().saturating_sub(sources);
    match least_own_base(alloc, names.bases())? {
        None => Ok(None),
        Some(number) => Ok(number.checked_sub(built_in)),
    }
}

/// The first of these classes that is in its own chain twice.
fn first_cyclic_base(names: &NameTables, classes: &[Class]) -> Option<usize>
    ensures { is_some result ≡ list_any (λ c. is_own_base names.now.classes.tree.now (source_name c)) classes.now }
{
    for (class, declared) in classes.iter().enumerate() {
        if is_own_base(names, declared) {
            return Some(class);
        }
    }
    None
}

/// The first class that is in its own chain twice; none where there is none (number 203). It is tested first where a walk along all
/// bases met itself, so that no more than a few chains are followed. The only error is out of memory.
pub fn cyclic_base(alloc: Global, names: &NameTables) -> Result<Option<usize>, NoMemory>
    ensures { IfOk result (λ c. is_some c ≡ has_cycle names.now.classes.tree.now) }
{
    let classes = names.classes.tree.classes.as_slice();
    if let Some(class) = suspect(alloc, names)? {
        if let Some(declared) = classes.get(class) {
            if is_own_base(names, declared) {
                return Ok(Some(class));
            }
        }
    }
    Ok(first_cyclic_base(names, classes))
}
