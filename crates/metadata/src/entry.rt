//! Why a source has no fit entry point.

ghost use Rattle.std.specs.Prelude.{◌≡◌, ◌<◌, ◌==◌, ◌&&◌, Some, IfOk, is_none, is_some, length, map, count_by};
ghost use Rattle.cil_model.specs.Bodies.{is_entry_point};
ghost use Rattle.std.specs.List.{list_any, position_from};
ghost use Rattle.cil_model.specs.Legality.{is_entry_method, lacks_entry};
ghost use Rattle.cil_model.specs.Mentions.{methods_of_tree};

use crate::violations::{BadEntry, SourceMember};
use cil_model::memory::NoMemory;
use cil_model::trees::{Class, Member, Method, Tree};
use name_tables::kinds::is_static;
use name_tables::trees::methods_of_tree;
use resolved_code::entries::entry_index;
use std::alloc::Global;

fn count_methods(class: &Class) -> usize {
    let mut count = 0;
    for member in class.members.as_slice() {
        if matches!(member, Member::Method(_)) {
            count += 1;
        }
    }
    count
}

/// The class and the index of the method that has this number among all methods of the source.
fn site_of(tree: &Tree, number: usize) -> SourceMember {
    let mut index = number;
    for (class, declared) in tree.classes.as_slice().iter().enumerate() {
        let count = count_methods(declared);
        if index < count {
            return SourceMember { class, index };
        }
        index -= count;
    }
    let class = tree.classes.as_slice().len();
    SourceMember { class, index }
}

/// Why a method may not have an entry point; none where it is static and void, without parameters.
fn fault_of(site: SourceMember, method: &Method) -> Option<BadEntry>
    ensures { is_none result ≡ is_entry_method method.now }
{
    if !is_static(&method.kind) {
        return Some(BadEntry::NotStatic(site));
    }
    if method.signature.return_type.is_some() {
        return Some(BadEntry::Returns(site));
    }
    if method.signature.parameters.as_slice().is_empty() {
        return None;
    }
    Some(BadEntry::Takes(site))
}

/// Why the first entry point, which is at this index among the methods of a source, is not fit or not the only one; none where it is.
fn first_fault(tree: &Tree, methods: &[&Method], first: usize) -> Option<BadEntry>
    requires within { first < length methods.now }
    requires first { position_from is_entry_point 0 (map (λ m. m.now) methods.now) ≡ Some first }
    ensures { is_none result ≡ (count_by is_entry_point (map (λ m. m.now) methods.now) == 1) && list_any (λ m. is_entry_point m && is_entry_method m) (map (λ m. m.now) methods.now) }
{
    let site = site_of(tree, first);
    let following = first + 1;
    match entry_index(&methods[following..]) {
        None => fault_of(site, methods[first]),
        Some(further) => Some(BadEntry::Second {
            first: site,
            second: site_of(tree, following + further),
        }),
    }
}

/// Why the methods of a source have not one fit entry point; none where they have.
fn entry_fault(tree: &Tree, methods: &[&Method]) -> Option<BadEntry>
    ensures { is_none result ≡ (count_by is_entry_point (map (λ m. m.now) methods.now) == 1) && list_any (λ m. is_entry_point m && is_entry_method m) (map (λ m. m.now) methods.now) }
{
    match entry_index(methods) {
        None => Some(BadEntry::Absent),
        Some(first) => first_fault(tree, methods, first),
    }
}

/// Why the source has not exactly one entry point, in a method that is static, void and without parameters; none where it has
/// (number 206). The only error is out of memory.
pub fn bad_entry(alloc: Global, tree: &Tree) -> Result<Option<BadEntry>, NoMemory>
    ensures { IfOk result (λ e. is_some e ≡ lacks_entry tree.now) }
{
    let methods = methods_of_tree(alloc, tree)?;
    Ok(entry_fault(tree, methods.as_slice()))
}
