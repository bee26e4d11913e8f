//! The names and signatures of methods by numbers.

ghost use Rattle.std.specs.Prelude.{◌≡◌, IfOk, map, flat_map};
ghost use Rattle.name_tables.specs.Entries.{declaration_in};
ghost use Rattle.name_tables.specs.Keys.{method_of_key};
ghost use Rattle.name_tables.specs.Sameness.{identity_of};
ghost use Rattle.resolved_code.specs.Identities.{identities, identity_number};

use cil_model::memory::NoMemory;
use cil_model::trees::{Method, Tree};
use name_tables::class_tables::{ClassTable, method_keys};
use name_tables::key_indices::KeyIndices;
use name_tables::keys::MethodKey;
use name_tables::tables::ClassTables;
use std::alloc::Global;

/// The name and signature of each method of each class, found by hash (ECMA-335 II.15).
#[derive(Drop)]
pub struct Identities<'a> {
    pub tree: &'a Tree,
    keys: KeyIndices<MethodKey<'a>>,
    ghost keys_are: { map method_of_key keys ≡ identities tree.now },
}

/// The keys of the methods of each class, one class after the other.
fn all_keys<'a>(alloc: Global, tables: &[ClassTable<'a>]) -> Result<Vec<MethodKey<'a>>, NoMemory>
    ensures { IfOk result (λ v. map method_of_key v.items ≡ flat_map (λ t. map identity_of (declaration_in t.class).methods) tables.now) }
{
    let mut keys = Vec::new(alloc);
    for table in tables {
        let mut own = method_keys(alloc, table.class.methods.as_slice())?;
        keys.append(&mut own)?;
    }
    Ok(keys)
}

impl<'a> Identities<'a> {
    /// Numbers the names and signatures of a tree's methods. The only error is out of memory.
    pub fn new(alloc: Global, classes: &ClassTables<'a>) -> Result<Self, NoMemory>
        ensures { IfOk result (λ i. i.tree.now ≡ classes.now.tree.now) }
    {
        let keys = all_keys(alloc, classes.all())?;
        Ok(Identities {
            tree: classes.tree,
            keys: KeyIndices::new(alloc, keys)?,
        })
    }

    /// The number of a method's name and signature.
    pub fn number(&self, method: &Method) -> usize
        ensures { result ≡ identity_number self.now.tree.now (identity_of method.now) }
    {
        let key = MethodKey::new(&method.name, &method.signature);
        match self.keys.first(key) {
            None => self.keys.keys().len(),
            Some(index) => index,
        }
    }
}
