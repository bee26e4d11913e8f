//! The names of a program, with the chain of each class.

use cil_model::memory::NoMemory;
use name_tables::ids::ClassId;
use name_tables::lookups::NameTables;
use std::alloc::Global;

/// The tables of a program's names, and each class's chain, the class itself first (ECMA-335 I.8.9.9).
#[derive(Drop)]
pub struct OracleNames<'a> {
    pub tables: &'a NameTables<'a>,
    chains: Vec<Vec<ClassId>>,
}

impl<'a> OracleNames<'a> {
    /// Follows the bases of each class. The only error is out of memory.
    pub fn new(alloc: Global, tables: &'a NameTables<'a>) -> Result<Self, NoMemory> {
        let mut chains = Vec::new(alloc);
        for class in 0..tables.classes.all().len() {
            chains.push(tables.line(alloc, ClassId::new(class))?)?;
        }
        Ok(OracleNames { tables, chains })
    }

    /// The class, its base, and so on (ECMA-335 I.8.9.9). Empty where there is no such class.
    pub fn chain(&self, class: ClassId) -> &[ClassId] {
        match self.chains.get(class.number()) {
            None => &[],
            Some(chain) => chain.as_slice(),
        }
    }
}
