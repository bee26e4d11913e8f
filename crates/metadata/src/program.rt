//! The program of a legal tree, and why a tree is none.

ghost use Rattle.std.specs.Prelude.{◌≡◌, ◌≢◌, Some, IfOk, IfErr, map};
ghost use Rattle.cil_model.specs.Declarations.{built_ins};
ghost use Rattle.name_tables.specs.BuiltInTable.{built_in_entry};
ghost use Rattle.cil_model.specs.Legality.{IsLegal, least_broken};
ghost use Rattle.resolved_code.specs.Contents.{IsContents};
ghost use Rattle.metadata.specs.RuleNumbers.{number_of};
ghost use Rattle.metadata.specs.declared.program.MetaError.TheVariants.{OutOfMemory};

use crate::rules::least_broken;
use crate::violations::Violation;
use cil_model::memory::NoMemory;
use cil_model::trees::Tree;
use name_tables::built_in::BuiltInClass;
use name_tables::lookups::NameTables;
use resolved_code::{Contents, Program};
use std::alloc::Global;
use thiserror::Error;

/// Why a tree is no legal program.
#[derive(Clone, Copy, Debug, Error)]
pub enum MetaError {
    /// A rule is broken.
    #[error("{violation}")]
    Broken { violation: Violation },
    #[error("out of memory")]
    OutOfMemory,
}

impl MetaError {
    /// The number that the program prints: 201 to 207, or 208 for out of memory.
    pub fn number(&self) -> u16
        ensures { result ≡ number_of self.now }
    {
        match self {
            MetaError::Broken { violation } => violation.rule().number(),
            MetaError::OutOfMemory => 208,
        }
    }
}

impl From<NoMemory> for MetaError {
    ghost from_gives = { λ _ error. error ≡ OutOfMemory };

    fn from(_error: NoMemory) -> MetaError {
        MetaError::OutOfMemory
    }
}

/// What a legal tree is by numbers; of another what breaks a rule first.
fn contents_of(alloc: Global, names: &NameTables) -> Result<Contents, MetaError>
    ensures legal { IfOk result (λ c. IsLegal names.now.classes.tree.now × IsContents names.now.classes.tree.now c) }
    ensures broken { IfErr result (λ e. e ≢ OutOfMemory → least_broken names.now.classes.tree.now ≡ Some (number_of e)) }
{
    match least_broken(alloc, names)? {
        None => Ok(Contents::of_legal(alloc, names)?),
        Some(violation) => Err(MetaError::Broken { violation }),
    }
}

/// The same of a tree, with the built-in classes.
fn check(alloc: Global, tree: &Tree, table: &[BuiltInClass]) -> Result<Contents, MetaError>
    requires { map built_in_entry table.now ≡ built_ins }
    ensures legal { IfOk result (λ c. IsLegal tree.now × IsContents tree.now c) }
    ensures broken { IfErr result (λ e. e ≢ OutOfMemory → least_broken tree.now ≡ Some (number_of e)) }
{
    let names = NameTables::new(alloc, tree, table)?;
    contents_of(alloc, &names)
}

/// What a legal tree is by numbers: with it, it is a `Program`. Of another tree the error has what breaks the least rule that is broken. Out of
/// memory may be returned in place of either.
pub fn contents(alloc: Global, tree: &Tree) -> Result<Contents, MetaError>
    ensures legal { IfOk result (λ c. IsLegal tree.now × IsContents tree.now c) }
    ensures broken { IfErr result (λ e. e ≢ OutOfMemory → least_broken tree.now ≡ Some (number_of e)) }
{
    let table = BuiltInClass::all(alloc)?;
    check(alloc, tree, table.as_slice())
}

/// The program of a legal tree. Another tree is dropped, and the error has the least number of a rule that it breaks. Out of
/// memory may be returned in place of either, and drops the tree too.
pub fn resolve(alloc: Global, tree: Tree) -> Result<Program, MetaError>
    ensures legal { IfOk result (λ p. (p ≡ tree) × IsLegal tree) }
    ensures broken { IfErr result (λ e. e ≢ OutOfMemory → least_broken tree ≡ Some (number_of e)) }
{
    let contents = contents(alloc, &tree)?;
    Ok(Program::new(tree, contents))
}
