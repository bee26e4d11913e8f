//! From the bytes of a source to the machine of its program.

ghost use Rattle.std.specs.Prelude.{◌≡◌, IfErr, IfOk, List, ℕ};
ghost use Rattle.cil_model.specs.Sources.{HasTree, IsAnswer};
ghost use Rattle.cil_model.specs.Typings.{IsAccepted};
ghost use Rattle.acceptance.specs.Errors.{IsErrorOf, error_of_reading};
ghost use Rattle.acceptance.specs.Sources.{IsAcceptedSource, IsMade, IsNotAccepted, IsNotRun};

use crate::errors::SourceError;
use crate::failure::Failure;
use cil_model::limits::Limits;
use cil_model::trees::Tree;
use class_layout::lay_out;
use ilasm_reader::{ReadError, read};
use interleaving_core::Machine;
use metadata::{MetaError, Program, contents};
use std::alloc::Global;
use verifier::{Verified, VerifyError, typings_of};

/// The verified program of a source, as `accept` returns it. The error of a source that is not accepted has the evidence: the reader's error, or the
/// tree and what breaks a rule, or the program and the method without a typing.
pub fn examine(alloc: Global, source: &[u8]) -> Result<Verified, SourceError>
    ensures accepted { IfOk result (IsAcceptedSource source.now) }
    ensures refused { IfErr result (IsErrorOf source.now) }
{
    match read(alloc, source) {
        Ok(tree) => examine_tree(alloc, tree),
        Err(error) => Err(unread(error)),
    }
}

/// The error of a source that the reader refuses.
fn unread(error: ReadError) -> SourceError
    ensures { result ≡ error_of_reading error }
{
    match error {
        ReadError::OutOfMemory => SourceError::OutOfMemory,
        _ => SourceError::Unread(error),
    }
}

/// The verified program of a tree.
fn examine_tree(alloc: Global, tree: Tree) -> Result<Verified, SourceError>
    ensures accepted { IfOk result (λ verified. (verified ≡ tree) × IsAccepted tree) }
    ensures refused { IfErr result (λ error. (source : List ℕ) → IsAnswer source (HasTree tree) → IsErrorOf source error) }
{
    match contents(alloc, &tree) {
        Ok(contents) => examine_program(alloc, Program::new(tree, contents)),
        Err(MetaError::Broken { violation }) => Err(SourceError::Illegal { tree, violation }),
        Err(MetaError::OutOfMemory) => Err(SourceError::OutOfMemory),
    }
}

/// The verified program of a legal program.
fn examine_program(alloc: Global, program: Program) -> Result<Verified, SourceError>
    ensures accepted { IfOk result (λ verified. (verified ≡ program) × IsAccepted program) }
    ensures refused { IfErr result (λ error. (source : List ℕ) → IsAnswer source (HasTree program) → IsErrorOf source error) }
{
    let Ok(layout) = lay_out(alloc, &program) else {
        return Err(SourceError::OutOfMemory);
    };
    match typings_of(alloc, &program) {
        Ok(typings) => Ok(Verified::new(program, layout, typings)),
        Err(VerifyError::NoTyping { method, failure }) => Err(SourceError::Untyped {
            program,
            method,
            failure,
        }),
        Err(VerifyError::OutOfMemory) => Err(SourceError::OutOfMemory),
    }
}

/// The verified program of a source, whose tree is the one that the bytes have. It is legal, and each of its methods has a typing.
///
/// Faults are looked for in this order: the bytes have no tree (101 to 104), the program is not legal (201 to 207), a method has no typing
/// (301), each a `Refused` with its number; `Memory` where memory runs out.
pub fn accept(alloc: Global, source: &[u8]) -> Result<Verified, Failure>
    ensures accepted { IfOk result (IsAcceptedSource source.now) }
    ensures refused { IfErr result (IsNotAccepted source.now) }
{
    match examine(alloc, source) {
        Ok(verified) => Ok(verified),
        Err(error) => Err(error.failure()),
    }
}

/// The machine of a source before its first event.
///
/// Faults are looked for in this order: the source (as `accept` does), the limits (`OutOfRange(401)`); `Memory` where memory runs out.
pub fn machine_of(alloc: Global, source: &[u8], limits: Limits) -> Result<Machine, Failure>
    ensures made { IfOk result (IsMade source.now limits) }
    ensures refused { IfErr result (IsNotRun source.now limits) }
{
    let verified = accept(alloc, source)?;
    let machine = Machine::new(alloc, verified, limits)?;
    Ok(machine)
}
