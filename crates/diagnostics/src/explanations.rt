//! Why a source is not accepted.

ghost use Rattle.std.specs.Prelude.{◌≡◌, ◌≢◌, None, IfOk, IfSome, IsSome, OnOk};
ghost use Rattle.reading_explanations.specs.cil_model.Sources.{HasTree, IsAnswer};
ghost use Rattle.reading_explanations.specs.cil_model.declared.trees.Tree.{Tree};
ghost use Rattle.acceptance.specs.Sources.{HasAcceptedTree};
ghost use Rattle.acceptance.specs.declared.errors.SourceError.TheVariants.{OutOfMemory};

use acceptance::{SourceError, examine};
use legality_explanations::metadata::Program;
use legality_explanations::{explain_rule, notes_on_runs};
use reading_explanations::cil_model::memory::NoMemory;
use reading_explanations::cil_model::trees::Tree;
use reading_explanations::ilasm_reader::laws::answers_are_unique;
use reading_explanations::ilasm_reader::{ReadError, read};
use reading_explanations::{Named, explain_reading};
use std::alloc::Global;
use typing_explanations::verifier::failures::{FailurePoint, Reason, TypingError};
use typing_explanations::{explain_typing, needed_height};

/// Whether a stack was too high.
fn is_too_high(failure: &FailurePoint) -> bool {
    matches!(failure.reason, Reason::TooHigh(_))
}

/// Why a method has no typing in which a stack is too high. Where it has none with the largest `.maxstack` either, for another reason, it is
/// that reason; else its text says how high the stack has to be.
fn untyped_by_height(
    alloc: Global,
    named: Named,
    program: &Program,
    method: usize,
    failure: &FailurePoint,
) -> Result<Option<String>, NoMemory> {
    match needed_height(alloc, program, method) {
        Ok(height) => explain_typing(alloc, named, program, method, failure, height),
        Err(TypingError::OutOfMemory) => Err(NoMemory),
        Err(TypingError::Untyped(other)) => {
            let shown = if is_too_high(&other) { failure } else { &other };
            explain_typing(alloc, named, program, method, shown, None)
        }
    }
}

/// Why the method of a number has no typing. None where the program has no such method.
fn untyped_method(
    alloc: Global,
    named: Named,
    program: &Program,
    method: usize,
    failure: &FailurePoint,
) -> Result<Option<String>, NoMemory> {
    if is_too_high(failure) {
        return untyped_by_height(alloc, named, program, method, failure);
    }
    explain_typing(alloc, named, program, method, failure, None)
}

/// Why the method of a number has no typing.
fn untyped_text(
    alloc: Global,
    named: Named,
    program: &Program,
    method: usize,
    failure: &FailurePoint,
) -> Result<String, NoMemory> {
    match untyped_method(alloc, named, program, method, failure)? {
        None => named.message(alloc, None, "a method has no typing"),
        Some(message) => Ok(message),
    }
}

/// Why a source is refused, by the evidence in the error: of the reader, of a rule on names and limits, or of the verifier.
///
/// The text has the file's name, the line and the column (both from 1, and a tab is one column), a sentence that says which clause is
/// broken and by what, and the line with carets below the token at fault. Where that does not agree with something else, as with the
/// first of two names, a second such part shows it. Of a method without a typing, its name, the instruction's number from 0 and the stacks
/// there follow, the deepest value first. Each line ends with a line feed. Fails only when out of memory, and where the error is OutOfMemory.
pub fn explain_error(
    alloc: Global,
    file: &str,
    source: &[u8],
    error: &SourceError,
) -> Result<String, NoMemory>
    ensures { OnOk result (error.now ≢ OutOfMemory) }
{
    let named = Named { file, text: source };
    match error {
        SourceError::Unread(error) => explain_reading(alloc, named, *error),
        SourceError::Illegal { tree, violation } => explain_rule(alloc, named, tree, *violation),
        SourceError::Untyped {
            program,
            method,
            failure,
        } => untyped_text(alloc, named, program, *method, failure),
        SourceError::OutOfMemory => Err(NoMemory),
    }
}

/// Why a source is refused: the text that `explain_error` has for the error of `examine`. None exactly where the source is accepted. Fails only when
/// out of memory.
pub fn explain(alloc: Global, file: &str, source: &[u8]) -> Result<Option<String>, NoMemory>
    ensures accepted { IfOk result (λ text. text ≡ None → HasAcceptedTree source.now) }
    ensures refused { IfOk result (λ text. IsSome text → HasAcceptedTree source.now → ⊥) }
{
    answers_are_unique();
    match examine(alloc, source) {
        Ok(_) => Ok(None),
        Err(error) => {
            let text = explain_error(alloc, file, source, &error)?;
            Ok(Some(text))
        }
    }
}

/// The tree of a source; None where it has none.
fn tree_of(alloc: Global, source: &[u8]) -> Result<Option<Tree>, NoMemory>
    ensures { IfOk result (λ found. IfSome found (λ tree. IsAnswer source.now (HasTree tree))) }
{
    match read(alloc, source) {
        Ok(tree) => Ok(Some(tree)),
        Err(ReadError::OutOfMemory) => Err(NoMemory),
        Err(_) => Ok(None),
    }
}

/// Notes on a source that is accepted, and may not do what it seems to: a class that extends `Cilvm.Thread` has methods `Run`, and none of
/// them overrides `Cilvm.Thread::Run`, so no thread runs them. Each note is laid out as an explanation. None where there is nothing to
/// note, and where the source has no tree. Fails only when out of memory.
pub fn note(alloc: Global, file: &str, source: &[u8]) -> Result<Option<String>, NoMemory>
    ensures { IfOk result (λ text. IsSome text → (tree : Tree) × IsAnswer source.now (HasTree tree)) }
{
    let Some(noted) = tree_of(alloc, source)? else {
        return Ok(None);
    };
    let named = Named { file, text: source };
    let notes = notes_on_runs(alloc, named, &noted)?;
    if notes.is_empty() {
        Ok(None)
    } else {
        Ok(Some(notes))
    }
}
