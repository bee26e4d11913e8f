//! Writes the text of a `.run` file.

ghost use Rattle.std.specs.Prelude.{◌≡◌, IfOk, string_bytes};
ghost use Rattle.run_files.specs.RunFiles.{text_of};

use crate::file::RunFile;
use cil_model::limits::Limits;
use std::alloc::{AllocError, Global};

/// The text of a `.run` file that says this. Fails only if memory runs out.
pub fn write(alloc: Global, file: &RunFile) -> Result<String, AllocError>
    ensures { IfOk result (λ text. string_bytes text ≡ text_of file.now) }
{
    let source = hex::encode(alloc, file.source)?;
    let output = hex::encode(alloc, file.output)?;
    let Limits {
        words,
        max_words,
        budget,
        depth,
    } = file.limits;
    let workers = file.workers;
    format!(in alloc;
        "cilvm-run: 1\nsource: {source}\nwords: {words}\nmax-words: {max_words}\nbudget: {budget}\ndepth: {depth}\nworkers: {workers}\noutput: {output}\n"
    )
}
