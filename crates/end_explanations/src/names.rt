//! The names that the texts of a program need.

ghost use Rattle.std.specs.Prelude.{◌≡◌, IfOk};
ghost use Rattle.event_trace.specs.MethodPositions.{ArePositionsOf};

use cil_model::memory::NoMemory;
use cil_model::trees::Tree;
use event_trace::MethodPositions;
use source_lines::SourceLines;
use std::alloc::Global;

/// Where the methods of a program are declared, and the lines of its source.
#[derive(Drop)]
pub(crate) struct Names<'s> {
    pub(crate) methods: MethodPositions,
    pub(crate) lines: SourceLines<'s>,
}

impl<'s> Names<'s> {
    /// The names of a program, by its tree and its source. The only error is out of memory.
    pub(crate) fn new(alloc: Global, tree: &Tree, source: &'s [u8]) -> Result<Names<'s>, NoMemory>
        ensures positions { IfOk result (λ names. ArePositionsOf tree.now names.methods) }
        ensures lines { IfOk result (λ names. names.lines ≡ source.now) }
    {
        Ok(Names {
            methods: MethodPositions::new(alloc, tree)?,
            lines: SourceLines::new(alloc, source)?,
        })
    }
}
