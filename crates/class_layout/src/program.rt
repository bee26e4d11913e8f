//! The layout of a program.

ghost use Rattle.std.specs.Prelude.{IfOk};
ghost use Rattle.class_layout.specs.Layouts.{IsLayout};

use crate::classes::Classes;
use crate::layout::Layout;
use cil_model::memory::NoMemory;
use resolved_code::Program;
use std::alloc::Global;

/// The layout of a program. The only error is out of memory.
pub fn lay_out(alloc: Global, program: &Program) -> Result<Layout, NoMemory>
    ensures { IfOk result (λ layout. IsLayout program.now layout) }
{
    let classes = Classes::new(alloc, program)?;
    Layout::new(alloc, &classes)
}
