//! Whose monitors threads are about to enter or to leave.

ghost use Rattle.std.specs.Prelude.{◌≡◌, IsSome};
ghost use Rattle.simulation.specs.interpreter.Instructions.{line_at};
ghost use Rattle.interleaving_core.specs.Monitors.{monitor_in, unless_null};

use crate::waits::{action_at, top_reference};
use object_memory::Addr;
use simulation::interpreter_code::loaded_code::{Action, LoadedProgram};
use threads_monitors::FrameMemory;

/// The object whose monitor a live thread with these frames is about to enter or to leave (ECMA-335 I.12.6.5). None where its next
/// instruction does neither, or does it with null.
pub(crate) fn monitor_in(program: &LoadedProgram, frames: &FrameMemory) -> Option<Addr>
    requires { IsSome (line_at program.now frames.now) }
    ensures { result ≡ monitor_in program.now frames.now }
{
    match action_at(program, frames)? {
        Action::Enter | Action::Exit => unless_null(top_reference(frames)?),
        _ => None,
    }
}

/// An address, unless it is null.
fn unless_null(address: Addr) -> Option<Addr>
    ensures { result ≡ unless_null address }
{
    if address.is_null() {
        None
    } else {
        Some(address)
    }
}
