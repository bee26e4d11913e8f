//! How much events print.

ghost use Rattle.std.specs.Prelude.{◌≡◌, ◌+◌, [], IsSome, length, unwrap_or};
ghost use Rattle.std.specs.Fmt.{signed_decimal};
ghost use Rattle.object_memory.specs.declared.values.Value.TheVariants.{Ref as RefTo};
ghost use Rattle.simulation.specs.instructions.BuiltInTransitions.{line_of};
ghost use Rattle.simulation.specs.interpreter.Instructions.{line_at};
ghost use Rattle.interleaving_core.specs.Prints.{print_in};

use crate::waits::action_at;
use cil_model::texts::Text;
use itoa::Buffer;
use object_memory::{Addr, Value};
use simulation::interpreter_code::loaded_code::{Action, LoadedProgram};
use threads_monitors::FrameMemory;

/// The bytes of a number's line.
fn number_line_length(number: i64) -> usize
    ensures { result ≡ length (signed_decimal number) + 1 }
{
    let mut buffer = Buffer::new();
    buffer.format(number).len() + 1
}

/// The bytes of a literal's line, or of an empty line for null. 0 of what is neither.
fn reference_line_length(literals: &[Text], address: Addr) -> usize
    ensures { result ≡ length (unwrap_or (line_of literals.now (RefTo address)) []) }
{
    if address.is_null() {
        return 1;
    }
    let Some(number) = address.literal_number() else {
        return 0;
    };
    match literals.get(number as usize) {
        Some(text) => text.as_str().len() + 1,
        None => 0,
    }
}

/// How many bytes `Console.WriteLine` prints of a value. 0 of one that it is never given.
fn line_length(literals: &[Text], value: Value) -> usize
    ensures { result ≡ length (unwrap_or (line_of literals.now value) []) }
{
    match value {
        Value::Int32(number) => number_line_length(i64::from(number)),
        Value::Int64(number) => number_line_length(number),
        Value::Ref(address) => reference_line_length(literals, address),
        Value::Native(_) => 0,
    }
}

/// How many bytes a live thread with these frames is about to print.
pub(crate) fn print_length_in(program: &LoadedProgram, frames: &FrameMemory) -> usize
    requires { IsSome (line_at program.now frames.now) }
    ensures { result ≡ length (print_in program.now frames.now) }
{
    match action_at(program, frames) {
        Some(Action::Write) if frames.stack_height() > 0 => {
            line_length(program.program().literals(), frames.operand(0))
        }
        _ => 0,
    }
}
