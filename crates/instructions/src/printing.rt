//! `Console.WriteLine`.

ghost use Rattle.std.specs.Prelude.{◌≡◌, ◌++◌, ◌∷◌, [], if◌then◌else◌, is_ok, IsSome, Some, IfOk, OnOk, OnErr, option_map};
ghost use Rattle.std.specs.Fmt.{signed_decimal};
ghost use Rattle.instructions.specs.BuiltInTransitions.{write_transition, line_of, text_at};

use crate::control::advance;
use cil_model::memory::NoMemory;
use cil_model::texts::Text;
use itoa::Buffer;
use object_memory::{Addr, Value};
use threads_monitors::{Effect, FrameMemory};

/// Appends bytes and a line end. `NoMemory` changes nothing.
fn print_line(console: &mut Vec<u8>, line: &[u8]) -> Result<(), NoMemory>
    ensures { console.new.items ≡ (if is_ok result then console.old.items ++ (line.now ++ 10 ∷ []) else console.old.items) }
{
    console.reserve(line.len() + 1)?;
    console.extend_from_slice(line)?;
    console.push_reserved(b'\n');
    Ok(())
}

/// Appends a number in decimal digits and a line end. `NoMemory` changes nothing.
fn print_number(console: &mut Vec<u8>, number: i64) -> Result<(), NoMemory>
    ensures { console.new.items ≡ (if is_ok result then console.old.items ++ (signed_decimal number ++ 10 ∷ []) else console.old.items) }
{
    let mut buffer = Buffer::new();
    print_line(console, buffer.format(number).as_bytes())
}

/// A literal's characters, or nothing for null.
fn text_at<'a>(literals: &'a [Text], address: Addr) -> &'a str
    requires { IsSome (text_at literals.now address) }
    ensures { text_at literals.now address ≡ Some result.now }
{
    match address.literal_number() {
        Some(number) => literals[number as usize].as_str(),
        None => "",
    }
}

/// Appends the line of a value. `NoMemory` changes nothing.
fn print(console: &mut Vec<u8>, literals: &[Text], value: Value) -> Result<(), NoMemory>
    requires { IsSome (line_of literals.now value) }
    ensures printed { OnOk result (Some console.new.items ≡ option_map (λ line. console.old.items ++ line) (line_of literals.now value)) }
    ensures refused { OnErr result (console.new.items ≡ console.old.items) }
{
    match value {
        Value::Int32(number) => print_number(console, i64::from(number)),
        Value::Int64(number) => print_number(console, number),
        Value::Ref(address) => print_line(console, text_at(literals, address).as_bytes()),
        Value::Native(_) => unreachable!(),
    }
}

/// `Console.WriteLine` (ECMA-335 Partition IV): an integer in decimal digits, a literal's characters, or nothing for null; then a
/// line end. `NoMemory` where the console can't grow; nothing is changed then.
pub fn write(
    frames: &mut FrameMemory,
    console: &mut Vec<u8>,
    literals: &[Text],
) -> Result<Effect, NoMemory>
    requires { IsSome (write_transition literals.now console.old.items frames.old) }
    ensures written { IfOk result (λ effect. Some (frames.new, console.new.items, effect) ≡ write_transition literals.now console.old.items frames.old) }
    ensures refused { OnErr result ((frames.new ≡ frames.old) × (console.new.items ≡ console.old.items)) }
{
    print(console, literals, frames.operand(0))?;
    frames.pop();
    Ok(advance(frames))
}
