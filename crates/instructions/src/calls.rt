//! Calls of methods with code.

ghost use Rattle.std.specs.Prelude.{◌≡◌, ◌<◌, ◌+◌, length, IsSome, Some};
ghost use Rattle.instructions.specs.Calls.{call_of, call_transition, construct_transition};

use cil_model::reports::Fault;
use object_memory::{Addr, Value, ValueKind};
use threads_monitors::{Effect, FrameMemory};

/// A method that is called: its number, how many arguments it has, `this` counted, and the kinds of its locals.
#[derive(Clone, Copy)]
pub struct Callee<'a> {
    pub method: u32,
    pub arguments: usize,
    pub locals: &'a [ValueKind],
}

/// `call` of a method with code (ECMA-335 III.3.19), and `callvirt` of the one that was chosen. Where the number of frames is at its limit, it raises
/// `StackOverflow`. It takes no memory.
pub fn call(frames: &mut FrameMemory, callee: Callee) -> Effect
    requires { IsSome (call_transition (call_of callee) frames.old) }
    ensures { Some (frames.new, result) ≡ call_transition (call_of callee.entry) frames.old }
{
    if frames.is_full() {
        return Effect::Raises(Fault::StackOverflow);
    }
    frames.set_pc(frames.pc() + 1);
    frames.push_frame(callee.method, callee.arguments, callee.locals, None);
    Effect::Continues
}

/// The constructor's frame of `newobj` (ECMA-335 III.4.21) for an object that was born: the object is its first argument, and
/// is pushed at its end. There are fewer frames than there may be. It takes no memory.
pub fn construct(frames: &mut FrameMemory, callee: Callee, object: Addr) -> Effect
    requires { IsSome (construct_transition (call_of callee) object frames.old) }
    ensures { Some (frames.new, result) ≡ construct_transition (call_of callee.entry) object frames.old }
{
    frames.insert(callee.arguments - 1, Value::Ref(object));
    frames.set_pc(frames.pc() + 1);
    frames.push_frame(callee.method, callee.arguments, callee.locals, Some(object));
    Effect::Continues
}
