//! Returns.

ghost use Rattle.std.specs.Prelude.{◌≡◌, IsSome, Some};
ghost use Rattle.instructions.specs.Calls.{return_to_caller, return_transition};

use object_memory::Value;
use threads_monitors::{Effect, FrameMemory};

/// Gives a value, or none, to the frame below, which runs again. Without one below the thread's first method has returned.
fn give(frames: &mut FrameMemory, value: Option<Value>) -> Effect
    requires { IsSome (return_to_caller value frames.old) }
    ensures { Some (frames.new, result) ≡ return_to_caller value frames.old }
{
    if frames.is_first() {
        return Effect::Returns;
    }
    frames.pop_frame();
    if let Some(value) = value {
        frames.push(value);
    }
    Effect::Continues
}

/// `ret` (ECMA-335 III.3.57), of a method that returns a value or none. A constructor that `newobj` runs gives the object that it
/// made. It takes no memory.
pub fn return_from(frames: &mut FrameMemory, has_value: bool) -> Effect
    requires { IsSome (return_transition has_value frames.old) }
    ensures { Some (frames.new, result) ≡ return_transition has_value frames.old }
{
    if let Some(object) = frames.constructed_object() {
        return give(frames, Some(Value::Ref(object)));
    }
    if has_value {
        let value = frames.pop();
        return give(frames, Some(value));
    }
    give(frames, None)
}
