//! What the built-in members without code do (ECMA-335 Partition IV; Cilvm.Thread is this profile's).

ghost use Rattle.std.specs.Prelude.{◌≡◌, Some, option_map};
ghost use Rattle.cil_model.specs.declared.types.ClassName.{ClassName};
ghost use Rattle.cil_model.specs.declared.trees.Method.{Method};
ghost use Rattle.cil_model.specs.declared.trees.Tree.{Tree};
ghost use Rattle.name_tables.specs.Numbers.{method_at};
ghost use Rattle.reference_machine.specs.BuiltIn.{action_of};
ghost use Rattle.loaded_program.specs.LocalKinds.{action_named};
ghost use Rattle.name_tables.specs.declared.ids.TheConstants.{MONITOR_NUMBER, THREAD_NUMBER};

use name_tables::ids::{CONSOLE, MONITOR, MethodId, OBJECT, THREAD};

/// What a call of a built-in member without code does, in place of a frame.
#[derive(Clone, Copy)]
pub enum Action {
    /// The constructors of `System.Object` and `Cilvm.Thread`, which do nothing.
    Construct,
    /// `System.Console::WriteLine`, of each of its three types.
    Write,
    /// `System.Threading.Monitor::Enter`
    Enter,
    /// `System.Threading.Monitor::Exit`
    Exit,
    /// `Cilvm.Thread::Start`
    Start,
    /// `Cilvm.Thread::Join`
    Join,
}

fn monitor_action(index: usize) -> Option<Action>
    ensures { (tree : Tree) (c : ClassName) (m : Method) → method_at tree (MONITOR_NUMBER, index) ≡ Some (c, m) → option_map action_named result ≡ action_of c m }
{
    match index {
        0 => Some(Action::Enter),
        1 => Some(Action::Exit),
        _ => None,
    }
}

fn thread_action(index: usize) -> Option<Action>
    ensures { (tree : Tree) (c : ClassName) (m : Method) → method_at tree (THREAD_NUMBER, index) ≡ Some (c, m) → option_map action_named result ≡ action_of c m }
{
    match index {
        0 => Some(Action::Construct),
        2 => Some(Action::Start),
        3 => Some(Action::Join),
        _ => None,
    }
}

/// What a call of a method does, by its id: the built-in classes and their members have fixed ones. None for a method with code
/// of its own. Where no method has the id, any.
pub(crate) fn action_at(member: MethodId) -> Option<Action>
    ensures { (tree : Tree) (c : ClassName) (m : Method) → method_at tree (member.class, member.index) ≡ Some (c, m) → option_map action_named result ≡ action_of c m }
{
    let class = member.class;
    if class == OBJECT {
        Some(Action::Construct)
    } else if class == CONSOLE {
        Some(Action::Write)
    } else if class == MONITOR {
        monitor_action(member.index)
    } else if class == THREAD {
        thread_action(member.index)
    } else {
        None
    }
}
