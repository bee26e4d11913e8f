//! Calls of built-in members: one event, and no frame (ECMA-335 Partition IV; Cilvm.Thread is this profile's).

use crate::classes::{Found, name_of};
use crate::effects::{Done, Effect, Halt};
use crate::frames::Frame;
use crate::heap::Monitor;
use crate::names::OracleNames;
use crate::state::State;
use crate::values::Value;
use cil_model::limits::MOST_THREADS;
use cil_model::reports::Fault;

/// What a member without code does.
#[derive(Clone, Copy)]
pub enum Action {
    Construct,
    Write,
    Enter,
    Exit,
    Start,
    Join,
}

/// What a method does; none where it has code of its own. Built-in methods of one name do the same.
pub fn action_of(names: &OracleNames<'_>, found: Found<'_>) -> Option<Action> {
    names.built_in_name(found.class())?;
    match name_of(found.method) {
        ".ctor" => Some(Action::Construct),
        "WriteLine" => Some(Action::Write),
        "Enter" => Some(Action::Enter),
        "Exit" => Some(Action::Exit),
        "Start" => Some(Action::Start),
        "Join" => Some(Action::Join),
        _ => None,
    }
}

impl<'a> State<'a> {
    /// Does the action on the one operand that each has. A blocked one leaves it on the stack.
    pub fn act(&mut self, frame: &mut Frame<'a>, action: Action) -> Done {
        let operand = frame.top()?;
        let done = match action {
            Action::Construct => Ok(()),
            Action::Write => self.write_line(operand),
            Action::Enter => self.enter(operand),
            Action::Exit => self.exit(operand),
            Action::Start => self.start(operand),
            Action::Join => self.join(operand),
        };
        done?;
        frame.pop()?;
        Ok(Effect::Next)
    }

    /// Prints a number in decimal digits, or a literal's characters, or nothing for null; then a line end.
    fn write_line(&mut self, value: Value) -> Result<(), Halt> {
        match value {
            Value::Int32(number) => write!(self.console, "{number}")?,
            Value::Int64(number) => write!(self.console, "{number}")?,
            Value::Null => {}
            Value::Reference(name) => {
                let characters = self.heap.characters(name)?;
                self.console.push_str(characters.as_str())?;
            }
            Value::Native(_) => return Err(Halt::Sticks),
        }
        self.console.push('\n')?;
        Ok(())
    }

    /// A monitor that is free or the thread's own is entered once more; another's blocks (ECMA-335 I.12.6.5).
    fn enter(&mut self, operand: Value) -> Result<(), Halt> {
        let name = operand.not_null(Fault::ArgumentNull)?;
        let own = self.transition.thread;
        let monitor = &mut self.heap.object_mut(name)?.monitor;
        let count = match *monitor {
            Monitor::Free => 1,
            Monitor::Held { owner, count } if owner == own => count.saturating_add(1),
            Monitor::Held { .. } => return Err(Halt::Blocks),
        };
        *monitor = Monitor::Held { owner: own, count };
        Ok(())
    }

    /// The owner leaves a monitor once; no other thread may.
    fn exit(&mut self, operand: Value) -> Result<(), Halt> {
        let name = operand.not_null(Fault::ArgumentNull)?;
        let own = self.transition.thread;
        let monitor = &mut self.heap.object_mut(name)?.monitor;
        *monitor = match *monitor {
            Monitor::Held { owner, count } if owner == own && count > 1 => Monitor::Held {
                owner,
                count: count - 1,
            },
            Monitor::Held { owner, .. } if owner == own => Monitor::Free,
            _ => return Err(Halt::Raises(Fault::SynchronizationLock)),
        };
        Ok(())
    }

    /// A new thread, at the beginning of the object's `Run` with its whole budget.
    fn start(&mut self, operand: Value) -> Result<(), Halt> {
        let name = operand.not_null(Fault::NullReference)?;
        let run = self.names.run_method(self.heap.class_of(name)?)?;
        if self.heap.object(name)?.thread.is_some() {
            return Err(Halt::Raises(Fault::ThreadState));
        }
        let number = self.threads.len();
        if number >= MOST_THREADS {
            return Err(Halt::Raises(Fault::TooManyThreads));
        }
        let arguments = vec![in self.alloc; Value::Reference(name)]?;
        let first = self.frame_of(run, arguments)?;
        self.begin(first)?;
        self.heap.object_mut(name)?.thread = Some(number);
        Ok(())
    }

    /// Waits while the object's thread is live.
    fn join(&mut self, operand: Value) -> Result<(), Halt> {
        let name = operand.not_null(Fault::NullReference)?;
        match self.heap.object(name)?.thread {
            None => Err(Halt::Raises(Fault::ThreadState)),
            Some(thread) if self.is_live(thread) => Err(Halt::Blocks),
            Some(_) => Ok(()),
        }
    }
}
