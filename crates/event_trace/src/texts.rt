//! The texts of one thread's report.

use crate::lines::InstructionColumn;
use crate::owned_methods::{InstructionPosition, Owner};
use std::fmt;

/// An object, by its class. None of an array.
#[derive(Clone, Copy)]
pub struct ObjectText<'a>(pub Option<Owner<'a>>);

impl<'a> fmt::Display for ObjectText<'a> {
    ghost use Rattle.std.specs.Prelude.{Some, option_map};
    ghost use Rattle.event_trace.specs.MethodPositions.{owner_name};
    ghost use Rattle.event_trace.specs.Texts.{object_text};

    ghost output = { λ text. Some (object_text (option_map owner_name text.0)) };

    fn fmt<W: fmt::Write>(&self, f: &mut fmt::Formatter<W>) -> fmt::Result {
        match self.0 {
            None => write!(f, "an array"),
            Some(class) => write!(f, "an object of {class}"),
        }
    }
}

/// A thread that holds a monitor, as `thread 1` or `thread 1, which has ended`.
#[derive(Clone, Copy)]
pub struct OwnerText {
    /// The number of the thread.
    pub thread: u8,
    /// Whether the thread has not ended.
    pub is_live: bool,
}

impl fmt::Display for OwnerText {
    ghost use Rattle.std.specs.Prelude.{Some};
    ghost use Rattle.event_trace.specs.Texts.{owner_text};

    ghost output = { λ owner. Some (owner_text owner.thread owner.is_live) };

    fn fmt<W: fmt::Write>(&self, f: &mut fmt::Formatter<W>) -> fmt::Result {
        if self.is_live {
            write!(f, "thread {}", self.thread)
        } else {
            write!(f, "thread {}, which has ended", self.thread)
        }
    }
}

/// What a thread waits for.
#[derive(Clone, Copy)]
pub enum AwaitedText<'a> {
    /// A monitor that another thread holds.
    Monitor {
        /// The monitor's object.
        object: ObjectText<'a>,
        /// The thread that holds it.
        owner: OwnerText,
    },
    /// The end of a thread.
    End {
        /// The number of the thread.
        thread: u8,
    },
}

impl<'a> fmt::Display for AwaitedText<'a> {
    ghost use Rattle.std.specs.Prelude.{Some};
    ghost use Rattle.event_trace.specs.Texts.{awaited_text};

    ghost output = { λ text. Some (awaited_text text) };

    fn fmt<W: fmt::Write>(&self, f: &mut fmt::Formatter<W>) -> fmt::Result {
        match self {
            AwaitedText::Monitor { object, owner } => {
                write!(f, "the monitor of {object}, held by {owner}")
            }
            AwaitedText::End { thread } => write!(f, "the end of thread {thread}"),
        }
    }
}

/// Where a live thread is, and what it waits for: a line.
#[derive(Clone, Copy)]
pub(crate) struct ThreadLine<'a> {
    pub(crate) thread: u8,
    pub(crate) at: Option<InstructionPosition<'a>>,
    pub(crate) awaited: Option<AwaitedText<'a>>,
}

impl<'a> fmt::Display for ThreadLine<'a> {
    ghost use Rattle.std.specs.Prelude.{Some, option_map};
    ghost use Rattle.event_trace.specs.Lines.{method_and_pc};
    ghost use Rattle.event_trace.specs.Texts.{awaited_text, thread_line};

    ghost output = { λ line. Some (thread_line line.thread (option_map method_and_pc line.at) (option_map awaited_text line.awaited)) };

    fn fmt<W: fmt::Write>(&self, f: &mut fmt::Formatter<W>) -> fmt::Result {
        let at = InstructionColumn(self.at);
        match self.awaited {
            None => writeln!(f, "thread {} is at {at}", self.thread),
            Some(awaited) => writeln!(
                f,
                "thread {} is at {at}, and waits for {awaited}",
                self.thread
            ),
        }
    }
}
