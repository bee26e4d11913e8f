//! The state of a run, with the program that it is of.

use crate::classes::Found;
use crate::effects::Halt;
use crate::frames::Frame;
use crate::heap::{FieldValue, Heap};
use crate::names::OracleNames;
use crate::values::Value;
use cil_model::limits::Limits;
use cil_model::reports::{End, Fault};
use name_tables::bodies::code_of;
use name_tables::ids::{ClassId, FieldId};
use std::alloc::Global;
use std::fmt;

/// A thread: its frames, the running one last, the steps of its budget that are left, and its end.
#[derive(Drop)]
pub struct OracleThread<'a> {
    pub frames: Vec<Frame<'a>>,
    pub steps_left: u32,
    pub ended: Option<End>,
}

/// A step that is being made: of which thread, how many frames it has, and whether a birth is refused.
#[derive(Clone, Copy)]
pub struct OracleStep {
    pub thread: usize,
    pub depth: usize,
    pub is_refused: bool,
}

impl OracleStep {
    /// A birth may be refused.
    pub fn check_birth(self) -> Result<(), Halt> {
        if self.is_refused {
            Err(Halt::Raises(Fault::OutOfMemory))
        } else {
            Ok(())
        }
    }

    /// The thread may have no frame beyond the depth.
    pub fn check_depth(self, limits: Limits) -> Result<(), Halt> {
        if self.depth < limits.depth as usize {
            Ok(())
        } else {
            Err(Halt::Raises(Fault::StackOverflow))
        }
    }
}

/// All that a run changes. `callee` is the frame of a method that an instruction has just called.
pub struct State<'a> {
    pub alloc: Global,
    pub names: &'a OracleNames<'a>,
    pub limits: Limits,
    pub heap: Heap<'a>,
    pub statics: Vec<FieldValue>,
    pub threads: Vec<OracleThread<'a>>,
    pub callee: Option<Frame<'a>>,
    pub console: String,
    pub transition: OracleStep,
}

/// Each part is dropped.
impl Drop for State<'_> {
    fn drop(self) {
        let State {
            alloc: _alloc,
            names: _names,
            limits: _limits,
            heap: _heap,
            statics: _statics,
            threads: _threads,
            callee: _callee,
            console: _console,
            transition: _transition,
        } = self;
    }
}

impl<'a> State<'a> {
    /// The state before the first thread: no object was born, and nothing printed.
    pub fn new(alloc: Global, names: &'a OracleNames<'a>, limits: Limits) -> Self {
        State {
            alloc,
            names,
            limits,
            heap: Heap::new(alloc),
            statics: Vec::new(alloc),
            threads: Vec::new(alloc),
            callee: None,
            console: String::new(alloc),
            transition: OracleStep {
                thread: 0,
                depth: 0,
                is_refused: false,
            },
        }
    }

    /// Makes the static fields of all classes (ECMA-335 II.16), and the thread that runs the entry point.
    pub fn open(&mut self, entry: Found<'a>) -> Result<(), Halt> {
        let mut statics = Vec::new(self.alloc);
        for class in 0..self.names.tables.classes.all().len() {
            self.add_fields(&mut statics, ClassId::new(class), true)?;
        }
        self.statics = statics;
        let first = self.frame_of(entry, Vec::new(self.alloc))?;
        self.begin(first)
    }

    /// Adds the static or the instance fields that a class itself declares, with zero or null in them.
    pub fn add_fields(
        &self,
        fields: &mut Vec<FieldValue>,
        class: ClassId,
        is_static: bool,
    ) -> Result<(), Halt> {
        let Some(declared) = self.names.source_class(class) else {
            return Ok(());
        };
        for (index, field) in declared.fields.iter().enumerate() {
            if field.is_static == is_static {
                fields.push(FieldValue {
                    field: FieldId { class, index },
                    value: Value::zero_of(&field.field_type),
                })?;
            }
        }
        Ok(())
    }

    /// The frame of a method with code.
    pub fn frame_of(&self, found: Found<'a>, arguments: Vec<Value>) -> Result<Frame<'a>, Halt> {
        match code_of(&found.method.kind) {
            None => Err(Halt::Sticks),
            Some(code) => Frame::new(self.alloc, found.method, code, arguments),
        }
    }

    /// One more thread, with its whole budget.
    pub fn begin(&mut self, first: Frame<'a>) -> Result<(), Halt> {
        let frames = vec![in self.alloc; first]?;
        self.threads.push(OracleThread {
            frames,
            steps_left: self.limits.budget,
            ended: None,
        })?;
        Ok(())
    }

    /// Whether the thread was started and has not ended.
    pub fn is_live(&self, thread: usize) -> bool {
        match self.threads.get(thread) {
            None => false,
            Some(thread) => thread.ended.is_none(),
        }
    }
}

/// The end or the steps that are left, and the frames from the running one down.
impl fmt::Display for OracleThread<'_> {
    fn fmt<W: fmt::Write>(&self, f: &mut fmt::Formatter<W>) -> fmt::Result {
        let left = self.steps_left;
        match self.ended {
            None => write!(f, "{left} steps left")?,
            Some(end) => write!(f, "{end:?}")?,
        }
        for frame in self.frames.iter().rev() {
            write!(f, ", {frame}")?;
        }
        Ok(())
    }
}
