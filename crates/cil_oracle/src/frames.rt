//! Method states (ECMA-335 I.12.3.2).

use crate::effects::{Done, Effect, Halt};
use crate::heap::set_value;
use crate::values::Value;
use cil_model::instructions::Instruction;
use cil_model::texts::Text;
use cil_model::trees::{Code, Method};
use cil_model::types::DeclaredType;
use instruction_text::InstructionText;
use name_tables::bodies::lines_of;
use std::alloc::Global;
use std::fmt;

/// A method that runs: the pc of its next instruction, and its values. Of a constructor that `newobj` runs, the object to
/// push at its end.
pub struct Frame<'a> {
    pub method: &'a Method,
    pub pc: usize,
    pub arguments: Vec<Value>,
    pub locals: Vec<Value>,
    pub stack: Vec<Value>,
    pub constructed: Option<usize>,
}

/// Each list gives back its own.
impl Drop for Frame<'_> {
    fn drop(self) {
        let Frame {
            method: _method,
            pc: _pc,
            arguments: _arguments,
            locals: _locals,
            stack: _stack,
            constructed: _constructed,
        } = self;
    }
}

impl<'a> Frame<'a> {
    /// The frame at the beginning of a method with that code; its locals are zero or null.
    pub fn new(
        alloc: Global,
        method: &'a Method,
        code: &Code,
        arguments: Vec<Value>,
    ) -> Result<Self, Halt> {
        let mut frame = Frame {
            method,
            pc: 0,
            arguments,
            locals: Vec::new(alloc),
            stack: Vec::new(alloc),
            constructed: None,
        };
        for local in code.locals.as_slice() {
            frame.locals.push(Value::zero_of(local))?;
        }
        Ok(frame)
    }

    /// The instruction at which the frame is.
    pub fn instruction(&self) -> Option<&'a Instruction> {
        Some(&lines_of(self.method).get(self.pc)?.instruction)
    }

    /// On to the instruction of a label.
    pub fn jump(&self, label: &Text) -> Done {
        let lines = lines_of(self.method);
        for (pc, line) in lines.iter().enumerate() {
            for other in line.labels.as_slice() {
                if other.is_same(label) {
                    return Ok(Effect::Jump(pc));
                }
            }
        }
        Err(Halt::Sticks)
    }

    /// There where the test has this result, otherwise to the next instruction.
    pub fn jump_if(&self, test: Result<bool, Halt>, is_taken: bool, label: &Text) -> Done {
        if test? == is_taken {
            self.jump(label)
        } else {
            Ok(Effect::Next)
        }
    }

    /// Takes the value on top of the stack. An empty stack sticks.
    pub fn pop(&mut self) -> Result<Value, Halt> {
        self.stack.pop().ok_or(Halt::Sticks)
    }

    /// The value on top of the stack.
    pub fn top(&self) -> Result<Value, Halt> {
        self.stack.last().copied().ok_or(Halt::Sticks)
    }

    /// The value below `count` others.
    pub fn below_top(&self, count: usize) -> Result<Value, Halt> {
        let above = count.saturating_add(1);
        match self.stack.len().checked_sub(above) {
            None => Err(Halt::Sticks),
            Some(index) => self.stack.get(index).copied().ok_or(Halt::Sticks),
        }
    }

    /// The topmost values have to be of the kinds of these types.
    pub fn check_operands(&self, types: &[DeclaredType]) -> Result<(), Halt> {
        for (above, t) in types.iter().rev().enumerate() {
            if !self.below_top(above)?.has_same_kind(Value::zero_of(t)) {
                return Err(Halt::Sticks);
            }
        }
        Ok(())
    }

    /// On to the next instruction, with a value on the stack.
    pub fn next_with(&mut self, value: Value) -> Done {
        self.stack.push(value)?;
        Ok(Effect::Next)
    }

    /// The same with a value that was computed, or that is none.
    pub fn next_with_result(&mut self, value: Result<Value, Halt>) -> Done {
        self.next_with(value?)
    }

    /// Takes `count` values off the stack, the first pushed first.
    pub fn take(&mut self, count: usize) -> Result<Vec<Value>, Halt> {
        let height = self.stack.len();
        if count > height {
            return Err(Halt::Sticks);
        }
        Ok(self.stack.split_off(height - count)?)
    }
}

/// On to the next instruction with another value of its kind at an index.
pub fn next_stored(values: &mut [Value], index: i64, value: Value) -> Done {
    match usize::try_from(index) {
        Err(_) => Err(Halt::Sticks),
        Ok(index) => {
            set_value(values, index, value)?;
            Ok(Effect::Next)
        }
    }
}

/// The value at an index.
pub fn value_at(values: &[Value], index: i64) -> Result<Value, Halt> {
    match usize::try_from(index) {
        Err(_) => Err(Halt::Sticks),
        Ok(index) => values.get(index).copied().ok_or(Halt::Sticks),
    }
}

/// `4: add [Int32(2), Int32(3)]`: the pc, the instruction there, and the stack up to its top.
impl fmt::Display for Frame<'_> {
    fn fmt<W: fmt::Write>(&self, f: &mut fmt::Formatter<W>) -> fmt::Result {
        let pc = self.pc;
        let stack = self.stack.as_slice();
        match self.instruction() {
            None => write!(f, "{pc}: {stack:?}"),
            Some(instruction) => write!(f, "{pc}: {} {stack:?}", InstructionText(instruction)),
        }
    }
}
