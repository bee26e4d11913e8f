//! What each instruction does (ECMA-335 III.3 and III.4).

use crate::arithmetic::{binary, compare, is_set, is_taken, shift, to_int32, to_int64, unary};
use crate::calls::return_from;
use crate::effects::{Done, Effect, Halt};
use crate::frames::{Frame, next_stored, value_at};
use crate::state::State;
use crate::values::Value;
use cil_model::instructions::{BranchCondition, Instruction};

impl<'a> State<'a> {
    /// Does the instruction at which a frame is.
    pub fn execute(&mut self, frame: &mut Frame<'a>) -> Done {
        let instruction = frame.instruction().ok_or(Halt::Sticks)?;
        match instruction {
            Instruction::LoadString(characters) => {
                let literal = self.heap.literal(characters)?;
                frame.next_with(Value::Reference(literal))
            }
            Instruction::Call {
                is_instance,
                method,
            } => self.call(frame, *is_instance, method),
            Instruction::CallVirtual {
                owner,
                name,
                signature,
            } => self.call_virtual(frame, owner, name, signature),
            Instruction::NewObject(class, parameters) => {
                self.new_object(frame, class, parameters.as_slice())
            }
            Instruction::NewArray(t) => self.new_array(frame, t),
            Instruction::LoadLength => self.load_length(frame),
            Instruction::CastClass(t) => self.cast_class(frame, t),
            Instruction::IsInstance(t) => self.is_instance(frame, t),
            _ => self.execute_on_variables(frame, instruction),
        }
    }

    /// The loads and stores of fields and elements.
    fn execute_on_variables(
        &mut self,
        frame: &mut Frame<'a>,
        instruction: &'a Instruction,
    ) -> Done {
        match instruction {
            Instruction::LoadField(field) => self.load_field(frame, field),
            Instruction::StoreField(field) => self.store_field(frame, field),
            Instruction::LoadStaticField(field) => self.load_static(frame, field),
            Instruction::StoreStaticField(field) => self.store_static(frame, field),
            Instruction::LoadElement(kind) => self.load_element(frame, *kind),
            Instruction::StoreElement(kind) => self.store_element(frame, *kind),
            _ => execute_in_frame(frame, instruction),
        }
    }
}

/// The instructions on what a frame holds alone.
fn execute_in_frame(frame: &mut Frame<'_>, instruction: &Instruction) -> Done {
    match instruction {
        Instruction::NoOperation => Ok(Effect::Next),
        Instruction::LoadInt32(number) => frame.next_with(Value::Int32(*number)),
        Instruction::LoadInt64(number) => frame.next_with(Value::Int64(*number)),
        Instruction::LoadNull => frame.next_with(Value::Null),
        Instruction::LoadArgument(index) => {
            let value = value_at(frame.arguments.as_slice(), *index);
            frame.next_with_result(value)
        }
        Instruction::LoadLocal(index) => {
            let value = value_at(frame.locals.as_slice(), *index);
            frame.next_with_result(value)
        }
        Instruction::StoreArgument(index) => {
            let value = frame.pop()?;
            next_stored(frame.arguments.as_mut_slice(), *index, value)
        }
        Instruction::StoreLocal(index) => {
            let value = frame.pop()?;
            next_stored(frame.locals.as_mut_slice(), *index, value)
        }
        Instruction::Duplicate => {
            let value = frame.top();
            frame.next_with_result(value)
        }
        Instruction::Pop => {
            frame.pop()?;
            Ok(Effect::Next)
        }
        Instruction::Return => return_from(frame),
        _ => execute_on_operands(frame, instruction),
    }
}

/// Operations on the topmost values, and branches.
fn execute_on_operands(frame: &mut Frame<'_>, instruction: &Instruction) -> Done {
    if let Instruction::Branch(BranchCondition::Always, label) = instruction {
        return frame.jump(label);
    }
    let last = frame.pop()?;
    match instruction {
        Instruction::Unary(op) => frame.next_with_result(unary(*op, last)),
        Instruction::ConvertInt32 => frame.next_with_result(to_int32(last)),
        Instruction::ConvertInt64 => frame.next_with_result(to_int64(last)),
        Instruction::Branch(BranchCondition::IfTrue, label) => frame.jump_if(
            is_set(last),
            true,
            label,
        ),
        Instruction::Branch(BranchCondition::IfFalse, label) => frame.jump_if(
            is_set(last),
            false,
            label,
        ),
        Instruction::Switch(labels) => match last {
            Value::Int32(number) => match labels.as_slice().get(number.cast_unsigned() as usize) {
                None => Ok(Effect::Next),
                Some(label) => frame.jump(label),
            },
            _ => Err(Halt::Sticks),
        },
        _ => execute_on_two(frame, instruction, last),
    }
}

/// Operations on two values.
fn execute_on_two(frame: &mut Frame<'_>, instruction: &Instruction, last: Value) -> Done {
    let first = frame.pop()?;
    match instruction {
        Instruction::Binary(op) => frame.next_with_result(binary(*op, first, last)),
        Instruction::Shift(op) => frame.next_with_result(shift(*op, first, last)),
        Instruction::Compare(op) => frame.next_with_result(compare(*op, first, last)),
        Instruction::Branch(BranchCondition::Compare(op), label) => {
            frame.jump_if(is_taken(*op, first, last), true, label)
        }
        _ => Err(Halt::Sticks),
    }
}
