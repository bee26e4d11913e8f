//! Calls of methods, and constructors (ECMA-335 III.3.19, III.3.57, III.4.2 and III.4.21).

use crate::built_in::action_of;
use crate::classes::Found;
use crate::effects::{Done, Effect, Halt};
use crate::frames::Frame;
use crate::state::State;
use crate::values::Value;
use cil_model::instructions::MethodReference;
use cil_model::reports::Fault;
use cil_model::texts::Text;
use cil_model::types::{ClassName, DeclaredType, Signature};
use name_tables::kinds::is_virtual;

impl<'a> State<'a> {
    /// `call`.
    pub fn call(
        &mut self,
        frame: &mut Frame<'a>,
        is_instance: bool,
        reference: &MethodReference,
    ) -> Done {
        let parameters = reference.signature.parameters.as_slice();
        let found = self.names.tables.find_method(is_instance, reference);
        let callee = self.names.method_at(found)?;
        frame.check_operands(parameters)?;
        let count = parameters.len().saturating_add(usize::from(is_instance));
        self.run_method(frame, callee, count)
    }

    /// `callvirt`: the method that the object's class says, or that very one where it is not virtual.
    pub fn call_virtual(
        &mut self,
        frame: &mut Frame<'a>,
        owner: &ClassName,
        name: &Text,
        signature: &Signature,
    ) -> Done {
        let parameters = signature.parameters.as_slice();
        let found = self.names.tables.find_virtual(owner, name, signature);
        let called = self.names.method_at(found)?;
        frame.check_operands(parameters)?;
        let this = frame.below_top(parameters.len())?;
        let object = this.not_null(Fault::NullReference)?;
        let callee = if is_virtual(&called.method.kind) {
            self.names.target(self.heap.class_of(object)?, called)?
        } else {
            called
        };
        self.run_method(frame, callee, parameters.len().saturating_add(1))
    }

    /// Runs a method on this number of operands: an action of its own, or a frame within the depth.
    fn run_method(&mut self, frame: &mut Frame<'a>, found: Found<'a>, count: usize) -> Done {
        if let Some(action) = action_of(self.names, found) {
            return self.act(frame, action);
        }
        self.transition.check_depth(self.limits)?;
        let arguments = frame.take(count)?;
        self.callee = Some(self.frame_of(found, arguments)?);
        Ok(Effect::Call)
    }

    /// `newobj`: a new object, at once where the constructor is built in, otherwise at the end of its frame.
    pub fn new_object(
        &mut self,
        frame: &mut Frame<'a>,
        class: &ClassName,
        parameters: &[DeclaredType],
    ) -> Done {
        let found = self.names.tables.find_constructor(class, parameters);
        let constructor = self.names.method_at(found)?;
        frame.check_operands(parameters)?;
        if action_of(self.names, constructor).is_some() {
            let object = self.new_instance(constructor.class())?;
            return frame.next_with(Value::Reference(object));
        }
        self.transition.check_depth(self.limits)?;
        let object = self.new_instance(constructor.class())?;
        let mut arguments = frame.take(parameters.len())?;
        arguments.insert(0, Value::Reference(object))?;
        let mut callee = self.frame_of(constructor, arguments)?;
        callee.constructed = Some(object);
        self.callee = Some(callee);
        Ok(Effect::Call)
    }
}

/// `ret`: back with the method's value, or with the object that it constructed.
pub fn return_from(frame: &mut Frame<'_>) -> Done {
    if let Some(object) = frame.constructed {
        return Ok(Effect::Return(Some(Value::Reference(object))));
    }
    let Some(t) = &frame.method.signature.return_type else {
        return Ok(Effect::Return(None));
    };
    let value = frame.pop()?;
    if value.has_same_kind(Value::zero_of(t)) {
        Ok(Effect::Return(Some(value)))
    } else {
        Err(Halt::Sticks)
    }
}
