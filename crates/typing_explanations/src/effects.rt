//! How many values an instruction pops and pushes, and by that which instruction pushed a value.

ghost use Rattle.std.specs.Prelude.{◌<◌, IfSome};

use crate::expected::Scene;
use resolved_code::operations::Operation;
use source_positions::cil_model::instructions::BranchCondition;
use source_positions::name_tables::ids::MethodId;

/// The number of values that an instruction pops whose operands are not declared types.
fn count_popped(operation: &Operation) -> usize {
    match operation {
        Operation::Duplicate
        | Operation::Pop
        | Operation::Unary(_)
        | Operation::ConvertInt32
        | Operation::ConvertInt64
        | Operation::Branch(BranchCondition::IfTrue | BranchCondition::IfFalse, _)
        | Operation::Switch(_)
        | Operation::NewArray(_)
        | Operation::LoadLength
        | Operation::CastClass(_)
        | Operation::IsInstance(_) => 1,
        Operation::Binary(_)
        | Operation::Shift(_)
        | Operation::Compare(_)
        | Operation::Branch(BranchCondition::Compare(_), _)
        | Operation::LoadElement(_) => 2,
        Operation::StoreElement(_) => 3,
        _ => 0,
    }
}

/// The number of values that a call pushes.
fn count_returned(returns: bool) -> usize {
    if returns { 1 } else { 0 }
}

/// Whether control never continues with the next instruction.
fn is_jump(operation: &Operation) -> bool {
    matches!(
        operation,
        Operation::Branch(BranchCondition::Always, _) | Operation::Return
    )
}

impl Scene<'_> {
    /// The number of values that an instruction pops.
    pub fn pops(&self, operation: &Operation) -> usize {
        match self.declared_type(operation) {
            None => count_popped(operation),
            Some((None, others)) => others.len(),
            Some((Some(_), others)) => others.len().saturating_add(1),
        }
    }

    /// Whether a method returns a value.
    fn returns(&self, method: MethodId) -> bool {
        match self.program.method(method) {
            None => false,
            Some(method) => method.return_type.is_some(),
        }
    }

    /// The number of values that an instruction pushes.
    fn pushes(&self, operation: &Operation) -> usize {
        match operation {
            Operation::Call { method, .. } | Operation::CallVirtual { method, .. } => {
                count_returned(self.returns(*method))
            }
            Operation::Duplicate => 2,
            Operation::NoOperation
            | Operation::Pop
            | Operation::StoreArgument(_)
            | Operation::StoreLocal(_)
            | Operation::StoreField { .. }
            | Operation::StoreStaticField(_)
            | Operation::StoreElement(_)
            | Operation::Branch(..)
            | Operation::Switch(_)
            | Operation::Return => 0,
            _ => 1,
        }
    }

    /// The index of the instruction that pushed a value of the stack before another instruction, by the number of values above it. It is
    /// looked for along the instructions before that one; None where control does not come from them.
    pub fn pusher(&self, instruction: usize, above: usize) -> Option<usize>
        ensures { IfSome result (λ index. index < instruction) }
    {
        let mut depth = above;
        for distance in 0..instruction {
            let index = instruction.checked_sub(distance)?.checked_sub(1)?;
            let operation = self.operations.get(index)?;
            if is_jump(operation) {
                return None;
            }
            let pushed = self.pushes(operation);
            if depth < pushed {
                return Some(index);
            }
            depth = (depth - pushed).saturating_add(self.pops(operation));
        }
        None
    }

    /// Whether the instruction before another one calls a method that returns nothing.
    pub fn is_after_void_call(&self, instruction: usize) -> bool {
        let before = match instruction.checked_sub(1) {
            None => None,
            Some(index) => self.operations.get(index),
        };
        match before {
            Some(Operation::Call { method, .. } | Operation::CallVirtual { method, .. }) => {
                !self.returns(*method)
            }
            _ => false,
        }
    }
}
