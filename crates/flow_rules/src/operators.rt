//! Instructions on integers and on what lies topmost, whatever it is (ECMA-335 III.3).

ghost use Rattle.std.specs.Prelude.{◌≡◌, ◌∷◌, Some, option_map};
ghost use Rattle.cil_model.specs.declared.trees.Tree.{Tree};
ghost use Rattle.flow_rules.specs.Flow.{IsAfter, flow_of};
ghost use Rattle.flow_rules.specs.StackTypes.{stack_type, stack_types, type_named};
ghost use Rattle.flow_rules.specs.declared.method_types.MethodTypes.{MethodTypes};
ghost use Rattle.cil_model.specs.FlowRules.{if_allowed};
ghost use Rattle.cil_model.specs.declared.instructions.BinaryOperation.{BinaryOperation};
ghost use Rattle.cil_model.specs.declared.instructions.BranchCondition.TheVariants as conditions;
ghost use Rattle.cil_model.specs.declared.instructions.UnaryOperation.{UnaryOperation};
ghost use Rattle.cil_model.specs.declared.instructions.ShiftOperation.{ShiftOperation};
ghost use Rattle.cil_model.specs.declared.instructions.Instruction.TheVariants as Named;
ghost use Rattle.cil_model.specs.FlowRules.{may_compare, may_branch};
ghost use Rattle.std.specs.Prelude.{List, ℕ};

use crate::entries::{StackEntry, are_comparable, are_integers};
use crate::mismatches::{FlowError, Mismatch};
use crate::type_stack::TypeStack;
use cil_model::instructions::{BranchComparison, BranchCondition, Comparison};
use resolved_code::types::{ResolvedElement, ResolvedType};

/// `int32` on the stack.
pub const INT32: StackEntry = StackEntry::Declared(ResolvedType {
    element: ResolvedElement::Int32,
    brackets: 0,
});

/// `int64` on the stack.
pub const INT64: StackEntry = StackEntry::Declared(ResolvedType {
    element: ResolvedElement::Int64,
    brackets: 0,
});

/// Puts an entry on the stack. The only error is out of memory.
#[tactic(auto, using(crate::proofs::PushedStacks::after_push))]
pub fn put(entry: StackEntry, stack: &mut TypeStack) -> Result<(), FlowError>
    ensures { (tree : Tree) → IsAfter tree result stack.new (Some (stack_type tree entry ∷ stack_types tree stack.old)) }
{
    stack.push(entry)
}

/// Puts an entry on the stack where a test passed.
pub fn put_where(
    is_allowed: bool,
    reason: Mismatch,
    entry: StackEntry,
    stack: &mut TypeStack,
) -> Result<(), FlowError>
    ensures { (tree : Tree) → IsAfter tree result stack.new (if_allowed is_allowed (stack_type tree entry ∷ stack_types tree stack.old)) }
{
    if !is_allowed {
        return Err(FlowError::Mismatch(reason));
    }
    put(entry, stack)
}

/// Leaves the stack as it is where a test passed.
pub fn keep_where(
    is_allowed: bool,
    reason: Mismatch,
    stack: &mut TypeStack,
) -> Result<(), FlowError>
    ensures { (tree : Tree) → IsAfter tree result stack.new (if_allowed is_allowed (stack_types tree stack.old)) }
{
    if !is_allowed {
        return Err(FlowError::Mismatch(reason));
    }
    Ok(())
}

/// `dup`
pub fn duplicate(stack: &mut TypeStack) -> Result<(), FlowError>
    ensures { (m : MethodTypes) → IsAfter m.types.now result stack.new (flow_of m Named.Duplicate stack.old) }
{
    let top = stack.take_one()?;
    stack.push(top)?;
    stack.push(top)
}

/// `pop`
pub fn pop(stack: &mut TypeStack) -> Result<(), FlowError>
    ensures { (m : MethodTypes) → IsAfter m.types.now result stack.new (flow_of m Named.Pop stack.old) }
{
    stack.take_one()?;
    Ok(())
}

/// The operations on two integers of one size.
pub fn binary(stack: &mut TypeStack) -> Result<(), FlowError>
    ensures { (m : MethodTypes) (op : BinaryOperation) → IsAfter m.types.now result stack.new (flow_of m (Named.Binary op) stack.old) }
{
    let (first, second) = stack.take_two()?;
    let reason = Mismatch::OperandTypes(first, second);
    put_where(are_integers(first, second), reason, first, stack)
}

/// `neg`, `not`
pub fn unary(stack: &mut TypeStack) -> Result<(), FlowError>
    ensures { (m : MethodTypes) (op : UnaryOperation) → IsAfter m.types.now result stack.new (flow_of m (Named.Unary op) stack.old) }
{
    let operand = stack.take_one()?;
    let reason = Mismatch::OperandType(operand);
    put_where(operand.is_integer(), reason, operand, stack)
}

/// `shl`, `shr`, `shr.un`: an integer, and above it the amount.
pub fn shift(stack: &mut TypeStack) -> Result<(), FlowError>
    ensures { (m : MethodTypes) (op : ShiftOperation) → IsAfter m.types.now result stack.new (flow_of m (Named.Shift op) stack.old) }
{
    let (operand, amount) = stack.take_two()?;
    let is_allowed = operand.is_integer() && amount.is_int32();
    let reason = Mismatch::OperandTypes(operand, amount);
    put_where(is_allowed, reason, operand, stack)
}

/// What `ceq`, `cgt` and `clt` compare.
fn may_compare(comparison: Comparison, first: StackEntry, second: StackEntry) -> bool
    ensures { (tree : Tree) → result ≡ may_compare comparison (stack_type tree first) (stack_type tree second) }
{
    match comparison {
        Comparison::Equal => are_comparable(first, second),
        Comparison::Greater | Comparison::Less => are_integers(first, second),
    }
}

/// What a conditional branch compares.
fn may_branch(comparison: BranchComparison, first: StackEntry, second: StackEntry) -> bool
    ensures { (tree : Tree) → result ≡ may_branch comparison (stack_type tree first) (stack_type tree second) }
{
    match comparison {
        BranchComparison::Equal | BranchComparison::NotEqual => are_comparable(first, second),
        _ => are_integers(first, second),
    }
}

/// `ceq`, `cgt`, `clt`
pub fn compare(comparison: Comparison, stack: &mut TypeStack) -> Result<(), FlowError>
    ensures { (m : MethodTypes) → IsAfter m.types.now result stack.new (flow_of m (Named.Compare comparison) stack.old) }
{
    let (first, second) = stack.take_two()?;
    let reason = Mismatch::OperandTypes(first, second);
    put_where(may_compare(comparison, first, second), reason, INT32, stack)
}

/// `conv.i4`, of an integer of any size.
pub fn convert_to_int32(stack: &mut TypeStack) -> Result<(), FlowError>
    ensures { (m : MethodTypes) → IsAfter m.types.now result stack.new (flow_of m Named.ConvertInt32 stack.old) }
{
    let operand = stack.take_one()?;
    let is_allowed = operand.is_integer() || operand.is_index();
    put_where(is_allowed, Mismatch::OperandType(operand), INT32, stack)
}

/// `conv.i8`, of an integer of any size.
pub fn convert_to_int64(stack: &mut TypeStack) -> Result<(), FlowError>
    ensures { (m : MethodTypes) → IsAfter m.types.now result stack.new (flow_of m Named.ConvertInt64 stack.old) }
{
    let operand = stack.take_one()?;
    let is_allowed = operand.is_integer() || operand.is_index();
    put_where(is_allowed, Mismatch::OperandType(operand), INT64, stack)
}

/// `brtrue` and `brfalse`, of an integer or a reference.
fn branch_on_value(stack: &mut TypeStack) -> Result<(), FlowError>
    ensures { (m : MethodTypes) (label : List ℕ) → IsAfter m.types.now result stack.new (flow_of m (Named.Branch conditions.IfTrue label) stack.old) }
{
    let operand = stack.take_one()?;
    let is_allowed = operand.is_integer() || operand.is_reference();
    keep_where(is_allowed, Mismatch::OperandType(operand), stack)
}

/// `beq`, `bne.un`, `bge`, `bgt`, `ble`, `blt`
fn branch_on_comparison(
    comparison: BranchComparison,
    stack: &mut TypeStack,
) -> Result<(), FlowError>
    ensures { (m : MethodTypes) (label : List ℕ) → IsAfter m.types.now result stack.new (flow_of m (Named.Branch (conditions.Compare comparison) label) stack.old) }
{
    let (first, second) = stack.take_two()?;
    let reason = Mismatch::OperandTypes(first, second);
    keep_where(may_branch(comparison, first, second), reason, stack)
}

/// A branch, whether it goes to its label or on to the next instruction.
pub fn branch_on_condition(
    condition: BranchCondition,
    stack: &mut TypeStack,
) -> Result<(), FlowError>
    ensures { (m : MethodTypes) (label : List ℕ) → IsAfter m.types.now result stack.new (flow_of m (Named.Branch condition label) stack.old) }
{
    match condition {
        BranchCondition::Always => Ok(()),
        BranchCondition::IfTrue => branch_on_value(stack),
        BranchCondition::IfFalse => branch_on_value(stack),
        BranchCondition::Compare(comparison) => branch_on_comparison(comparison, stack),
    }
}

/// `switch`
pub fn switch(stack: &mut TypeStack) -> Result<(), FlowError>
    ensures { (m : MethodTypes) (labels : List (List ℕ)) → IsAfter m.types.now result stack.new (flow_of m (Named.Switch labels) stack.old) }
{
    let operand = stack.take_one()?;
    keep_where(operand.is_int32(), Mismatch::OperandType(operand), stack)
}
