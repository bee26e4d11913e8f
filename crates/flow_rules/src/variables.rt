//! Operands that have to fit a type, and the arguments and locals of a method (ECMA-335 III.3).

ghost use Rattle.std.specs.Prelude.{◌≡◌, ◌∷◌, [], Some, option_map};
ghost use Rattle.cil_model.specs.Bodies.{at_index};
ghost use Rattle.cil_model.specs.FlowRules.{take_operands, take_returned, load, store, give};
ghost use Rattle.cil_model.specs.TypeTree.{fits};
ghost use Rattle.cil_model.specs.declared.instructions.Instruction.TheVariants as Named;
ghost use Rattle.flow_rules.specs.Flow.{IsAfter, flow_of};
ghost use Rattle.flow_rules.specs.StackTypes.{stack_type, stack_types, type_named, types_named};

use crate::entries::{StackEntry, is_reference};
use crate::method_types::MethodTypes;
use crate::mismatches::{FlowError, Mismatch};
use crate::operators::put;
use crate::type_stack::TypeStack;
use crate::type_tree::TypeTree;
use resolved_code::types::ResolvedType;

/// Whether an entry may be given where a type is expected (ECMA-335 III.1.8.1.2.3).
fn fits(types: &TypeTree, entry: StackEntry, required: ResolvedType) -> bool
    ensures { result ≡ fits types.now (stack_type types.now entry) (type_named types.now required) }
{
    match entry {
        StackEntry::Declared(t) => types.is_assignable(t, required),
        StackEntry::Null => is_reference(required),
        StackEntry::NativeInt => false,
    }
}

/// Takes an operand that fits the type.
pub fn take_fitting(
    types: &TypeTree,
    required: ResolvedType,
    stack: &mut TypeStack,
) -> Result<(), FlowError>
    ensures { IsAfter types.now result stack.new (take_operands types.now (type_named types.now required ∷ []) (stack_types types.now stack.old)) }
{
    let given = stack.take_one()?;
    if !fits(types, given, required) {
        return Err(FlowError::Mismatch(Mismatch::NotAssignable(given, required)));
    }
    Ok(())
}

/// Takes operands that fit the types, the last of them topmost.
pub fn take_operands(
    types: &TypeTree,
    required: &[ResolvedType],
    stack: &mut TypeStack,
) -> Result<(), FlowError>
    ensures { IsAfter types.now result stack.new (take_operands types.now (types_named types.now required.now) (stack_types types.now stack.old)) }
{
    for index in (0..required.len()).rev() {
        take_fitting(types, required[index], stack)?;
    }
    Ok(())
}

/// The type at an index that the text gives.
fn at_index(types: &[ResolvedType], index: i64) -> Option<ResolvedType>
    ensures { result ≡ at_index types.now index }
{
    match usize::try_from(index) {
        Ok(index) => types.get(index).copied(),
        Err(_) => None,
    }
}

/// Pushes the type at an index, where there is one.
fn load(
    types: &TypeTree,
    at: &[ResolvedType],
    index: i64,
    stack: &mut TypeStack,
) -> Result<(), FlowError>
    ensures { IsAfter types.now result stack.new (load (at_index (types_named types.now at.now) index) (stack_types types.now stack.old)) }
{
    match at_index(at, index) {
        None => Err(FlowError::Mismatch(Mismatch::NoSuchVariable(index))),
        Some(t) => put(StackEntry::Declared(t), stack),
    }
}

/// Takes what fits the type at an index, where there is one.
fn store(
    types: &TypeTree,
    at: &[ResolvedType],
    index: i64,
    stack: &mut TypeStack,
) -> Result<(), FlowError>
    ensures { IsAfter types.now result stack.new (store types.now (at_index (types_named types.now at.now) index) (stack_types types.now stack.old)) }
{
    match at_index(at, index) {
        None => Err(FlowError::Mismatch(Mismatch::NoSuchVariable(index))),
        Some(t) => take_fitting(types, t, stack),
    }
}

/// `ldarg`
pub fn load_argument(
    method: &MethodTypes,
    index: i64,
    stack: &mut TypeStack,
) -> Result<(), FlowError>
    ensures { IsAfter method.now.types.now result stack.new (flow_of method.now (Named.LoadArgument index) stack.old) }
{
    load(method.types, method.arguments, index, stack)
}

/// `starg`
pub fn store_argument(
    method: &MethodTypes,
    index: i64,
    stack: &mut TypeStack,
) -> Result<(), FlowError>
    ensures { IsAfter method.now.types.now result stack.new (flow_of method.now (Named.StoreArgument index) stack.old) }
{
    store(method.types, method.arguments, index, stack)
}

/// `ldloc`
pub fn load_local(method: &MethodTypes, index: i64, stack: &mut TypeStack) -> Result<(), FlowError>
    ensures { IsAfter method.now.types.now result stack.new (flow_of method.now (Named.LoadLocal index) stack.old) }
{
    load(method.types, method.locals, index, stack)
}

/// `stloc`
pub fn store_local(method: &MethodTypes, index: i64, stack: &mut TypeStack) -> Result<(), FlowError>
    ensures { IsAfter method.now.types.now result stack.new (flow_of method.now (Named.StoreLocal index) stack.old) }
{
    store(method.types, method.locals, index, stack)
}

/// Puts the type that a method returns, if any.
pub fn give(
    types: &TypeTree,
    return_type: Option<ResolvedType>,
    stack: &mut TypeStack,
) -> Result<(), FlowError>
    ensures { IsAfter types.now result stack.new (Some (give (option_map (type_named types.now) return_type) (stack_types types.now stack.old))) }
{
    match return_type {
        None => Ok(()),
        Some(t) => put(StackEntry::Declared(t), stack),
    }
}

/// Takes the type that a method returns, if any.
fn take_returned(
    types: &TypeTree,
    return_type: Option<ResolvedType>,
    stack: &mut TypeStack,
) -> Result<(), FlowError>
    ensures { IsAfter types.now result stack.new (take_returned types.now (option_map (type_named types.now) return_type) (stack_types types.now stack.old)) }
{
    match return_type {
        None => Ok(()),
        Some(t) => take_fitting(types, t, stack),
    }
}

/// `ret`: nothing may lie below what is returned (ECMA-335 III.3.57).
pub fn return_value(method: &MethodTypes, stack: &mut TypeStack) -> Result<(), FlowError>
    ensures { IsAfter method.now.types.now result stack.new (flow_of method.now Named.Return stack.old) }
{
    take_returned(method.types, method.return_type, stack)?;
    match stack.take() {
        None => Ok(()),
        Some(left) => Err(FlowError::Mismatch(Mismatch::LeftOnStack(left))),
    }
}
