//! The flow rule (ECMA-335 III.1.8 and the verifiability parts of III.3 and III.4).

ghost use Rattle.std.specs.Prelude.{◌≡◌, List};
ghost use Rattle.cil_model.specs.declared.trees.Line.{Line};
ghost use Rattle.cil_model.specs.declared.instructions.Instruction.{Instruction};
ghost use Rattle.resolved_code.specs.ResolvedPrograms.{IsOperation};
ghost use Rattle.flow_rules.specs.Flow.{IsAfter, flow_of};
ghost use Rattle.flow_rules.specs.Operations.{OfEach};

use crate::arrays::{cast, load_element, load_length, new_array, store_element};
use crate::entries::StackEntry;
use crate::members::{
    call, call_virtual, load_field, load_static_field, new_object, store_field, store_static_field,
};
use crate::method_types::MethodTypes;
use crate::mismatches::FlowError;
use crate::operators::{
    INT32, INT64, binary, branch_on_condition, compare, convert_to_int32, convert_to_int64,
    duplicate, pop, put, shift, switch, unary,
};
use crate::type_stack::TypeStack;
use crate::variables::{load_argument, load_local, return_value, store_argument, store_local};
use resolved_code::operations::Operation;
use resolved_code::types::{ResolvedElement, ResolvedType};

/// `string` on the stack.
const STRING: StackEntry = StackEntry::Declared(ResolvedType {
    element: ResolvedElement::String,
    brackets: 0,
});

fn step(method: &MethodTypes, operation: &Operation, stack: &mut TypeStack) -> Result<(), FlowError>
    ensures { OfEach method.now.types.now (λ i. IsAfter method.now.types.now result stack.new (flow_of method.now i stack.old)) operation.now }
{
    match operation {
        Operation::NoOperation => Ok(()),
        Operation::LoadInt32(_) => put(INT32, stack),
        Operation::LoadInt64(_) => put(INT64, stack),
        Operation::LoadNull => put(StackEntry::Null, stack),
        Operation::LoadString(_) => put(STRING, stack),
        Operation::LoadArgument(index) => load_argument(method, *index, stack),
        Operation::StoreArgument(index) => store_argument(method, *index, stack),
        Operation::LoadLocal(index) => load_local(method, *index, stack),
        Operation::StoreLocal(index) => store_local(method, *index, stack),
        Operation::Duplicate => duplicate(stack),
        Operation::Pop => pop(stack),
        Operation::Binary(_) => binary(stack),
        Operation::Unary(_) => unary(stack),
        Operation::Shift(_) => shift(stack),
        Operation::Compare(comparison) => compare(*comparison, stack),
        Operation::ConvertInt32 => convert_to_int32(stack),
        Operation::ConvertInt64 => convert_to_int64(stack),
        Operation::Branch(condition, _) => branch_on_condition(*condition, stack),
        Operation::Switch(_) => switch(stack),
        Operation::LoadField { owner, field } => load_field(method, *owner, *field, stack),
        Operation::StoreField { owner, field } => store_field(method, *owner, *field, stack),
        Operation::LoadStaticField(field) => load_static_field(method, *field, stack),
        Operation::StoreStaticField(field) => store_static_field(method, *field, stack),
        Operation::NewArray(element) => new_array(*element, stack),
        Operation::LoadLength => load_length(stack),
        Operation::LoadElement(kind) => load_element(*kind, stack),
        Operation::StoreElement(kind) => store_element(*kind, stack),
        Operation::CastClass(t) | Operation::IsInstance(t) => cast(*t, stack),
        Operation::Call {
            is_instance,
            owner,
            method: called,
        } => call(method, *is_instance, *owner, *called, stack),
        Operation::CallVirtual {
            owner,
            method: called,
        } => call_virtual(method, *owner, *called, stack),
        Operation::NewObject(constructor) => new_object(method, *constructor, stack),
        Operation::Return => return_value(method, stack),
    }
}

/// Does to a stack of types what the flow rule says of the instruction that an operation represents. At a mismatch the rule has no
/// result: the instruction is not allowed on such a stack. After an error the stack holds some of what it held, and is of no use.
/// Whether the stack is higher than `.maxstack` is not checked here.
pub fn flow(
    method: &MethodTypes,
    operation: &Operation,
    stack: &mut TypeStack,
) -> Result<(), FlowError>
    ensures { (lines : List Line) (i : Instruction) → IsOperation method.now.types.now lines i operation.now → IsAfter method.now.types.now result stack.new (flow_of method.now i stack.old) }
{
    step(method, operation, stack)
}
