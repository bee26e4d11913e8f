//! Arrays and casts (ECMA-335 III.4).

ghost use Rattle.std.specs.Prelude.{◌≡◌, ◌∷◌, Some, option_map};
ghost use Rattle.cil_model.specs.declared.trees.Tree.{Tree};
ghost use Rattle.cil_model.specs.declared.types.DeclaredType.{DeclaredType};
ghost use Rattle.flow_rules.specs.Flow.{IsAfter, flow_of};
ghost use Rattle.flow_rules.specs.StackTypes.{stack_type, stack_types, type_named};
ghost use Rattle.flow_rules.specs.declared.method_types.MethodTypes.{MethodTypes};
ghost use Rattle.cil_model.specs.Assignable.{element_of};
ghost use Rattle.cil_model.specs.FlowRules.{is_array_of, any_type, element_on_stack, is_of_element_kind, loaded_type, may_store};
ghost use Rattle.cil_model.specs.declared.instructions.Instruction.TheVariants as Named;

use crate::entries::{StackEntry, is_int32_type, is_int64_type, is_reference};
use crate::mismatches::{FlowError, Mismatch};
use crate::operators::{INT32, INT64, keep_where, put_where};
use crate::type_stack::TypeStack;
use cil_model::instructions::ElementKind;
use resolved_code::types::ResolvedType;

/// What an array holds; none where the type is no array's.
fn element_of(t: ResolvedType) -> Option<ResolvedType>
    ensures { (tree : Tree) → option_map (type_named tree) result ≡ element_of (type_named tree t) }
{
    if t.brackets == 0 {
        return None;
    }
    Some(ResolvedType {
        element: t.element,
        brackets: t.brackets - 1,
    })
}

/// An array or null.
fn is_array(entry: StackEntry) -> bool
    ensures { (tree : Tree) → result ≡ is_array_of any_type (stack_type tree entry) }
{
    match entry {
        StackEntry::Null => true,
        StackEntry::NativeInt => false,
        StackEntry::Declared(t) => match element_of(t) {
            None => false,
            Some(_element) => true,
        },
    }
}

/// Whether `ldelem` and `stelem` of a kind take elements of this type (ECMA-335 III.4.8, III.4.27).
fn is_of_element_kind(kind: ElementKind, t: ResolvedType) -> bool
    ensures { (tree : Tree) → result ≡ is_of_element_kind kind (type_named tree t) }
{
    match kind {
        ElementKind::Int32 => is_int32_type(t),
        ElementKind::Int64 => is_int64_type(t),
        ElementKind::Reference => is_reference(t),
    }
}

/// An array of such elements, or null.
fn is_array_of(kind: ElementKind, entry: StackEntry) -> bool
    ensures { (tree : Tree) → result ≡ is_array_of (is_of_element_kind kind) (stack_type tree entry) }
{
    match entry {
        StackEntry::Null => true,
        StackEntry::NativeInt => false,
        StackEntry::Declared(t) => match element_of(t) {
            None => false,
            Some(element) => is_of_element_kind(kind, element),
        },
    }
}

/// What `ldelem.ref` gives of an array (ECMA-335 III.4.8): of null it is null.
fn element_entry(entry: StackEntry) -> StackEntry
    ensures { (tree : Tree) → stack_type tree result ≡ element_on_stack (stack_type tree entry) }
{
    match entry {
        StackEntry::Null | StackEntry::NativeInt => StackEntry::Null,
        StackEntry::Declared(t) => match element_of(t) {
            None => StackEntry::Null,
            Some(element) => StackEntry::Declared(element),
        },
    }
}

/// `ldlen`: the length is a native integer.
pub fn load_length(stack: &mut TypeStack) -> Result<(), FlowError>
    ensures { (m : MethodTypes) → IsAfter m.types.now result stack.new (flow_of m Named.LoadLength stack.old) }
{
    let array = stack.take_one()?;
    let reason = Mismatch::OperandType(array);
    put_where(is_array(array), reason, StackEntry::NativeInt, stack)
}

/// What `ldelem` gives of an array.
fn loaded_entry(kind: ElementKind, array: StackEntry) -> StackEntry
    ensures { (tree : Tree) → stack_type tree result ≡ loaded_type kind (stack_type tree array) }
{
    match kind {
        ElementKind::Int32 => INT32,
        ElementKind::Int64 => INT64,
        ElementKind::Reference => element_entry(array),
    }
}

/// What `stelem` may store. Whether an array takes a reference is found out when it runs.
fn may_store(kind: ElementKind, value: StackEntry) -> bool
    ensures { (tree : Tree) → result ≡ may_store kind (stack_type tree value) }
{
    match kind {
        ElementKind::Int32 => value.is_int32(),
        ElementKind::Int64 => value.is_int64(),
        ElementKind::Reference => value.is_reference(),
    }
}

/// `ldelem.i4`, `ldelem.i8`, `ldelem.ref`: an array, and above it the index.
pub fn load_element(kind: ElementKind, stack: &mut TypeStack) -> Result<(), FlowError>
    ensures { (m : MethodTypes) → IsAfter m.types.now result stack.new (flow_of m (Named.LoadElement kind) stack.old) }
{
    let (array, index) = stack.take_two()?;
    let is_allowed = is_array_of(kind, array) && index.is_index();
    let reason = Mismatch::OperandTypes(array, index);
    put_where(is_allowed, reason, loaded_entry(kind, array), stack)
}

/// `stelem.i4`, `stelem.i8`, `stelem.ref`: an array, the index, and topmost the value.
pub fn store_element(kind: ElementKind, stack: &mut TypeStack) -> Result<(), FlowError>
    ensures { (m : MethodTypes) → IsAfter m.types.now result stack.new (flow_of m (Named.StoreElement kind) stack.old) }
{
    let (array, index, value) = stack.take_three()?;
    let is_allowed = is_array_of(kind, array) && index.is_index() && may_store(kind, value);
    keep_where(is_allowed, Mismatch::OperandTypes(array, value), stack)
}

/// `newarr`, of this element type. An array of 2^32 brackets, which no source is long enough for, has no number and is reported as
/// out of memory.
pub fn new_array(element: ResolvedType, stack: &mut TypeStack) -> Result<(), FlowError>
    ensures { (m : MethodTypes) (t : DeclaredType) → type_named m.types.now element ≡ t → IsAfter m.types.now result stack.new (flow_of m (Named.NewArray t) stack.old) }
{
    if element.brackets == u32::MAX {
        return Err(FlowError::OutOfMemory);
    }
    let length = stack.take_one()?;
    let array = ResolvedType {
        element: element.element,
        brackets: element.brackets + 1,
    };
    let reason = Mismatch::OperandType(length);
    put_where(
        length.is_index(),
        reason,
        StackEntry::Declared(array),
        stack,
    )
}

/// What `castclass` and `isinst` take and give.
fn cast_where(t: ResolvedType, stack: &mut TypeStack) -> Result<(), FlowError>
    ensures { (m : MethodTypes) → IsAfter m.types.now result stack.new (flow_of m (Named.CastClass (type_named m.types.now t)) stack.old) }
{
    let operand = stack.take_one()?;
    let is_allowed = operand.is_reference() && is_reference(t);
    let reason = Mismatch::OperandType(operand);
    put_where(is_allowed, reason, StackEntry::Declared(t), stack)
}

/// `castclass` and `isinst`, to this type (ECMA-335 III.4.3, III.4.6).
pub fn cast(t: ResolvedType, stack: &mut TypeStack) -> Result<(), FlowError>
    ensures cast { (m : MethodTypes) (d : DeclaredType) → type_named m.types.now t ≡ d → IsAfter m.types.now result stack.new (flow_of m (Named.CastClass d) stack.old) }
    ensures tested { (m : MethodTypes) (d : DeclaredType) → type_named m.types.now t ≡ d → IsAfter m.types.now result stack.new (flow_of m (Named.IsInstance d) stack.old) }
{
    cast_where(t, stack)
}
