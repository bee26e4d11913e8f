//! Fields and calls (ECMA-335 III.3.19, III.4).

ghost use Rattle.std.specs.Prelude.{◌≡◌, ◌∷◌, ℕ, Bool, true, false, None, Some, List, if◌then◌else◌, IfSome, IfOk, IfErr, option_map, slice_get};
ghost use Rattle.cil_model.specs.declared.types.ClassName.{ClassName};
ghost use Rattle.cil_model.specs.declared.types.DeclaredType.{DeclaredType};
ghost use Rattle.cil_model.specs.declared.types.Signature.{Signature};
ghost use Rattle.cil_model.specs.declared.instructions.FieldReference.{FieldReference};
ghost use Rattle.cil_model.specs.declared.instructions.MethodReference.{MethodReference};
ghost use Rattle.cil_model.specs.declared.instructions.Instruction.TheVariants as Named;
ghost use Rattle.cil_model.specs.declared.trees.Tree.{Tree};
ghost use Rattle.cil_model.specs.Assignable.{type_of_class};
ghost use Rattle.cil_model.specs.Bodies.{constructor_reference, virtual_reference};
ghost use Rattle.cil_model.specs.TypeTree as OnStack;
ghost use Rattle.cil_model.specs.FlowRules.{take_operands, give, is_concrete};
ghost use Rattle.cil_model.specs.Legality.{IsLegal};
ghost use Rattle.resolved_code.specs.ById.{class_name};
ghost use Rattle.resolved_code.specs.ResolvedPrograms.{IsField, IsMethod};
ghost use Rattle.flow_rules.specs.Flow.{IsAfter, flow_of};
ghost use Rattle.flow_rules.specs.Merging.{IsClassAt};
ghost use Rattle.flow_rules.specs.Members.{GivesType, IsCallable, is_abstract_kind, operands_named};
ghost use Rattle.flow_rules.specs.StackTypes.{stack_types, type_named, types_named};

use crate::entries::StackEntry;
use crate::method_types::MethodTypes;
use crate::mismatches::{FlowError, Mismatch};
use crate::operators::put;
use crate::type_stack::TypeStack;
use crate::type_tree::{TypeTree, item_at, type_of_class};
use crate::variables::{give, take_fitting, take_operands};
use name_tables::ids::{ClassId, FieldId, MethodId};
use resolved_code::classes::{ResolvedClass, ResolvedKind, ResolvedMethod};
use resolved_code::types::ResolvedType;

/// The class of an id.
fn class_of<'a>(types: &'a TypeTree, id: ClassId) -> Option<&'a ResolvedClass>
    ensures found { IfSome result (λ class. IsClassAt types.now id class.now) }
    ensures beyond { result ≡ None → class_name types.now id ≡ None }
    ensures legal { IsLegal types.now }
{
    types.class(id.number())
}

fn no_such_member() -> FlowError {
    FlowError::Mismatch(Mismatch::NoSuchMember)
}

/// The type of the field that a reference finds (ECMA-335 II.16).
fn field_type(types: &TypeTree, id: FieldId) -> Result<ResolvedType, FlowError>
    ensures { (is_static : Bool) (r : FieldReference) → IsField types.now is_static r id → GivesType types.now result r.field_type }
{
    let Some(class) = class_of(types, id.class) else {
        return Err(no_such_member());
    };
    match item_at(class.fields.as_slice(), id.index) {
        None => Err(no_such_member()),
        Some(field) => Ok(field.field_type),
    }
}

/// The method that a reference finds (ECMA-335 II.15.1.3).
fn method_at<'a>(types: &'a TypeTree, id: MethodId) -> Result<&'a ResolvedMethod, FlowError>
    ensures found { IfOk result (λ method. (is_instance : Bool) (r : MethodReference) (is : IsMethod types.now is_instance r id) → IsCallable types.now r.signature is.found method.now) }
    ensures absent { IfErr result (λ _. (is_instance : Bool) (r : MethodReference) → IsMethod types.now is_instance r id → ⊥) }
{
    let Some(class) = class_of(types, id.class) else {
        return Err(no_such_member());
    };
    match item_at(class.methods.as_slice(), id.index) {
        None => Err(no_such_member()),
        Some(method) => Ok(method),
    }
}

/// `ldfld`: the class that the text names, and the field that is found.
pub fn load_field(
    method: &MethodTypes,
    owner: ClassId,
    field: FieldId,
    stack: &mut TypeStack,
) -> Result<(), FlowError>
    ensures { (r : FieldReference) → class_name method.now.types.now owner ≡ Some r.owner → IsField method.now.types.now false r field → IsAfter method.now.types.now result stack.new (flow_of method.now (Named.LoadField r) stack.old) }
{
    let held = field_type(method.types, field)?;
    take_fitting(method.types, type_of_class(owner), stack)?;
    put(StackEntry::Declared(held), stack)
}

/// `stfld`
pub fn store_field(
    method: &MethodTypes,
    owner: ClassId,
    field: FieldId,
    stack: &mut TypeStack,
) -> Result<(), FlowError>
    ensures { (r : FieldReference) → class_name method.now.types.now owner ≡ Some r.owner → IsField method.now.types.now false r field → IsAfter method.now.types.now result stack.new (flow_of method.now (Named.StoreField r) stack.old) }
{
    let held = field_type(method.types, field)?;
    let owner = Some(type_of_class(owner));
    take_arguments(method.types, owner, &[held], stack)
}

/// `ldsfld`
pub fn load_static_field(
    method: &MethodTypes,
    field: FieldId,
    stack: &mut TypeStack,
) -> Result<(), FlowError>
    ensures { (r : FieldReference) → IsField method.now.types.now true r field → IsAfter method.now.types.now result stack.new (flow_of method.now (Named.LoadStaticField r) stack.old) }
{
    let held = field_type(method.types, field)?;
    put(StackEntry::Declared(held), stack)
}

/// `stsfld`
pub fn store_static_field(
    method: &MethodTypes,
    field: FieldId,
    stack: &mut TypeStack,
) -> Result<(), FlowError>
    ensures { (r : FieldReference) → IsField method.now.types.now true r field → IsAfter method.now.types.now result stack.new (flow_of method.now (Named.StoreStaticField r) stack.old) }
{
    let held = field_type(method.types, field)?;
    take_fitting(method.types, held, stack)
}

/// A method that a class leaves to those below it (ECMA-335 II.15.4.2).
fn is_abstract(kind: &ResolvedKind) -> bool
    ensures { result ≡ is_abstract_kind kind.now }
{
    match kind {
        ResolvedKind::Static(_) | ResolvedKind::Instance(_) => false,
        ResolvedKind::Virtual { .. } => false,
        ResolvedKind::Abstract { .. } => true,
    }
}

/// Takes the arguments of a call: the owner below the others, where it is an instance's.
#[tactic(auto, using(crate::proofs::Operands::owner_next, crate::proofs::Operands::owner_late))]
fn take_arguments(
    types: &TypeTree,
    owner: Option<ResolvedType>,
    parameters: &[ResolvedType],
    stack: &mut TypeStack,
) -> Result<(), FlowError>
    ensures { IsAfter types.now result stack.new (take_operands types.now (operands_named types.now owner parameters.now) (stack_types types.now stack.old)) }
{
    take_operands(types, parameters, stack)?;
    match owner {
        None => Ok(()),
        Some(owner) => take_fitting(types, owner, stack),
    }
}

/// Takes the arguments and puts the result, if any.
fn call_found(
    types: &TypeTree,
    owner: Option<ResolvedType>,
    called: &ResolvedMethod,
    stack: &mut TypeStack,
) -> Result<(), FlowError>
    ensures { IsAfter types.now result stack.new (option_map (give (option_map (type_named types.now) called.now.return_type)) (take_operands types.now (operands_named types.now owner called.now.parameters) (stack_types types.now stack.old))) }
{
    take_arguments(types, owner, called.parameters.as_slice(), stack)?;
    give(types, called.return_type, stack)
}

/// The type of the object that a call is made on, where it is an instance's.
fn owner_type(is_instance: bool, owner: ClassId) -> Option<ResolvedType>
    ensures { (tree : Tree) (c : ClassName) → class_name tree owner ≡ Some c → option_map (type_named tree) result ≡ if is_instance then Some (type_of_class c) else None }
{
    if is_instance {
        Some(type_of_class(owner))
    } else {
        None
    }
}

/// `call`, with `instance` or without: the class that the text names, and the method that is found, which has code.
pub fn call(
    method: &MethodTypes,
    is_instance: bool,
    owner: ClassId,
    id: MethodId,
    stack: &mut TypeStack,
) -> Result<(), FlowError>
    ensures { (r : MethodReference) → class_name method.now.types.now owner ≡ Some r.owner → IsMethod method.now.types.now is_instance r id → IsAfter method.now.types.now result stack.new (flow_of method.now (Named.Call is_instance r) stack.old) }
{
    let declaring = id.class;
    let called = method_at(method.types, id)?;
    if is_abstract(&called.kind) {
        return Err(FlowError::Mismatch(Mismatch::AbstractMethod(declaring.number())));
    }
    call_found(method.types, owner_type(is_instance, owner), called, stack)
}

/// `callvirt`
pub fn call_virtual(
    method: &MethodTypes,
    owner: ClassId,
    id: MethodId,
    stack: &mut TypeStack,
) -> Result<(), FlowError>
    ensures { (c : ClassName) (name : List ℕ) (signature : Signature) → class_name method.now.types.now owner ≡ Some c → IsMethod method.now.types.now true (virtual_reference c name signature) id →
        IsAfter method.now.types.now result stack.new (flow_of method.now (Named.CallVirtual c name signature) stack.old) }
{
    let called = method_at(method.types, id)?;
    call_found(method.types, owner_type(true, owner), called, stack)
}

/// A class of which `newobj` makes objects.
fn is_concrete(types: &TypeTree, id: ClassId) -> bool
    ensures { (c : ClassName) → class_name types.now id ≡ Some c → result ≡ is_concrete types.now c }
{
    match class_of(types, id) {
        None => false,
        Some(class) => !class.is_abstract,
    }
}

/// Takes the arguments of a constructor and puts the object.
fn construct(
    types: &TypeTree,
    object: ResolvedType,
    constructor: &ResolvedMethod,
    stack: &mut TypeStack,
) -> Result<(), FlowError>
    ensures { IsAfter types.now result stack.new (option_map (λ rest. OnStack.Declared (type_named types.now object) ∷ rest) (take_operands types.now (types_named types.now constructor.now.parameters) (stack_types types.now stack.old))) }
{
    take_operands(types, constructor.parameters.as_slice(), stack)?;
    put(StackEntry::Declared(object), stack)
}

/// `newobj`: the constructor, which its own class declares.
pub fn new_object(
    method: &MethodTypes,
    id: MethodId,
    stack: &mut TypeStack,
) -> Result<(), FlowError>
    ensures { (c : ClassName) (parameters : List DeclaredType) → IsMethod method.now.types.now true (constructor_reference c parameters) id →
        IsAfter method.now.types.now result stack.new (flow_of method.now (Named.NewObject c parameters) stack.old) }
{
    let class = id.class;
    let constructor = method_at(method.types, id)?;
    if is_concrete(method.types, class) {
        let object = type_of_class(class);
        return construct(method.types, object, constructor, stack);
    }
    Err(FlowError::Mismatch(Mismatch::AbstractClass(class.number())))
}
