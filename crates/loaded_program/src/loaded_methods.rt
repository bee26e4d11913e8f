//! Loaded methods.

ghost use Rattle.std.specs.Prelude.{◌≡◌, Some, IfOk, slice_get};
ghost use Rattle.cil_model.specs.Declarations.{Declaration};
ghost use Rattle.cil_model.specs.declared.trees.Method.{Method};
ghost use Rattle.cil_model.specs.declared.types.ClassName.{ClassName};
ghost use Rattle.name_tables.specs.Numbers.{declarations, method_at};
ghost use Rattle.resolved_code.specs.ResolvedPrograms.{AllAlike, IsResolvedMethod};
ghost use Rattle.loaded_program.specs.AllMethods.{all_methods, owned_methods};
ghost use Rattle.loaded_program.specs.LoadedPrograms.{CanLink, IsLinkedOperation, IsLoadedMethod, operations_of};

use crate::actions::{Action, action_at};
use crate::instructions::LinkedInstruction;
use crate::linker::{Linker, constants_are_small};
use crate::methods::{argument_count, local_kinds};
use cil_model::memory::NoMemory;
use name_tables::ids::{ClassId, MethodId};
use object_memory::ValueKind;
use resolved_code::classes::{ResolvedKind, ResolvedMethod};
use resolved_code::operations::Operation;
use std::alloc::Global;

/// A method with what its calls and its steps need (ECMA-335 II.15).
#[derive(Drop)]
pub struct LoadedMethod {
    /// Its class, and its index in the class.
    pub member: MethodId,
    /// How many operands a call takes, `this` counted.
    pub arguments: usize,
    /// What the locals hold, in their order; none where it has no code.
    pub locals: Vec<ValueKind>,
    /// Whether a call leaves a value.
    pub has_value: bool,
    /// What a call does where the method is a built-in one without code.
    pub action: Option<Action>,
    /// Its linked instructions, in the order of its lines; none where it has no code.
    pub(crate) code: Vec<LinkedInstruction>,
}

/// The operations of a method's body; none where it has no code.
fn operations_of(kind: &ResolvedKind) -> &[Operation]
    ensures { result.now ≡ operations_of kind.now }
{
    match kind {
        ResolvedKind::Static(body)
        | ResolvedKind::Instance(body)
        | ResolvedKind::Virtual { body, .. } => body.operations.as_slice(),
        ResolvedKind::Abstract { .. } => &[],
    }
}

/// The instructions of a method that returns a value or none, linked. The only error is out of memory.
fn linked_code(
    alloc: Global,
    linker: &Linker,
    has_value: bool,
    operations: &[Operation],
) -> Result<Vec<LinkedInstruction>, NoMemory>
    requires { CanLink linker.now }
    ensures { IfOk result (λ code. AllAlike (IsLinkedOperation linker.now.program.now has_value) operations.now code.items) }
{
    let mut code = Vec::with_capacity(alloc, operations.len())?;
    for operation in operations {
        constants_are_small(operation);
        code.push(linker.link(alloc, has_value, operation)?)?;
    }
    Ok(code)
}

impl LoadedMethod {
    /// The method with this id, loaded. The only error is out of memory.
    fn new(
        alloc: Global,
        linker: &Linker,
        member: MethodId,
        method: &ResolvedMethod,
    ) -> Result<Self, NoMemory>
        requires { CanLink linker.now }
        ensures { IfOk result (λ loaded. (found : ClassName × Method) → method_at linker.now.program.now (member.class, member.index) ≡ Some found →
            IsResolvedMethod linker.now.program.now found.1 method.now → IsLoadedMethod linker.now.program.now found loaded) }
    {
        let has_value = method.return_type.is_some();
        let operations = operations_of(&method.kind);
        Ok(LoadedMethod {
            member,
            arguments: argument_count(method),
            locals: local_kinds(alloc, &method.kind)?,
            has_value,
            action: action_at(member),
            code: linked_code(alloc, linker, has_value, operations)?,
        })
    }
}

/// The methods of the class with this id, loaded, in their order. The only error is out of memory.
fn class_methods(
    alloc: Global,
    linker: &Linker,
    class: ClassId,
    methods: &[ResolvedMethod],
) -> Result<Vec<LoadedMethod>, NoMemory>
    requires { CanLink linker.now }
    ensures { IfOk result (λ v. (e : ClassName × Declaration) → slice_get (declarations linker.now.program.now) class ≡ Some e →
        AllAlike (IsResolvedMethod linker.now.program.now) e.1.methods methods.now → AllAlike (IsLoadedMethod linker.now.program.now) (owned_methods e) v.items) }
{
    let mut loaded = Vec::with_capacity(alloc, methods.len())?;
    for index in 0..methods.len() {
        let member = MethodId { class, index };
        loaded.push(LoadedMethod::new(alloc, linker, member, &methods[index])?)?;
    }
    Ok(loaded)
}

/// The methods of all classes, loaded, by their flat numbers. The only error is out of memory.
pub(crate) fn all_methods(alloc: Global, linker: &Linker) -> Result<Vec<LoadedMethod>, NoMemory>
    requires { CanLink linker.now }
    ensures { IfOk result (λ v. AllAlike (IsLoadedMethod linker.now.program.now) (all_methods linker.now.program.now) v.items) }
{
    let classes = linker.program.classes();
    let mut loaded = Vec::new(alloc);
    for class in 0..classes.len() {
        let mut more = class_methods(
            alloc,
            linker,
            ClassId::new(class),
            classes[class].methods.as_slice(),
        )?;
        loaded.append(&mut more)?;
    }
    Ok(loaded)
}
