//! The types of objects, and what may stand where.

ghost use Rattle.std.specs.Prelude.{◌≡◌, IsSome, Some};
ghost use Rattle.cil_model.specs.declared.trees.Tree.{Tree};
ghost use Rattle.cil_model.specs.declared.types.DeclaredType.{DeclaredType};
ghost use Rattle.class_layout.specs.Layouts.{IsLayout};
ghost use Rattle.resolved_code.specs.ById.{type_at};
ghost use Rattle.instructions.specs.TypeTransitions.{resolved_element, type_of_kind, type_of_address, may_be_used_as};

use class_layout::Layout;
use flow_rules::type_tree::element_of_class;
use name_tables::ids::ClassId;
use object_memory::{Addr, ElementType, Heap, Kind, Value};
use resolved_code::Program;
use resolved_code::types::{ResolvedElement, ResolvedType};

/// A type without brackets, with its class's number as the program has it.
pub(crate) fn resolved_element(element: ElementType) -> ResolvedElement
    ensures { result ≡ resolved_element element }
{
    match element {
        ElementType::Int32 => ResolvedElement::Int32,
        ElementType::Int64 => ResolvedElement::Int64,
        ElementType::Object => ResolvedElement::Object,
        ElementType::String => ResolvedElement::String,
        ElementType::Class(class) => ResolvedElement::Class(usize::from(class)),
    }
}

/// The type of an object of this kind.
fn type_of_kind(kind: Kind) -> ResolvedType
    ensures { (tree : Tree) (t : DeclaredType) → type_of_kind tree kind ≡ Some t → type_at tree result ≡ Some t }
{
    match kind {
        Kind::Instance(class) => ResolvedType {
            element: element_of_class(ClassId::new(usize::from(class))),
            brackets: 0,
        },
        Kind::Array(array) => ResolvedType {
            element: resolved_element(array.element),
            brackets: u32::from(array.brackets) + 1,
        },
    }
}

/// The type of what lies at an address: a literal is a string.
fn type_of_address(program: &Program, heap: &Heap, object: Addr) -> ResolvedType
    requires { IsSome (type_of_address program.now heap.now object) }
    ensures { (t : DeclaredType) → type_of_address program.now heap.now object ≡ Some t → type_at program.now result ≡ Some t }
{
    let _program = program;
    match object.literal_number() {
        Some(_) => ResolvedType {
            element: ResolvedElement::String,
            brackets: 0,
        },
        None => type_of_kind(heap.kind(object)),
    }
}

/// Whether a reference may stand where a type is required (ECMA-335 I.8.7): null may everywhere, an object where its own type is
/// assignable to it.
pub fn may_be_used(
    program: &Program,
    layout: &Layout,
    heap: &Heap,
    value: Value,
    to: ResolvedType,
) -> bool
    requires layout { IsLayout program.now layout.now }
    requires there { IsSome (may_be_used_as program.now heap.now value to) }
    ensures { may_be_used_as program.now heap.now value to ≡ Some result }
{
    let Value::Ref(object) = value else {
        unreachable!()
    };
    object.is_null() || layout.assignable(type_of_address(program, heap, object), to)
}
