//! Whether a value of one type may be given where another is expected, up to a test of two classes (ECMA-335 I.8.7).

ghost use Rattle.std.specs.Prelude.{◌≡◌, Some};
ghost use Rattle.cil_model.specs.declared.trees.Tree.{Tree};
ghost use Rattle.cil_model.specs.declared.types.DeclaredType.{DeclaredType};
ghost use Rattle.cil_model.specs.Assignable.{is_assignable};
ghost use Rattle.resolved_code.specs.ById.{type_at};
ghost use Rattle.resolved_code.specs.TypeTests.{is_object, element_test, type_test, IsResultOf};

use crate::types::{ResolvedElement, ResolvedType};

/// The outcome of a test of two types.
#[derive(Clone, Copy)]
pub enum TypeTest {
    /// The result, whatever the classes are.
    Answered(bool),
    /// The result for two classes, by their numbers: whether the first may be given for the second.
    OfClasses { from: usize, to: usize },
}

/// `object`
fn is_object(element: ResolvedElement) -> bool
    ensures { result ≡ is_object element }
{
    matches!(element, ResolvedElement::Object)
}

/// The test of types without brackets. Only the two integers may not be given for `object`.
fn element_test(from: ResolvedElement, to: ResolvedElement) -> TypeTest
    ensures { result ≡ element_test from to }
{
    match (from, to) {
        (ResolvedElement::Int32, ResolvedElement::Object) => TypeTest::Answered(false),
        (ResolvedElement::Int64, ResolvedElement::Object) => TypeTest::Answered(false),
        (_, ResolvedElement::Object) => TypeTest::Answered(true),
        (ResolvedElement::Class(from), ResolvedElement::Class(to)) => {
            TypeTest::OfClasses { from, to }
        }
        (ResolvedElement::Int32, ResolvedElement::Int32) => TypeTest::Answered(true),
        (ResolvedElement::Int64, ResolvedElement::Int64) => TypeTest::Answered(true),
        (ResolvedElement::String, ResolvedElement::String) => TypeTest::Answered(true),
        _ => TypeTest::Answered(false),
    }
}

/// As many brackets on both, or fewer on `object`.
fn type_test(from: ResolvedType, to: ResolvedType) -> TypeTest
    ensures { result ≡ type_test from to }
{
    if from.brackets == to.brackets {
        element_test(from.element, to.element)
    } else {
        TypeTest::Answered(to.brackets < from.brackets && is_object(to.element))
    }
}

impl ResolvedType {
    /// Whether a value of this type may be given where the other is expected (ECMA-335 I.8.7), as far as elements and brackets
    /// determine it.
    /// An array may be given for one with the same number of brackets where its element may be given for the other's, and for `object` with fewer.
    pub fn test_for(self, required: ResolvedType) -> TypeTest
        ensures { (tree : Tree) (a b : DeclaredType) → type_at tree self ≡ Some a → type_at tree required ≡ Some b → IsResultOf tree result (is_assignable tree a b) }
    {
        type_test(self, required)
    }
}
