//! Which slots of objects hold references.

ghost use Rattle.std.specs.Prelude.{◌≡◌};
ghost use Rattle.cil_model.specs.declared.trees.Tree.{Tree};
ghost use Rattle.class_layout.specs.Layouts.{IsLayout};
ghost use Rattle.collector.specs.References.{holds_reference, is_reference_element};

use class_layout::Layout;
use name_tables::ids::ClassId;
use object_memory::{ArrayElement, ElementType, Kind};

/// Whether a slot of an object holds a reference. False where no class of the program has the object's number.
pub(crate) fn holds_reference(layout: &Layout, kind: Kind, slot: u32) -> bool
    ensures { (tree : Tree) → IsLayout tree layout.now → result ≡ holds_reference tree kind slot }
{
    match kind {
        Kind::Instance(class) => layout.is_reference(
            ClassId::new(usize::from(class)),
            slot as usize,
        ),
        Kind::Array(array) => is_reference_element(array),
    }
}

/// Whether the elements of an array are references: all but integers without brackets (ECMA-335 II.14.2).
fn is_reference_element(array: ArrayElement) -> bool
    ensures { result ≡ is_reference_element array.element array.brackets }
{
    if array.brackets > 0 {
        return true;
    }
    match array.element {
        ElementType::Int32 | ElementType::Int64 => false,
        ElementType::Object | ElementType::String | ElementType::Class(_) => true,
    }
}
