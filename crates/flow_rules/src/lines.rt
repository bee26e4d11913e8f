//! The lines of elements above the classes, by which it is seen at once that a type is above another.

ghost use Rattle.std.specs.Prelude.{◌≡◌, ℕ, true, [], map, Some, IfSome, slice_get, slice_index_or};
ghost use Rattle.cil_model.specs.declared.trees.Tree.{Tree};
ghost use Rattle.cil_model.specs.TypeTree.{IsBelow};
ghost use Rattle.cil_model.specs.TypeTree as OnStack;
ghost use Rattle.resolved_code.specs.declared.types.ResolvedElement.TheVariants.{Class, String};
ghost use Rattle.flow_rules.specs.StackTypes.{type_named};
ghost use Rattle.flow_rules.specs.Merging.{IsUp, AreLines};

use cil_model::trees::Tree;
use resolved_code::types::{ResolvedElement, ResolvedType};
use std::alloc::Global;

/// Of some classes of a program the elements from the class's on, each above the one before it.
#[derive(Drop)]
pub(crate) struct Lines<'a> {
    pub tree: &'a Tree,
    rows: Vec<Vec<ResolvedElement>>,
    ghost rows_are: { AreLines tree.now (map (λ row. row.items) rows.items) },
}

fn is_same_element(one: ResolvedElement, other: ResolvedElement) -> bool
    ensures { result ≡ true → one ≡ other }
{
    one == other
}

/// The element at an index of the line of `string`, which has `object` above it.
fn up_from_string(index: usize) -> Option<ResolvedElement>
    ensures { (tree : Tree) → IfSome result (λ above. IsUp tree String index above) }
{
    match index {
        0 => Some(ResolvedElement::String),
        1 => Some(ResolvedElement::Object),
        _ => None,
    }
}

impl<'a> Lines<'a> {
    /// No line.
    pub fn none(tree: &'a Tree, alloc: Global) -> Self
        ensures { result.tree.now ≡ tree.now }
    {
        Lines {
            tree,
            rows: Vec::new(alloc),
        }
    }

    /// These lines.
    pub fn of(tree: &'a Tree, rows: Vec<Vec<ResolvedElement>>) -> Self
        requires { AreLines tree.now (map (λ row. row.items) rows.items) }
        ensures { result.tree.now ≡ tree.now }
    {
        Lines { tree, rows }
    }

    /// The elements from a class's on; none where they are not known.
    fn line(&self, class: usize) -> &[ResolvedElement]
        ensures { result.now ≡ slice_index_or (map (λ row. row.items) self.now.rows.items) class [] }
    {
        match self.rows.get(class) {
            None => &[],
            Some(line) => line.as_slice(),
        }
    }

    /// How long the line of an element is, with the element itself. Its contract says nothing: the element at the index that it leads to is tested.
    pub fn length_from(&self, element: ResolvedElement) -> usize {
        match element {
            ResolvedElement::Class(class) => self.line(class).len(),
            ResolvedElement::String => 2,
            ResolvedElement::Object | ResolvedElement::Int32 | ResolvedElement::Int64 => 1,
        }
    }

    /// How many types there are from one on to its top. Its contract says nothing: the type that it leads to is tested.
    pub fn height(&self, t: ResolvedType) -> usize {
        (t.brackets as usize).saturating_add(self.length_from(t.element))
    }

    /// The element at an index of the line of a class.
    fn up_from_class(&self, class: usize, index: usize) -> Option<ResolvedElement>
        ensures { IfSome result (λ above. IsUp self.now.tree.now (Class class) index above) }
    {
        match self.line(class).get(index) {
            None => None,
            Some(above) => Some(*above),
        }
    }

    /// The element at an index of the line of another.
    pub fn up(&self, element: ResolvedElement, index: usize) -> Option<ResolvedElement>
        ensures { IfSome result (λ above. IsUp self.now.tree.now element index above) }
    {
        match element {
            ResolvedElement::Class(class) => self.up_from_class(class, index),
            ResolvedElement::String => up_from_string(index),
            ResolvedElement::Object | ResolvedElement::Int32 | ResolvedElement::Int64 => {
                if index == 0 { Some(element) } else { None }
            }
        }
    }

    /// Whether an element is at an index of the line of a class.
    fn is_up(&self, class: usize, index: usize, required: ResolvedElement) -> bool
        ensures { result ≡ true → IsUp self.now.tree.now (Class class) index required }
    {
        match self.up_from_class(class, index) {
            None => false,
            Some(above) => is_same_element(above, required),
        }
    }

    /// Whether an element is in the line of a class.
    fn is_element_above(&self, above: ResolvedElement, class: usize) -> bool
        ensures { result ≡ true → (index : ℕ) × IsUp self.now.tree.now (Class class) index above }
    {
        let own = self.line(class).len();
        self.is_up(class, own.saturating_sub(self.length_from(above)), above)
    }

    /// Whether a type is seen to be above another: with the same number of brackets in the line of a class, or `object` with fewer brackets.
    pub fn is_above(&self, above: ResolvedType, below: ResolvedType) -> bool
        ensures { result ≡ true → IsBelow self.now.tree.now (OnStack.Declared (type_named self.now.tree.now below)) (OnStack.Declared (type_named self.now.tree.now above)) }
    {
        let ResolvedElement::Class(class) = below.element else {
            return false;
        };
        if !self.is_element_above(above.element, class) {
            return false;
        }
        if above.brackets == below.brackets {
            return true;
        }
        if above.brackets > below.brackets {
            return false;
        }
        is_same_element(above.element, ResolvedElement::Object)
    }
}
