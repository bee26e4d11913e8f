//! The tree of types, and merges in it (ECMA-335 III.1.8.1.3; the tree is this profile's).

ghost use Rattle.std.specs.Prelude.{◌≡◌, ◌≤◌, ◌+◌, ◌-◌, ◌==◌, ◌||◌, if◌then◌else◌, ℕ, true, false, Some, None, option_map, map, slice_get, IfOk, IfSome};
ghost use Rattle.cil_model.specs.declared.trees.Tree.{Tree};
ghost use Rattle.cil_model.specs.declared.types.ClassName.{ClassName};
ghost use Rattle.cil_model.specs.declared.types.Element.TheVariants as Named;
ghost use Rattle.cil_model.specs.Assignable.{element_of_class, type_of_class, is_class_assignable, is_assignable};
ghost use Rattle.std.specs.List.{list_any};
ghost use Rattle.cil_model.specs.Chains.{base_of, longest_chain};
ghost use Rattle.cil_model.specs.TypeTree.{ancestor, parent, parent_at, parent_element, IsBelow};
ghost use Rattle.cil_model.specs.TypeTree as OnStack;
ghost use Rattle.cil_model.specs.Legality.{IsLegal};
ghost use Rattle.resolved_code.specs.ById.{class_name};
ghost use Rattle.resolved_code.specs.declared.types.ResolvedElement.TheVariants.{Object, Class};
ghost use Rattle.flow_rules.specs.declared.entries.StackEntry.TheVariants.{Declared, Null};
ghost use Rattle.flow_rules.specs.StackTypes.{type_named, element_named, class_named, is_known};
ghost use Rattle.flow_rules.specs.Merging.{AreClasses, AreLevel, IsClassAt, IsDepth, IsFork, IsMerged, IsLine, AreLines};

use crate::entries::{StackEntry, is_reference};
use crate::lines::Lines;
use cil_model::memory::NoMemory;
use cil_model::trees::Tree;
use name_tables::ids::{ClassId, OBJECT, STRING};
use resolved_code::classes::ResolvedClass;
use resolved_code::type_tests::TypeTest;
use resolved_code::types::{ResolvedElement, ResolvedType};
use std::alloc::Global;
use std::marker::Model;

/// Two types on the way up from another, the second above the first.
#[derive(Clone, Copy)]
struct Fork {
    below: ResolvedType,
    above: ResolvedType,
}

/// The types of a legal program, each below its parent. Contracts see it as the program's tree.
#[derive(Drop)]
pub struct TypeTree<'a> {
    lines: Lines<'a>,
    classes: &'a [ResolvedClass],
}

impl<'a> Model for TypeTree<'a> {
    ghost use Rattle.cil_model.specs.declared.trees.Tree.{Tree};
    ghost use Rattle.flow_rules.specs.Merging.{AreClasses};

    ghost Value = { Tree };

    ghost view = { λ t. t.lines.tree.now };

    ghost invariant = { λ t. AreClasses t.lines.tree.now t.classes.now };
}

impl<'a> TypeTree<'a> {
    /// The types of a legal program with these classes. Follows the bases of each class once. The only error is out of memory.
    pub fn new(
        tree: &'a Tree,
        classes: &'a [ResolvedClass],
        alloc: Global,
    ) -> Result<Self, NoMemory>
        requires { AreClasses tree.now classes.now }
        ensures { IfOk result (λ t. t ≡ tree.now) }
    {
        let without_lines = TypeTree {
            lines: Lines::none(tree, alloc),
            classes,
        };
        let rows = without_lines.rows(alloc)?;
        Ok(TypeTree {
            lines: Lines::of(tree, rows),
            classes,
        })
    }

    /// The element above another, with any brackets after both; none above an element that has one only with brackets after it.
    fn element_above(&self, element: ResolvedElement) -> Option<ResolvedElement>
        ensures { IfSome result (λ above. (brackets : ℕ) → parent_at self.now (element_named self.now element) brackets ≡ Some (record { element = element_named self.now above; brackets = brackets })) }
    {
        match element {
            ResolvedElement::Class(number) => Some(self.base_element(number)),
            ResolvedElement::String => Some(ResolvedElement::Object),
            ResolvedElement::Object | ResolvedElement::Int32 | ResolvedElement::Int64 => None,
        }
    }

    fn count_classes(&self) -> usize {
        self.classes.len()
    }

    /// The elements from a class's on, each above the one before it. The only error is out of memory.
    fn line_from(&self, class: usize, alloc: Global) -> Result<Vec<ResolvedElement>, NoMemory>
        ensures { IfOk result (λ line. IsLine self.now class line.items) }
    {
        let mut line = Vec::new(alloc);
        let mut here = ResolvedElement::Class(class);
        for step in 0..self.count_classes() {
            line.push(here)?;
            match self.element_above(here) {
                None => return Ok(line),
                Some(above) => here = above,
            }
        }
        Ok(line)
    }

    /// The same of each class. The only error is out of memory.
    fn rows(&self, alloc: Global) -> Result<Vec<Vec<ResolvedElement>>, NoMemory>
        ensures { IfOk result (λ rows. AreLines self.now (map (λ row. row.items) rows.items)) }
    {
        let mut rows = Vec::new(alloc);
        for class in 0..self.count_classes() {
            rows.push(self.line_from(class, alloc)?)?;
        }
        Ok(rows)
    }

    /// Whether a type is seen at once to be above another.
    fn is_above(&self, above: ResolvedType, below: ResolvedType) -> bool
        ensures { result ≡ true → IsBelow self.now (OnStack.Declared (type_named self.now below)) (OnStack.Declared (type_named self.now above)) }
    {
        self.lines.is_above(above, below)
    }

    /// The type itself; in place of a number that is no class's, System.Object's.
    fn without_null(&self, t: ResolvedType) -> ResolvedType
        ensures known { is_known self.now result.element ≡ true }
        ensures same { type_named self.now result ≡ type_named self.now t }
    {
        let ResolvedElement::Class(number) = t.element else {
            return t;
        };
        if number < self.classes.len() {
            return t;
        }
        ResolvedType {
            element: ResolvedElement::Class(0),
            brackets: t.brackets,
        }
    }

    /// The class with this number.
    pub fn class(&self, number: usize) -> Option<&ResolvedClass>
        ensures found { IfSome result (λ class. IsClassAt self.now number class.now) }
        ensures beyond { result ≡ None → class_name self.now number ≡ None }
        ensures legal { IsLegal self.now }
    {
        item_at(self.classes, number)
    }

    /// The element of a class's parent: its base, or `object`.
    fn base_element(&self, number: usize) -> ResolvedElement
        ensures named { element_named self.now result ≡ parent_element (base_of self.now (class_named self.now number)) }
        ensures known { is_known self.now result ≡ true }
    {
        match self.class(number) {
            None => ResolvedElement::Object,
            Some(class) => match class.base {
                None => ResolvedElement::Object,
                Some(base) => element_of_class(base),
            },
        }
    }

    /// The parent of a type (this profile). `object`, `int32` and `int64` have none.
    pub fn parent(&self, t: ResolvedType) -> Option<ResolvedType>
        ensures named { option_map (type_named self.now) result ≡ parent self.now (type_named self.now t) }
        ensures known { IfSome result (λ p. is_known self.now p.element ≡ true) }
    {
        match t.element {
            ResolvedElement::Class(number) => Some(ResolvedType {
                element: self.base_element(number),
                brackets: t.brackets,
            }),
            ResolvedElement::String => Some(objects(t.brackets)),
            ResolvedElement::Object | ResolvedElement::Int32 | ResolvedElement::Int64 => {
                parent_of_array(t)
            }
        }
    }

    /// More parents than a type has above it.
    fn most_steps(&self, t: ResolvedType) -> usize
        ensures enough { longest_chain self.now + t.brackets + 2 ≤ result }
        ensures legal { IsLegal self.now }
    {
        self.classes.len() + t.brackets as usize + 2
    }

    /// How many parents a type has above it.
    fn depth(&self, t: ResolvedType) -> usize
        ensures { IsDepth self.now (type_named self.now t) result }
    {
        let most = self.most_steps(t);
        let mut here = t;
        for step in 0..most {
            match self.parent(here) {
                None => return step,
                Some(parent) => here = parent,
            }
        }
        most
    }

    /// The type that is `steps` parents up.
    fn ancestor(&self, t: ResolvedType, steps: usize) -> Option<ResolvedType>
        requires { is_known self.now t.element ≡ true }
        ensures named { option_map (type_named self.now) result ≡ ancestor self.now steps (type_named self.now t) }
        ensures known { IfSome result (λ a. is_known self.now a.element ≡ true) }
    {
        let mut here = t;
        for step in 0..steps {
            here = self.parent(here)?;
        }
        Some(here)
    }

    /// The closest type above two others that have the same number of parents above them. Both chains are climbed together.
    fn merged_at_one_depth(&self, first: ResolvedType, second: ResolvedType) -> Option<ResolvedType>
        requires first { is_known self.now first.element ≡ true }
        requires second { is_known self.now second.element ≡ true }
        requires level { AreLevel self.now (type_named self.now first) (type_named self.now second) }
        ensures { IsMerged self.now (Declared first) (Declared second) (option_map Declared result) }
    {
        let mut here = first;
        let mut there = second;
        for step in 0..self.most_steps(first) {
            if is_same(here, there) {
                return Some(here);
            }
            let one = self.parent(here)?;
            let other = self.parent(there)?;
            here = one;
            there = other;
        }
        None
    }

    /// The type that is `steps` parents up, where it is seen at once: in the line of its element, or beyond it `object` with fewer
    /// brackets.
    fn up(&self, t: ResolvedType, steps: usize) -> Option<ResolvedType>
        ensures { IfSome result (λ above. ancestor self.now steps (type_named self.now t) ≡ Some (type_named self.now above)) }
    {
        match self.lines.up(t.element, steps) {
            Some(element) => Some(ResolvedType {
                element,
                brackets: t.brackets,
            }),
            None => self.object_up(t, steps),
        }
    }

    /// The `object` that is `steps` parents up, beyond the line of a type's element.
    fn object_up(&self, t: ResolvedType, steps: usize) -> Option<ResolvedType>
        ensures { IfSome result (λ above. ancestor self.now steps (type_named self.now t) ≡ Some (type_named self.now above)) }
    {
        let last = self.lines.length_from(t.element).saturating_sub(1);
        let top = self.lines.up(t.element, last)?;
        let fewer = steps.saturating_sub(last);
        if fewer == 0 || has_element_above(top) {
            return None;
        }
        fewer_brackets(t.brackets, fewer)
    }

    /// Whether two types have the same type above them at a height, counted from their tops. Its contract says nothing.
    fn is_shared(&self, first: ResolvedType, second: ResolvedType, height: usize) -> bool {
        let one = self.up(first, self.lines.height(first).saturating_sub(height));
        let other = self.up(second, self.lines.height(second).saturating_sub(height));
        one == other
    }

    /// How many types two others share, counted from their tops, by halves. Its contract says nothing: the types that it leads to are tested.
    fn shared_depth(&self, first: ResolvedType, second: ResolvedType) -> usize {
        let mut least = 0;
        let mut most = self.lines.height(first).min(self.lines.height(second));
        while least < most {
            let middle = most - (most - least) / 2;
            if self.is_shared(first, second, middle) {
                least = middle;
            } else {
                most = middle - 1;
            }
        }
        least
    }

    /// The last type on the way up from another that is not among the `shared` types at its top, and the first that is, where they are seen.
    fn fork(&self, t: ResolvedType, shared: usize) -> Option<Fork>
        ensures legal { IfSome result (λ _. IsLegal self.now) }
        ensures known { IfSome result (λ fork. is_known self.now fork.below.element ≡ true) }
        ensures steps { IfSome result (λ fork. IsFork self.now (type_named self.now t) (type_named self.now fork.below) (type_named self.now fork.above)) }
    {
        let height = self.lines.height(t);
        let steps = height.saturating_sub(shared).checked_sub(1)?;
        let below = self.up(t, steps)?;
        let above = self.up(t, steps + 1)?;
        Some(Fork {
            below: self.without_null(below),
            above,
        })
    }

    /// The type in which the ways up from two others meet, where it is seen: it is above both, and the types below it on the two ways
    /// differ.
    fn meet(&self, first: ResolvedType, second: ResolvedType) -> Option<ResolvedType>
        ensures { IfSome result (λ above. IsMerged self.now (Declared first) (Declared second) (Some (Declared above))) }
    {
        let shared = self.shared_depth(first, second);
        let one = self.fork(first, shared)?;
        let other = self.fork(second, shared)?;
        if !is_same(one.above, other.above) || is_same(one.below, other.below) {
            return None;
        }
        Some(one.above)
    }

    /// The closest type above two others. Mostly they are one, or one of them is above the other, or it is seen where they meet. Otherwise
    /// the deeper one is brought to the depth of the other, and both chains are climbed.
    fn merged_types(&self, first: ResolvedType, second: ResolvedType) -> Option<ResolvedType>
        requires first { is_known self.now first.element ≡ true }
        requires second { is_known self.now second.element ≡ true }
        ensures { IsMerged self.now (Declared first) (Declared second) (option_map Declared result) }
    {
        if is_same(first, second) {
            return Some(first);
        }
        if self.is_above(first, second) {
            return Some(first);
        }
        if self.is_above(second, first) {
            return Some(second);
        }
        if let Some(met) = self.meet(first, second) {
            return Some(met);
        }
        let one_depth = self.depth(first);
        let other_depth = self.depth(second);
        let one = self.ancestor(first, one_depth.saturating_sub(other_depth))?;
        let other = self.ancestor(second, other_depth.saturating_sub(one_depth))?;
        self.merged_at_one_depth(one, other)
    }

    /// The most classes that a chain has.
    fn longest_chain(&self) -> usize
        ensures { result ≡ longest_chain self.now }
    {
        self.classes.len().saturating_sub(2)
    }

    /// Whether a class is another, or lists it, or has a base of which that holds.
    fn is_class_assignable(&self, from: usize, to: usize) -> bool
        requires from { is_known self.now (Class from) ≡ true }
        requires to { is_known self.now (Class to) ≡ true }
        ensures { result ≡ is_class_assignable self.now (class_named self.now from) (class_named self.now to) }
    {
        let mut here = from;
        for step in 0..self.longest_chain() {
            let Some(class) = self.class(here) else {
                return false;
            };
            if is_or_lists(here, class, to) {
                return true;
            }
            match class.base {
                None => return false,
                Some(base) => here = base.number(),
            }
        }
        false
    }

    /// Whether a value of the first type may be given where the second is expected (ECMA-335 I.8.7).
    pub fn is_assignable(&self, from: ResolvedType, to: ResolvedType) -> bool
        ensures { result ≡ is_assignable self.now (type_named self.now from) (type_named self.now to) }
    {
        let one = self.without_null(from);
        let other = self.without_null(to);
        match one.test_for(other) {
            TypeTest::Answered(answer) => answer,
            TypeTest::OfClasses { from, to } => self.is_class_assignable(from, to),
        }
    }

    /// The closest common ancestor of two entries (ECMA-335 III.1.8.1.3; the tree is this profile's). None where no type is above
    /// both, as above `int32` and a reference.
    pub fn merge(&self, first: StackEntry, second: StackEntry) -> Option<StackEntry>
        ensures { IsMerged self.now first second result }
    {
        match (first, second) {
            (StackEntry::Declared(one), StackEntry::Declared(other)) => {
                let merged = self.merged_types(self.without_null(one), self.without_null(other))?;
                Some(StackEntry::Declared(merged))
            }
            (StackEntry::Null, StackEntry::Declared(t)) => merged_with_null(t),
            (StackEntry::Declared(t), StackEntry::Null) => merged_with_null(t),
            (StackEntry::Null, StackEntry::Null) => Some(StackEntry::Null),
            (StackEntry::NativeInt, StackEntry::NativeInt) => Some(StackEntry::NativeInt),
            _ => None,
        }
    }
}

/// The item at an index.
pub(crate) fn item_at<T>(items: &[T], index: usize) -> Option<&T>
    ensures found { IfSome result (λ item. slice_get items.now index ≡ Some item.now) }
    ensures beyond { result ≡ None → slice_get items.now index ≡ None }
{
    items.get(index)
}

/// Whether a class is another, or lists it.
fn is_or_lists(number: usize, class: &ResolvedClass, required: usize) -> bool
    ensures { result ≡ (number == required) || list_any (λ i. i == required) class.now.interfaces }
{
    let interfaces = class.interfaces.as_slice();
    number == required || interfaces.contains(&ClassId::new(required))
}

/// Null lies below every reference, and below no other type.
fn merged_with_null(t: ResolvedType) -> Option<StackEntry>
    ensures first { (tree : Tree) → IsMerged tree Null (Declared t) result }
    ensures second { (tree : Tree) → IsMerged tree (Declared t) Null result }
{
    if is_reference(t) {
        Some(StackEntry::Declared(t))
    } else {
        None
    }
}

/// Whether two types are one.
fn is_same(one: ResolvedType, other: ResolvedType) -> bool
    ensures same { result ≡ true → one ≡ other }
    ensures apart { result ≡ false → one ≡ other → ⊥ }
{
    one == other
}

/// Whether an element has another above it, with any brackets after both.
fn has_element_above(element: ResolvedElement) -> bool
    ensures { result ≡ false → (tree : Tree) (brackets : ℕ) → parent tree (record { element = element_named tree element; brackets = brackets + 1 }) ≡ Some (record { element = Named.Object; brackets = brackets }) }
{
    match element {
        ResolvedElement::Class(_) | ResolvedElement::String => true,
        ResolvedElement::Object | ResolvedElement::Int32 | ResolvedElement::Int64 => false,
    }
}

/// `object` with the given number of brackets less.
fn fewer_brackets(brackets: u32, fewer: usize) -> Option<ResolvedType>
    ensures { IfSome result (λ t. (t.element ≡ Object) × (t.brackets + fewer ≡ brackets)) }
{
    let fewer = u32::try_from(fewer).ok()?;
    Some(objects(brackets.checked_sub(fewer)?))
}

/// `object` with these brackets.
fn objects(brackets: u32) -> ResolvedType
    ensures { result ≡ record { element = Object; brackets = brackets } }
{
    ResolvedType {
        element: ResolvedElement::Object,
        brackets,
    }
}

/// The parent of `object[]`, `int32[]` or `int64[]` is `object`; what has no brackets has none.
fn parent_of_array(t: ResolvedType) -> Option<ResolvedType>
    ensures { result ≡ if t.brackets == 0 then None else Some (record { element = Object; brackets = t.brackets - 1 }) }
{
    if t.brackets == 0 {
        return None;
    }
    Some(objects(t.brackets - 1))
}

/// The element of a class's objects: `object` and `string` have names of their own (ECMA-335 II.7.2).
pub fn element_of_class(class: ClassId) -> ResolvedElement
    ensures named { (tree : Tree) → is_known tree (Class class) ≡ true → element_named tree result ≡ element_of_class (class_named tree class) }
    ensures known { (tree : Tree) → is_known tree (Class class) ≡ true → is_known tree result ≡ true }
{
    if class == OBJECT {
        ResolvedElement::Object
    } else if class == STRING {
        ResolvedElement::String
    } else {
        ResolvedElement::Class(class.number())
    }
}

/// The type of a class's objects (ECMA-335 II.7.2).
pub fn type_of_class(class: ClassId) -> ResolvedType
    ensures { (tree : Tree) (c : ClassName) → class_name tree class ≡ Some c → type_named tree result ≡ type_of_class c }
{
    ResolvedType {
        element: element_of_class(class),
        brackets: 0,
    }
}
