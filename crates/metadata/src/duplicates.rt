//! Names that occur twice where they must occur once.

ghost use Rattle.std.specs.Prelude.{◌≡◌, IfOk, is_some, map};
ghost use Rattle.std.specs.List.{list_any};
ghost use Rattle.cil_model.specs.Same.{same_text, same_class};
ghost use Rattle.cil_model.specs.Declarations.{field_members, method_members, interfaces_named};
ghost use Rattle.cil_model.specs.Legality.{has_repeat, same_method, labels_before, class_doubles, doubles_name};

use crate::violations::{Duplicate, DuplicateInClass, Repeat};
use cil_model::memory::NoMemory;
use cil_model::texts::Text;
use cil_model::trees::{Class, ClassKind, Field, Method, Tree};
use cil_model::types::ClassName;
use name_tables::bodies::label_keys;
use name_tables::class_tables::method_keys;
use name_tables::classes::{field_members, method_members};
use name_tables::key_indices::KeyIndices;
use name_tables::keys::ClassKey;
use std::alloc::Global;
use std::cmp::Eq;
use std::hash::Hash;

/// What has a name, before which an assembly may be written.
trait Named {
    ghost use Rattle.cil_model.specs.declared.types.ClassName.{ClassName};
    ghost use Rattle.name_tables.specs.Keys.{class_of_key};

    ghost name_of: { Self → ClassName };

    fn key(&self) -> ClassKey<'_>
        ensures { class_of_key result ≡ name_of self.now };
}

/// An extern, by the assembly's name alone.
impl Named for Text {
    ghost use Rattle.std.specs.Prelude.{None};

    ghost name_of = { λ t. record { assembly = None; name = t } };

    fn key(&self) -> ClassKey<'_> {
        ClassKey {
            assembly: None,
            name: self,
        }
    }
}

impl Named for Class {
    ghost use Rattle.cil_model.specs.Declarations.{source_name};

    ghost name_of = { source_name };

    fn key(&self) -> ClassKey<'_> {
        ClassKey::of_source(self)
    }
}

impl Named for &Field {
    ghost use Rattle.std.specs.Prelude.{None};

    ghost name_of = { λ f. record { assembly = None; name = f.now.name } };

    fn key(&self) -> ClassKey<'_> {
        ClassKey {
            assembly: None,
            name: &self.name,
        }
    }
}

impl Named for ClassName {
    ghost name_of = { λ c. c };

    fn key(&self) -> ClassKey<'_> {
        ClassKey::of(self)
    }
}

/// The next index after the first one with that number.
fn index_again(numbers: &[usize], first: usize) -> usize {
    for (index, number) in numbers.iter().enumerate() {
        if index > first && *number == first {
            return index;
        }
    }
    first
}

/// Where the first key that occurs again further on does so.
fn repeat_among<K: Eq + Hash + Copy + Drop>(indices: &KeyIndices<K>) -> Option<Repeat>
    ensures { is_some result ≡ has_repeat K.eq indices.now }
{
    let first = indices.first_repeat()?;
    let again = index_again(indices.numbers(), first);
    Some(Repeat { first, again })
}

/// The same among keys whose indices are not known.
fn repeated_key<K: Eq + Hash + Copy + Drop>(
    alloc: Global,
    keys: Vec<K>,
) -> Result<Option<Repeat>, NoMemory>
    ensures { IfOk result (λ r. is_some r ≡ has_repeat K.eq keys.items) }
{
    let indices = KeyIndices::new(alloc, keys)?;
    Ok(repeat_among(&indices))
}

/// The same among the names of these items.
fn repeated_name<T: Named>(alloc: Global, items: &[T]) -> Result<Option<Repeat>, NoMemory>
    ensures { IfOk result (λ r. is_some r ≡ has_repeat (λ a b. same_class (T.name_of a) (T.name_of b)) items.now) }
{
    let mut keys = Vec::new(alloc);
    for item in items {
        keys.push(item.key())?;
    }
    repeated_key(alloc, keys)
}

fn repeated_field(alloc: Global, class: &Class) -> Result<Option<Repeat>, NoMemory>
    ensures { IfOk result (λ r. is_some r ≡ has_repeat (λ a b. same_text a.name b.name) (field_members class.now)) }
{
    let fields = field_members(alloc, class)?;
    repeated_name(alloc, fields.as_slice())
}

fn repeated_method(alloc: Global, class: &Class) -> Result<Option<Repeat>, NoMemory>
    ensures { IfOk result (λ r. is_some r ≡ has_repeat same_method (method_members class.now)) }
{
    let methods = method_members(alloc, class)?;
    let keys = method_keys(alloc, methods.as_slice())?;
    repeated_key(alloc, keys)
}

/// The interfaces that a class lists (ECMA-335 II.12.1); an interface lists none in this profile.
pub fn interfaces_named(kind: &ClassKind) -> &[ClassName]
    ensures { result.now ≡ interfaces_named kind.now }
{
    match kind {
        ClassKind::Interface => &[],
        ClassKind::Class { interfaces, .. } => interfaces.as_slice(),
    }
}

fn repeated_label(alloc: Global, method: &Method) -> Result<Option<Repeat>, NoMemory>
    ensures { IfOk result (λ r. is_some r ≡ has_repeat same_text (labels_before method.now)) }
{
    let labels = label_keys(alloc, method)?;
    repeated_key(alloc, labels)
}

/// The first of these methods with a label that occurs twice, and its indices among the labels of the method.
fn first_with_repeated_label(
    alloc: Global,
    methods: &[&Method],
) -> Result<Option<DuplicateInClass>, NoMemory>
    ensures { IfOk result (λ d. is_some d ≡ list_any (λ m. has_repeat same_text (labels_before m)) (map (λ m. m.now) methods.now)) }
{
    for (method, declared) in methods.iter().enumerate() {
        if let Some(labels) = repeated_label(alloc, declared)? {
            return Ok(Some(DuplicateInClass::Labels { method, labels }));
        }
    }
    Ok(None)
}

/// What occurs twice in a method of a class: a label.
fn duplicate_in_methods(alloc: Global, class: &Class) -> Result<Option<DuplicateInClass>, NoMemory>
    ensures { IfOk result (λ d. is_some d ≡ list_any (λ m. has_repeat same_text (labels_before m)) (method_members class.now)) }
{
    let methods = method_members(alloc, class)?;
    first_with_repeated_label(alloc, methods.as_slice())
}

/// What occurs twice in a class: a field, a method, an interface that it lists, or a label.
fn duplicate_in_class(alloc: Global, class: &Class) -> Result<Option<DuplicateInClass>, NoMemory>
    ensures { IfOk result (λ d. is_some d ≡ class_doubles class.now) }
{
    if let Some(fields) = repeated_field(alloc, class)? {
        return Ok(Some(DuplicateInClass::Fields(fields)));
    }
    if let Some(methods) = repeated_method(alloc, class)? {
        return Ok(Some(DuplicateInClass::Methods(methods)));
    }
    if let Some(interfaces) = repeated_name(alloc, interfaces_named(&class.kind))? {
        return Ok(Some(DuplicateInClass::Interfaces(interfaces)));
    }
    duplicate_in_methods(alloc, class)
}

fn duplicate_in_classes(alloc: Global, classes: &[Class]) -> Result<Option<Duplicate>, NoMemory>
    ensures { IfOk result (λ d. is_some d ≡ list_any class_doubles classes.now) }
{
    for (class, declared) in classes.iter().enumerate() {
        if let Some(duplicates) = duplicate_in_class(alloc, declared)? {
            return Ok(Some(Duplicate::InClass { class, duplicates }));
        }
    }
    Ok(None)
}

/// The first duplicate name among the externs, the classes, the fields, the methods with their signatures, the listed
/// interfaces or the labels; none where there is none (number 201). The only error is out of memory.
pub fn duplicate_name(alloc: Global, tree: &Tree) -> Result<Option<Duplicate>, NoMemory>
    ensures { IfOk result (λ d. is_some d ≡ doubles_name tree.now) }
{
    if let Some(externs) = repeated_name(alloc, tree.externs.as_slice())? {
        return Ok(Some(Duplicate::Externs(externs)));
    }
    if let Some(classes) = repeated_name(alloc, tree.classes.as_slice())? {
        return Ok(Some(Duplicate::Classes(classes)));
    }
    duplicate_in_classes(alloc, tree.classes.as_slice())
}
