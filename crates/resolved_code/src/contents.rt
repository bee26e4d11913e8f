//! A legal tree by numbers.

ghost use Rattle.std.specs.Prelude.{◌≡◌, IfOk, option_map, slice_get, option_and_then};
ghost use Rattle.cil_model.specs.Legality.{IsLegal};
ghost use Rattle.resolved_code.specs.ResolvedPrograms.{AreResolved};
ghost use Rattle.resolved_code.specs.Contents.{IsContents, IsEntryPoint};

use crate::classes::{ResolvedClass, ResolvedField, ResolvedMethod};
use crate::entries::entry_id;
use crate::errors::ResolveError;
use crate::literals::Literals;
use crate::resolved::resolve_classes;
use cil_model::memory::NoMemory;
use cil_model::sequences::Sequence;
use cil_model::texts::Text;
use name_tables::ids::{ClassId, FieldId, MethodId};
use name_tables::lookups::NameTables;
use std::alloc::Global;

/// The classes of a legal tree by their numbers, its literals by theirs, and its entry point.
#[derive(Drop)]
pub struct Contents {
    pub classes: Sequence<ResolvedClass>,
    pub literals: Sequence<Text>,
    pub entry_point: MethodId,
}

/// The entry point of a legal tree.
fn entry_of_legal(names: &NameTables) -> MethodId
    requires { IsLegal names.now.classes.tree.now }
    ensures { IsEntryPoint names.now.classes.tree.now result }
{
    let Some(entry_point) = entry_id(names.classes.all()) else {
        unreachable!()
    };
    entry_point
}

/// The classes of a legal tree by their numbers.
fn classes_of_legal(
    alloc: Global,
    names: &NameTables,
    literals: &Literals,
) -> Result<Sequence<ResolvedClass>, NoMemory>
    requires legal { IsLegal names.now.classes.tree.now }
    requires literals { literals.now.tree.now ≡ names.now.classes.tree.now }
    ensures { IfOk result (λ classes. AreResolved names.now.classes.tree.now classes) }
{
    match resolve_classes(alloc, names, literals) {
        Ok(classes) => Ok(classes),
        Err(ResolveError::OutOfMemory) => Err(NoMemory),
        Err(ResolveError::Unresolved) => unreachable!(),
    }
}

impl Contents {
    /// What a legal tree with these literals is by numbers.
    fn with_literals(
        alloc: Global,
        names: &NameTables,
        literals: &Literals,
    ) -> Result<Self, NoMemory>
        requires legal { IsLegal names.now.classes.tree.now }
        requires literals { literals.now.tree.now ≡ names.now.classes.tree.now }
        ensures { IfOk result (λ c. IsContents names.now.classes.tree.now c) }
    {
        let entry_point = entry_of_legal(names);
        let texts = literals.texts(alloc)?;
        let classes = classes_of_legal(alloc, names, literals)?;
        Ok(Contents {
            classes,
            literals: texts,
            entry_point,
        })
    }

    /// What a legal tree is by numbers. The only error is out of memory.
    pub fn of_legal(alloc: Global, names: &NameTables) -> Result<Self, NoMemory>
        requires { IsLegal names.now.classes.tree.now }
        ensures { IfOk result (λ c. IsContents names.now.classes.tree.now c) }
    {
        let literals = Literals::new(alloc, names.classes.tree)?;
        Contents::with_literals(alloc, names, &literals)
    }
}

fn at<T>(items: &[T], index: usize) -> Option<&T>
    ensures { option_map (λ x. x.now) result ≡ slice_get items.now index }
{
    items.get(index)
}

fn class_at(classes: &[ResolvedClass], class: ClassId) -> Option<&ResolvedClass>
    ensures { option_map (λ x. x.now) result ≡ slice_get classes.now class }
{
    at(classes, class.number())
}

/// The field of an id.
pub(crate) fn field_at(classes: &[ResolvedClass], field: FieldId) -> Option<&ResolvedField>
    ensures { option_map (λ f. f.now) result ≡ option_and_then (λ r. slice_get r.fields field.index) (slice_get classes.now field.class) }
{
    match class_at(classes, field.class) {
        None => None,
        Some(class) => at(class.fields.as_slice(), field.index),
    }
}

/// The method of an id.
pub(crate) fn method_at(classes: &[ResolvedClass], method: MethodId) -> Option<&ResolvedMethod>
    ensures { option_map (λ m. m.now) result ≡ option_and_then (λ r. slice_get r.methods method.index) (slice_get classes.now method.class) }
{
    match class_at(classes, method.class) {
        None => None,
        Some(class) => at(class.methods.as_slice(), method.index),
    }
}
