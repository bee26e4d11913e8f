//! Types and classes by their numbers.

ghost use Rattle.std.specs.Prelude.{◌≡◌, option_map};
ghost use Rattle.cil_model.specs.Same.{same_text};
ghost use Rattle.name_tables.specs.Numbers.{class_number};
ghost use Rattle.resolved_code.specs.Outcomes.{Gives};
ghost use Rattle.resolved_code.specs.Rules.{if_named, element_rule, type_rule};

use crate::errors::ResolveError;
use crate::items::Resolve;
use crate::types::{ResolvedElement, ResolvedType};
use cil_model::types::{ClassName, DeclaredType, Element};
use name_tables::ids::ClassId;
use name_tables::keys::ClassKey;
use name_tables::lookups::NameTables;
use std::alloc::Global;

/// The id of the class that a name refers to.
pub fn class_id(names: &NameTables, class: &ClassName) -> Option<ClassId>
    ensures { result ≡ class_number names.now.classes.tree.now class.now }
{
    names.classes.id(ClassKey::of(class))
}

/// The id of the base, where one is named. Fails where the name refers to nothing.
pub fn base_id(
    names: &NameTables,
    base: Option<&ClassName>,
) -> Result<Option<ClassId>, ResolveError>
    ensures { Gives result (if_named (class_number names.now.classes.tree.now) (option_map (λ b. b.now) base.entry)) }
{
    match base {
        None => Ok(None),
        Some(class) => match class_id(names, class) {
            None => Err(ResolveError::Unresolved),
            found => Ok(found),
        },
    }
}

/// A class is resolved to its id.
impl<'a> Resolve<ClassName> for NameTables<'a> {
    type Resolved = ClassId;

    ghost rule = { λ names class. class_number names.classes.tree.now class };

    fn resolve(&self, _alloc: Global, class: &ClassName) -> Result<ClassId, ResolveError> {
        class_id(self, class).ok_or(ResolveError::Unresolved)
    }
}

fn resolved_element(names: &NameTables, element: &Element) -> Option<ResolvedElement>
    ensures { result ≡ element_rule names.now.classes.tree.now element.now }
{
    let resolved = match element {
        Element::Int32 => ResolvedElement::Int32,
        Element::Int64 => ResolvedElement::Int64,
        Element::Object => ResolvedElement::Object,
        Element::String => ResolvedElement::String,
        Element::Class(class) => ResolvedElement::Class(class_id(names, class)?.number()),
    };
    Some(resolved)
}

/// A type by number (ECMA-335 II.7.1). None where the class that it names refers to nothing.
pub fn resolved_type(names: &NameTables, declared: &DeclaredType) -> Option<ResolvedType>
    ensures { result ≡ type_rule names.now.classes.tree.now declared.now }
{
    Some(ResolvedType {
        element: resolved_element(names, &declared.element)?,
        brackets: declared.brackets,
    })
}

/// A type is resolved to the type by number.
impl<'a> Resolve<DeclaredType> for NameTables<'a> {
    type Resolved = ResolvedType;

    ghost rule = { λ names declared. type_rule names.classes.tree.now declared };

    fn resolve(
        &self,
        _alloc: Global,
        declared: &DeclaredType,
    ) -> Result<ResolvedType, ResolveError> {
        resolved_type(self, declared).ok_or(ResolveError::Unresolved)
    }
}

/// A return type by number; none is `void`. Fails where the class that it names refers to nothing.
pub fn resolved_return(
    names: &NameTables,
    return_type: &Option<DeclaredType>,
) -> Result<Option<ResolvedType>, ResolveError>
    ensures { Gives result (if_named (type_rule names.now.classes.tree.now) return_type.now) }
{
    match return_type {
        None => Ok(None),
        Some(declared) => match resolved_type(names, declared) {
            None => Err(ResolveError::Unresolved),
            found => Ok(found),
        },
    }
}
