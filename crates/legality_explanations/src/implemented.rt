//! Methods of listed interfaces that are absent (number 204).

ghost use Rattle.std.specs.Prelude.{IfSome};
ghost use Rattle.legality_explanations.specs.Locations.{IsOfClass};

use crate::rule_evidence::{Evidence, Located};
use crate::sites::{Sites, class_key, listed_interface, method_key, method_location};
use metadata::violations;
use source_positions::cil_model::texts::Text;
use source_positions::cil_model::trees::Class;
use source_positions::name_tables::ids::MethodId;
use source_positions::name_tables::keys::{ClassKey, MethodKey};
use source_positions::name_tables::lookups::NameTables;
use source_positions::{ClassPart, ClassText, Location, MethodText};
use std::fmt;

/// A method of an interface that a class lists, for which no class of the chain has a virtual method.
#[derive(Clone, Copy)]
pub struct NotImplemented<'a> {
    pub class: &'a Text,
    pub interface: ClassKey<'a>,
    pub method: MethodKey<'a>,
    /// The nearest class that has such a method, which is not virtual.
    pub nonvirtual_in: Option<ClassKey<'a>>,
}

impl fmt::Display for NotImplemented<'_> {
    fn fmt<W: fmt::Write>(&self, f: &mut fmt::Formatter<W>) -> fmt::Result {
        let class = self.class.as_str();
        let interface = ClassText(self.interface);
        let method = MethodText(self.method);
        write!(
            f,
            "the class `{class}` implements `{interface}`, but has no virtual method `{method}`, declared or inherited"
        )?;
        match self.nonvirtual_in {
            None => Ok(()),
            Some(owner) => {
                let owner = ClassText(owner);
                write!(f, ": that of `{owner}` is not virtual")
            }
        }
    }
}

impl Evidence for NotImplemented<'_> {}

/// The nearest class from one on along its bases with a method of this name and signature.
fn owner_along<'a>(names: &NameTables<'a>, first: &Class, key: MethodKey) -> Option<ClassKey<'a>> {
    let mut next = names.classes.id(ClassKey::of_source(first));
    for _ in 0..names.classes.longest_chain() {
        let class = next?;
        if names.classes.method(class, key).is_some() {
            return class_key(names, class);
        }
        next = names.base(class);
    }
    None
}

/// A method of a listed interface that a class neither has nor inherits as a virtual one. None where the tree has no such location.
pub(crate) fn not_implemented<'a>(
    names: &NameTables<'a>,
    absent: violations::NotImplemented,
) -> Option<Located<NotImplemented<'a>>>
    ensures { IfSome result (λ found. IfSome found.1.location (IsOfClass absent.class)) }
{
    let violations::NotImplemented { class, listed } = absent;
    let declared = names.classes.tree.classes.as_slice().get(class)?;
    let interface = listed_interface(declared, listed.interface)?;
    let owner = names.classes.id(interface)?;
    let id = MethodId {
        class: owner,
        index: listed.method,
    };
    let method = method_key(names, id)?;
    let absent = NotImplemented {
        class: &declared.name,
        interface,
        method,
        nonvirtual_in: owner_along(names, declared, method),
    };
    let part = ClassPart::Interface(listed.interface);
    let location = Location::InClass { class, part };
    let sites = Sites::beside(location, method_location(names, owner, method));
    Some((absent, sites))
}
