//! Where rules are broken.

ghost use Rattle.std.specs.Prelude.{◌≡◌, IfSome, None, Some};
ghost use Rattle.legality_explanations.specs.Locations.{IsOfClass};

use metadata::violations::SourceMember;
use source_positions::cil_model::trees::{Class, ClassKind, Field, Member, Method, Tree};
use source_positions::name_tables::ids::{ClassId, MethodId};
use source_positions::name_tables::keys::{ClassKey, MethodKey};
use source_positions::name_tables::lookups::NameTables;
use source_positions::{ClassPart, LinePart, Location, MemberPart, nth_field, nth_method};

/// Where a rule is broken.
#[derive(Clone, Copy)]
pub struct Sites {
    /// The location itself; none where there is none, as of an entry point that is absent.
    pub location: Option<Location>,
    /// Where that stands with which it does not agree, as the first of two names; none where there is no such thing, or it is built in.
    pub other: Option<Location>,
}

impl Sites {
    /// Nowhere.
    pub const NONE: Sites = Sites {
        location: None,
        other: None,
    };

    /// One location.
    pub fn at(location: Location) -> Self
        ensures { (result.location ≡ Some location) × (result.other ≡ None) }
    {
        Sites {
            location: Some(location),
            other: None,
        }
    }

    /// A location that does not agree with another.
    pub fn beside(location: Location, other: Option<Location>) -> Self
        ensures { (result.location ≡ Some location) × (result.other ≡ other) }
    {
        Sites {
            location: Some(location),
            other,
        }
    }
}

/// A member by the number of its class in the source, and its own number among the members of that class.
#[derive(Clone, Copy)]
pub struct MemberSpot {
    pub class: usize,
    pub member: usize,
}

impl MemberSpot {
    /// A part of the member before its first instruction.
    pub fn part(self, part: MemberPart) -> Location
        ensures { IsOfClass self.class result }
    {
        Location::InMember {
            class: self.class,
            member: self.member,
            part,
        }
    }

    /// The member's name.
    pub fn name(self) -> Location
        ensures { IsOfClass self.class result }
    {
        self.part(MemberPart::Name)
    }

    /// A part of an instruction of the member.
    pub fn line(self, line: usize, part: LinePart) -> Location
        ensures { IsOfClass self.class result }
    {
        Location::InLine {
            class: self.class,
            member: self.member,
            line,
            part,
        }
    }
}

/// The name of the class of a number in the source.
pub fn class_name(class: usize) -> Location
    ensures { IsOfClass class result }
{
    Location::InClass {
        class,
        part: ClassPart::Name,
    }
}

/// The name and signature of a method.
pub fn key_of(method: &Method) -> MethodKey<'_> {
    MethodKey::new(&method.name, &method.signature)
}

/// A method of the source, and its number among the members of its class.
pub fn located_method(tree: &Tree, number: SourceMember) -> Option<(MemberSpot, &Method)>
    ensures { IfSome result (λ found. found.0.class ≡ number.class) }
{
    let SourceMember { class, index } = number;
    let (member, method) = nth_method(tree.classes.as_slice().get(class)?, index)?;
    Some((MemberSpot { class, member }, method))
}

/// A field of the source, and its number among the members of its class.
pub fn located_field(tree: &Tree, number: SourceMember) -> Option<(MemberSpot, &Field)>
    ensures { IfSome result (λ found. found.0.class ≡ number.class) }
{
    let SourceMember { class, index } = number;
    let (member, field) = nth_field(tree.classes.as_slice().get(class)?, index)?;
    Some((MemberSpot { class, member }, field))
}

/// An interface that a class lists, by its index in the list. None where it lists no such interface.
pub(crate) fn listed_interface(class: &Class, entry: usize) -> Option<ClassKey<'_>> {
    let ClassKind::Class { interfaces, .. } = &class.kind else {
        return None;
    };
    Some(ClassKey::of(interfaces.as_slice().get(entry)?))
}

/// The name of a class by its id.
pub(crate) fn class_key<'a>(names: &NameTables<'a>, class: ClassId) -> Option<ClassKey<'a>> {
    names.classes.names().get(class.number()).copied()
}

/// The name and signature of a method by its id.
pub(crate) fn method_key<'a>(names: &NameTables<'a>, method: MethodId) -> Option<MethodKey<'a>> {
    let methods = names.classes.class(method.class)?.methods.as_slice();
    Some(key_of(*methods.get(method.index)?))
}

/// The number in the source of a class. None for a built-in class.
pub(crate) fn source_number(names: &NameTables, class: ClassId) -> Option<usize> {
    let sources = names.classes.tree.classes.as_slice().len();
    let built_in = names.classes.names().len().checked_sub(sources)?;
    class.number().checked_sub(built_in)
}

/// The number of a method among the members of its class.
fn member_number(class: &Class, key: MethodKey) -> Option<usize> {
    for (number, member) in class.members.as_slice().iter().enumerate() {
        if let Member::Method(method) = member {
            if key_of(method) == key {
                return Some(number);
            }
        }
    }
    None
}

/// The location of the name of a method in a class. None where the class is built in or has no such method.
pub fn method_location(names: &NameTables, class: ClassId, key: MethodKey) -> Option<Location> {
    let class = source_number(names, class)?;
    let declared = names.classes.tree.classes.as_slice().get(class)?;
    let member = member_number(declared, key)?;
    Some(MemberSpot { class, member }.name())
}
