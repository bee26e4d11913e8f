//! Names that stand twice (number 201).

use crate::rule_evidence::{Evidence, Located};
use crate::sentences::{write_one, write_two};
use crate::sites::{MemberSpot, Sites, class_name, key_of, listed_interface, located_method};
use metadata::violations;
use metadata::violations::{DuplicateInClass, Repeat, SourceMember};
use source_positions::cil_model::texts::Text;
use source_positions::cil_model::trees::{Method, Tree};
use source_positions::name_tables::bodies::lines_of;
use source_positions::name_tables::keys::{ClassKey, MethodKey};
use source_positions::{
    ClassPart, ClassText, LinePart, Location, MethodText, nth_field, nth_method,
};
use std::fmt;

/// A name that occurs twice where it must occur once.
#[derive(Clone, Copy)]
pub enum Duplicate<'a> {
    Extern(&'a Text),
    Class(&'a Text),
    /// In the list of a class.
    Interface {
        class: &'a Text,
        interface: ClassKey<'a>,
    },
    Field {
        class: &'a Text,
        field: &'a Text,
    },
    /// With its signature.
    Method {
        class: &'a Text,
        method: MethodKey<'a>,
    },
    /// In a method.
    Label(&'a Text),
}

impl fmt::Display for Duplicate<'_> {
    fn fmt<W: fmt::Write>(&self, f: &mut fmt::Formatter<W>) -> fmt::Result {
        match self {
            Duplicate::Extern(name) => write_name(f, "the extern `", *name, "` is declared twice"),
            Duplicate::Class(name) => write_name(f, "two classes have the name `", *name, "`"),
            Duplicate::Interface { class, interface } => {
                let interface = ClassText(*interface);
                write_of_class(f, *class, "` lists `", &interface, "` twice")
            }
            Duplicate::Field { class, field } => {
                let field = field.as_str();
                write_of_class(f, *class, "` has two fields `", &field, "`")
            }
            Duplicate::Method { class, method } => {
                let method = MethodText(*method);
                write_of_class(f, *class, "` has two methods `", &method, "`")
            }
            Duplicate::Label(name) => {
                write_name(f, "the label `", *name, "` is defined twice in the method")
            }
        }
    }
}

impl Evidence for Duplicate<'_> {
    fn note(&self) -> &'static str {
        "first declared here"
    }
}

fn write_name<W: fmt::Write>(
    f: &mut fmt::Formatter<W>,
    before: &str,
    name: &Text,
    after: &str,
) -> fmt::Result {
    write_one(f, before, &name.as_str(), after)
}

/// What a class has twice.
fn write_of_class<W: fmt::Write, N: fmt::Display>(
    f: &mut fmt::Formatter<W>,
    class: &Text,
    verb: &str,
    name: &N,
    after: &str,
) -> fmt::Result {
    write_two(f, "the class `", &class.as_str(), verb, name, after)
}

/// A name that occurs twice, at the second of its locations.
fn located_at(
    duplicates: Duplicate<'_>,
    again: Location,
    first: Location,
) -> Option<Located<Duplicate<'_>>> {
    Some((duplicates, Sites::beside(again, Some(first))))
}

fn duplicate_extern(tree: &Tree, repeat: Repeat) -> Option<Located<Duplicate<'_>>> {
    let duplicates = Duplicate::Extern(tree.externs.as_slice().get(repeat.again)?);
    let first = Location::Extern(repeat.first);
    located_at(duplicates, Location::Extern(repeat.again), first)
}

fn duplicate_class(tree: &Tree, repeat: Repeat) -> Option<Located<Duplicate<'_>>> {
    let again = tree.classes.as_slice().get(repeat.again)?;
    let duplicates = Duplicate::Class(&again.name);
    located_at(
        duplicates,
        class_name(repeat.again),
        class_name(repeat.first),
    )
}

/// A member of a class that stands twice, by its two numbers among the members.
fn found_in(
    duplicates: Duplicate<'_>,
    class: usize,
    again: usize,
    first: usize,
) -> Option<Located<Duplicate<'_>>> {
    let again = MemberSpot {
        class,
        member: again,
    };
    let first = MemberSpot {
        class,
        member: first,
    };
    located_at(duplicates, again.name(), first.name())
}

fn duplicate_field(tree: &Tree, class: usize, repeat: Repeat) -> Option<Located<Duplicate<'_>>> {
    let declared = tree.classes.as_slice().get(class)?;
    let (again, field) = nth_field(declared, repeat.again)?;
    let (first, _) = nth_field(declared, repeat.first)?;
    let duplicates = Duplicate::Field {
        class: &declared.name,
        field: &field.name,
    };
    found_in(duplicates, class, again, first)
}

fn duplicate_method(tree: &Tree, class: usize, repeat: Repeat) -> Option<Located<Duplicate<'_>>> {
    let declared = tree.classes.as_slice().get(class)?;
    let (again, method) = nth_method(declared, repeat.again)?;
    let (first, _) = nth_method(declared, repeat.first)?;
    let duplicates = Duplicate::Method {
        class: &declared.name,
        method: key_of(method),
    };
    found_in(duplicates, class, again, first)
}

fn interface_name(class: usize, entry: usize) -> Location {
    let part = ClassPart::Interface(entry);
    Location::InClass { class, part }
}

fn duplicate_interface(
    tree: &Tree,
    class: usize,
    repeat: Repeat,
) -> Option<Located<Duplicate<'_>>> {
    let declared = tree.classes.as_slice().get(class)?;
    let duplicates = Duplicate::Interface {
        class: &declared.name,
        interface: listed_interface(declared, repeat.again)?,
    };
    let again = interface_name(class, repeat.again);
    let first = interface_name(class, repeat.first);
    located_at(duplicates, again, first)
}

/// A label by its index among all labels of a method.
fn label_at(spot: MemberSpot, method: &Method, index: usize) -> Option<(&Text, Location)> {
    let mut left = index;
    for (number, line) in lines_of(method).iter().enumerate() {
        let labels = line.labels.as_slice();
        if let Some(label) = labels.get(left) {
            let after = labels.len().saturating_sub(left);
            return Some((label, spot.line(number, LinePart::Label(after))));
        }
        left = left.saturating_sub(labels.len());
    }
    None
}

fn duplicate_label(
    tree: &Tree,
    method: SourceMember,
    repeat: Repeat,
) -> Option<Located<Duplicate<'_>>> {
    let (spot, declared) = located_method(tree, method)?;
    let (label, again) = label_at(spot, declared, repeat.again)?;
    let (_, first) = label_at(spot, declared, repeat.first)?;
    located_at(Duplicate::Label(label), again, first)
}

/// A name that occurs twice in a class.
fn duplicate_in_class(
    tree: &Tree,
    class: usize,
    duplicates: DuplicateInClass,
) -> Option<Located<Duplicate<'_>>> {
    match duplicates {
        DuplicateInClass::Fields(fields) => duplicate_field(tree, class, fields),
        DuplicateInClass::Methods(methods) => duplicate_method(tree, class, methods),
        DuplicateInClass::Interfaces(entries) => duplicate_interface(tree, class, entries),
        DuplicateInClass::Labels { method, labels } => {
            let index = method;
            duplicate_label(tree, SourceMember { class, index }, labels)
        }
    }
}

/// A name that occurs twice where it must occur once (number 201), and its two locations. None where the tree has no such locations.
pub fn duplicate_name(
    tree: &Tree,
    duplicates: violations::Duplicate,
) -> Option<Located<Duplicate<'_>>> {
    match duplicates {
        violations::Duplicate::Externs(externs) => duplicate_extern(tree, externs),
        violations::Duplicate::Classes(classes) => duplicate_class(tree, classes),
        violations::Duplicate::InClass { class, duplicates } => duplicate_in_class(
            tree, class, duplicates,
        ),
    }
}
