//! Methods whose kinds do not fit (number 205).

use crate::rule_evidence::{Evidence, Located};
use crate::sentences::{write_one, write_two};
use crate::sites::{
    MemberSpot, Sites, class_key, class_name, key_of, method_key, method_location, source_number,
};
use metadata::violations;
use metadata::violations::KindFault;
use source_positions::cil_model::texts::Text;
use source_positions::cil_model::trees::Class;
use source_positions::name_tables::ids::{ClassId, MethodId};
use source_positions::name_tables::keys::{ClassKey, MethodKey};
use source_positions::name_tables::lookups::NameTables;
use source_positions::{ClassText, Location, MethodText, nth_method};
use std::fmt;

/// A method whose kind does not fit its class or what it inherits.
#[derive(Clone, Copy)]
pub enum KindMismatch<'a> {
    /// A method of an interface that is not `newslot abstract virtual instance`.
    InInterface {
        interface: &'a Text,
        method: MethodKey<'a>,
    },
    /// An abstract method of a class that is not abstract.
    Abstract {
        class: &'a Text,
        method: MethodKey<'a>,
    },
    /// An abstract method that a class inherits, which is not abstract, and that is not overridden; and the class whose method hides it.
    LeftOpen {
        class: &'a Text,
        owner: ClassKey<'a>,
        method: MethodKey<'a>,
        hidden_by: Option<ClassKey<'a>>,
    },
    /// A virtual method without newslot over one that is not virtual.
    OverNonvirtual {
        class: &'a Text,
        method: MethodKey<'a>,
        owner: ClassKey<'a>,
    },
}

impl fmt::Display for KindMismatch<'_> {
    fn fmt<W: fmt::Write>(&self, f: &mut fmt::Formatter<W>) -> fmt::Result {
        match self {
            KindMismatch::InInterface { interface, method } => {
                let interface = interface.as_str();
                let method = MethodText(*method);
                write_two(
                    f,
                    "the method `",
                    &method,
                    "` of the interface `",
                    &interface,
                    "` is not `newslot abstract virtual instance`",
                )
            }
            KindMismatch::Abstract { class, method } => {
                let class = class.as_str();
                let method = MethodText(*method);
                write_two(
                    f,
                    "the class `",
                    &class,
                    "` is not abstract, but its method `",
                    &method,
                    "` is",
                )
            }
            KindMismatch::LeftOpen {
                class,
                owner,
                method,
                hidden_by,
            } => write_left_open(f, *class, *owner, *method, *hidden_by),
            KindMismatch::OverNonvirtual {
                class,
                method,
                owner,
            } => {
                let class = class.as_str();
                let method = MethodText(*method);
                write_two(
                    f,
                    "the method `",
                    &method,
                    "` of `",
                    &class,
                    "` is virtual without newslot, but that of `",
                )?;
                let owner = ClassText(*owner);
                write_one(f, "", &owner, "`, which it would override, is not virtual")
            }
        }
    }
}

fn write_left_open<W: fmt::Write>(
    f: &mut fmt::Formatter<W>,
    class: &Text,
    owner: ClassKey,
    method: MethodKey,
    hidden_by: Option<ClassKey>,
) -> fmt::Result {
    let class = class.as_str();
    let method = MethodText(method);
    write_two(
        f,
        "the class `",
        &class,
        "` is not abstract, but the abstract method `",
        &method,
        "` of `",
    )?;
    let owner = ClassText(owner);
    write_one(f, "", &owner, "` is not overridden in it")?;
    match hidden_by {
        None => Ok(()),
        Some(hiding) => {
            let hiding = ClassText(hiding);
            let after = "` is another, since it has newslot or is not virtual";
            write_one(f, ": that of `", &hiding, after)
        }
    }
}

impl Evidence for KindMismatch<'_> {}

fn located_at(kind_mismatch: KindMismatch<'_>, sites: Sites) -> Option<Located<KindMismatch<'_>>> {
    Some((kind_mismatch, sites))
}

/// What stands between a class and one of its bases, by their numbers: the last class that is not abstract, since there first a method of that
/// base is left open; and the last class that has a method of a name and signature.
#[derive(Clone, Copy)]
struct Nearer {
    open: Option<usize>,
    hiding: Option<usize>,
}

fn is_abstract_class(names: &NameTables, class: ClassId) -> bool {
    match names.classes.class(class) {
        None => false,
        Some(declared) => declared.is_abstract,
    }
}

/// What stands between a class and one of its bases. None where it is no base of the class.
fn nearer_than(
    names: &NameTables,
    first: ClassId,
    owner: ClassId,
    key: MethodKey,
) -> Option<Nearer> {
    let mut open = None;
    let mut hiding = None;
    let mut next = Some(first);
    for _ in 0..names.classes.longest_chain() {
        let class = next?;
        if class == owner {
            return Some(Nearer { open, hiding });
        }
        if names.classes.method(class, key).is_some() {
            hiding = Some(class.number());
        }
        if !is_abstract_class(names, class) {
            open = Some(class.number());
        }
        next = names.base(class);
    }
    None
}

/// A method that is left open, with what stands between its class, which is the owner, and the class that leaves it open.
fn described_left_open<'a>(
    names: &NameTables<'a>,
    owner: ClassId,
    method: MethodKey<'a>,
    nearer: Nearer,
) -> Option<Located<KindMismatch<'a>>> {
    let number = source_number(names, ClassId::new(nearer.open?))?;
    let kind_mismatch = KindMismatch::LeftOpen {
        class: &names.classes.tree.classes.as_slice().get(number)?.name,
        owner: class_key(names, owner)?,
        method,
        hidden_by: match nearer.hiding {
            None => None,
            Some(hiding) => class_key(names, ClassId::new(hiding)),
        },
    };
    let declared = method_location(names, owner, method);
    located_at(kind_mismatch, Sites::beside(class_name(number), declared))
}

fn left_open<'a>(
    names: &NameTables<'a>,
    class: &Class,
    open: MethodId,
) -> Option<Located<KindMismatch<'a>>> {
    let first = names.classes.id(ClassKey::of_source(class))?;
    let owner = open.class;
    let method = method_key(names, open)?;
    let nearer = nearer_than(names, first, owner, method)?;
    described_left_open(names, owner, method, nearer)
}

/// The name of a method of a class that has a number in the source, and the location of that name.
fn named_method(
    class: usize,
    declared: &Class,
    method: usize,
) -> Option<(MethodKey<'_>, Location)> {
    let (member, method) = nth_method(declared, method)?;
    Some((key_of(method), MemberSpot { class, member }.name()))
}

fn in_interface(
    class: usize,
    declared: &Class,
    method: usize,
) -> Option<Located<KindMismatch<'_>>> {
    let (method, location) = named_method(class, declared, method)?;
    let interface = &declared.name;
    located_at(
        KindMismatch::InInterface { interface, method },
        Sites::at(location),
    )
}

fn is_abstract(class: usize, declared: &Class, method: usize) -> Option<Located<KindMismatch<'_>>> {
    let (method, location) = named_method(class, declared, method)?;
    let class = &declared.name;
    located_at(
        KindMismatch::Abstract { class, method },
        Sites::at(location),
    )
}

/// A method that would override one of a base.
fn over_nonvirtual<'a>(
    names: &NameTables<'a>,
    class: &'a Class,
    named: (MethodKey<'a>, Location),
    base: ClassId,
) -> Option<Located<KindMismatch<'a>>> {
    let (method, location) = named;
    let kind_mismatch = KindMismatch::OverNonvirtual {
        class: &class.name,
        method,
        owner: class_key(names, base)?,
    };
    let overridden = method_location(names, base, method);
    located_at(kind_mismatch, Sites::beside(location, overridden))
}

/// A method whose kind does not fit its class or what that inherits. None where the tree has no such location.
pub(crate) fn kind_mismatch_of<'a>(
    names: &NameTables<'a>,
    kind_mismatch: violations::KindMismatch,
) -> Option<Located<KindMismatch<'a>>> {
    let violations::KindMismatch { class, fault } = kind_mismatch;
    let declared = names.classes.tree.classes.as_slice().get(class)?;
    match fault {
        KindFault::InInterface { method } => in_interface(class, declared, method),
        KindFault::Abstract { method } => is_abstract(class, declared, method),
        KindFault::LeftOpen { open } => left_open(names, declared, open),
        KindFault::OverNonvirtual { method, base } => {
            over_nonvirtual(
                names,
                declared,
                named_method(class, declared, method)?,
                base,
            )
        }
    }
}
