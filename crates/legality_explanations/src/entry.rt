//! The entry point (number 206).

ghost use Rattle.std.specs.Prelude.{◌≡◌, IfSome};
ghost use Rattle.legality_explanations.specs.Locations.{IsOfClass};

use crate::advice::Advice;
use crate::rule_evidence::{Evidence, Located};
use crate::sentences::{write_one, write_two};
use crate::sites::{Sites, key_of, located_method};
use metadata::violations;
use metadata::violations::SourceMember;
use source_positions::cil_model::trees::{Method, Tree};
use source_positions::cil_model::types::DeclaredType;
use source_positions::name_tables::keys::MethodKey;
use source_positions::{Location, MemberPart, MethodText, TypeText};
use std::fmt;

/// Why a source has not one entry point, in a static method without parameters that returns nothing.
#[derive(Clone, Copy)]
pub enum BadEntry<'a> {
    Absent,
    /// There are two.
    Second,
    /// It stands in a method that returns a value of this type.
    Returns(&'a DeclaredType),
    /// It stands in a method that has this fault.
    Unfit {
        method: MethodKey<'a>,
        fault: &'static str,
    },
}

impl fmt::Display for BadEntry<'_> {
    fn fmt<W: fmt::Write>(&self, f: &mut fmt::Formatter<W>) -> fmt::Result {
        match self {
            BadEntry::Absent => f.write_str("no method has `.entrypoint`"),
            BadEntry::Second => f.write_str("a second method has `.entrypoint`"),
            BadEntry::Returns(declared) => {
                let declared = TypeText(*declared);
                let before = "the method with `.entrypoint` returns `";
                write_one(f, before, &declared, "`, and not `void`")
            }
            BadEntry::Unfit { method, fault } => {
                let method = MethodText(*method);
                let between = "` has `.entrypoint`, but ";
                write_two(f, "the method `", &method, between, fault, "")
            }
        }
    }
}

/// The location of a method's entry point, and the method.
fn entry_at(tree: &Tree, method: SourceMember) -> Option<(Location, &Method)>
    ensures { IfSome result (λ found. IsOfClass method.class found.0) }
{
    let (spot, declared) = located_method(tree, method)?;
    Some((spot.part(MemberPart::EntryPoint), declared))
}

impl Evidence for BadEntry<'_> {
    fn note(&self) -> &'static str {
        "first declared here"
    }

    fn advice(&self) -> Option<Advice<'_>> {
        Some(Advice::Sentence(match self {
            BadEntry::Absent => "write `.entrypoint` before `.maxstack` of the first method",
            BadEntry::Second => "leave out one of the two",
            BadEntry::Returns(_) | BadEntry::Unfit { .. } => "write `static void Main()`",
        }))
    }
}

fn located_at(entry: BadEntry<'_>, sites: Sites) -> Option<Located<BadEntry<'_>>>
    ensures { IfSome result (λ found. found.1 ≡ sites) }
{
    Some((entry, sites))
}

fn second_entry(
    tree: &Tree,
    first: SourceMember,
    second: SourceMember,
) -> Option<Located<BadEntry<'_>>>
    ensures again { IfSome result (λ found. IfSome found.1.location (IsOfClass second.class)) }
    ensures first { IfSome result (λ found. IfSome found.1.other (IsOfClass first.class)) }
{
    let (first, _) = entry_at(tree, first)?;
    let (second, _) = entry_at(tree, second)?;
    located_at(BadEntry::Second, Sites::beside(second, Some(first)))
}

/// An entry point in a method that returns a value.
fn entry_that_returns(tree: &Tree, method: SourceMember) -> Option<Located<BadEntry<'_>>> {
    let (location, declared) = entry_at(tree, method)?;
    let returned = declared.signature.return_type.as_ref()?;
    located_at(BadEntry::Returns(returned), Sites::at(location))
}

/// An entry point in a method that has another fault.
fn unfit<'a>(
    tree: &'a Tree,
    method: SourceMember,
    fault: &'static str,
) -> Option<Located<BadEntry<'a>>> {
    let (location, declared) = entry_at(tree, method)?;
    let method = key_of(declared);
    located_at(BadEntry::Unfit { method, fault }, Sites::at(location))
}

/// Why a source has not one fit entry point. None where the tree has no such location.
pub(crate) fn bad_entry(tree: &Tree, entry: violations::BadEntry) -> Option<Located<BadEntry<'_>>> {
    match entry {
        violations::BadEntry::Absent => located_at(BadEntry::Absent, Sites::NONE),
        violations::BadEntry::Second { first, second } => second_entry(tree, first, second),
        violations::BadEntry::NotStatic(method) => unfit(tree, method, "is not static"),
        violations::BadEntry::Returns(method) => entry_that_returns(tree, method),
        violations::BadEntry::Takes(method) => unfit(tree, method, "has parameters"),
    }
}
