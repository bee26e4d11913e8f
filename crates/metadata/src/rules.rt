//! The rules of legality, in the order of their numbers.

ghost use Rattle.std.specs.Prelude.{◌≡◌, IfOk, option_map};
ghost use Rattle.cil_model.specs.Legality.{first_broken, least_broken};
ghost use Rattle.metadata.specs.RuleNumbers.{rule_number, violation_number, rules_of_names, rules_of_methods};

use crate::cycles::cyclic_base;
use crate::duplicates::duplicate_name;
use crate::entry::bad_entry;
use crate::implemented::not_implemented;
use crate::kinds::kind_mismatch;
use crate::limits::exceeded_limit;
use crate::unknown::unknown_name;
use crate::violations::Violation;
use cil_model::memory::NoMemory;
use name_tables::lookups::NameTables;
use name_tables::methods::MethodTables;
use std::alloc::Global;
use std::fmt;

/// A rule that each legal program keeps. The number of each is beside it.
#[derive(Clone, Copy)]
pub enum Rule {
    /// 201: names that have to occur once do so.
    NamesOccurOnce,
    /// 202: each name refers to something of the kind needed.
    NamesAreKnown,
    /// 203: no class is twice in its own chain of bases.
    BasesEnd,
    /// 204: each method of a listed interface is there.
    InterfacesAreImplemented,
    /// 205: the kind of each method fits.
    KindsFit,
    /// 206: there is one entry point, in a static method without parameters that returns nothing.
    OneEntryPoint,
    /// 207: no limit is exceeded.
    LimitsAreKept,
}

impl Rule {
    /// The number that the program prints where the rule is broken (this profile).
    pub fn number(&self) -> u16
        ensures { result ≡ rule_number self.now }
    {
        match self {
            Rule::NamesOccurOnce => 201,
            Rule::NamesAreKnown => 202,
            Rule::BasesEnd => 203,
            Rule::InterfacesAreImplemented => 204,
            Rule::KindsFit => 205,
            Rule::OneEntryPoint => 206,
            Rule::LimitsAreKept => 207,
        }
    }
}

/// What holds where the rule is broken.
impl fmt::Display for Rule {
    fn fmt<W: fmt::Write>(&self, f: &mut fmt::Formatter<W>) -> fmt::Result {
        f.write_str(match self {
            Rule::NamesOccurOnce => "a name is declared twice",
            Rule::NamesAreKnown => "unresolved name",
            Rule::BasesEnd => "cyclic inheritance",
            Rule::InterfacesAreImplemented => {
                "a method of an interface that the class lists is absent"
            }
            Rule::KindsFit => "the kind of a method does not fit",
            Rule::OneEntryPoint => "not exactly one entry point",
            Rule::LimitsAreKept => "a limit is exceeded",
        })
    }
}

/// What breaks one of the rules on names and bases, 201 to 203, the least of them first.
fn broken_by_names(alloc: Global, names: &NameTables) -> Result<Option<Violation>, NoMemory>
    ensures { IfOk result (λ v. option_map violation_number v ≡ first_broken (rules_of_names names.now.classes.tree.now)) }
{
    if let Some(duplicates) = duplicate_name(alloc, names.classes.tree)? {
        return Ok(Some(Violation::Duplicate(duplicates)));
    }
    if let Some(unknown) = unknown_name(alloc, names)? {
        return Ok(Some(Violation::Unknown(unknown)));
    }
    if let Some(class) = cyclic_base(alloc, names)? {
        return Ok(Some(Violation::CyclicBase { class }));
    }
    Ok(None)
}

/// What breaks one of the other rules, 204 to 207, the least of them first.
fn broken_by_methods(alloc: Global, methods: &MethodTables) -> Result<Option<Violation>, NoMemory>
    ensures { IfOk result (λ v. option_map violation_number v ≡ first_broken (rules_of_methods methods.now.names.now.classes.tree.now)) }
{
    if let Some(absent) = not_implemented(alloc, methods)? {
        return Ok(Some(Violation::NotImplemented(absent)));
    }
    if let Some(kind_mismatch) = kind_mismatch(alloc, methods)? {
        return Ok(Some(Violation::KindMismatch(kind_mismatch)));
    }
    let names = methods.names;
    if let Some(entry) = bad_entry(alloc, names.classes.tree)? {
        return Ok(Some(Violation::BadEntry(entry)));
    }
    if let Some(limit) = exceeded_limit(alloc, names)? {
        return Ok(Some(Violation::ExceededLimit(limit)));
    }
    Ok(None)
}

/// The same, from the tables of names.
fn broken_further(alloc: Global, names: &NameTables) -> Result<Option<Violation>, NoMemory>
    ensures { IfOk result (λ v. option_map violation_number v ≡ first_broken (rules_of_methods names.now.classes.tree.now)) }
{
    let methods = MethodTables::new(alloc, names)?;
    broken_by_methods(alloc, &methods)
}

/// What breaks the rule with the least number that the tree breaks; none where the tree is legal. The only error is out of memory.
pub fn least_broken(alloc: Global, names: &NameTables) -> Result<Option<Violation>, NoMemory>
    ensures { IfOk result (λ v. option_map violation_number v ≡ least_broken names.now.classes.tree.now) }
{
    match broken_by_names(alloc, names)? {
        None => broken_further(alloc, names),
        Some(violation) => Ok(Some(violation)),
    }
}
