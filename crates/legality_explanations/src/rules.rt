//! Why a tree is no legal program (numbers 201 to 207).

use crate::cycles::cyclic_base;
use crate::duplicates::duplicate_name;
use crate::entry::bad_entry;
use crate::implemented::not_implemented;
use crate::kinds::kind_mismatch_of;
use crate::limits::exceeded_limit;
use crate::rule_evidence::{Evidence, Located};
use crate::sites::Sites;
use crate::unknown::unknown_name;
use metadata::violations;
use metadata::violations::Violation;
use source_positions::cil_model::memory::NoMemory;
use source_positions::cil_model::trees::Tree;
use source_positions::name_tables::built_in::BuiltInClass;
use source_positions::name_tables::lookups::NameTables;
use source_positions::{Location, Named, offset_of};
use std::alloc::Global;

fn offset_at(text: &[u8], location: Option<Location>) -> Option<usize> {
    offset_of(text, location?)
}

/// The sentence of what breaks a rule, at its location.
fn sentence_at<B: Evidence>(
    alloc: Global,
    named: Named,
    evidence: &B,
    location: Option<Location>,
) -> Result<String, NoMemory> {
    let offset = offset_at(named.text, location);
    let sentence = evidence.to_string(alloc)?;
    named.message(alloc, offset, sentence.as_str())
}

/// Adds what is at the location with which what breaks a rule does not agree, if there is one.
fn push_note<B: Evidence>(
    message: &mut String,
    named: Named,
    evidence: &B,
    other: Option<Location>,
) -> Result<(), NoMemory> {
    match offset_at(named.text, other) {
        None => Ok(()),
        offset => named.push_where(message, offset, evidence.note()),
    }
}

/// Adds what to write instead, if there is advice on that.
fn push_advice<B: Evidence>(message: &mut String, evidence: &B) -> Result<(), NoMemory> {
    if let Some(advice) = evidence.advice() {
        writeln!(message, "help: {advice}")?;
    }
    Ok(())
}

/// A source that breaks a rule, to a person.
#[derive(Clone, Copy)]
struct Explanation<'a> {
    alloc: Global,
    named: Named<'a>,
    violation: Violation,
}

impl Explanation<'_> {
    /// What was found of the rule that is broken, in words; the rule's own sentence where nothing was.
    fn of_evidence<B: Evidence + Copy + Drop>(
        &self,
        found: Option<Located<B>>,
    ) -> Result<String, NoMemory> {
        match found {
            Some((evidence, sites)) => self.of_sites(&evidence, sites),
            None => rule_text(self.alloc, self.named, self.violation),
        }
    }

    /// What breaks a rule at these locations, in words.
    fn of_sites<B: Evidence>(&self, evidence: &B, sites: Sites) -> Result<String, NoMemory> {
        let mut message = sentence_at(self.alloc, self.named, evidence, sites.location)?;
        push_note(&mut message, self.named, evidence, sites.other)?;
        push_advice(&mut message, evidence)?;
        Ok(message)
    }

    /// What was found of a rule that is broken, by the names of the tree where it needs them.
    fn of_violation(&self, tree: &Tree) -> Result<String, NoMemory> {
        match self.violation {
            Violation::Duplicate(duplicates) => self.of_duplicate(tree, duplicates),
            Violation::BadEntry(entry) => self.of_entry(tree, entry),
            _ => self.of_names(tree),
        }
    }

    fn of_duplicate(
        &self,
        tree: &Tree,
        duplicates: violations::Duplicate,
    ) -> Result<String, NoMemory> {
        self.of_evidence(duplicate_name(tree, duplicates))
    }

    fn of_entry(&self, tree: &Tree, entry: violations::BadEntry) -> Result<String, NoMemory> {
        self.of_evidence(bad_entry(tree, entry))
    }

    /// What was found of a rule that is broken, by the names of the tree.
    fn of_names(&self, tree: &Tree) -> Result<String, NoMemory> {
        let table = BuiltInClass::all(self.alloc)?;
        let names = NameTables::new(self.alloc, tree, table.as_slice())?;
        self.by_names(&names)
    }

    fn by_names(&self, names: &NameTables) -> Result<String, NoMemory> {
        match self.violation {
            Violation::Unknown(unknown) => self.of_unknown(names, unknown),
            Violation::CyclicBase { class } => self.of_cyclic_base(names, class),
            Violation::NotImplemented(absent) => self.of_absent(names, absent),
            Violation::KindMismatch(mismatch) => self.of_kind_mismatch(names, mismatch),
            Violation::ExceededLimit(limit) => self.of_limit(names, limit),
            _ => rule_text(self.alloc, self.named, self.violation),
        }
    }

    fn of_unknown(
        &self,
        names: &NameTables,
        unknown: violations::Unknown,
    ) -> Result<String, NoMemory> {
        self.of_evidence(unknown_name(names, unknown))
    }

    fn of_cyclic_base(&self, names: &NameTables, class: usize) -> Result<String, NoMemory> {
        self.of_evidence(cyclic_base(names, class))
    }

    fn of_absent(
        &self,
        names: &NameTables,
        absent: violations::NotImplemented,
    ) -> Result<String, NoMemory> {
        self.of_evidence(not_implemented(names, absent))
    }

    fn of_kind_mismatch(
        &self,
        names: &NameTables,
        mismatch: violations::KindMismatch,
    ) -> Result<String, NoMemory> {
        self.of_evidence(kind_mismatch_of(names, mismatch))
    }

    fn of_limit(
        &self,
        names: &NameTables,
        limit: violations::ExceededLimit,
    ) -> Result<String, NoMemory> {
        self.of_evidence(exceeded_limit(names, limit))
    }
}

/// Why a tree breaks a rule, in words; the rule's own sentence where the tree has no such location. Where that does not agree with something
/// else, as with the first of two names, a second part of the text shows it; of a name that this profile lacks the last line says what to
/// write instead. Fails only when out of memory.
pub fn explain_rule(
    alloc: Global,
    named: Named,
    tree: &Tree,
    violation: Violation,
) -> Result<String, NoMemory> {
    let explanation = Explanation {
        alloc,
        named,
        violation,
    };
    explanation.of_violation(tree)
}

/// The sentence of the rule that is broken. Fails only when out of memory.
fn rule_text(alloc: Global, named: Named, violation: Violation) -> Result<String, NoMemory> {
    let sentence = violation.to_string(alloc)?;
    named.message(alloc, None, sentence.as_str())
}
