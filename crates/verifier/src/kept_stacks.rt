//! Stacks as typings keep them, which have one for each instruction of a program: each value in eight bytes.

ghost use Rattle.std.specs.Prelude.{◌≡◌, ◌<◌, length, map, slice_get, Some, IfOk, IfSome};
ghost use Rattle.flow_rules.specs.declared.entries.StackEntry.TheVariants.{Declared};
ghost use Rattle.verifier.specs.KeptStacks.{entry_of, entries_of};

use cil_model::memory::NoMemory;
use flow_rules::entries::StackEntry;
use resolved_code::types::{ResolvedElement, ResolvedType};
use std::alloc::Global;
use std::marker::Model;
use std::mem::size_of;

/// What an entry is but for the number of a class, and for brackets.
#[derive(Clone, Copy)]
enum EntryKind {
    Int32,
    Int64,
    Object,
    String,
    Class,
    NativeInt,
    Null,
}

/// An entry in eight bytes. A class is 0 where the kind has none, and so are brackets.
#[derive(Clone, Copy)]
struct KeptEntry {
    kind: EntryKind,
    class: u16,
    brackets: u32,
}

const _: () = prove!(size_of::<KeptEntry>() == 8);

/// The type in eight bytes. None where the number of its class has more than 16 bits, which no program's has.
fn kept_type(t: ResolvedType) -> Option<KeptEntry>
    ensures { IfSome result (λ kept. entry_of kept ≡ Declared t) }
{
    let brackets = t.brackets;
    let (kind, number) = match t.element {
        ResolvedElement::Int32 => (EntryKind::Int32, 0),
        ResolvedElement::Int64 => (EntryKind::Int64, 0),
        ResolvedElement::Object => (EntryKind::Object, 0),
        ResolvedElement::String => (EntryKind::String, 0),
        ResolvedElement::Class(number) => (EntryKind::Class, number),
    };
    match u16::try_from(number) {
        Ok(class) => Some(KeptEntry {
            kind,
            class,
            brackets,
        }),
        Err(_) => None,
    }
}

/// An entry that is no type's.
fn kept_other(kind: EntryKind) -> KeptEntry
    ensures { result ≡ record { kind = kind; class = 0; brackets = 0 } }
{
    KeptEntry {
        kind,
        class: 0,
        brackets: 0,
    }
}

/// The entry in eight bytes. None where the number of its class has more than 16 bits, which no program's has.
fn kept_entry(entry: StackEntry) -> Option<KeptEntry>
    ensures { IfSome result (λ kept. entry_of kept ≡ entry) }
{
    match entry {
        StackEntry::Declared(t) => kept_type(t),
        StackEntry::NativeInt => Some(kept_other(EntryKind::NativeInt)),
        StackEntry::Null => Some(kept_other(EntryKind::Null)),
    }
}

fn declared_entry(element: ResolvedElement, brackets: u32) -> StackEntry
    ensures { result ≡ Declared (record { element = element; brackets = brackets }) }
{
    StackEntry::Declared(ResolvedType { element, brackets })
}

/// The entry that is kept.
fn entry_of(kept: KeptEntry) -> StackEntry
    ensures { result ≡ entry_of kept }
{
    match kept.kind {
        EntryKind::Int32 => declared_entry(ResolvedElement::Int32, kept.brackets),
        EntryKind::Int64 => declared_entry(ResolvedElement::Int64, kept.brackets),
        EntryKind::Object => declared_entry(ResolvedElement::Object, kept.brackets),
        EntryKind::String => declared_entry(ResolvedElement::String, kept.brackets),
        EntryKind::Class => declared_entry(
            ResolvedElement::Class(kept.class as usize),
            kept.brackets,
        ),
        EntryKind::NativeInt => StackEntry::NativeInt,
        EntryKind::Null => StackEntry::Null,
    }
}

/// The entries in eight bytes each; none where one of them takes more. The only error is out of memory.
fn narrow(entries: &[StackEntry], alloc: Global) -> Result<Option<Vec<KeptEntry>>, NoMemory>
    ensures { IfOk result (λ found. IfSome found (λ kept. map entry_of kept.items ≡ entries.now)) }
{
    let mut kept = Vec::with_capacity(alloc, entries.len())?;
    for index in 0..entries.len() {
        match kept_entry(entries[index]) {
            None => return Ok(None),
            Some(entry) => kept.push(entry)?,
        }
    }
    Ok(Some(kept))
}

/// The entries of a stack: in eight bytes each, or as they are where one of them takes more.
#[derive(Drop)]
enum Form {
    Narrow(Vec<KeptEntry>),
    Wide(Vec<StackEntry>),
}

/// A stack of types that is kept. Contracts see it as the list of its entries, the top first.
#[derive(Drop)]
pub struct KeptStack {
    form: Form,
}

impl Model for KeptStack {
    ghost use Rattle.std.specs.Prelude.{List};
    ghost use Rattle.flow_rules.specs.declared.entries.StackEntry.{StackEntry};

    ghost Value = { List StackEntry };

    ghost use Rattle.verifier.specs.KeptStacks.{entries_of};

    ghost view = { λ s. entries_of s.form };
}

fn narrow_at(entries: &[KeptEntry], index: usize) -> StackEntry
    requires { index < length (map entry_of entries.now) }
    ensures { slice_get (map entry_of entries.now) index ≡ Some result }
{
    entry_of(entries[index])
}

fn wide_at(entries: &[StackEntry], index: usize) -> StackEntry
    requires { index < length entries.now }
    ensures { slice_get entries.now index ≡ Some result }
{
    entries[index]
}

impl KeptStack {
    /// The stack of these entries, the top first. The only error is out of memory.
    pub fn new(entries: &[StackEntry], alloc: Global) -> Result<Self, NoMemory>
        ensures { IfOk result (λ kept. kept ≡ entries.now) }
    {
        let form = match narrow(entries, alloc)? {
            Some(kept) => Form::Narrow(kept),
            None => Form::Wide(entries.to_vec(alloc)?),
        };
        Ok(KeptStack { form })
    }

    /// How many entries it has.
    pub fn len(&self) -> usize
        ensures { result ≡ length self.now }
    {
        match &self.form {
            Form::Narrow(entries) => entries.len(),
            Form::Wide(entries) => entries.len(),
        }
    }

    /// The entry at an index, the top at 0.
    pub fn entry(&self, index: usize) -> StackEntry
        requires { index < length self.now }
        ensures { slice_get self.now index ≡ Some result }
    {
        match &self.form {
            Form::Narrow(entries) => narrow_at(entries.as_slice(), index),
            Form::Wide(entries) => wide_at(entries.as_slice(), index),
        }
    }
}
