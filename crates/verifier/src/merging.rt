//! Merges of stacks of types (ECMA-335 III.1.8.1.3).

ghost use Rattle.std.specs.Prelude.{◌≡◌, ◌<◌, ◌^◌, ◌||◌, true, false, IfOk, IfErr, IfSome, OnOk, Some, None, option_map, ◌++◌, ◌∷◌, [], is_some};
ghost use Rattle.cil_model.specs.declared.trees.Tree.{Tree};
ghost use Rattle.cil_model.specs.Legality.{IsLegal};
ghost use Rattle.cil_model.specs.TypeTree.{IsBelow};
ghost use Rattle.cil_model.specs.TypeTree as OnStack;
ghost use Rattle.flow_rules.specs.declared.entries.StackEntry.TheVariants.{Declared};
ghost use Rattle.flow_rules.specs.StackTypes.{type_named, stack_type, stack_types, element_named, is_known};
ghost use Rattle.flow_rules.specs.Merging.{IsMerged};
ghost use Rattle.verifier.specs.StackMerges.{IsEntryMerge, IsStackMerge};
ghost use Rattle.verifier.specs.Rises.{rises, stack_rises};
ghost use Rattle.verifier.specs.declared.merging.MergeError.TheVariants.{OutOfMemory};

use crate::kept_stacks::KeptStack;
use cil_model::sequences::Sequence;
use flow_rules::entries::StackEntry;
use flow_rules::type_tree::TypeTree;
use resolved_code::types::{ResolvedElement, ResolvedType};
use std::alloc::Global;

/// Why no stack is above two others.
#[derive(Clone, Copy)]
pub enum StackMismatch {
    /// They hold other numbers of values: the first, and the second.
    Heights(usize, usize),
    /// No type is above these two, which are at one index of the stacks.
    Types(StackEntry, StackEntry),
}

/// Why there is no merged stack.
#[derive(Clone, Copy)]
pub enum MergeError {
    Apart(StackMismatch),
    OutOfMemory,
}

/// A merged stack, and whether it says less than the first of the two did.
#[derive(Drop)]
pub struct StackMerge {
    pub stack: Sequence<StackEntry>,
    pub is_higher: bool,
}

/// A merged entry, and whether it says less than the first of the two did.
#[derive(Clone, Copy)]
struct EntryMerge {
    entry: StackEntry,
    is_higher: bool,
}

/// The type itself; in place of a number that is no class's, System.Object's.
fn known_type(types: &TypeTree, t: ResolvedType) -> ResolvedType
    ensures known { is_known types.now result.element ≡ true }
    ensures same { type_named types.now result ≡ type_named types.now t }
    ensures legal { IsLegal types.now }
{
    let ResolvedElement::Class(number) = t.element else {
        let _root = types.class(0);
        return t;
    };
    if types.class(number).is_some() {
        return t;
    }
    ResolvedType {
        element: ResolvedElement::Class(0),
        brackets: t.brackets,
    }
}

/// Whether two types are one by their numbers.
fn is_equal(one: ResolvedType, other: ResolvedType) -> bool
    ensures same { result ≡ true → one ≡ other }
    ensures apart { result ≡ false → one ≡ other → ⊥ }
{
    one == other
}

/// Whether two types are one.
fn is_same_type(types: &TypeTree, one: ResolvedType, other: ResolvedType) -> bool
    ensures same { result ≡ true → type_named types.now one ≡ type_named types.now other }
    ensures apart { result ≡ false → type_named types.now one ≡ type_named types.now other → ⊥ }
    ensures legal { IsLegal types.now }
{
    is_equal(known_type(types, one), known_type(types, other))
}

/// The brackets of a type are counted in 32 bits.
fn brackets_of(t: ResolvedType) -> u32
    ensures same { result ≡ t.brackets }
    ensures few { result < 2 ^ 32 }
{
    t.brackets
}

/// What becomes of a declared type when a type above it takes its place.
fn raised_type(types: &TypeTree, known: ResolvedType, above: ResolvedType) -> EntryMerge
    requires { IsBelow types.now (OnStack.Declared (type_named types.now known)) (OnStack.Declared (type_named types.now above)) }
    ensures named { stack_type types.now result.entry ≡ OnStack.Declared (type_named types.now above) }
    ensures same { result.is_higher ≡ false → result.entry ≡ Declared known }
    ensures higher { result.is_higher ≡ true → rises types.now (stack_type types.now result.entry) < rises types.now (OnStack.Declared (type_named types.now known)) }
{
    let _known_brackets = brackets_of(known);
    let _above_brackets = brackets_of(above);
    if is_same_type(types, known, above) {
        return EntryMerge {
            entry: StackEntry::Declared(known),
            is_higher: false,
        };
    }
    EntryMerge {
        entry: StackEntry::Declared(above),
        is_higher: true,
    }
}

/// What becomes of an entry when one above it takes its place: the entry itself, where both say the same.
fn raise_entry(types: &TypeTree, known: StackEntry, above: StackEntry) -> EntryMerge
    requires { IsBelow types.now (stack_type types.now known) (stack_type types.now above) }
    ensures named { stack_type types.now result.entry ≡ stack_type types.now above }
    ensures same { result.is_higher ≡ false → result.entry ≡ known }
    ensures higher { result.is_higher ≡ true → rises types.now (stack_type types.now result.entry) < rises types.now (stack_type types.now known) }
{
    match (known, above) {
        (StackEntry::Declared(one), StackEntry::Declared(other)) => raised_type(types, one, other),
        (StackEntry::Null, StackEntry::Declared(_)) => EntryMerge {
            entry: above,
            is_higher: true,
        },
        _ => EntryMerge {
            entry: known,
            is_higher: false,
        },
    }
}

/// The closest entry above both.
fn merge_entries(
    types: &TypeTree,
    known: StackEntry,
    coming: StackEntry,
) -> Result<EntryMerge, MergeError>
    ensures merged { IsEntryMerge types.now known coming result }
    ensures same { IfOk result (λ m. m.is_higher ≡ false → m.entry ≡ known) }
    ensures higher { IfOk result (λ m. m.is_higher ≡ true → rises types.now (stack_type types.now m.entry) < rises types.now (stack_type types.now known)) }
{
    match types.merge(known, coming) {
        Some(above) => Ok(raise_entry(types, known, above)),
        None => Err(MergeError::Apart(StackMismatch::Types(known, coming))),
    }
}

/// Appends an entry. The only error is out of memory.
fn append(entry: StackEntry, entries: &mut Vec<StackEntry>) -> Result<(), MergeError>
    ensures appended { OnOk result (entries.new.items ≡ entries.old.items ++ entry ∷ []) }
    ensures err { IfErr result (λ e. e ≡ OutOfMemory) }
{
    match entries.push(entry) {
        Ok(()) => Ok(()),
        Err(_) => Err(MergeError::OutOfMemory),
    }
}

/// Whether one of two holds.
fn either(one: bool, other: bool) -> bool
    ensures { result ≡ one || other }
{
    one || other
}

/// The closest stack above two others, both with the top first (ECMA-335 III.1.8.1.3): as high as both, and at each index the closest
/// type above the two there. It is higher where it says less than the first. At `Apart` no stack is above both; otherwise the error is out
/// of memory.
pub fn merge_stacks(
    types: &TypeTree,
    known: &KeptStack,
    coming: &[StackEntry],
    alloc: Global,
) -> Result<StackMerge, MergeError>
    ensures merged { IsStackMerge types.now known.now coming.now result }
    ensures same { IfOk result (λ m. m.is_higher ≡ false → m.stack ≡ known.now) }
    ensures higher { IfOk result (λ m. m.is_higher ≡ true → stack_rises types.now (stack_types types.now m.stack) < stack_rises types.now (stack_types types.now known.now)) }
{
    if known.len() != coming.len() {
        let heights = StackMismatch::Heights(known.len(), coming.len());
        return Err(MergeError::Apart(heights));
    }
    let Ok(mut stack) = Vec::with_capacity(alloc, known.len()) else {
        return Err(MergeError::OutOfMemory);
    };
    let mut is_higher = false;
    for index in 0..known.len() {
        let merge = merge_entries(types, known.entry(index), coming[index])?;
        append(merge.entry, &mut stack)?;
        is_higher = either(is_higher, merge.is_higher);
    }
    Ok(StackMerge {
        stack: Sequence::new(stack),
        is_higher,
    })
}
