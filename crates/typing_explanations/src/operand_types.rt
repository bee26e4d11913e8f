//! How the types of operands differ from those that an instruction expects.

use crate::expected::Scene;
use flow_rules::entries::{StackEntry, is_int32_type, is_int64_type};
use resolved_code::operations::Operation;
use resolved_code::types::{ResolvedElement, ResolvedType};
use source_positions::cil_model::instructions::{
    BranchComparison, BranchCondition, Comparison, ElementKind,
};

/// The instructions that make an integer of an operand.
pub(crate) fn conversion(found: StackEntry, expected: ResolvedType) -> Option<&'static str> {
    if is_int64_type(expected) && (found.is_int32() || is_native(found)) {
        return Some("conv.i8");
    }
    if !is_int32_type(expected) {
        return None;
    }
    if is_array(found) {
        return Some("ldlen conv.i4");
    }
    if found.is_int64() || is_native(found) {
        Some("conv.i4")
    } else {
        None
    }
}

fn is_native(entry: StackEntry) -> bool {
    matches!(entry, StackEntry::NativeInt)
}

fn is_array(entry: StackEntry) -> bool {
    match entry {
        StackEntry::Declared(declared) => declared.brackets > 0,
        _ => false,
    }
}

fn is_string(entry: StackEntry) -> bool {
    match entry {
        StackEntry::Declared(declared) => {
            matches!(declared.element, ResolvedElement::String) && declared.brackets == 0
        }
        _ => false,
    }
}

/// The number of values of exactly this type.
fn count_entries(entries: &[StackEntry], declared: ResolvedType) -> usize {
    let mut count = 0usize;
    for entry in entries {
        if *entry == StackEntry::Declared(declared) {
            count = count.saturating_add(1);
        }
    }
    count
}

/// The number of times that a type occurs among a first one and others.
fn count_types(
    first: Option<ResolvedType>,
    others: &[ResolvedType],
    declared: ResolvedType,
) -> usize {
    let mut count = if first == Some(declared) { 1usize } else { 0 };
    for other in others {
        if *other == declared {
            count = count.saturating_add(1);
        }
    }
    count
}

impl Scene<'_> {
    /// Whether the operands of an instruction are on the stack, and in another order.
    pub fn is_permuted(&self, operation: &Operation, stack: &[StackEntry]) -> bool {
        let Some((first, others)) = self.declared_type(operation) else {
            return false;
        };
        let Some(operands) = stack.get(..self.pops(operation)) else {
            return false;
        };
        for other in others {
            if count_entries(operands, *other) != count_types(first, others, *other) {
                return false;
            }
        }
        match first {
            None => true,
            Some(first) => {
                count_entries(operands, first) == count_types(Some(first), others, first)
            }
        }
    }

    /// Whether a class extends another one.
    fn extends(&self, class: usize, base: usize) -> bool {
        let classes = self.program.classes();
        let mut next = Some(class);
        for _ in 0..classes.len() {
            if next == Some(base) {
                return true;
            }
            next = match next {
                None => return false,
                Some(number) => match classes.get(number) {
                    None => return false,
                    Some(declared) => declared.base.map(|base| base.number()),
                },
            };
        }
        false
    }

    fn is_interface(&self, class: usize) -> bool {
        match self.program.classes().get(class) {
            None => false,
            Some(declared) => declared.is_interface,
        }
    }

    /// Whether a value of the first type may be an object of the second one, so that a cast helps.
    pub fn may_cast(&self, found: ResolvedType, expected: ResolvedType) -> bool {
        if found.brackets > 0 {
            return false;
        }
        match (found.element, expected.element) {
            (ResolvedElement::Object, _) => true,
            (ResolvedElement::Class(from), ResolvedElement::Class(to)) => {
                expected.brackets == 0 && (self.is_interface(from) || self.extends(to, from))
            }
            _ => false,
        }
    }

    /// The type of an operand of an instruction, by its index from that pushed first.
    fn expected_at(&self, operation: &Operation, index: usize) -> Option<ResolvedType> {
        match self.declared_type(operation)? {
            (None, others) => others.get(index).copied(),
            (first, others) => match index.checked_sub(1) {
                None => first,
                Some(other) => others.get(other).copied(),
            },
        }
    }

    /// The number of values above the operand of a type where another one is expected.
    pub fn above_operand(
        &self,
        operation: &Operation,
        stack: &[StackEntry],
        found: StackEntry,
        expected: ResolvedType,
    ) -> usize {
        let count = self.pops(operation);
        for (above, entry) in stack.iter().enumerate() {
            let index = count.saturating_sub(above).saturating_sub(1);
            if *entry == found && self.expected_at(operation, index) == Some(expected) {
                return above;
            }
        }
        0
    }
}

/// Whether the operands of an instruction on an array, or of a shift, are in another order.
pub(crate) fn is_reversed(operation: &Operation, top: StackEntry, next: StackEntry) -> bool {
    match operation {
        Operation::StoreElement(ElementKind::Reference | ElementKind::Int64) => {
            top.is_index() && !next.is_index()
        }
        Operation::LoadElement(_) => is_array(top) && next.is_index(),
        Operation::Shift(_) => top.is_int64() && next.is_int32(),
        _ => false,
    }
}

/// Whether an instruction takes two operands of one kind.
pub(crate) fn takes_alike(operation: &Operation) -> bool {
    matches!(
        operation,
        Operation::Binary(_)
            | Operation::Compare(_)
            | Operation::Branch(BranchCondition::Compare(_), _)
    )
}

/// The instructions that make one of two operands the kind of the other, and the number of values above it.
pub(crate) fn alike(one: StackEntry, other: StackEntry) -> Option<(&'static str, usize)> {
    if one.is_int64() && other.is_int32() {
        Some(("conv.i8", 0))
    } else if one.is_int32() && other.is_int64() {
        Some(("conv.i8", 1))
    } else {
        let above = if one.is_int32() { 0 } else { 1 };
        let longer = if above == 0 { other } else { one };
        Some((length_conversion(longer)?, above))
    }
}

/// The instructions that make an int32 of a length or of an array.
fn length_conversion(entry: StackEntry) -> Option<&'static str> {
    if is_native(entry) {
        Some("conv.i4")
    } else if is_array(entry) {
        Some("ldlen conv.i4")
    } else {
        None
    }
}

/// What an instruction takes that does not take one of its operands.
pub(crate) fn on_operand(operation: &Operation, found: StackEntry) -> Option<&'static str> {
    match operation {
        Operation::Binary(_) if is_string(found) => {
            Some("strings are not joined: print each by its own call")
        }
        _ => None,
    }
}

/// What to say where an integer is compared with a reference.
fn on_comparison(
    operation: &Operation,
    one: StackEntry,
    other: StackEntry,
) -> Option<&'static str> {
    match operation {
        Operation::Compare(Comparison::Equal)
        | Operation::Branch(
            BranchCondition::Compare(BranchComparison::Equal | BranchComparison::NotEqual),
            _,
        ) if one.is_reference() != other.is_reference() => {
            Some("compare a reference with a reference or `ldnull`, and an integer with an integer")
        }
        _ => None,
    }
}

/// What to say where two operands do not go together.
pub(crate) fn on_two(
    operation: &Operation,
    one: StackEntry,
    other: StackEntry,
) -> Option<&'static str> {
    on_operand(operation, one)
        .or(on_operand(operation, other))
        .or(on_comparison(operation, one, other))
}
