//! A stack of types.

ghost use Rattle.std.specs.Prelude.{◌≡◌, ◌∷◌, ◌<◌, [], IfOk, IfErr, IfSome, OnOk, None, length};
ghost use Rattle.flow_rules.specs.declared.mismatches.FlowError as errors;
ghost use Rattle.flow_rules.specs.declared.mismatches.FlowError.TheVariants.{Mismatch as Mismatches, OutOfMemory};
ghost use Rattle.flow_rules.specs.declared.mismatches.Mismatch.TheVariants.{OperandMissing};

use crate::entries::StackEntry;
use crate::mismatches::{FlowError, Mismatch};
use std::alloc::Global;
use std::marker::Model;

/// What a verifier knows of the values on a stack. Contracts see it as the list of its entries, the top first.
#[derive(Drop)]
pub struct TypeStack {
    entries: Vec<StackEntry>,
}

impl Model for TypeStack {
    ghost use Rattle.std.specs.Prelude.{List, reverse};
    ghost use Rattle.flow_rules.specs.declared.entries.StackEntry.{StackEntry};

    ghost Value = { List StackEntry };

    ghost view = { λ s. reverse s.entries.items };
}

impl TypeStack {
    /// The empty stack. Takes no memory.
    pub fn new(alloc: Global) -> Self
        ensures { result ≡ [] }
    {
        TypeStack {
            entries: Vec::new(alloc),
        }
    }

    /// Puts an entry on top. The only error is out of memory.
    pub fn push(&mut self, entry: StackEntry) -> Result<(), FlowError>
        ensures pushed { OnOk result (self.new ≡ entry ∷ self.old) }
        ensures err { IfErr result (λ e. e ≡ OutOfMemory) }
    {
        match self.entries.push(entry) {
            Ok(()) => Ok(()),
            Err(_) => Err(FlowError::OutOfMemory),
        }
    }

    /// Takes the topmost entry. At None the stack is empty.
    pub fn take(&mut self) -> Option<StackEntry>
        ensures top { IfSome result (λ top. self.old ≡ top ∷ self.new) }
        ensures empty { result ≡ None → self.old ≡ [] }
        ensures stays { result ≡ None → self.new ≡ [] }
    {
        self.entries.pop()
    }

    /// Takes the topmost entry, which has to be there.
    pub fn take_one(&mut self) -> Result<StackEntry, FlowError>
        ensures taken { IfOk result (λ top. self.old ≡ top ∷ self.new) }
        ensures short { IfErr result (λ e. (self.old ≡ []) × (e ≡ Mismatches OperandMissing)) }
    {
        match self.take() {
            Some(top) => Ok(top),
            None => Err(FlowError::Mismatch(Mismatch::OperandMissing)),
        }
    }

    /// Takes the two topmost entries, which have to be there: the lower one, and then the top.
    pub fn take_two(&mut self) -> Result<(StackEntry, StackEntry), FlowError>
        ensures taken { IfOk result (λ p. self.old ≡ p.1 ∷ p.0 ∷ self.new) }
        ensures short { IfErr result (λ e. (length self.old < 2) × (e ≡ Mismatches OperandMissing)) }
    {
        let second = self.take_one()?;
        let first = self.take_one()?;
        Ok((first, second))
    }

    /// Takes the three topmost entries, which have to be there, the lowest one first.
    pub fn take_three(&mut self) -> Result<(StackEntry, StackEntry, StackEntry), FlowError>
        ensures taken { IfOk result (λ p. self.old ≡ p.2 ∷ p.1 ∷ p.0 ∷ self.new) }
        ensures short { IfErr result (λ e. (length self.old < 3) × (e ≡ Mismatches OperandMissing)) }
    {
        let third = self.take_one()?;
        let (first, second) = self.take_two()?;
        Ok((first, second, third))
    }
}
