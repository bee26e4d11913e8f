//! The least typing of a method, by flags for the pcs whose ways on are still to be looked at (ECMA-335 III.1.8.1.3).

ghost use Rattle.std.specs.Prelude.{◌≡◌, ◌+◌, ◌<◌, ◌≤◌, pos, ℕ, ◌∷◌, [], List, IfOk, IfErr, IfSome, OnOk, length, replicate, slice_get, slice_set, true, false, Some, None, option_map};
ghost use Rattle.cil_model.specs.declared.trees.Tree.{Tree};
ghost use Rattle.cil_model.specs.declared.trees.Code.{Code};
ghost use Rattle.cil_model.specs.declared.trees.Line.{Line};
ghost use Rattle.cil_model.specs.declared.instructions.Instruction.{Instruction};
ghost use Rattle.flow_rules.specs.StackTypes.{type_named, types_named, stack_types};
ghost use Rattle.flow_rules.specs.Flow.{flow_of};
ghost use Rattle.flow_rules.specs.declared.entries.StackEntry as entries;
ghost use Rattle.resolved_code.specs.ResolvedPrograms.{IsBody, IsOperation};
ghost use Rattle.verifier.specs.Rises.{stack_rises, as_natural};
ghost use Rattle.verifier.specs.Ways.{ways_on};
ghost use Rattle.verifier.specs.Tables.{IsPending};
ghost use Rattle.verifier.specs.Answers.{IsRow, IsResultAt, IsMergeAt, IsRise, AreOf, IsOnTheWay, IsVisit, IsTypingAnswer, IsWhole, with_max_stack, work_left};
ghost use Rattle.verifier.specs.Evidence.{IsRefusedAt, IsReportedOf, IsAnsweredBy, IsStackOf, IsShown, IsEvidence};
ghost use Rattle.verifier.specs.declared.failures.TypingError.TheVariants.{OutOfMemory};
ghost use Rattle.verifier.specs.declared.search.RaiseError.TheVariants as OfRaise;

use crate::failures::{FailurePoint, IncomingStack, Reason, TypingError};
use crate::kept_stacks::KeptStack;
use crate::merging::{MergeError, StackMerge, merge_stacks};
use crate::order::indices_in_order;
use crate::stacks::{copy_of, stack_after};
use crate::ways::ways_on;
use cil_model::memory::NoMemory;
use cil_model::sequences::Sequence;
use flow_rules::entries::StackEntry;
use flow_rules::method_types::MethodTypes;
use flow_rules::mismatches::{FlowError, Mismatch};
use flow_rules::type_tree::TypeTree;
use resolved_code::classes::Body;
use resolved_code::operations::Operation;
use resolved_code::types::ResolvedType;
use std::alloc::{AllocError, Global};

/// The stacks found so far, one for each pc where control was found to go; a flag for each pc, set where its ways on are still to be looked at;
/// the pcs in the order in which these are taken; and the rank in it at which the look for the next of them begins.
#[derive(Drop)]
struct Search {
    rows: Vec<Option<KeptStack>>,
    is_pending: Vec<bool>,
    order: Vec<usize>,
    from: usize,
}

/// Whether this number of values is no more than the most.
fn is_low(height: usize, most: usize) -> bool
    ensures low { result ≡ true → height ≤ most }
    ensures high { result ≡ false → most < height }
{
    height <= most
}

/// The most values that a stack may hold. None where that is negative.
fn most_values(max_stack: i64) -> Option<usize>
    ensures { result ≡ as_natural max_stack }
{
    usize::try_from(max_stack).ok()
}

/// What a search knows of a pc.
#[derive(Clone, Copy)]
enum Row<'a> {
    /// There is no such pc.
    Absent,
    /// Control was not found to go there.
    Unmapped,
    /// It goes there with this stack, or one below it.
    Mapped(&'a KeptStack),
}

/// What is known of a pc.
fn row_at(rows: &[Option<KeptStack>], pc: usize) -> Row<'_>
    ensures { IsRow rows.now pc result }
{
    match rows.get(pc) {
        None => Row::Absent,
        Some(None) => Row::Unmapped,
        Some(Some(stack)) => Row::Mapped(stack),
    }
}

/// The stack of a pc, where control was found to go there.
fn mapped_at(rows: &[Option<KeptStack>], pc: usize) -> Option<&KeptStack>
    ensures mapped { IfSome result (λ stack. slice_get rows.now pc ≡ Some (Some stack.now)) }
    ensures none { result ≡ None → (stack : List entries.StackEntry) → slice_get rows.now pc ≡ Some (Some stack) → ⊥ }
{
    match row_at(rows, pc) {
        Row::Mapped(stack) => Some(stack),
        Row::Absent | Row::Unmapped => None,
    }
}

/// The operation at a pc.
fn operation_at(operations: &[Operation], pc: usize) -> Option<&Operation>
    ensures found { IfSome result (λ operation. slice_get operations.now pc ≡ Some operation.now) }
    ensures beyond { result ≡ None → slice_get operations.now pc ≡ None }
{
    operations.get(pc)
}

/// The pc after an operation.
fn next_index(operations: &[Operation], pc: usize) -> usize
    requires { pc < length operations.now }
    ensures { result ≡ pc + 1 }
{
    let pcs = operations.len();
    if pc < pcs { pc + 1 } else { pcs }
}

/// Why a stack can't be taken to a pc.
#[derive(Clone, Copy)]
enum RaiseError {
    Refused { pc: usize, reason: Reason },
    OutOfMemory,
}

/// A failure of a search that never gets to an instruction.
fn without_stacks(pc: usize, reason: Reason, alloc: Global) -> TypingError
    ensures { IsRefusedAt pc reason result }
{
    TypingError::Untyped(FailurePoint {
        pc,
        reason,
        instruction: pc,
        stack: Sequence::new(Vec::new(alloc)),
        incoming: None,
    })
}

/// Why a search does not begin.
fn not_begun(error: RaiseError, alloc: Global) -> TypingError
    ensures { IsReportedOf error result }
{
    match error {
        RaiseError::Refused { pc, reason } => without_stacks(pc, reason, alloc),
        RaiseError::OutOfMemory => TypingError::OutOfMemory,
    }
}

/// The failure of an instruction that has no result on the stack before it.
fn no_result(pc: usize, mismatch: Mismatch, before: &KeptStack, alloc: Global) -> TypingError
    ensures { IsStackOf pc before.now result }
{
    match copy_of(before, alloc) {
        Ok(stack) => TypingError::Untyped(FailurePoint {
            pc,
            reason: Reason::NoResult(mismatch),
            instruction: pc,
            stack,
            incoming: None,
        }),
        Err(_) => TypingError::OutOfMemory,
    }
}

/// Whether two entries are one.
fn is_same_entry(one: StackEntry, other: StackEntry) -> bool
    ensures { result ≡ true → one ≡ other }
{
    one == other
}

/// Whether two stacks are one, entry by entry.
fn are_same(known: &KeptStack, coming: &[StackEntry]) -> bool
    ensures { result ≡ true → known.now ≡ coming.now }
{
    if known.len() != coming.len() {
        return false;
    }
    for index in 0..known.len() {
        if !is_same_entry(known.entry(index), coming[index]) {
            return false;
        }
    }
    true
}

/// The merge of the stack that a pc has with one that reaches it.
fn merge_at(
    types: &TypeTree,
    pc: usize,
    known: &KeptStack,
    coming: &[StackEntry],
    alloc: Global,
) -> Result<StackMerge, RaiseError>
    ensures merged { IsMergeAt types.now known.now coming.now result }
    ensures same { IfOk result (λ m. m.is_higher ≡ false → m.stack ≡ known.now) }
    ensures higher { IfOk result (λ m. m.is_higher ≡ true → stack_rises types.now (stack_types types.now m.stack) < stack_rises types.now (stack_types types.now known.now)) }
{
    match merge_stacks(types, known, coming, alloc) {
        Ok(merge) => Ok(merge),
        Err(MergeError::Apart(mismatch)) => Err(RaiseError::Refused {
            pc,
            reason: Reason::NoMerge(mismatch),
        }),
        Err(MergeError::OutOfMemory) => Err(RaiseError::OutOfMemory),
    }
}

/// The stack after the instruction at a pc, by the flow rule.
fn result_at(
    method: &MethodTypes,
    operation: &Operation,
    pc: usize,
    before: &KeptStack,
    alloc: Global,
) -> Result<Sequence<StackEntry>, TypingError>
    ensures found { (lines : List Line) (i : Instruction) → IsOperation method.now.types.now lines i operation.now → IsResultAt method.now.types.now result (flow_of method.now i before.now) }
    ensures evidence { IfErr result (IsStackOf pc before.now) }
{
    match stack_after(method, operation, before, alloc) {
        Ok(after) => Ok(after),
        Err(FlowError::Mismatch(mismatch)) => Err(no_result(pc, mismatch, before, alloc)),
        Err(FlowError::OutOfMemory) => Err(TypingError::OutOfMemory),
    }
}

/// Rows of which nothing is found. The only error is out of memory.
fn unmapped_stacks(pcs: usize, alloc: Global) -> Result<Vec<Option<KeptStack>>, NoMemory>
    ensures { IfOk result (λ rows. rows.items ≡ replicate pcs None) }
{
    let mut rows = Vec::with_capacity(alloc, pcs)?;
    for pc in 0..pcs {
        rows.push(None)?;
    }
    Ok(rows)
}

/// Flags of which none is set. The only error is out of memory.
fn none_pending(pcs: usize, alloc: Global) -> Result<Vec<bool>, AllocError>
    ensures { IfOk result (λ flags. flags.items ≡ replicate pcs false) }
{
    vec![in alloc; false; pcs]
}

/// A pc whose ways on are still to be looked at, and the rank at which the look for the next one begins: its own, where it has one.
#[derive(Clone, Copy)]
struct Pending {
    pc: usize,
    rank: usize,
}

/// The first pending pc that isn't before this one.
fn pending_from(is_pending: &[bool], from: usize) -> Option<Pending>
    ensures found { IfSome result (λ pending. IsPending is_pending.now pending.pc) }
    ensures none { result ≡ None → (pc : ℕ) → from ≤ pc → IsPending is_pending.now pc → ⊥ }
{
    for pc in from..is_pending.len() {
        if is_pending[pc] {
            return Some(Pending { pc, rank: 0 });
        }
    }
    None
}

/// The first pending pc of an order from a rank on.
fn pending_in_order(is_pending: &[bool], order: &[usize], from: usize) -> Option<Pending>
    ensures { IfSome result (λ pending. IsPending is_pending.now pending.pc) }
{
    for rank in from..order.len() {
        let pc = order[rank];
        if pc < is_pending.len() && is_pending[pc] {
            return Some(Pending { pc, rank });
        }
    }
    None
}

/// The first pending pc of an order, or otherwise any.
fn pending_again(is_pending: &[bool], order: &[usize]) -> Option<Pending>
    ensures found { IfSome result (λ pending. IsPending is_pending.now pending.pc) }
    ensures none { result ≡ None → (pc : ℕ) → IsPending is_pending.now pc → ⊥ }
{
    match pending_in_order(is_pending, order, 0) {
        Some(pending) => Some(pending),
        None => pending_from(is_pending, 0),
    }
}

/// The next pending pc: the first of the order from a rank on, or otherwise the first of the order, or otherwise any.
fn pending_after(is_pending: &[bool], order: &[usize], from: usize) -> Option<Pending>
    ensures found { IfSome result (λ pending. IsPending is_pending.now pending.pc) }
    ensures none { result ≡ None → (pc : ℕ) → IsPending is_pending.now pc → ⊥ }
{
    match pending_in_order(is_pending, order, from) {
        Some(pending) => Some(pending),
        None => pending_again(is_pending, order),
    }
}

impl Search {
    /// Nothing is found of the pcs of these operations. The only error is out of memory.
    fn new(operations: &[Operation], alloc: Global) -> Result<Self, NoMemory>
        ensures rows { IfOk result (λ s. s.rows.items ≡ replicate (length operations.now) None) }
        ensures whole { IfOk result (λ s. IsWhole s) }
    {
        let is_pending = none_pending(operations.len(), alloc)?;
        let rows = unmapped_stacks(operations.len(), alloc)?;
        let order = indices_in_order(operations, alloc)?;
        Ok(Search {
            rows,
            is_pending,
            order,
            from: 0,
        })
    }

    /// Sets the stack of a pc, which is then pending.
    fn set(&mut self, pc: usize, stack: KeptStack)
        requires inside { pc < length self.old.rows.items }
        requires whole { IsWhole self.old }
        ensures rows { self.new.rows.items ≡ slice_set self.old.rows.items pc (Some stack) }
        ensures pending { self.new.is_pending.items ≡ slice_set self.old.is_pending.items pc true }
    {
        self.rows[pc] = Some(stack);
        self.is_pending[pc] = true;
    }

    /// Takes the first stack to a pc.
    fn map(
        &mut self,
        pc: usize,
        after: &[StackEntry],
        most: usize,
        alloc: Global,
    ) -> Result<(), RaiseError>
        requires unmapped { slice_get self.old.rows.items pc ≡ Some None }
        requires whole { IsWhole self.old }
        ensures { (tree : Tree) → IsRise tree (pos most) after.now (pc ∷ []) self.old self.new result }
    {
        if is_low(after.len(), most) {
            let Ok(stack) = KeptStack::new(after, alloc) else {
                return Err(RaiseError::OutOfMemory);
            };
            self.set(pc, stack);
            return Ok(());
        }
        let reason = Reason::TooHigh(after.len());
        Err(RaiseError::Refused { pc, reason })
    }

    /// Takes a further stack to a pc. The only error is out of memory.
    fn merge(&mut self, pc: usize, merge: &StackMerge, alloc: Global) -> Result<(), RaiseError>
        requires inside { pc < length self.old.rows.items }
        requires whole { IsWhole self.old }
        ensures same { merge.now.is_higher ≡ false → self.new ≡ self.old }
        ensures rows { OnOk result (merge.now.is_higher ≡ true → self.new.rows.items ≡ slice_set self.old.rows.items pc (Some merge.now.stack)) }
        ensures pending { OnOk result (merge.now.is_higher ≡ true → self.new.is_pending.items ≡ slice_set self.old.is_pending.items pc true) }
        ensures err { IfErr result (λ e. e ≡ OfRaise.OutOfMemory) }
    {
        if !merge.is_higher {
            return Ok(());
        }
        let Ok(stack) = KeptStack::new(merge.stack.as_slice(), alloc) else {
            return Err(RaiseError::OutOfMemory);
        };
        self.set(pc, stack);
        Ok(())
    }

    /// Takes a stack to a pc. Where it is the stack that the pc has, nothing is merged.
    fn raise(
        &mut self,
        types: &TypeTree,
        pc: usize,
        after: &[StackEntry],
        most: usize,
        alloc: Global,
    ) -> Result<(), RaiseError>
        requires whole { IsWhole self.old }
        ensures { IsRise types.now (pos most) after.now (pc ∷ []) self.old self.new result }
    {
        match row_at(self.rows.as_slice(), pc) {
            Row::Absent => {
                let reason = Reason::NoInstruction;
                Err(RaiseError::Refused { pc, reason })
            }
            Row::Unmapped => self.map(pc, after, most, alloc),
            Row::Mapped(known) => {
                if are_same(known, after) {
                    return Ok(());
                }
                let merge = merge_at(types, pc, known, after, alloc)?;
                self.merge(pc, &merge, alloc)
            }
        }
    }

    /// Takes a stack to all these pcs.
    fn raise_all(
        &mut self,
        types: &TypeTree,
        ways: &[usize],
        after: &[StackEntry],
        most: usize,
        alloc: Global,
    ) -> Result<(), RaiseError>
        requires whole { IsWhole self.old }
        ensures { IsRise types.now (pos most) after.now ways.now self.old self.new result }
    {
        for index in 0..ways.len() {
            self.raise(types, ways[index], after, most, alloc)?;
        }
        Ok(())
    }

    /// A copy of the stack of a pc; an empty one where control was not found to go there. The only error is out of memory.
    fn stack_at(&self, pc: usize, alloc: Global) -> Result<Sequence<StackEntry>, FlowError>
        ensures { IfOk result (λ copy. IsShown self.now.rows.items pc copy) }
    {
        match mapped_at(self.rows.as_slice(), pc) {
            Some(stack) => copy_of(stack, alloc),
            None => Ok(Sequence::new(Vec::new(alloc))),
        }
    }

    /// The failure of a search that could not take to a pc what an instruction leaves.
    fn stop_at(
        &self,
        pc: usize,
        reason: Reason,
        incoming: IncomingStack,
        alloc: Global,
    ) -> TypingError
        ensures reported { IsRefusedAt pc reason result }
        ensures evidence { IsEvidence self.now.rows.items result }
    {
        let instruction = match reason {
            Reason::NoMerge(_) => pc,
            _ => incoming.from,
        };
        match self.stack_at(instruction, alloc) {
            Ok(stack) => TypingError::Untyped(FailurePoint {
                pc,
                reason,
                instruction,
                stack,
                incoming: Some(incoming),
            }),
            Err(_) => TypingError::OutOfMemory,
        }
    }

    /// The result where what an instruction leaves was taken on, or could not be.
    fn answer_after(
        &self,
        risen: Result<(), RaiseError>,
        incoming: IncomingStack,
        alloc: Global,
    ) -> Result<(), TypingError>
        ensures reported { IsAnsweredBy risen result }
        ensures evidence { IfErr result (IsEvidence self.now.rows.items) }
    {
        match risen {
            Ok(()) => Ok(()),
            Err(RaiseError::OutOfMemory) => Err(TypingError::OutOfMemory),
            Err(RaiseError::Refused { pc, reason }) => {
                Err(self.stop_at(pc, reason, incoming, alloc))
            }
        }
    }

    /// Takes the next pending pc, which is pending no longer. At None there is none.
    fn next(&mut self) -> Option<usize>
        ensures found { IfSome result (λ pc. IsPending self.old.is_pending.items pc) }
        ensures taken { IfSome result (λ pc. self.new.is_pending.items ≡ slice_set self.old.is_pending.items pc false) }
        ensures empty { result ≡ None → (pc : ℕ) → IsPending self.old.is_pending.items pc → ⊥ }
        ensures rows { self.new.rows ≡ self.old.rows }
    {
        let order = self.order.as_slice();
        let pending = pending_after(self.is_pending.as_slice(), order, self.from)?;
        self.is_pending[pending.pc] = false;
        self.from = pending.rank;
        Some(pending.pc)
    }

    /// Takes the stack after the instruction at a pc to where control continues.
    fn visit(
        &mut self,
        method: &MethodTypes,
        operations: &[Operation],
        most: usize,
        pc: usize,
        alloc: Global,
    ) -> Result<(), TypingError>
        requires whole { IsWhole self.old }
        ensures found { (code : Code) → AreOf method.now operations.now (pos most) code → IsOnTheWay method.now code self.old.rows.items (slice_set self.old.is_pending.items pc true) → IsVisit method.now code self.new result }
        ensures evidence { IfErr result (IsEvidence self.new.rows.items) }
        ensures whole { OnOk result (IsWhole self.new) }
        ensures work { OnOk result (work_left method.now.types.now (pos most) self.new ≤ work_left method.now.types.now (pos most) self.old) }
    {
        let Some(operation) = operation_at(operations, pc) else {
            return Ok(());
        };
        let Some(stack) = mapped_at(self.rows.as_slice(), pc) else {
            return Ok(());
        };
        // That class System.Object is looked up shows that the program is legal.
        let _object = method.types.class(0);
        let after = result_at(method, operation, pc, stack, alloc)?;
        let ways = ways_on(operation, next_index(operations, pc), alloc)?;
        let risen = self.raise_all(method.types, ways.as_slice(), after.as_slice(), most, alloc);
        let incoming = IncomingStack {
            from: pc,
            stack: after,
        };
        self.answer_after(risen, incoming, alloc)
    }
}

/// The least typing of the code of a method with these types.
fn least_typing(
    method: &MethodTypes,
    operations: &[Operation],
    most: usize,
    alloc: Global,
) -> Result<Sequence<Option<KeptStack>>, TypingError>
    ensures { (code : Code) → AreOf method.now operations.now (pos most) code → IsTypingAnswer method.now.types.now (types_named method.now.types.now method.now.arguments.now) (option_map (type_named method.now.types.now) method.now.return_type) code result }
{
    let mut search = Search::new(operations, alloc)?;
    match search.raise(method.types, 0, [].as_slice(), most, alloc) {
        Ok(()) => {}
        Err(error) => return Err(not_begun(error, alloc)),
    }
    while let Some(pc) = search.next() {
        search.visit(method, operations, most, pc, alloc)?;
    }
    let Search {
        rows,
        is_pending: _,
        order: _,
        from: _,
    } = search;
    Ok(Sequence::new(rows))
}

/// The same of a body. No stack is low enough where `.maxstack` is negative.
fn typing_of_body(
    method: &MethodTypes,
    body: &Body,
    alloc: Global,
) -> Result<Sequence<Option<KeptStack>>, TypingError>
    ensures { (code : Code) → IsBody method.now.types.now code body.now → types_named method.now.types.now method.now.locals.now ≡ code.locals → IsTypingAnswer method.now.types.now (types_named method.now.types.now method.now.arguments.now) (option_map (type_named method.now.types.now) method.now.return_type) code result }
{
    let Some(most) = most_values(body.max_stack) else {
        return Err(without_stacks(0, Reason::TooHigh(0), alloc));
    };
    least_typing(method, body.operations.as_slice(), most, alloc)
}

/// The least typing of a method's code, the top of each stack first; none at a pc that control never reaches. An `Untyped` error
/// is returned exactly where the code has no typing (ECMA-335 III.1.8.1.3), and has the stacks where the search failed.
pub fn find_typing(
    types: &TypeTree,
    arguments: &[ResolvedType],
    return_type: Option<ResolvedType>,
    body: &Body,
    alloc: Global,
) -> Result<Sequence<Option<KeptStack>>, TypingError>
    ensures { (code : Code) → IsBody types.now code body.now → IsTypingAnswer types.now (types_named types.now arguments.now) (option_map (type_named types.now) return_type) code result }
{
    let method = MethodTypes {
        types,
        arguments,
        locals: body.locals.as_slice(),
        return_type,
    };
    let typing = typing_of_body(&method, body, alloc);
    let MethodTypes {
        types: _,
        arguments: _,
        locals: _,
        return_type: _,
    } = method;
    typing
}

/// As `find_typing`, with stacks of at most the given number of values, whatever the `.maxstack` of the code is.
pub fn find_typing_within(
    types: &TypeTree,
    arguments: &[ResolvedType],
    return_type: Option<ResolvedType>,
    body: &Body,
    most: usize,
    alloc: Global,
) -> Result<Sequence<Option<KeptStack>>, TypingError>
    ensures { (code : Code) → IsBody types.now code body.now → IsTypingAnswer types.now (types_named types.now arguments.now) (option_map (type_named types.now) return_type) (with_max_stack most code) result }
{
    let locals = body.locals.as_slice();
    let operations = body.operations.as_slice();
    let method = MethodTypes {
        types,
        arguments,
        locals,
        return_type,
    };
    let typing = least_typing(&method, operations, most, alloc);
    let MethodTypes {
        types: _,
        arguments: _,
        locals: _,
        return_type: _,
    } = method;
    typing
}
