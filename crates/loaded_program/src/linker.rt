//! Instructions are linked one by one.

ghost use Rattle.std.specs.Prelude.{◌≡◌, ℕ, Some, FitsSigned, IfOk, length};
ghost use Rattle.std.specs.Int.{w32, w64};
ghost use Rattle.cil_model.specs.declared.types.ClassName.{ClassName};
ghost use Rattle.cil_model.specs.declared.trees.Method.{Method};
ghost use Rattle.cil_model.specs.Bodies.{argument_types};
ghost use Rattle.cil_model.specs.declared.values.ValueKind.{ValueKind as AnyKind};
ghost use Rattle.name_tables.specs.Numbers.{method_at};
ghost use Rattle.loaded_program.specs.declared.instructions.LinkedInstruction.{LinkedInstruction as AnyLinked};
ghost use Rattle.loaded_program.specs.Operands.{HasSmallConstant, field_kind_at, slot_at, slots_at, static_at};
ghost use Rattle.loaded_program.specs.Links.{IsLinked, number_at, virtual_link};
ghost use Rattle.loaded_program.specs.LoadedPrograms.{CanLink};

use crate::instructions::LinkedInstruction;
use crate::methods::argument_count;
use crate::numbers::MethodNumbers;
use crate::operands::{array_element, class_of, in_32_bits, literal_address};
use cil_model::memory::NoMemory;
use cil_model::sequences::Sequence;
use class_layout::Layout;
use name_tables::ids::{FieldId, MethodId};
use object_memory::ValueKind;
use resolved_code::Program;
use resolved_code::operations::Operation;
use std::alloc::Global;

/// What the instructions of a program are linked by.
#[derive(Drop)]
pub(crate) struct Linker<'a> {
    pub program: &'a Program,
    pub layout: &'a Layout,
    pub numbers: &'a MethodNumbers,
}

/// A number of 32 bits is one.
fn has_32_bits(_number: i32)
    ensures { FitsSigned w32 _number }
{}

/// A number of 64 bits is one.
fn has_64_bits(_number: i64)
    ensures { FitsSigned w64 _number }
{}

/// The integers of constants have the bits of their sizes.
pub(crate) fn constants_are_small(operation: &Operation)
    ensures { HasSmallConstant operation.now }
{
    match operation {
        Operation::LoadInt32(number) => has_32_bits(*number),
        Operation::LoadInt64(number) => has_64_bits(*number),
        _ => (),
    }
}

/// A copy of a list of indices. The only error is out of memory.
fn copy_of(alloc: Global, indices: &[usize]) -> Result<Sequence<usize>, NoMemory>
    ensures { IfOk result (λ copy. copy ≡ indices.now) }
{
    let mut copy = Vec::with_capacity(alloc, indices.len())?;
    copy.extend_from_slice(indices)?;
    Ok(Sequence::new(copy))
}

impl Linker<'_> {
    /// The slot of an instance field, or the number of a static one. Any where it has none of 32 bits.
    fn slot(&self, field: FieldId) -> u32
        requires { CanLink self.now }
        ensures instance { (n : ℕ) → slot_at self.now.program.now field ≡ Some n → result ≡ n }
        ensures static_field { (n : ℕ) → static_at self.now.program.now field ≡ Some n → result ≡ n }
    {
        match self.layout.slot(field) {
            Some(slot) => in_32_bits(slot),
            None => u32::MAX,
        }
    }

    /// What a field holds. Any where there is no such field.
    fn kind(&self, field: FieldId) -> ValueKind
        ensures { (kind : AnyKind) → field_kind_at self.now.program.now field ≡ Some kind → result ≡ kind }
    {
        match self.program.field(field) {
            Some(field) => field.field_type.kind(),
            None => ValueKind::Ref,
        }
    }

    /// How many slots the objects of a member's class have. Any where it has none of 32 bits.
    fn slots(&self, member: MethodId) -> u32
        requires { CanLink self.now }
        ensures { (n : ℕ) → slots_at self.now.program.now member ≡ Some n → result ≡ n }
    {
        in_32_bits(self.layout.slots(member.class))
    }

    /// The flat number of a method. Any where no method is there.
    fn number(&self, member: MethodId) -> u32
        requires { CanLink self.now }
        ensures { (n : ℕ) → number_at self.now.program.now member ≡ Some n → result ≡ n }
    {
        self.numbers.number(member)
    }

    /// How many operands a call of a method takes, the object counted. Any where no method is there.
    fn operands(&self, member: MethodId) -> usize
        ensures { (found : ClassName × Method) → method_at self.now.program.now (member.class, member.index) ≡ Some found → result ≡ length (argument_types found.1 found.0) }
    {
        match self.program.method(member) {
            Some(method) => argument_count(method),
            None => 0,
        }
    }

    /// A virtual call of a method. Any where no method is there.
    fn virtual_call(&self, member: &MethodId) -> LinkedInstruction
        requires { CanLink self.now }
        ensures { (required : AnyLinked) → virtual_link self.now.program.now member.now ≡ Some required → result ≡ required }
    {
        LinkedInstruction::CallVirtual {
            method: self.number(*member),
            operands: self.operands(*member),
        }
    }

    /// An instruction of a method that returns a value or none, linked. Any instruction where an operand represents nothing. The only error is out of
    /// memory.
    pub fn link(
        &self,
        alloc: Global,
        has_value: bool,
        operation: &Operation,
    ) -> Result<LinkedInstruction, NoMemory>
        requires { CanLink self.now }
        ensures { IfOk result (λ linked. IsLinked self.now.program.now has_value operation.now linked) }
    {
        match operation {
            Operation::NoOperation => Ok(LinkedInstruction::NoOperation),
            Operation::LoadInt32(number) => Ok(LinkedInstruction::LoadInt32(*number)),
            Operation::LoadInt64(number) => Ok(LinkedInstruction::LoadInt64(*number)),
            Operation::LoadNull => Ok(LinkedInstruction::LoadNull),
            Operation::LoadString(number) => Ok(LinkedInstruction::LoadString(literal_address(
                *number,
            ))),
            Operation::LoadArgument(index) => Ok(LinkedInstruction::LoadArgument(*index)),
            Operation::StoreArgument(index) => Ok(LinkedInstruction::StoreArgument(*index)),
            Operation::LoadLocal(index) => Ok(LinkedInstruction::LoadLocal(*index)),
            Operation::StoreLocal(index) => Ok(LinkedInstruction::StoreLocal(*index)),
            Operation::Duplicate => Ok(LinkedInstruction::Duplicate),
            Operation::Pop => Ok(LinkedInstruction::Pop),
            Operation::Binary(binary) => Ok(LinkedInstruction::Binary(*binary)),
            Operation::Unary(unary) => Ok(LinkedInstruction::Unary(*unary)),
            Operation::Shift(shift) => Ok(LinkedInstruction::Shift(*shift)),
            Operation::Compare(comparison) => Ok(LinkedInstruction::Compare(*comparison)),
            Operation::ConvertInt32 => Ok(LinkedInstruction::ConvertInt32),
            Operation::ConvertInt64 => Ok(LinkedInstruction::ConvertInt64),
            Operation::Branch(condition, index) => Ok(LinkedInstruction::Branch(
                *condition, *index,
            )),
            Operation::Switch(indices) => Ok(LinkedInstruction::Switch(copy_of(
                alloc,
                indices.as_slice(),
            )?)),
            Operation::LoadField { field, .. } => Ok(LinkedInstruction::LoadField {
                slot: self.slot(*field),
                kind: self.kind(*field),
            }),
            Operation::StoreField { field, .. } => Ok(LinkedInstruction::StoreField {
                slot: self.slot(*field),
            }),
            Operation::LoadStaticField(field) => Ok(LinkedInstruction::LoadStaticField(self.slot(
                *field,
            ))),
            Operation::StoreStaticField(field) => Ok(LinkedInstruction::StoreStaticField(self.slot(
                *field,
            ))),
            Operation::NewArray(held) => Ok(LinkedInstruction::NewArray(array_element(*held))),
            Operation::LoadLength => Ok(LinkedInstruction::LoadLength),
            Operation::LoadElement(kind) => Ok(LinkedInstruction::LoadElement(*kind)),
            Operation::StoreElement(kind) => Ok(LinkedInstruction::StoreElement(*kind)),
            Operation::CastClass(to) => Ok(LinkedInstruction::CastClass(*to)),
            Operation::IsInstance(to) => Ok(LinkedInstruction::IsInstance(*to)),
            Operation::Call { method, .. } => Ok(LinkedInstruction::Call(self.number(*method))),
            Operation::CallVirtual { method, .. } => Ok(self.virtual_call(method)),
            Operation::NewObject(constructor) => Ok(LinkedInstruction::NewObject {
                class: class_of(*constructor),
                slots: self.slots(*constructor),
                method: self.number(*constructor),
            }),
            Operation::Return => Ok(LinkedInstruction::Return { has_value }),
        }
    }
}
