//! Instructions.

ghost use Rattle.std.specs.Prelude.{◌≡◌};
ghost use Rattle.ilasm_tokens.specs.declared.words.Form.TheVariants.{Int32, Call, CallVirtual, NewObject};
ghost use Rattle.ilasm_tokens.specs.Steps.{Gives};
ghost use Rattle.ilasm_reader.specs.Parsing.{bare, creation, virtual_call, with_integer, with_field, with_type, instruction_at, operands_at};

use crate::lists::{Parse, parentheses};
use crate::operands::{Target, field_reference, instance_method, method_reference};
use crate::single::{any_word, integer, name, quoted_text, take_word};
use crate::types::AnyType;
use cil_model::instructions::{FieldReference, Instruction, MethodName, MethodReference};
use cil_model::types::{DeclaredType, Signature};
use ilasm_tokens::expected::Expected;
use ilasm_tokens::failure::Failure;
use ilasm_tokens::source_tokens::Tokens;
use ilasm_tokens::words::{Bare, FieldAccess, Form, WithInteger, WithType, WordUse, use_of};
use std::alloc::Global;

fn bare(which: Bare) -> Instruction
    ensures { result ≡ bare which }
{
    match which {
        Bare::NoOperation => Instruction::NoOperation,
        Bare::LoadNull => Instruction::LoadNull,
        Bare::Duplicate => Instruction::Duplicate,
        Bare::Pop => Instruction::Pop,
        Bare::ConvertInt32 => Instruction::ConvertInt32,
        Bare::ConvertInt64 => Instruction::ConvertInt64,
        Bare::LoadLength => Instruction::LoadLength,
        Bare::LoadElement(kind) => Instruction::LoadElement(kind),
        Bare::StoreElement(kind) => Instruction::StoreElement(kind),
        Bare::Return => Instruction::Return,
        Bare::Int32(value) => Instruction::LoadInt32(value),
        Bare::Argument(number) => Instruction::LoadArgument(number),
        Bare::Local(number) => Instruction::LoadLocal(number),
        Bare::SetLocal(number) => Instruction::StoreLocal(number),
        Bare::Binary(operation) => Instruction::Binary(operation),
        Bare::Unary(operation) => Instruction::Unary(operation),
        Bare::Shift(operation) => Instruction::Shift(operation),
        Bare::Compare(comparison) => Instruction::Compare(comparison),
    }
}

fn with_integer(which: WithInteger, value: i64) -> Instruction
    ensures { result ≡ with_integer which value }
{
    match which {
        WithInteger::LoadInt64 => Instruction::LoadInt64(value),
        WithInteger::LoadArgument => Instruction::LoadArgument(value),
        WithInteger::StoreArgument => Instruction::StoreArgument(value),
        WithInteger::LoadLocal => Instruction::LoadLocal(value),
        WithInteger::StoreLocal => Instruction::StoreLocal(value),
    }
}

fn with_field(which: FieldAccess, field: FieldReference) -> Instruction
    ensures { result ≡ with_field which field }
{
    match which {
        FieldAccess::Load => Instruction::LoadField(field),
        FieldAccess::Store => Instruction::StoreField(field),
        FieldAccess::LoadStatic => Instruction::LoadStaticField(field),
        FieldAccess::StoreStatic => Instruction::StoreStaticField(field),
    }
}

fn with_type(which: WithType, its_type: DeclaredType) -> Instruction
    ensures { result ≡ with_type which its_type }
{
    match which {
        WithType::NewArray => Instruction::NewArray(its_type),
        WithType::Cast => Instruction::CastClass(its_type),
        WithType::IsInstance => Instruction::IsInstance(its_type),
    }
}

/// The instruction `ldc.i4`, after its name.
#[tactic(auto, unfolding(crate::specs::Parsing::operands_at, crate::specs::Parsing::has_32_bits, ilasm_tokens::specs::Steps::bind))]
fn load_int32(tokens: &mut Tokens<'_>) -> Result<Instruction, Failure>
    ensures { Gives (λ x. (x, tokens.new.now)) result (operands_at Int32 tokens.old.now) }
{
    let left = tokens.len();
    let value = integer(tokens, Expected::Int32)?;
    match i32::try_from(value) {
        Ok(value) => Ok(Instruction::LoadInt32(value)),
        Err(_) => Err(Failure::Refused {
            left,
            expected: Expected::Int32,
        }),
    }
}

/// What follows `call`, with the word `instance` or without it.
fn called_after(is_instance: bool) -> Expected {
    if is_instance {
        Expected::ReturnType
    } else {
        Expected::CalledMethod
    }
}

/// The instruction `call`, after its name.
#[tactic(auto, unfolding(crate::specs::Parsing::operands_at, ilasm_tokens::specs::Steps::bind))]
fn call(alloc: Global, tokens: &mut Tokens<'_>) -> Result<Instruction, Failure>
    ensures { Gives (λ x. (x, tokens.new.now)) result (operands_at Call tokens.old.now) }
{
    let is_instance = take_word(tokens, b"instance");
    let method = method_reference(alloc, tokens, called_after(is_instance))?;
    Ok(Instruction::Call {
        is_instance,
        method,
    })
}

/// The virtual call of a method, unless it is a constructor.
#[tactic(auto, unfolding(crate::specs::Parsing::virtual_call))]
fn virtual_call(method: MethodReference) -> Option<Instruction>
    ensures { result ≡ virtual_call method.owner method.signature method.name }
{
    let MethodReference {
        owner,
        name,
        signature,
    } = method;
    match name {
        MethodName::Constructor => None,
        MethodName::Named(name) => Some(Instruction::CallVirtual {
            owner,
            name,
            signature,
        }),
    }
}

/// The instruction `callvirt`, after its name.
#[tactic(auto, unfolding(crate::specs::Parsing::operands_at, ilasm_tokens::specs::Steps::bind))]
fn call_virtual(alloc: Global, tokens: &mut Tokens<'_>) -> Result<Instruction, Failure>
    ensures { Gives (λ x. (x, tokens.new.now)) result (operands_at CallVirtual tokens.old.now) }
{
    let left = tokens.len();
    let method = instance_method(alloc, tokens)?;
    match virtual_call(method) {
        Some(call) => Ok(call),
        None => Err(Failure::Refused {
            left,
            expected: Expected::VirtualMethod,
        }),
    }
}

/// The making of an object by a method, if it is a constructor, which returns nothing.
#[tactic(auto, unfolding(crate::specs::Parsing::creation))]
fn creation(method: MethodReference) -> Option<Instruction>
    ensures { result ≡ creation method.owner method.signature.parameters method.name method.signature.return_type }
{
    let MethodReference {
        owner,
        name,
        signature,
    } = method;
    let Signature {
        parameters,
        return_type,
    } = signature;
    match (name, return_type) {
        (MethodName::Constructor, None) => Some(Instruction::NewObject(owner, parameters)),
        _ => None,
    }
}

/// The instruction `newobj`, after its name.
#[tactic(auto, unfolding(crate::specs::Parsing::operands_at, ilasm_tokens::specs::Steps::bind))]
fn new_object(alloc: Global, tokens: &mut Tokens<'_>) -> Result<Instruction, Failure>
    ensures { Gives (λ x. (x, tokens.new.now)) result (operands_at NewObject tokens.old.now) }
{
    let left = tokens.len();
    let method = instance_method(alloc, tokens)?;
    match creation(method) {
        Some(created) => Ok(created),
        None => Err(Failure::Refused {
            left,
            expected: Expected::Constructor,
        }),
    }
}

/// An instruction, after its name.
#[tactic(auto, unfolding(crate::specs::Parsing::operands_at, ilasm_tokens::specs::Steps::bind))]
fn instruction_of(
    alloc: Global,
    form: Form,
    tokens: &mut Tokens<'_>,
) -> Result<Instruction, Failure>
    ensures { Gives (λ x. (x, tokens.new.now)) result (operands_at form tokens.old.now) }
{
    match form {
        Form::Bare(which) => Ok(bare(which)),
        Form::Int32 => load_int32(tokens),
        Form::Integer(which) => {
            let value = integer(tokens, Expected::Integer)?;
            Ok(with_integer(which, value))
        }
        Form::Quoted => {
            let characters = quoted_text(alloc, tokens)?;
            Ok(Instruction::LoadString(characters))
        }
        Form::Branch(condition) => {
            let label = name(alloc, tokens, Expected::LabelName)?;
            Ok(Instruction::Branch(condition, label))
        }
        Form::Switch => {
            let labels = parentheses::<Target>(alloc, tokens)?;
            Ok(Instruction::Switch(labels))
        }
        Form::Field(which) => {
            let field = field_reference(alloc, tokens)?;
            Ok(with_field(which, field))
        }
        Form::Type(which) => {
            let its_type = AnyType::parse(alloc, tokens)?;
            Ok(with_type(which, its_type))
        }
        Form::Call => call(alloc, tokens),
        Form::CallVirtual => call_virtual(alloc, tokens),
        Form::NewObject => new_object(alloc, tokens),
    }
}

/// An instruction. Where there is none, the grammar has what is given as `expected`.
#[tactic(auto, unfolding(crate::specs::Parsing::instruction_at, crate::specs::Parsing::form_of, ilasm_tokens::specs::Steps::bind))]
pub fn instruction(
    alloc: Global,
    tokens: &mut Tokens<'_>,
    expected: Expected,
) -> Result<Instruction, Failure>
    ensures { Gives (λ x. (x, tokens.new.now)) result (instruction_at tokens.old.now) }
{
    let left = tokens.len();
    let word = any_word(tokens, expected)?;
    match use_of(word) {
        Some(WordUse::Instruction(form)) => instruction_of(alloc, form, tokens),
        _ => Err(Failure::Refused { left, expected }),
    }
}
