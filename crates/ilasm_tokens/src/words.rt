//! The reserved words, and what they are for.

ghost use Rattle.std.specs.Prelude.{◌≡◌, ◌<◌, [], length, get_or, map};
ghost use Rattle.ilasm_tokens.specs.Vocabulary.{Entry, bucket_from, groups, look_up, use_of};

use cil_model::instructions::{
    BinaryOperation, BranchComparison, BranchCondition, Comparison, ElementKind, ShiftOperation,
    UnaryOperation,
};

/// What a reserved word is for.
#[derive(Clone, Copy)]
pub enum WordUse {
    /// A word of the grammar alone.
    Grammar,
    /// The name of an instruction.
    Instruction(Form),
}

/// The operands that follow an instruction's name, and the instruction that they make.
#[derive(Clone, Copy)]
pub enum Form {
    /// None.
    Bare(Bare),
    /// An integer of 32 bits, of `ldc.i4`.
    Int32,
    /// An integer.
    Integer(WithInteger),
    /// A string literal, of `ldstr`.
    Quoted,
    /// A label.
    Branch(BranchCondition),
    /// Labels, of `switch`.
    Switch,
    /// A field.
    Field(FieldAccess),
    /// A type.
    Type(WithType),
    /// A method, of `call`.
    Call,
    /// A method, of `callvirt`.
    CallVirtual,
    /// A constructor, of `newobj`.
    NewObject,
}

/// Instructions whose name says all. Those of a short form have their operand in it.
#[derive(Clone, Copy)]
pub enum Bare {
    NoOperation,
    LoadNull,
    Duplicate,
    Pop,
    ConvertInt32,
    ConvertInt64,
    LoadLength,
    LoadElement(ElementKind),
    StoreElement(ElementKind),
    Return,
    /// `ldc.i4.3` and its like
    Int32(i32),
    /// `ldarg.0` and its like
    Argument(i64),
    /// `ldloc.0` and its like
    Local(i64),
    /// `stloc.0` and its like
    SetLocal(i64),
    Binary(BinaryOperation),
    Unary(UnaryOperation),
    Shift(ShiftOperation),
    Compare(Comparison),
}

/// Instructions with an integer of 64 bits.
#[derive(Clone, Copy)]
pub enum WithInteger {
    LoadInt64,
    LoadArgument,
    StoreArgument,
    LoadLocal,
    StoreLocal,
}

/// Instructions with a field.
#[derive(Clone, Copy)]
pub enum FieldAccess {
    Load,
    Store,
    LoadStatic,
    StoreStatic,
}

/// Instructions with a type.
#[derive(Clone, Copy)]
pub enum WithType {
    NewArray,
    Cast,
    IsInstance,
}

/// How many buckets there are.
const BUCKET_COUNT: usize = 64;

/// How many buckets a group has.
const GROUP_LENGTH: usize = 8;

/// Buckets that follow one another, with their reserved words and what these are for.
type Group = [&'static [(&'static [u8], WordUse)]; GROUP_LENGTH];

/// The buckets 0 to 7.
static BUCKETS_0_TO_7: Group = [
    &[],
    &[
        (
            b"conv.i4",
            WordUse::Instruction(Form::Bare(Bare::ConvertInt32)),
        ),
        (
            b"castclass",
            WordUse::Instruction(Form::Type(WithType::Cast)),
        ),
    ],
    &[
        (b"specialname", WordUse::Grammar),
        (
            b"ldc.i8",
            WordUse::Instruction(Form::Integer(WithInteger::LoadInt64)),
        ),
        (
            b"blt",
            WordUse::Instruction(Form::Branch(BranchCondition::Compare(BranchComparison::Less))),
        ),
        (
            b"ldelem.i8",
            WordUse::Instruction(Form::Bare(Bare::LoadElement(ElementKind::Int64))),
        ),
    ],
    &[
        (
            b"sub.ovf",
            WordUse::Instruction(Form::Bare(Bare::Binary(BinaryOperation::SubtractOverflow))),
        ),
        (
            b"div",
            WordUse::Instruction(Form::Bare(Bare::Binary(BinaryOperation::Divide))),
        ),
        (
            b"clt",
            WordUse::Instruction(Form::Bare(Bare::Compare(Comparison::Less))),
        ),
        (
            b"stloc.0",
            WordUse::Instruction(Form::Bare(Bare::SetLocal(0))),
        ),
    ],
    &[
        (b".class", WordUse::Grammar),
        (
            b"rem",
            WordUse::Instruction(Form::Bare(Bare::Binary(BinaryOperation::Remainder))),
        ),
        (
            b"stloc.1",
            WordUse::Instruction(Form::Bare(Bare::SetLocal(1))),
        ),
    ],
    &[
        (
            b"conv.i8",
            WordUse::Instruction(Form::Bare(Bare::ConvertInt64)),
        ),
        (b"newobj", WordUse::Instruction(Form::NewObject)),
        (
            b"stloc.2",
            WordUse::Instruction(Form::Bare(Bare::SetLocal(2))),
        ),
    ],
    &[
        (
            b"bne.un",
            WordUse::Instruction(Form::Branch(BranchCondition::Compare(
                BranchComparison::NotEqual,
            ))),
        ),
        (
            b"ldfld",
            WordUse::Instruction(Form::Field(FieldAccess::Load)),
        ),
        (
            b"stloc.3",
            WordUse::Instruction(Form::Bare(Bare::SetLocal(3))),
        ),
    ],
    &[
        (b"virtual", WordUse::Grammar),
        (
            b"mul.ovf",
            WordUse::Instruction(Form::Bare(Bare::Binary(BinaryOperation::MultiplyOverflow))),
        ),
        (
            b"shl",
            WordUse::Instruction(Form::Bare(Bare::Shift(ShiftOperation::Left))),
        ),
    ],
];

/// The buckets 8 to 15.
static BUCKETS_8_TO_15: Group = [
    &[(b"static", WordUse::Grammar)],
    &[(b"dup", WordUse::Instruction(Form::Bare(Bare::Duplicate)))],
    &[
        (b".entrypoint", WordUse::Grammar),
        (b".maxstack", WordUse::Grammar),
        (
            b"ldarg",
            WordUse::Instruction(Form::Integer(WithInteger::LoadArgument)),
        ),
        (
            b"sub",
            WordUse::Instruction(Form::Bare(Bare::Binary(BinaryOperation::Subtract))),
        ),
        (
            b"ldc.i4.m1",
            WordUse::Instruction(Form::Bare(Bare::Int32(-1))),
        ),
    ],
    &[
        (b"ldnull", WordUse::Instruction(Form::Bare(Bare::LoadNull))),
        (b"ret", WordUse::Instruction(Form::Bare(Bare::Return))),
    ],
    &[(b"newslot", WordUse::Grammar)],
    &[
        (b"managed", WordUse::Grammar),
        (b"nop", WordUse::Instruction(Form::Bare(Bare::NoOperation))),
        (
            b"shr",
            WordUse::Instruction(Form::Bare(Bare::Shift(ShiftOperation::Right))),
        ),
    ],
    &[
        (b".assembly", WordUse::Grammar),
        (
            b"ldloc",
            WordUse::Instruction(Form::Integer(WithInteger::LoadLocal)),
        ),
        (
            b"mul",
            WordUse::Instruction(Form::Bare(Bare::Binary(BinaryOperation::Multiply))),
        ),
    ],
    &[
        (b"pop", WordUse::Instruction(Form::Bare(Bare::Pop))),
        (
            b"newarr",
            WordUse::Instruction(Form::Type(WithType::NewArray)),
        ),
        (b"ldlen", WordUse::Instruction(Form::Bare(Bare::LoadLength))),
    ],
];

/// The buckets 16 to 23.
static BUCKETS_16_TO_23: Group = [
    &[(
        b"stsfld",
        WordUse::Instruction(Form::Field(FieldAccess::StoreStatic)),
    )],
    &[(
        b"not",
        WordUse::Instruction(Form::Bare(Bare::Unary(UnaryOperation::Complement))),
    )],
    &[(b"switch", WordUse::Instruction(Form::Switch))],
    &[],
    &[
        (b"abstract", WordUse::Grammar),
        (
            b"br",
            WordUse::Instruction(Form::Branch(BranchCondition::Always)),
        ),
        (
            b"brtrue",
            WordUse::Instruction(Form::Branch(BranchCondition::IfTrue)),
        ),
    ],
    &[
        (b"instance", WordUse::Grammar),
        (
            b"stelem.i4",
            WordUse::Instruction(Form::Bare(Bare::StoreElement(ElementKind::Int32))),
        ),
    ],
    &[(b"extern", WordUse::Grammar), (b"class", WordUse::Grammar)],
    &[(b"string", WordUse::Grammar)],
];

/// The buckets 24 to 31.
static BUCKETS_24_TO_31: Group = [
    &[],
    &[
        (
            b"xor",
            WordUse::Instruction(Form::Bare(Bare::Binary(BinaryOperation::ExclusiveOr))),
        ),
        (
            b"stelem.i8",
            WordUse::Instruction(Form::Bare(Bare::StoreElement(ElementKind::Int64))),
        ),
    ],
    &[(
        b"isinst",
        WordUse::Instruction(Form::Type(WithType::IsInstance)),
    )],
    &[],
    &[
        (b"call", WordUse::Instruction(Form::Call)),
        (
            b"ldc.i4.0",
            WordUse::Instruction(Form::Bare(Bare::Int32(0))),
        ),
    ],
    &[
        (
            b"stfld",
            WordUse::Instruction(Form::Field(FieldAccess::Store)),
        ),
        (
            b"ldc.i4.1",
            WordUse::Instruction(Form::Bare(Bare::Int32(1))),
        ),
    ],
    &[
        (
            b"shr.un",
            WordUse::Instruction(Form::Bare(Bare::Shift(ShiftOperation::RightUnsigned))),
        ),
        (
            b"ldelem.ref",
            WordUse::Instruction(Form::Bare(Bare::LoadElement(ElementKind::Reference))),
        ),
        (
            b"ldc.i4.2",
            WordUse::Instruction(Form::Bare(Bare::Int32(2))),
        ),
    ],
    &[
        (
            b"brfalse",
            WordUse::Instruction(Form::Branch(BranchCondition::IfFalse)),
        ),
        (
            b"ldc.i4.3",
            WordUse::Instruction(Form::Bare(Bare::Int32(3))),
        ),
    ],
];

/// The buckets 32 to 39.
static BUCKETS_32_TO_39: Group = [
    &[(
        b"ldc.i4.4",
        WordUse::Instruction(Form::Bare(Bare::Int32(4))),
    )],
    &[
        (
            b"starg",
            WordUse::Instruction(Form::Integer(WithInteger::StoreArgument)),
        ),
        (
            b"or",
            WordUse::Instruction(Form::Bare(Bare::Binary(BinaryOperation::Or))),
        ),
        (b"callvirt", WordUse::Instruction(Form::CallVirtual)),
        (
            b"ldc.i4.5",
            WordUse::Instruction(Form::Bare(Bare::Int32(5))),
        ),
    ],
    &[
        (
            b"add.ovf",
            WordUse::Instruction(Form::Bare(Bare::Binary(BinaryOperation::AddOverflow))),
        ),
        (
            b"ldc.i4.6",
            WordUse::Instruction(Form::Bare(Bare::Int32(6))),
        ),
    ],
    &[(
        b"ldc.i4.7",
        WordUse::Instruction(Form::Bare(Bare::Int32(7))),
    )],
    &[(
        b"ldc.i4.8",
        WordUse::Instruction(Form::Bare(Bare::Int32(8))),
    )],
    &[(
        b"stloc",
        WordUse::Instruction(Form::Integer(WithInteger::StoreLocal)),
    )],
    &[(b".ctor", WordUse::Grammar)],
    &[],
];

/// The buckets 40 to 47.
static BUCKETS_40_TO_47: Group = [
    &[
        (b"rtspecialname", WordUse::Grammar),
        (
            b"ldarg.0",
            WordUse::Instruction(Form::Bare(Bare::Argument(0))),
        ),
    ],
    &[
        (b"ldstr", WordUse::Instruction(Form::Quoted)),
        (
            b"add",
            WordUse::Instruction(Form::Bare(Bare::Binary(BinaryOperation::Add))),
        ),
        (
            b"ldarg.1",
            WordUse::Instruction(Form::Bare(Bare::Argument(1))),
        ),
    ],
    &[(
        b"ldarg.2",
        WordUse::Instruction(Form::Bare(Bare::Argument(2))),
    )],
    &[
        (b"ansi", WordUse::Grammar),
        (
            b"ldarg.3",
            WordUse::Instruction(Form::Bare(Bare::Argument(3))),
        ),
    ],
    &[
        (b".locals", WordUse::Grammar),
        (b"ldloc.0", WordUse::Instruction(Form::Bare(Bare::Local(0)))),
    ],
    &[(b"ldloc.1", WordUse::Instruction(Form::Bare(Bare::Local(1))))],
    &[
        (
            b"bge",
            WordUse::Instruction(Form::Branch(BranchCondition::Compare(
                BranchComparison::GreaterOrEqual,
            ))),
        ),
        (b"ldloc.2", WordUse::Instruction(Form::Bare(Bare::Local(2)))),
    ],
    &[
        (b".method", WordUse::Grammar),
        (b"ldloc.3", WordUse::Instruction(Form::Bare(Bare::Local(3)))),
    ],
];

/// The buckets 48 to 55.
static BUCKETS_48_TO_55: Group = [
    &[(b"int32", WordUse::Grammar)],
    &[(b"interface", WordUse::Grammar)],
    &[(b"void", WordUse::Grammar), (b".field", WordUse::Grammar)],
    &[
        (
            b"and",
            WordUse::Instruction(Form::Bare(Bare::Binary(BinaryOperation::And))),
        ),
        (
            b"ble",
            WordUse::Instruction(Form::Branch(BranchCondition::Compare(
                BranchComparison::LessOrEqual,
            ))),
        ),
    ],
    &[(b"init", WordUse::Grammar)],
    &[
        (b"int64", WordUse::Grammar),
        (
            b"stelem.ref",
            WordUse::Instruction(Form::Bare(Bare::StoreElement(ElementKind::Reference))),
        ),
    ],
    &[],
    &[(b"object", WordUse::Grammar)],
];

/// The buckets 56 to 63.
static BUCKETS_56_TO_63: Group = [
    &[
        (b"hidebysig", WordUse::Grammar),
        (b"cil", WordUse::Grammar),
        (
            b"beq",
            WordUse::Instruction(Form::Branch(BranchCondition::Compare(BranchComparison::Equal))),
        ),
    ],
    &[
        (b"auto", WordUse::Grammar),
        (
            b"ceq",
            WordUse::Instruction(Form::Bare(Bare::Compare(Comparison::Equal))),
        ),
        (
            b"ldsfld",
            WordUse::Instruction(Form::Field(FieldAccess::LoadStatic)),
        ),
    ],
    &[(
        b"neg",
        WordUse::Instruction(Form::Bare(Bare::Unary(UnaryOperation::Negate))),
    )],
    &[(b"extends", WordUse::Grammar)],
    &[],
    &[(
        b"bgt",
        WordUse::Instruction(Form::Branch(BranchCondition::Compare(BranchComparison::Greater))),
    )],
    &[
        (b"implements", WordUse::Grammar),
        (b"ldc.i4", WordUse::Instruction(Form::Int32)),
        (
            b"cgt",
            WordUse::Instruction(Form::Bare(Bare::Compare(Comparison::Greater))),
        ),
        (
            b"ldelem.i4",
            WordUse::Instruction(Form::Bare(Bare::LoadElement(ElementKind::Int32))),
        ),
    ],
    &[(b"public", WordUse::Grammar)],
];

/// The bucket that a word is in, if it is reserved: the sum of its bytes, modulo the number of buckets.
fn bucket_of(word: &[u8]) -> usize
    ensures bound { result < 64 }
    ensures value { result ≡ bucket_from 0 word.now }
{
    let mut sum = 0;
    for byte in word {
        sum = (sum + usize::from(*byte)) % BUCKET_COUNT;
    }
    sum
}

/// What the word is for among these.
fn look_up(entries: &[(&[u8], WordUse)], word: &[u8]) -> Option<WordUse>
    ensures { result ≡ look_up (map (λ e. (e.0.now, e.1)) entries.now) word.now }
{
    for (reserved, its_use) in entries {
        if *reserved == word {
            return Some(*its_use);
        }
    }
    None
}

/// The bucket of this number.
fn bucket<'a>(table: &[&'a [(&'a [u8], WordUse)]], number: usize) -> &'a [(&'a [u8], WordUse)]
    requires { number < length table.now }
    ensures { map {B = Entry} (λ e. (e.0.now, e.1)) result.now ≡ get_or (map (λ b. map {B = Entry} (λ e. (e.0.now, e.1)) b.now) table.now) number [] }
{
    table[number]
}

/// The group of this number.
fn group(number: usize) -> &'static Group
    requires { number < 8 }
    ensures { map (λ b. map {B = Entry} (λ e. (e.0.now, e.1)) b.now) result.now ≡ get_or groups number [] }
{
    match number {
        0 => &BUCKETS_0_TO_7,
        1 => &BUCKETS_8_TO_15,
        2 => &BUCKETS_16_TO_23,
        3 => &BUCKETS_24_TO_31,
        4 => &BUCKETS_32_TO_39,
        5 => &BUCKETS_40_TO_47,
        6 => &BUCKETS_48_TO_55,
        _ => &BUCKETS_56_TO_63,
    }
}

/// What the word is for, if it is reserved.
#[tactic(auto, unfolding(crate::specs::Vocabulary::use_of))]
pub fn use_of(word: &[u8]) -> Option<WordUse>
    ensures { result ≡ use_of word.now }
{
    let number = bucket_of(word);
    let words = bucket(group(number / GROUP_LENGTH), number % GROUP_LENGTH);
    look_up(words, word)
}
