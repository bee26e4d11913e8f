//! The instructions of a method's body, each in its long form (ECMA-335 III.3 and III.4).

use crate::sequences::Sequence;
use crate::texts::Text;
use crate::types::{ClassName, DeclaredType, Signature};

/// An operation on two integers of one size (ECMA-335 III.1.5, table 2, and table 7 for those that check overflow).
#[derive(Clone, Copy)]
pub enum BinaryOperation {
    Add,
    Subtract,
    Multiply,
    AddOverflow,
    SubtractOverflow,
    MultiplyOverflow,
    Divide,
    Remainder,
    And,
    Or,
    ExclusiveOr,
}

/// An operation on one integer (ECMA-335 III.1.5, tables 3 and 5).
#[derive(Clone, Copy)]
pub enum UnaryOperation {
    Negate,
    Complement,
}

/// A shift of an integer by an amount (ECMA-335 III.1.5, table 6).
#[derive(Clone, Copy)]
pub enum ShiftOperation {
    Left,
    Right,
    RightUnsigned,
}

/// A comparison that gives 1 or 0 (ECMA-335 III.1.5, table 4).
#[derive(Clone, Copy)]
pub enum Comparison {
    Equal,
    Greater,
    Less,
}

/// A comparison that decides a branch (ECMA-335 III.1.5, table 4).
#[derive(Clone, Copy)]
pub enum BranchComparison {
    Equal,
    NotEqual,
    GreaterOrEqual,
    Greater,
    LessOrEqual,
    Less,
}

/// When a branch goes to its label (ECMA-335 III.3.5 to III.3.18).
#[derive(Clone, Copy)]
pub enum BranchCondition {
    Always,
    IfTrue,
    IfFalse,
    Compare(BranchComparison),
}

/// What an array's elements are, to an instruction that reads or writes one (ECMA-335 III.4.8, III.4.27).
#[derive(Clone, Copy)]
pub enum ElementKind {
    Int32,
    Int64,
    Reference,
}

/// The name of a method, or `.ctor` (ECMA-335 II.10.5.1).
#[derive(Drop)]
pub enum MethodName {
    Constructor,
    Named(Text),
}

/// `type owner::name` (ECMA-335 II.16).
#[derive(Drop)]
pub struct FieldReference {
    pub field_type: DeclaredType,
    pub owner: ClassName,
    pub name: Text,
}

/// `type owner::name(types)` (ECMA-335 II.15.1.3).
#[derive(Drop)]
pub struct MethodReference {
    pub owner: ClassName,
    pub name: MethodName,
    pub signature: Signature,
}

/// An instruction. The name of each in the text is beside it.
pub enum Instruction {
    /// `nop`
    NoOperation,
    /// `ldc.i4`
    LoadInt32(i32),
    /// `ldc.i8`
    LoadInt64(i64),
    /// `ldnull`
    LoadNull,
    /// `ldstr`
    LoadString(Text),
    /// `ldarg`
    LoadArgument(i64),
    /// `starg`
    StoreArgument(i64),
    /// `ldloc`
    LoadLocal(i64),
    /// `stloc`
    StoreLocal(i64),
    /// `dup`
    Duplicate,
    /// `pop`
    Pop,
    /// `add`, `sub`, `mul`, `add.ovf`, `sub.ovf`, `mul.ovf`, `div`, `rem`, `and`, `or`, `xor`
    Binary(BinaryOperation),
    /// `neg`, `not`
    Unary(UnaryOperation),
    /// `shl`, `shr`, `shr.un`
    Shift(ShiftOperation),
    /// `ceq`, `cgt`, `clt`
    Compare(Comparison),
    /// `conv.i4`
    ConvertInt32,
    /// `conv.i8`
    ConvertInt64,
    /// `br`, `brtrue`, `brfalse`, `beq`, `bne.un`, `bge`, `bgt`, `ble`, `blt`
    Branch(BranchCondition, Text),
    /// `switch`
    Switch(Sequence<Text>),
    /// `ldfld`
    LoadField(FieldReference),
    /// `stfld`
    StoreField(FieldReference),
    /// `ldsfld`
    LoadStaticField(FieldReference),
    /// `stsfld`
    StoreStaticField(FieldReference),
    /// `newarr`
    NewArray(DeclaredType),
    /// `ldlen`
    LoadLength,
    /// `ldelem.i4`, `ldelem.i8`, `ldelem.ref`
    LoadElement(ElementKind),
    /// `stelem.i4`, `stelem.i8`, `stelem.ref`
    StoreElement(ElementKind),
    /// `castclass`
    CastClass(DeclaredType),
    /// `isinst`
    IsInstance(DeclaredType),
    /// `call`, with `instance` or without
    Call {
        is_instance: bool,
        method: MethodReference,
    },
    /// `callvirt`, of no constructor
    CallVirtual {
        owner: ClassName,
        name: Text,
        signature: Signature,
    },
    /// `newobj`: the class, and the types of its constructor's parameters
    NewObject(ClassName, Sequence<DeclaredType>),
    /// `ret`
    Return,
}

/// Each operand gives back its own.
impl Drop for Instruction {
    fn drop(self) {
        match self {
            Instruction::LoadString(_text) => (),
            Instruction::Branch(_, _label) => (),
            Instruction::Switch(_labels) => (),
            Instruction::LoadField(_field)
            | Instruction::StoreField(_field)
            | Instruction::LoadStaticField(_field)
            | Instruction::StoreStaticField(_field) => (),
            Instruction::NewArray(_element) => (),
            Instruction::CastClass(_to) | Instruction::IsInstance(_to) => (),
            Instruction::Call {
                is_instance: _,
                method: _method,
            } => (),
            Instruction::CallVirtual {
                owner: _owner,
                name: _name,
                signature: _signature,
            } => (),
            Instruction::NewObject(_class, _parameters) => (),
            Instruction::NoOperation
            | Instruction::LoadInt32(_)
            | Instruction::LoadInt64(_)
            | Instruction::LoadNull
            | Instruction::LoadArgument(_)
            | Instruction::StoreArgument(_)
            | Instruction::LoadLocal(_)
            | Instruction::StoreLocal(_)
            | Instruction::Duplicate
            | Instruction::Pop
            | Instruction::Binary(_)
            | Instruction::Unary(_)
            | Instruction::Shift(_)
            | Instruction::Compare(_)
            | Instruction::ConvertInt32
            | Instruction::ConvertInt64
            | Instruction::LoadLength
            | Instruction::LoadElement(_)
            | Instruction::StoreElement(_)
            | Instruction::Return => (),
        }
    }
}
