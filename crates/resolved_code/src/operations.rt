//! Instructions with their operands resolved (ECMA-335 III.3 and III.4).

use crate::types::ResolvedType;
use cil_model::instructions::{
    BinaryOperation, BranchCondition, Comparison, ElementKind, ShiftOperation, UnaryOperation,
};
use cil_model::sequences::Sequence;
use name_tables::ids::{ClassId, FieldId, MethodId};

/// An instruction, with ids and numbers in place of names: the classes, fields and methods that its operand finds, the indices of its labels in
/// the method, and the number of its literal among those of the source.
#[derive(Drop)]
pub enum Operation {
    /// `nop`
    NoOperation,
    /// `ldc.i4`
    LoadInt32(i32),
    /// `ldc.i8`
    LoadInt64(i64),
    /// `ldnull`
    LoadNull,
    /// `ldstr`
    LoadString(usize),
    /// `ldarg`
    LoadArgument(i64),
    /// `starg`
    StoreArgument(i64),
    /// `ldloc`
    LoadLocal(i64),
    /// `stloc`
    StoreLocal(i64),
    /// `dup`
    Duplicate,
    /// `pop`
    Pop,
    /// `add`, `sub`, `mul`, `add.ovf`, `sub.ovf`, `mul.ovf`, `div`, `rem`, `and`, `or`, `xor`
    Binary(BinaryOperation),
    /// `neg`, `not`
    Unary(UnaryOperation),
    /// `shl`, `shr`, `shr.un`
    Shift(ShiftOperation),
    /// `ceq`, `cgt`, `clt`
    Compare(Comparison),
    /// `conv.i4`
    ConvertInt32,
    /// `conv.i8`
    ConvertInt64,
    /// `br`, `brtrue`, `brfalse`, `beq`, `bne.un`, `bge`, `bgt`, `ble`, `blt`
    Branch(BranchCondition, usize),
    /// `switch`
    Switch(Sequence<usize>),
    /// `ldfld`: the class that the text names, and the field that is found
    LoadField {
        owner: ClassId,
        field: FieldId,
    },
    /// `stfld`
    StoreField {
        owner: ClassId,
        field: FieldId,
    },
    /// `ldsfld`
    LoadStaticField(FieldId),
    /// `stsfld`
    StoreStaticField(FieldId),
    /// `newarr`
    NewArray(ResolvedType),
    /// `ldlen`
    LoadLength,
    /// `ldelem.i4`, `ldelem.i8`, `ldelem.ref`
    LoadElement(ElementKind),
    /// `stelem.i4`, `stelem.i8`, `stelem.ref`
    StoreElement(ElementKind),
    /// `castclass`
    CastClass(ResolvedType),
    /// `isinst`
    IsInstance(ResolvedType),
    /// `call`: with `instance` or without, the class that the text names, and the method that is found
    Call {
        is_instance: bool,
        owner: ClassId,
        method: MethodId,
    },
    /// `callvirt`
    CallVirtual {
        owner: ClassId,
        method: MethodId,
    },
    /// `newobj`: the constructor, which its own class declares
    NewObject(MethodId),
    /// `ret`
    Return,
}
