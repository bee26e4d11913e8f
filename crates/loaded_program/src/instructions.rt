//! Linked instructions (ECMA-335 III.3 and III.4).

use cil_model::instructions::{
    BinaryOperation, BranchCondition, Comparison, ElementKind, ShiftOperation, UnaryOperation,
};
use cil_model::sequences::Sequence;
use object_memory::{Addr, ArrayElement, ValueKind};
use resolved_code::types::ResolvedType;

/// An instruction with what its step needs: slots of fields, addresses of literals, flat numbers of methods.
#[derive(Drop)]
pub enum LinkedInstruction {
    /// `nop`
    NoOperation,
    /// `ldc.i4`
    LoadInt32(i32),
    /// `ldc.i8`
    LoadInt64(i64),
    /// `ldnull`
    LoadNull,
    /// `ldstr`
    LoadString(Addr),
    /// `ldarg`
    LoadArgument(i64),
    /// `starg`
    StoreArgument(i64),
    /// `ldloc`
    LoadLocal(i64),
    /// `stloc`
    StoreLocal(i64),
    /// `dup`
    Duplicate,
    /// `pop`
    Pop,
    /// `add`, `sub`, `mul`, `add.ovf`, `sub.ovf`, `mul.ovf`, `div`, `rem`, `and`, `or`, `xor`
    Binary(BinaryOperation),
    /// `neg`, `not`
    Unary(UnaryOperation),
    /// `shl`, `shr`, `shr.un`
    Shift(ShiftOperation),
    /// `ceq`, `cgt`, `clt`
    Compare(Comparison),
    /// `conv.i4`
    ConvertInt32,
    /// `conv.i8`
    ConvertInt64,
    /// `br`, `brtrue`, `brfalse`, `beq`, `bne.un`, `bge`, `bgt`, `ble`, `blt`
    Branch(BranchCondition, usize),
    /// `switch`
    Switch(Sequence<usize>),
    /// `ldfld`
    LoadField { slot: u32, kind: ValueKind },
    /// `stfld`
    StoreField { slot: u32 },
    /// `ldsfld`, by the number of the field among all static ones
    LoadStaticField(u32),
    /// `stsfld`
    StoreStaticField(u32),
    /// `newarr`
    NewArray(ArrayElement),
    /// `ldlen`
    LoadLength,
    /// `ldelem.i4`, `ldelem.i8`, `ldelem.ref`
    LoadElement(ElementKind),
    /// `stelem.i4`, `stelem.i8`, `stelem.ref`
    StoreElement(ElementKind),
    /// `castclass`
    CastClass(ResolvedType),
    /// `isinst`
    IsInstance(ResolvedType),
    /// `call`
    Call(u32),
    /// `callvirt`: the method that is named, and how many operands it takes, the object counted
    CallVirtual { method: u32, operands: usize },
    /// `newobj`: the class, how many slots its objects have, and the constructor
    NewObject { class: u16, slots: u32, method: u32 },
    /// `ret`, of a method that returns a value or none
    Return { has_value: bool },
}
