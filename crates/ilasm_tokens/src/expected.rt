//! What the grammar has at a position.

use cil_model::tokens::Symbol;

/// What the grammar has at a position where a source has something else (ECMA-335 II.5; the grammar is this profile's).
#[derive(Clone, Copy, Debug, PartialEq, Eq)]
pub enum Expected {
    /// A token of any kind.
    Token,
    /// This reserved word.
    Word(&'static [u8]),
    /// This mark.
    Symbol(Symbol),
    Name,
    ClassName,
    MemberName,
    LabelName,
    Integer,
    /// An integer of 32 bits.
    Int32,
    StringLiteral,
    Type,
    /// A type or `void`.
    ReturnType,
    /// What follows `call`: `instance`, or what the method returns.
    CalledMethod,
    /// What follows `callvirt`: a method that is no constructor.
    VirtualMethod,
    /// What follows `newobj`: a constructor.
    Constructor,
    /// What follows `.assembly`: `extern`, or the name of the source's own.
    AssemblyName,
    /// An assembly, a class, or the end of the source.
    Declaration,
    /// A class, or the end of the source.
    Class,
    /// What follows `.class`: `interface` or `public`.
    ClassHead,
    /// What follows `.class public`: `abstract` or `auto`.
    ClassAttributes,
    /// A member of a class, or the end of its block.
    Member,
    /// A member of an interface, which is a method, or the end of its block.
    InterfaceMember,
    /// What follows `.method public`: the words that determine the method's kind.
    MethodKind,
    /// What follows `newslot`: `virtual` or `abstract virtual`.
    VirtualWords,
    /// `cil managed`.
    CilManaged,
    /// `.entrypoint` or `.maxstack`.
    CodeStart,
    /// An instruction, perhaps after labels, or the end of the code.
    Line,
    /// An instruction after a label, or one more label.
    LabelledLine,
    /// The colon after a label: what is before it is no instruction.
    LabelColon,
    /// A comma, or this mark, with which the list ends.
    ListEnd(Symbol),
}
