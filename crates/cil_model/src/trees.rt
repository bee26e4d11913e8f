//! The tree of a source: assemblies, classes, members and code (ECMA-335 II.5 and II.6 to II.16).

use crate::instructions::{Instruction, MethodName};
use crate::sequences::Sequence;
use crate::texts::Text;
use crate::types::{ClassName, DeclaredType, Signature};

/// A whole source.
pub struct Tree {
    pub externs: Sequence<Text>,
    pub assembly: Option<Text>,
    pub classes: Sequence<Class>,
}

/// Each part is dropped.
impl Drop for Tree {
    fn drop(self) {
        let Tree {
            externs: _externs,
            assembly: _assembly,
            classes: _classes,
        } = self;
    }
}

/// A class or an interface (ECMA-335 II.10).
pub struct Class {
    pub name: Text,
    pub kind: ClassKind,
    pub members: Sequence<Member>,
}

/// Each part is dropped.
impl Drop for Class {
    fn drop(self) {
        let Class {
            name: _name,
            kind: _kind,
            members: _members,
        } = self;
    }
}

/// Whether it is an interface; otherwise the base and the listed interfaces (ECMA-335 II.10.1).
#[derive(Drop)]
pub enum ClassKind {
    Interface,
    Class {
        is_abstract: bool,
        base: ClassName,
        interfaces: Sequence<ClassName>,
    },
}

/// A member of a class, in source order.
#[derive(Drop)]
pub enum Member {
    Field(Field),
    Method(Method),
}

/// A field (ECMA-335 II.16).
#[derive(Drop)]
pub struct Field {
    pub is_static: bool,
    pub field_type: DeclaredType,
    pub name: Text,
}

/// A method (ECMA-335 II.15). A constructor has the kind `Instance`.
pub struct Method {
    pub name: MethodName,
    pub signature: Signature,
    pub kind: MethodKind,
}

/// Each part is dropped.
impl Drop for Method {
    fn drop(self) {
        let Method {
            name: _name,
            signature: _signature,
            kind: _kind,
        } = self;
    }
}

/// What a method is, with its code where it has some (ECMA-335 II.15.2 and II.15.4.2).
#[derive(Drop)]
pub enum MethodKind {
    Static(Code),
    Instance(Code),
    Virtual { is_new_slot: bool, code: Code },
    Abstract { is_new_slot: bool },
}

/// A method's body (ECMA-335 II.15.4).
#[derive(Drop)]
pub struct Code {
    pub is_entry_point: bool,
    pub max_stack: i64,
    pub locals: Sequence<DeclaredType>,
    pub lines: Sequence<Line>,
}

/// An instruction, with the labels before it (ECMA-335 II.5.4).
#[derive(Drop)]
pub struct Line {
    pub labels: Sequence<Text>,
    pub instruction: Instruction,
}
