//! What breaks a rule of legality: which clause, and at which class, member, line or label, all by numbers. Externs and classes are
//! counted from 0 in source order, fields and methods among those of their class, and lines among the instructions of their method.

use crate::rules::Rule;
use name_tables::ids::{ClassId, MethodId};
use std::fmt;

/// A field or a method of a class of the source.
#[derive(Clone, Copy)]
pub struct SourceMember {
    pub class: usize,
    /// Among the fields, or among the methods, of the class.
    pub index: usize,
}

/// Two indices of a list that have the same name.
#[derive(Clone, Copy)]
pub struct Repeat {
    pub first: usize,
    pub again: usize,
}

/// A name that occurs twice where it must occur once (number 201).
#[derive(Clone, Copy)]
pub enum Duplicate {
    Externs(Repeat),
    Classes(Repeat),
    InClass {
        class: usize,
        duplicates: DuplicateInClass,
    },
}

/// A name that occurs twice in a class.
#[derive(Clone, Copy)]
pub enum DuplicateInClass {
    /// Among its fields.
    Fields(Repeat),
    /// Among its methods, with the signature.
    Methods(Repeat),
    /// Among the interfaces that it lists.
    Interfaces(Repeat),
    /// Among all labels of one of its methods.
    Labels { method: usize, labels: Repeat },
}

/// Why a class may not be named where it is.
#[derive(Clone, Copy)]
pub enum ClassFault {
    /// The assembly before it is not declared.
    NoExtern,
    /// There is no such class.
    Absent,
    /// It is an interface, and a class is required.
    IsInterface,
    /// It is a class, and an interface is required.
    IsClass,
    /// It is a built-in class that may not be written there.
    IsBuiltIn,
}

/// A class that the first line of a class names.
#[derive(Clone, Copy)]
pub enum HeadingName {
    /// After `extends`.
    Base,
    /// After `implements`, by its index in the list.
    Interface(usize),
}

/// A part of a source that names types.
#[derive(Clone, Copy)]
pub enum TypesPart {
    Field(SourceMember),
    Signature(SourceMember),
    Locals(SourceMember),
    Line { method: SourceMember, line: usize },
}

/// Where a type is written.
#[derive(Clone, Copy)]
pub struct TypeSite {
    pub part: TypesPart,
    /// Among the types of that part: parameters or locals from 0, and a result or another type after them.
    pub index: usize,
}

/// A name that refers to nothing of the kind needed (number 202).
#[derive(Clone, Copy)]
pub enum Unknown {
    /// An extern that is no library.
    Extern(usize),
    /// A class that the first line of a class names.
    Heading {
        class: usize,
        name: HeadingName,
        fault: ClassFault,
    },
    /// The class in a type.
    Type {
        site: TypeSite,
        fault: ClassFault,
    },
    /// A label that no instruction of the method has, by its index among those to which the line's instruction may go.
    Label {
        method: SourceMember,
        line: usize,
        target: usize,
    },
    /// The class before the `::` of an instruction.
    Owner {
        method: SourceMember,
        line: usize,
        fault: ClassFault,
    },
    /// The member that an instruction names, which its class neither has nor inherits.
    Member {
        method: SourceMember,
        line: usize,
    },
}

/// A method of an interface that a class lists.
#[derive(Clone, Copy)]
pub struct ListedMethod {
    /// By its index in the list.
    pub interface: usize,
    /// Among the methods of the interface.
    pub method: usize,
}

/// A class that neither has nor inherits a virtual method for one of an interface that it lists (number 204).
#[derive(Clone, Copy)]
pub struct NotImplemented {
    pub class: usize,
    pub listed: ListedMethod,
}

/// Which method's kind does not fit, and why.
#[derive(Clone, Copy)]
pub enum KindFault {
    /// A method of an interface that is not `newslot abstract virtual instance`.
    InInterface { method: usize },
    /// An abstract method of a class that is not abstract.
    Abstract { method: usize },
    /// A method of any class that fills a slot of the class, which is not abstract, with nothing.
    LeftOpen { open: MethodId },
    /// A virtual method without newslot over one that is not virtual, and that one's class.
    OverNonvirtual { method: usize, base: ClassId },
}

/// A method whose kind does not fit its class or what that inherits (number 205).
#[derive(Clone, Copy)]
pub struct KindMismatch {
    pub class: usize,
    pub fault: KindFault,
}

/// Why a source has not one entry point, in a static method without parameters that returns nothing (number 206).
#[derive(Clone, Copy)]
pub enum BadEntry {
    Absent,
    /// There are two.
    Second {
        first: SourceMember,
        second: SourceMember,
    },
    /// It is in a method that is not static.
    NotStatic(SourceMember),
    /// It is in a method that returns a value.
    Returns(SourceMember),
    /// It is in a method with parameters.
    Takes(SourceMember),
}

/// A limit of a method that is exceeded.
#[derive(Clone, Copy)]
pub enum MethodLimit {
    Arguments,
    Instructions,
    Locals,
    MaxStack,
    /// Of the targets of a `switch`, or of the brackets of what `newarr` makes.
    Line(usize),
}

/// A limit that is exceeded (number 207).
#[derive(Clone, Copy)]
pub enum ExceededLimit {
    Classes,
    Methods,
    /// The first static field that is too many, by its index among the static fields of its class.
    StaticFields {
        class: usize,
        index: usize,
    },
    /// Of a type.
    Brackets(TypeSite),
    /// Of an object of the class.
    InstanceFields {
        class: usize,
    },
    Method {
        method: SourceMember,
        limit: MethodLimit,
    },
}

/// What breaks a rule of legality.
#[derive(Clone, Copy)]
pub enum Violation {
    Duplicate(Duplicate),
    Unknown(Unknown),
    /// The class that is in the chain of its base (number 203).
    CyclicBase { class: usize },
    NotImplemented(NotImplemented),
    KindMismatch(KindMismatch),
    BadEntry(BadEntry),
    ExceededLimit(ExceededLimit),
}

impl Violation {
    ghost use Rattle.std.specs.Prelude.{◌≡◌};
    ghost use Rattle.metadata.specs.RuleNumbers.{rule_of};

    /// The rule that is broken.
    pub fn rule(&self) -> Rule
        ensures { result ≡ rule_of self.now }
    {
        match self {
            Violation::Duplicate(_) => Rule::NamesOccurOnce,
            Violation::Unknown(_) => Rule::NamesAreKnown,
            Violation::CyclicBase { .. } => Rule::BasesEnd,
            Violation::NotImplemented(_) => Rule::InterfacesAreImplemented,
            Violation::KindMismatch(_) => Rule::KindsFit,
            Violation::BadEntry(_) => Rule::OneEntryPoint,
            Violation::ExceededLimit(_) => Rule::LimitsAreKept,
        }
    }
}

/// The rule that is broken.
impl fmt::Display for Violation {
    fn fmt<W: fmt::Write>(&self, f: &mut fmt::Formatter<W>) -> fmt::Result {
        fmt::Display::fmt(&self.rule(), f)
    }
}

/// The same.
impl fmt::Debug for Violation {
    fn fmt<W: fmt::Write>(&self, f: &mut fmt::Formatter<W>) -> fmt::Result {
        fmt::Display::fmt(&self.rule(), f)
    }
}
