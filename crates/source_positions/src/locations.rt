//! The parts of a source, by their numbers.

/// A part of a source. Externs and classes are counted from 0 in source order, members among the fields and methods of their class, and
/// lines among the instructions of their method.
#[derive(Clone, Copy)]
pub enum Location {
    /// The name of an extern.
    Extern(usize),
    InClass {
        class: usize,
        part: ClassPart,
    },
    InMember {
        class: usize,
        member: usize,
        part: MemberPart,
    },
    InLine {
        class: usize,
        member: usize,
        line: usize,
        part: LinePart,
    },
}

/// A part of a class's first line.
#[derive(Clone, Copy)]
pub enum ClassPart {
    Name,
    /// The name of the base.
    Base,
    /// The name of an interface that the class lists, by its index in the list.
    Interface(usize),
}

/// A part of a field, or of a method before its first instruction.
#[derive(Clone, Copy)]
pub enum MemberPart {
    Name,
    /// The name of the class in a type, by its index among the types with `class`.
    ClassOfType(usize),
    /// `.entrypoint`
    EntryPoint,
    /// The number after `.maxstack`.
    MaxStack,
    /// `.locals`
    Locals,
}

/// A part of an instruction with its labels.
#[derive(Clone, Copy)]
pub enum LinePart {
    /// The instruction's name.
    Name,
    /// A label, by how many of them stand from it on before the instruction.
    Label(usize),
    /// The name of the class in a type, by its index among the types with `class`.
    ClassOfType(usize),
    /// The name of the class whose member the instruction names.
    Owner,
    /// The name of that member.
    Member,
    /// A label to which the instruction goes, by its index among them.
    Target(usize),
}
