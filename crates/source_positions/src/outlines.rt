//! Where the parts of a source stand.

ghost use Rattle.std.specs.Prelude.{◌≡◌};
ghost use Rattle.source_lines.specs.Lines.{line_of_byte};

use crate::locations::{ClassPart, LinePart, Location, MemberPart};
use crate::marks::{Mark, Walk};
use source_lines::line_of_byte;

/// The offset in bytes, from 0, at which a part of a source begins. None where it is not there. What is returned of a source that is no
/// sentence of the grammar, or of a part that its tree lacks, says nothing.
pub fn offset_of(source: &[u8], location: Location) -> Option<usize> {
    beginning_of(Walk::at_first(source), location).offset()
}

/// A member of a source, from which its parts are found without a look at what stands before it.
#[derive(Clone, Copy)]
pub struct FoundMember<'t> {
    source: &'t [u8],
    member: Walk<'t>,
}

impl<'t> FoundMember<'t> {
    /// The member of a number among those of the class of a number. None where it is not there.
    pub fn find(source: &'t [u8], class: usize, member: usize) -> Option<Self> {
        let member = member_at(Walk::at_first(source), class, member);
        member.offset()?;
        Some(FoundMember { source, member })
    }

    /// The offset of a part of it before its first instruction.
    pub fn part(self, part: MemberPart) -> Option<usize> {
        part_of_member(self.member, part).offset()
    }

    /// The offset of the name of an instruction.
    pub fn instruction(self, line: usize) -> Option<usize> {
        self.member.to(Mark::Instruction, line).offset()
    }

    /// The line, from 1, of the byte at an offset of the source.
    pub fn line_of(self, offset: usize) -> usize
        ensures { result ≡ line_of_byte self.entry.source.now offset }
    {
        line_of_byte(self.source, offset)
    }
}

/// The token with which a part begins, by the first of the source.
fn beginning_of(first: Walk<'_>, location: Location) -> Walk<'_> {
    match location {
        Location::Extern(number) => first
            .to_directive(Mark::Token(b".assembly"), number)
            .forward(2),
        Location::InClass { class, part } => part_of_class(class_at(first, class), part),
        Location::InMember {
            class,
            member,
            part,
        } => part_of_member(member_at(first, class, member), part),
        Location::InLine {
            class,
            member,
            line,
            part,
        } => {
            let method = member_at(first, class, member);
            part_of_line(method.to(Mark::Instruction, line), part)
        }
    }
}

fn class_at(first: Walk<'_>, class: usize) -> Walk<'_> {
    first.to_directive(Mark::Token(b".class"), class)
}

fn member_at(first: Walk<'_>, class: usize, member: usize) -> Walk<'_> {
    class_at(first, class).to_directive(Mark::Member, member)
}

fn part_of_class(class: Walk<'_>, part: ClassPart) -> Walk<'_> {
    match part {
        ClassPart::Name => class.to(Mark::Name, 0),
        ClassPart::Base => class_name(class.to(Mark::Token(b"extends"), 0).forward(1)),
        ClassPart::Interface(index) => list_item(class, index),
    }
}

/// The name of a class whose reference begins at a token: an assembly in brackets may stand before it.
fn class_name(reference: Walk<'_>) -> Walk<'_> {
    if reference.is(Mark::Token(b"[")) {
        return reference.forward(3);
    }
    reference
}

/// The name of an interface that a class lists.
fn list_item(class: Walk<'_>, index: usize) -> Walk<'_> {
    let mut name = class_name(class.to(Mark::Token(b"implements"), 0).forward(1));
    for _ in 0..index {
        name = class_name(name.forward(2));
    }
    name
}

fn part_of_member(member: Walk<'_>, part: MemberPart) -> Walk<'_> {
    match part {
        MemberPart::Name => member_name(member),
        MemberPart::ClassOfType(index) => class_of_type(member, index),
        MemberPart::EntryPoint => member.to_directive(Mark::Token(b".entrypoint"), 0),
        MemberPart::MaxStack => member.to_directive(Mark::Token(b".maxstack"), 0).forward(1),
        MemberPart::Locals => member.to_directive(Mark::Token(b".locals"), 0),
    }
}

/// The name of a field, which is its last token, or of a method, which stands before its parameters.
fn member_name(member: Walk<'_>) -> Walk<'_> {
    let next = if member.is(Mark::Token(b".field")) {
        member.forward(1).to(Mark::FieldEnd, 0)
    } else {
        member.to(Mark::Token(b"("), 0)
    };
    next.back(1)
}

/// The name of the class in the type at this index among those with `class`, from a token on.
fn class_of_type(from: Walk<'_>, index: usize) -> Walk<'_> {
    class_name(from.to(Mark::Token(b"class"), index).forward(1))
}

fn part_of_line(instruction: Walk<'_>, part: LinePart) -> Walk<'_> {
    match part {
        LinePart::Name => instruction,
        LinePart::Label(index) => instruction.back(index.saturating_mul(2)),
        LinePart::ClassOfType(index) => class_of_type(instruction, index),
        LinePart::Owner => owner_end(instruction).back(1),
        LinePart::Member => owner_end(instruction).forward(1),
        LinePart::Target(index) => target(instruction.forward(1), index),
    }
}

/// The `::` after the class whose member an instruction names.
fn owner_end(instruction: Walk<'_>) -> Walk<'_> {
    instruction.to(Mark::Token(b"::"), 0)
}

/// A label to which an instruction goes: the one operand of a branch, or one of those in the parentheses of `switch`.
fn target(operand: Walk<'_>, index: usize) -> Walk<'_> {
    if operand.is(Mark::Token(b"(")) {
        return operand.forward(index.saturating_mul(2)).forward(1);
    }
    operand
}
