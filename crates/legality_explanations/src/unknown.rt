//! Names that denote nothing of the kind needed (number 202).

use crate::advice::{Advice, advice_on};
use crate::references::{MemberKey, class_of, class_position, line_at, member_of, type_at};
use crate::rule_evidence::{Evidence, Located};
use crate::sentences::{write_one, write_two};
use crate::sites::{Sites, key_of, listed_interface, located_method};
use metadata::mentions::labels_of;
use metadata::violations;
use metadata::violations::{ClassFault, HeadingName, SourceMember, TypeSite};
use source_positions::cil_model::instructions::Instruction;
use source_positions::cil_model::texts::Text;
use source_positions::cil_model::trees::{Class, ClassKind, Field, Line, Method, Tree};
use source_positions::name_tables::bodies::lines_of;
use source_positions::name_tables::keys::{ClassKey, FieldKey, MethodKey};
use source_positions::name_tables::kinds::is_static;
use source_positions::name_tables::lookups::NameTables;
use source_positions::{ClassPart, ClassText, LinePart, Location, MethodText, TypeText};
use std::fmt;

/// What a class is named as.
#[derive(Clone, Copy)]
pub enum Role {
    /// After `extends`.
    Base,
    /// After `implements`.
    Interface,
    /// After `class` in a type.
    Type,
    /// Before `::`.
    Owner,
}

/// A name that denotes nothing of the kind needed.
#[derive(Clone, Copy)]
pub enum Unknown<'a> {
    /// An extern that is no library.
    Extern(&'a Text),
    /// A class, and one that has its name in other letter case.
    Class {
        class: ClassKey<'a>,
        role: Role,
        fault: ClassFault,
        near: Option<&'a Text>,
    },
    /// A label that no instruction of the method has, and one that has its name in other letter case.
    Label {
        label: &'a Text,
        near: Option<&'a Text>,
    },
    /// A field that no class of its owner's chain has, and the nearest that has its name.
    Field {
        owner: ClassKey<'a>,
        field: FieldKey<'a>,
        near: Option<&'a Field>,
    },
    /// A method that no class of its owner's chain has, and the nearest that has its name.
    Method {
        owner: ClassKey<'a>,
        method: MethodKey<'a>,
        is_static: bool,
        near: Option<&'a Method>,
    },
}

fn located_at(unknown: Unknown<'_>, location: Location) -> Option<Located<Unknown<'_>>> {
    Some((unknown, Sites::at(location)))
}

/// `static` or `instance`
fn kind_word(is_static: bool) -> &'static str {
    if is_static { "static" } else { "instance" }
}

impl fmt::Display for Unknown<'_> {
    fn fmt<W: fmt::Write>(&self, f: &mut fmt::Formatter<W>) -> fmt::Result {
        match *self {
            Unknown::Extern(name) => {
                let after = "` is no library: an extern is `mscorlib` or `cilvm`";
                write_one(f, "`", &name.as_str(), after)
            }
            Unknown::Class {
                class,
                role,
                fault,
                ..
            } => write_class(f, class, role, fault),
            Unknown::Label { label, .. } => {
                let before = "no instruction of the method has the label `";
                write_one(f, before, &label.as_str(), "`")
            }
            Unknown::Field { owner, field, near } => write_absent_field(f, owner, field, near),
            Unknown::Method {
                owner,
                method,
                is_static,
                near,
            } => write_absent_method(f, owner, method, is_static, near),
        }
    }
}

impl Evidence for Unknown<'_> {
    fn advice(&self) -> Option<Advice<'_>> {
        advice_on(self)
    }
}

fn write_absent_field<W: fmt::Write>(
    f: &mut fmt::Formatter<W>,
    owner: ClassKey,
    field: FieldKey,
    near: Option<&Field>,
) -> fmt::Result {
    let owner = ClassText(owner);
    let kind = kind_word(field.is_static);
    let declared = TypeText(field.field_type);
    let name = field.name.as_str();
    write!(
        f,
        "`{owner}` has no {kind} field `{declared} {name}`, declared or inherited"
    )?;
    write_near_field(f, near)
}

/// What a class lacks that has no such method, and what follows its name; a constructor is not inherited.
fn lack_of(method: MethodKey, is_static: bool) -> (&'static str, &'static str) {
    if is_static {
        return ("static method", ", declared or inherited");
    }
    match method.name {
        None => ("constructor", ""),
        Some(_) => ("instance method", ", declared or inherited"),
    }
}

fn write_absent_method<W: fmt::Write>(
    f: &mut fmt::Formatter<W>,
    owner: ClassKey,
    method: MethodKey,
    is_static: bool,
    near: Option<&Method>,
) -> fmt::Result {
    let owner = ClassText(owner);
    let (kind, after) = lack_of(method, is_static);
    let method = MethodText(method);
    write!(f, "`{owner}` has no {kind} `{method}`{after}")?;
    write_near_method(f, near)
}

/// What stands before the name of a class that may not be named so, and after it.
fn fault_of_class(class: ClassKey, role: Role, fault: ClassFault) -> (&'static str, &'static str) {
    match fault {
        ClassFault::NoExtern => ("no `.assembly extern` declares the assembly of ", ""),
        ClassFault::Absent => (absence_of_class(class, role), ""),
        ClassFault::IsInterface => ("", " is an interface, and a class extends a class"),
        ClassFault::IsClass => ("", " is a class, and a class implements interfaces"),
        ClassFault::IsBuiltIn => fault_of_built_in(class, role),
    }
}

fn absence_of_class(class: ClassKey, role: Role) -> &'static str {
    if class.assembly.is_some() {
        return "there is no built-in class ";
    }
    match role {
        Role::Interface => "the source has no interface ",
        Role::Base => "the source has no class ",
        Role::Type | Role::Owner => "the source has no class or interface ",
    }
}

fn fault_of_built_in(class: ClassKey, role: Role) -> (&'static str, &'static str) {
    if let Role::Base = role {
        return ("no class may extend the built-in class ", "");
    }
    match class.name.as_str() {
        "System.Object" => ("the type of ", " is `object`, without `class`"),
        "System.String" => ("the type of ", " is `string`, without `class`"),
        _ => ("no type may name the built-in class ", ""),
    }
}

/// Why a class may not be named so.
fn write_class<W: fmt::Write>(
    f: &mut fmt::Formatter<W>,
    class: ClassKey,
    role: Role,
    fault: ClassFault,
) -> fmt::Result {
    let name = ClassText(class);
    let (before, after) = fault_of_class(class, role, fault);
    write!(f, "{before}`{name}`{after}")?;
    match fault {
        ClassFault::Absent if class.assembly.is_none() => write_assembly(f, class.name.as_str()),
        _ => Ok(()),
    }
}

/// The library of a built-in class; None where no built-in class has the name.
pub(crate) fn library_of(name: &str) -> Option<&'static str> {
    match name {
        "System.Object" | "System.String" | "System.Console" | "System.Threading.Monitor" => {
            Some("mscorlib")
        }
        "Cilvm.Thread" => Some("cilvm"),
        _ => None,
    }
}

/// The built-in class that a name without an assembly may mean.
fn write_assembly<W: fmt::Write>(f: &mut fmt::Formatter<W>, name: &str) -> fmt::Result {
    let Some(library) = library_of(name) else {
        return Ok(());
    };
    write_two(f, ", but `[", &library, "]", &name, "` is built in")
}

fn write_near_field<W: fmt::Write>(f: &mut fmt::Formatter<W>, near: Option<&Field>) -> fmt::Result {
    let Some(field) = near else {
        return Ok(());
    };
    let kind = kind_word(field.is_static);
    let declared = TypeText(&field.field_type);
    let name = field.name.as_str();
    write!(f, "; it has the {kind} field `{declared} {name}`")
}

/// What is said before a method with the name of another.
fn kind_of_method(method: &Method) -> &'static str {
    if key_of(method).name.is_none() {
        return "the constructor ";
    }
    if is_static(&method.kind) {
        "the static method "
    } else {
        "the instance method "
    }
}

fn write_near_method<W: fmt::Write>(
    f: &mut fmt::Formatter<W>,
    near: Option<&Method>,
) -> fmt::Result {
    let Some(method) = near else {
        return Ok(());
    };
    let kind = kind_of_method(method);
    let method = MethodText(key_of(method));
    write!(f, "; it has {kind}`{method}`")
}

// ---- classes

/// The class of the source that has this name but for letter case.
fn near_class<'a>(tree: &'a Tree, name: &Text) -> Option<&'a Text> {
    for class in tree.classes.as_slice() {
        if class.name.as_str().eq_ignore_ascii_case(name.as_str()) {
            return Some(&class.name);
        }
    }
    None
}

fn unknown_class<'a>(
    tree: &'a Tree,
    class: ClassKey<'a>,
    role: Role,
    fault: ClassFault,
) -> Unknown<'a> {
    let near = match fault {
        ClassFault::Absent => near_class(tree, class.name),
        _ => None,
    };
    Unknown::Class {
        class,
        role,
        fault,
        near,
    }
}

/// A class that the first line of a class names.
fn named_in_heading(class: &Class, name: HeadingName) -> Option<(ClassKey<'_>, Role)> {
    match name {
        HeadingName::Base => Some((base_of(class)?, Role::Base)),
        HeadingName::Interface(entry) => Some((listed_interface(class, entry)?, Role::Interface)),
    }
}

/// The base that a class names.
fn base_of(class: &Class) -> Option<ClassKey<'_>> {
    match &class.kind {
        ClassKind::Class { base, .. } => Some(ClassKey::of(base)),
        _ => None,
    }
}

fn unknown_in_heading(
    tree: &Tree,
    number: usize,
    name: HeadingName,
    fault: ClassFault,
) -> Option<Located<Unknown<'_>>> {
    let (class, role) = named_in_heading(tree.classes.as_slice().get(number)?, name)?;
    let part = match name {
        HeadingName::Base => ClassPart::Base,
        HeadingName::Interface(entry) => ClassPart::Interface(entry),
    };
    let location = Location::InClass {
        class: number,
        part,
    };
    located_at(unknown_class(tree, class, role, fault), location)
}

fn unknown_in_type(tree: &Tree, site: TypeSite, fault: ClassFault) -> Option<Located<Unknown<'_>>> {
    let class = class_of(type_at(tree, site)?)?;
    let location = class_position(tree, site)?;
    located_at(unknown_class(tree, class, Role::Type, fault), location)
}

// ---- instructions

/// The field of this name; else the last one that has it in other letter case.
fn field_named<'a>(fields: &[&'a Field], name: &Text) -> Option<&'a Field> {
    let mut near = None;
    for field in fields {
        if field.name.is_same(name) {
            return Some(*field);
        }
        if field.name.as_str().eq_ignore_ascii_case(name.as_str()) {
            near = Some(*field);
        }
    }
    near
}

/// The nearest field of this name, from a class on through its bases.
fn near_field<'a>(names: &NameTables<'a>, owner: ClassKey, name: &Text) -> Option<&'a Field> {
    let mut next = names.classes.id(owner);
    for _ in 0..names.classes.longest_chain() {
        let class = next?;
        let declared = names.classes.class(class)?;
        if let Some(field) = field_named(declared.fields.as_slice(), name) {
            return Some(field);
        }
        next = names.base(class);
    }
    None
}

/// Whether a method has this name; no name is a constructor's.
fn has_name(method: &Method, name: Option<&Text>) -> bool {
    match (key_of(method).name, name) {
        (None, None) => true,
        (Some(own), Some(other)) => own.is_same(other),
        _ => false,
    }
}

/// Whether a method has this name in any letter case.
fn has_near_name(method: &Method, name: &Text) -> bool {
    match key_of(method).name {
        None => false,
        Some(own) => own.as_str().eq_ignore_ascii_case(name.as_str()),
    }
}

/// The method of this name; else the last one that has the second name in any letter case.
fn method_named<'a>(
    methods: &[&'a Method],
    name: Option<&Text>,
    other: &Text,
) -> Option<&'a Method> {
    let mut near = None;
    for method in methods {
        if has_name(method, name) {
            return Some(*method);
        }
        if has_near_name(method, other) {
            near = Some(*method);
        }
    }
    near
}

/// The nearest method of this name, from a class on through its bases. Of a constructor it is the first of its class, else a method with
/// the name of the class.
fn near_method<'a>(
    names: &NameTables<'a>,
    owner: ClassKey,
    name: Option<&Text>,
) -> Option<&'a Method> {
    let longest = names.classes.longest_chain();
    let most = if name.is_some() { longest } else { 1 };
    let other = name.unwrap_or(owner.name);
    let mut next = names.classes.id(owner);
    for _ in 0..most {
        let class = next?;
        let declared = names.classes.class(class)?;
        if let Some(method) = method_named(declared.methods.as_slice(), name, other) {
            return Some(method);
        }
        next = names.base(class);
    }
    None
}

/// A member that is not there.
fn absent_member<'a>(
    names: &NameTables<'a>,
    owner: ClassKey<'a>,
    member: MemberKey<'a>,
) -> Unknown<'a> {
    match member {
        MemberKey::Field(field) => Unknown::Field {
            owner,
            field,
            near: near_field(names, owner, field.name),
        },
        MemberKey::Method { method, is_static } => Unknown::Method {
            owner,
            method,
            is_static,
            near: near_method(names, owner, method.name),
        },
    }
}

fn unknown_owner(
    tree: &Tree,
    method: SourceMember,
    line: usize,
    fault: ClassFault,
) -> Option<Located<Unknown<'_>>> {
    let (spot, instruction) = line_at(tree, method, line)?;
    let (owner, _) = member_of(instruction)?;
    let unknown = unknown_class(tree, ClassKey::of(owner), Role::Owner, fault);
    located_at(unknown, spot.line(line, LinePart::Owner))
}

fn unknown_member<'a>(
    names: &NameTables<'a>,
    method: SourceMember,
    line: usize,
) -> Option<Located<Unknown<'a>>> {
    let (spot, instruction) = line_at(names.classes.tree, method, line)?;
    let (owner, member) = member_of(instruction)?;
    let unknown = absent_member(names, ClassKey::of(owner), member);
    located_at(unknown, spot.line(line, LinePart::Member))
}

/// The label of a method that has this name but for letter case.
fn near_label<'a>(lines: &'a [Line], label: &Text) -> Option<&'a Text> {
    for line in lines {
        for own in line.labels.as_slice() {
            if own.as_str().eq_ignore_ascii_case(label.as_str()) {
                return Some(own);
            }
        }
    }
    None
}

fn unknown_label(
    tree: &Tree,
    method: SourceMember,
    line: usize,
    target: usize,
) -> Option<Located<Unknown<'_>>> {
    let (spot, instruction) = line_at(tree, method, line)?;
    let label = labels_of(instruction).get(target)?;
    let location = spot.line(line, LinePart::Target(target));
    let (_, declared) = located_method(tree, method)?;
    let near = near_label(lines_of(declared), label);
    located_at(Unknown::Label { label, near }, location)
}

// ---- the whole tree

fn unknown_extern(tree: &Tree, number: usize) -> Option<Located<Unknown<'_>>> {
    let name = tree.externs.as_slice().get(number)?;
    located_at(Unknown::Extern(name), Location::Extern(number))
}

/// A name that denotes nothing of the kind needed (number 202), and its location. None where the tree has no such location.
pub fn unknown_name<'a>(
    names: &NameTables<'a>,
    unknown: violations::Unknown,
) -> Option<Located<Unknown<'a>>> {
    let tree = names.classes.tree;
    match unknown {
        violations::Unknown::Extern(number) => unknown_extern(tree, number),
        violations::Unknown::Heading { class, name, fault } => {
            unknown_in_heading(tree, class, name, fault)
        }
        violations::Unknown::Type { site, fault } => unknown_in_type(tree, site, fault),
        violations::Unknown::Owner {
            method,
            line,
            fault,
        } => unknown_owner(tree, method, line, fault),
        violations::Unknown::Member { method, line } => unknown_member(names, method, line),
        violations::Unknown::Label {
            method,
            line,
            target,
        } => unknown_label(tree, method, line, target),
    }
}
