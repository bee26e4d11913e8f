//! Limits that are exceeded (number 207), all of which are this profile's.

use crate::references::{location_of, type_at};
use crate::rule_evidence::{Evidence, Located};
use crate::sites::{MemberSpot, Sites, class_name, located_method};
use metadata::violations;
use metadata::violations::{MethodLimit, SourceMember, TypeSite};
use source_positions::cil_model::instructions::Instruction;
use source_positions::cil_model::limits::{
    MOST_ARGUMENTS, MOST_BRACKETS, MOST_CLASSES, MOST_INSTANCE_FIELDS, MOST_INSTRUCTIONS,
    MOST_LOCALS, MOST_METHODS, MOST_STACK, MOST_STATIC_FIELDS, MOST_TARGETS,
};
use source_positions::cil_model::texts::Text;
use source_positions::cil_model::trees::{Class, Member, Method, Tree};
use source_positions::name_tables::bodies::{code_of, lines_of, locals_of};
use source_positions::name_tables::ids::ClassId;
use source_positions::name_tables::keys::ClassKey;
use source_positions::name_tables::kinds::is_static;
use source_positions::name_tables::lookups::NameTables;
use source_positions::{LinePart, Location, MemberPart, MethodPosition, method_of_number};
use std::fmt;

/// How many of some things there may be.
#[derive(Clone, Copy)]
pub struct Limit {
    /// Which has them.
    owner: &'static str,
    things: &'static str,
    most: usize,
}

const CLASSES: Limit = Limit {
    owner: "the source",
    things: "classes and interfaces",
    most: MOST_CLASSES,
};

const METHODS: Limit = Limit {
    owner: "the source",
    things: "methods",
    most: MOST_METHODS,
};

const STATIC_FIELDS: Limit = Limit {
    owner: "the source",
    things: "static fields",
    most: MOST_STATIC_FIELDS,
};

const ARGUMENTS: Limit = Limit {
    owner: "the method",
    things: "arguments, `this` counted",
    most: MOST_ARGUMENTS,
};

const LOCALS: Limit = Limit {
    owner: "the method",
    things: "locals",
    most: MOST_LOCALS,
};

const INSTRUCTIONS: Limit = Limit {
    owner: "the method",
    things: "instructions",
    most: MOST_INSTRUCTIONS,
};

const TARGETS: Limit = Limit {
    owner: "the `switch`",
    things: "targets",
    most: MOST_TARGETS,
};

/// A limit that is exceeded, with the number that exceeds it.
#[derive(Clone, Copy)]
pub enum ExceededLimit<'a> {
    Count(Limit, usize),
    /// Here stands the first that is too many.
    Excess(Limit),
    /// Of an object of this class.
    InstanceFields(&'a Text, usize),
    MaxStack(i64),
    /// Of a type.
    Brackets(u32),
}

impl fmt::Display for ExceededLimit<'_> {
    fn fmt<W: fmt::Write>(&self, f: &mut fmt::Formatter<W>) -> fmt::Result {
        match *self {
            ExceededLimit::Count(limit, count) => {
                let Limit {
                    owner,
                    things,
                    most,
                } = limit;
                write!(f, "{owner} has {count} {things}, more than {most}")
            }
            ExceededLimit::Excess(limit) => {
                let Limit {
                    owner,
                    things,
                    most,
                } = limit;
                write!(f, "{owner} has more than {most} {things}")
            }
            ExceededLimit::InstanceFields(class, count) => {
                let class = class.as_str();
                write!(
                    f,
                    "an object of `{class}` has {count} fields with those of its bases, more than {MOST_INSTANCE_FIELDS}"
                )
            }
            ExceededLimit::MaxStack(height) => {
                write!(f, "`.maxstack` is {height}, expected 0 to {MOST_STACK}")
            }
            ExceededLimit::Brackets(count) => {
                write!(
                    f,
                    "a type has {count} pairs of brackets, more than {MOST_BRACKETS}"
                )
            }
        }
    }
}

impl Evidence for ExceededLimit<'_> {}

fn located_at(
    evidence: ExceededLimit<'_>,
    location: Location,
) -> Option<Located<ExceededLimit<'_>>> {
    Some((evidence, Sites::at(location)))
}

// ---- one method

/// The array that `newarr` makes has one more pair of brackets than the type that stands there.
fn exceeded_by_instruction(instruction: &Instruction) -> Option<ExceededLimit<'_>> {
    match instruction {
        Instruction::Switch(labels) => Some(ExceededLimit::Count(TARGETS, labels.as_slice().len())),
        Instruction::NewArray(declared) => {
            Some(ExceededLimit::Brackets(declared.brackets.saturating_add(1)))
        }
        _ => None,
    }
}

fn exceeded_by_line(
    spot: MemberSpot,
    method: &Method,
    number: usize,
) -> Option<Located<ExceededLimit<'_>>> {
    let line = lines_of(method).get(number)?;
    let evidence = exceeded_by_instruction(&line.instruction)?;
    located_at(evidence, spot.line(number, LinePart::Name))
}

fn exceeded_max_stack(spot: MemberSpot, method: &Method) -> Option<Located<ExceededLimit<'_>>> {
    let evidence = ExceededLimit::MaxStack(code_of(&method.kind)?.max_stack);
    located_at(evidence, spot.part(MemberPart::MaxStack))
}

fn count_arguments(method: &Method) -> usize {
    let parameters = method.signature.parameters.as_slice().len();
    if is_static(&method.kind) {
        return parameters;
    }
    parameters.saturating_add(1)
}

fn exceeded_by_method(
    spot: MemberSpot,
    method: &Method,
    limit: MethodLimit,
) -> Option<Located<ExceededLimit<'_>>> {
    match limit {
        MethodLimit::Arguments => {
            let evidence = ExceededLimit::Count(ARGUMENTS, count_arguments(method));
            located_at(evidence, spot.name())
        }
        MethodLimit::Instructions => {
            let evidence = ExceededLimit::Count(INSTRUCTIONS, lines_of(method).len());
            located_at(evidence, spot.line(MOST_INSTRUCTIONS, LinePart::Name))
        }
        MethodLimit::Locals => {
            let evidence = ExceededLimit::Count(LOCALS, locals_of(method).len());
            located_at(evidence, spot.part(MemberPart::Locals))
        }
        MethodLimit::MaxStack => exceeded_max_stack(spot, method),
        MethodLimit::Line(number) => exceeded_by_line(spot, method, number),
    }
}

// ---- the whole tree

/// The first method of the source that is too many.
fn exceeded_methods(classes: &[Class]) -> Option<Located<ExceededLimit<'_>>> {
    let MethodPosition { class, member, .. } = method_of_number(classes, MOST_METHODS)?;
    let spot = MemberSpot { class, member };
    located_at(ExceededLimit::Excess(METHODS), spot.name())
}

/// The static field of a class at this index among them.
fn static_field_at(class: usize, declared: &Class, index: usize) -> Option<MemberSpot> {
    let mut left = index;
    for (member, item) in declared.members.as_slice().iter().enumerate() {
        let Member::Field(field) = item else {
            continue;
        };
        if !field.is_static {
            continue;
        }
        if left == 0 {
            return Some(MemberSpot { class, member });
        }
        left -= 1;
    }
    None
}

fn exceeded_static_fields(
    classes: &[Class],
    class: usize,
    index: usize,
) -> Option<Located<ExceededLimit<'_>>> {
    let spot = static_field_at(class, classes.get(class)?, index)?;
    located_at(ExceededLimit::Excess(STATIC_FIELDS), spot.name())
}

/// How many instance fields a class declares.
fn count_own_fields(names: &NameTables, class: ClassId) -> usize {
    let Some(declared) = names.classes.class(class) else {
        return 0;
    };
    let mut count = 0usize;
    for field in declared.fields.as_slice() {
        if !field.is_static {
            count = count.saturating_add(1);
        }
    }
    count
}

/// How many instance fields an object of a class has, those of its bases counted.
fn count_fields(names: &NameTables, class: &Class) -> usize {
    let mut count = 0usize;
    let mut next = names.classes.id(ClassKey::of_source(class));
    for _ in 0..names.classes.longest_chain() {
        let Some(number) = next else {
            return count;
        };
        count = count.saturating_add(count_own_fields(names, number));
        next = names.base(number);
    }
    count
}

fn exceeded_instance_fields<'a>(
    names: &NameTables<'a>,
    class: usize,
) -> Option<Located<ExceededLimit<'a>>> {
    let declared = names.classes.tree.classes.as_slice().get(class)?;
    let evidence = ExceededLimit::InstanceFields(&declared.name, count_fields(names, declared));
    located_at(evidence, class_name(class))
}

fn exceeded_brackets(tree: &Tree, site: TypeSite) -> Option<Located<ExceededLimit<'_>>> {
    let evidence = ExceededLimit::Brackets(type_at(tree, site)?.brackets);
    located_at(evidence, location_of(tree, site.part)?)
}

fn exceeded_in_method(
    tree: &Tree,
    method: SourceMember,
    limit: MethodLimit,
) -> Option<Located<ExceededLimit<'_>>> {
    let (spot, declared) = located_method(tree, method)?;
    exceeded_by_method(spot, declared, limit)
}

/// A limit that is exceeded. None where the tree has no such location.
pub(crate) fn exceeded_limit<'a>(
    names: &NameTables<'a>,
    limit: violations::ExceededLimit,
) -> Option<Located<ExceededLimit<'a>>> {
    let tree = names.classes.tree;
    let classes = tree.classes.as_slice();
    match limit {
        violations::ExceededLimit::Classes => {
            let evidence = ExceededLimit::Count(CLASSES, classes.len());
            located_at(evidence, class_name(MOST_CLASSES))
        }
        violations::ExceededLimit::Methods => exceeded_methods(classes),
        violations::ExceededLimit::StaticFields { class, index } => {
            exceeded_static_fields(classes, class, index)
        }
        violations::ExceededLimit::Brackets(site) => exceeded_brackets(tree, site),
        violations::ExceededLimit::InstanceFields { class } => exceeded_instance_fields(
            names, class,
        ),
        violations::ExceededLimit::Method { method, limit } => exceeded_in_method(
            tree, method, limit,
        ),
    }
}
