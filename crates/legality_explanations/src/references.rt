//! What a part of a source names.

use crate::sites::{MemberSpot, located_field, located_method};
use metadata::mentions::NamedTypes;
use metadata::violations::{SourceMember, TypeSite, TypesPart};
use source_positions::cil_model::instructions::Instruction;
use source_positions::cil_model::texts::Text;
use source_positions::cil_model::trees::Tree;
use source_positions::cil_model::types::{ClassName, DeclaredType, Element};
use source_positions::name_tables::bodies::{lines_of, locals_of};
use source_positions::name_tables::keys::{ClassKey, FieldKey, MethodKey};
use source_positions::{LinePart, Location, MemberPart};

// ---- types

/// The types of a part of a source.
fn types_of(tree: &Tree, part: TypesPart) -> Option<NamedTypes<'_>> {
    match part {
        TypesPart::Field(field) => {
            let (_, declared) = located_field(tree, field)?;
            Some(NamedTypes {
                parameters: &[],
                last: Some(&declared.field_type),
            })
        }
        TypesPart::Signature(method) => {
            let (_, declared) = located_method(tree, method)?;
            Some(NamedTypes::of_signature(&declared.signature))
        }
        TypesPart::Locals(method) => {
            let (_, declared) = located_method(tree, method)?;
            Some(NamedTypes {
                parameters: locals_of(declared),
                last: None,
            })
        }
        TypesPart::Line { method, line } => {
            let (_, instruction) = line_at(tree, method, line)?;
            Some(NamedTypes::of_instruction(instruction))
        }
    }
}

/// The type at a location of the source.
pub fn type_at(tree: &Tree, site: TypeSite) -> Option<&DeclaredType> {
    let types = types_of(tree, site.part)?;
    match types.parameters.get(site.index) {
        None => types.last,
        found => found,
    }
}

/// The member in which types stand.
fn spot_of(tree: &Tree, part: TypesPart) -> Option<MemberSpot> {
    match part {
        TypesPart::Field(field) => {
            let (spot, _) = located_field(tree, field)?;
            Some(spot)
        }
        TypesPart::Signature(method) | TypesPart::Locals(method) | TypesPart::Line { method, .. } =>
            {
                let (spot, _) = located_method(tree, method)?;
                Some(spot)
            }
    }
}

/// The location of a part of a source that names types: the name of its member, `.locals`, or the name of its instruction.
pub fn location_of(tree: &Tree, part: TypesPart) -> Option<Location> {
    let spot = spot_of(tree, part)?;
    Some(match part {
        TypesPart::Field(_) | TypesPart::Signature(_) => spot.name(),
        TypesPart::Locals(_) => spot.part(MemberPart::Locals),
        TypesPart::Line { line, .. } => spot.line(line, LinePart::Name),
    })
}

/// The class that a type names.
pub(crate) fn class_of(declared: &DeclaredType) -> Option<ClassKey<'_>> {
    match &declared.element {
        Element::Class(class) => Some(ClassKey::of(class)),
        _ => None,
    }
}

/// How many of these types name a class.
fn count_classes(types: NamedTypes) -> usize {
    let parameters = types.parameters.iter();
    let others = parameters.filter(|t| class_of(t).is_some()).count();
    match types.last {
        Some(last) if class_of(last).is_some() => others.saturating_add(1),
        _ => others,
    }
}

/// How many types that name a class stand in the text of a member or a line before one: a result before its parameters, and locals
/// after the signature.
fn classes_before(tree: &Tree, site: TypeSite) -> Option<usize> {
    let types = types_of(tree, site.part)?;
    if site.index >= types.parameters.len() {
        return Some(0);
    }
    let before = count_classes(NamedTypes {
        parameters: types.parameters.get(..site.index)?,
        last: types.last,
    });
    match site.part {
        TypesPart::Locals(method) => {
            let signature = types_of(tree, TypesPart::Signature(method))?;
            Some(before.saturating_add(count_classes(signature)))
        }
        _ => Some(before),
    }
}

/// The location of the class in a type.
pub fn class_position(tree: &Tree, site: TypeSite) -> Option<Location> {
    let spot = spot_of(tree, site.part)?;
    let before = classes_before(tree, site)?;
    Some(match site.part {
        TypesPart::Line { line, .. } => spot.line(line, LinePart::ClassOfType(before)),
        _ => spot.part(MemberPart::ClassOfType(before)),
    })
}

// ---- instructions

/// An instruction, and its method's number among the members of its class.
pub fn line_at(
    tree: &Tree,
    method: SourceMember,
    line: usize,
) -> Option<(MemberSpot, &Instruction)> {
    let (spot, declared) = located_method(tree, method)?;
    Some((spot, &lines_of(declared).get(line)?.instruction))
}

/// A member that an instruction names, without its class.
#[derive(Clone, Copy)]
pub(crate) enum MemberKey<'a> {
    Field(FieldKey<'a>),
    Method {
        method: MethodKey<'a>,
        is_static: bool,
    },
}

fn field_key<'a>(is_static: bool, name: &'a Text, field_type: &'a DeclaredType) -> MemberKey<'a> {
    MemberKey::Field(FieldKey {
        is_static,
        field_type,
        name,
    })
}

/// The member that an instruction names, with its class.
pub(crate) fn member_of(instruction: &Instruction) -> Option<(&ClassName, MemberKey<'_>)> {
    match instruction {
        Instruction::LoadField(r) | Instruction::StoreField(r) => {
            Some((&r.owner, field_key(false, &r.name, &r.field_type)))
        }
        Instruction::LoadStaticField(r) | Instruction::StoreStaticField(r) => {
            Some((&r.owner, field_key(true, &r.name, &r.field_type)))
        }
        Instruction::Call {
            is_instance,
            method,
        } => {
            let key = MethodKey::new(&method.name, &method.signature);
            let member = MemberKey::Method {
                method: key,
                is_static: !*is_instance,
            };
            Some((&method.owner, member))
        }
        Instruction::CallVirtual {
            owner,
            name,
            signature,
        } => {
            let member = MemberKey::Method {
                method: MethodKey::by_name(name, signature),
                is_static: false,
            };
            Some((owner, member))
        }
        Instruction::NewObject(class, parameters) => {
            let member = MemberKey::Method {
                method: MethodKey::constructor(parameters.as_slice()),
                is_static: false,
            };
            Some((class, member))
        }
        _ => None,
    }
}
