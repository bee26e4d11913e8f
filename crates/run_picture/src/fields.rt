//! Loads and stores of static fields.

use crate::parts::write_member;
use cil_model::instructions::{FieldReference, Instruction};
use cil_model::trees::{Class, ClassKind, Member, Tree};
use cil_model::types::ClassName;
use instruction_text::CharactersText;
use picture_scene::{Field, Kind, Part, Scene};
use std::alloc::AllocError;
use std::fmt::{Display, Write};

/// A static field: the index of its class in the source, and that of its declaration among the members of the class.
#[derive(Clone, Copy)]
struct FieldDeclaration {
    class: usize,
    member: usize,
}

/// Gathers the load or store of an instruction that a thread has executed by an event. Other instructions change nothing.
pub(crate) fn see_access(
    scene: &mut Scene,
    tree: &Tree,
    instruction: &Instruction,
    lane: usize,
    at: usize,
) -> Result<(), AllocError> {
    let (kind, reference) = match instruction {
        Instruction::LoadStaticField(reference) => (Kind::Load, reference),
        Instruction::StoreStaticField(reference) => (Kind::Store, reference),
        _ => return Ok(()),
    };
    if let Some(id) = resolve(tree, reference) {
        let index = scene.field(id.class, id.member);
        if index == scene.fields.len() {
            add_field(scene, tree, id, lane)?;
        }
        scene.access(kind, lane, at, index);
    }
    Ok(())
}

/// The static field of a reference: of the class that is named, or of the nearest base class with a field of this name and type (ECMA-335 II.16).
fn resolve(tree: &Tree, reference: &FieldReference) -> Option<FieldDeclaration> {
    let mut owner = &reference.owner;
    for _class in 0..tree.classes.as_slice().len() {
        let class = class_index(tree, owner)?;
        let declared = tree.classes.as_slice().get(class)?;
        if let Some(member) = field_index(declared, reference) {
            return Some(FieldDeclaration { class, member });
        }
        let ClassKind::Class { base, .. } = &declared.kind else {
            return None;
        };
        owner = base;
    }
    None
}

/// The index of a class in the source. None for a built-in class.
fn class_index(tree: &Tree, name: &ClassName) -> Option<usize> {
    if name.assembly.is_some() {
        return None;
    }
    for (index, class) in tree.classes.as_slice().iter().enumerate() {
        if class.name.is_same(&name.name) {
            return Some(index);
        }
    }
    None
}

/// The index of the static field with the name and the type of a reference among the members of a class.
fn field_index(class: &Class, reference: &FieldReference) -> Option<usize> {
    for (index, member) in class.members.as_slice().iter().enumerate() {
        if let Member::Field(field) = member {
            if field.is_static
                && field.name.is_same(&reference.name)
                && field.field_type.is_same(&reference.field_type)
            {
                return Some(index);
            }
        }
    }
    None
}

/// Adds a field, given the thread that loads or stores it first.
fn add_field(
    scene: &mut Scene,
    tree: &Tree,
    id: FieldDeclaration,
    thread: usize,
) -> Result<(), AllocError> {
    let name = add_name(&mut scene.text, tree, id)?;
    scene.fields.push(Field {
        class: id.class,
        member: id.member,
        name,
        thread,
        is_shared: false,
    })?;
    Ok(())
}

/// Appends the name of a field, and returns where it is.
fn add_name(text: &mut String, tree: &Tree, id: FieldDeclaration) -> Result<Part, AllocError> {
    if let Some(class) = tree.classes.as_slice().get(id.class) {
        if let Some(Member::Field(field)) = class.members.as_slice().get(id.member) {
            let owner = CharactersText(&class.name);
            return write_member(text, &owner, &CharactersText(&field.name));
        }
    }
    Ok(Part { from: 0, to: 0 })
}
