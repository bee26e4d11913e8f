//! Fields and methods of a class, by their indices.

use cil_model::trees::{Class, Field, Member, Method};

/// The method at this index among those of a class, and its number among the members.
pub fn nth_method(class: &Class, index: usize) -> Option<(usize, &Method)> {
    let mut left = index;
    for (member, item) in class.members.as_slice().iter().enumerate() {
        let Member::Method(method) = item else {
            continue;
        };
        if left == 0 {
            return Some((member, method));
        }
        left -= 1;
    }
    None
}

/// The field at this index among those of a class, and its number among the members.
pub fn nth_field(class: &Class, index: usize) -> Option<(usize, &Field)> {
    let mut left = index;
    for (member, item) in class.members.as_slice().iter().enumerate() {
        let Member::Field(field) = item else {
            continue;
        };
        if left == 0 {
            return Some((member, field));
        }
        left -= 1;
    }
    None
}

/// How many methods a class has.
fn count_methods(class: &Class) -> usize {
    let mut count = 0usize;
    for member in class.members.as_slice() {
        if let Member::Method(_) = member {
            count = count.saturating_add(1);
        }
    }
    count
}

/// A method of a source: its class, its number among the members of that class, and its index among the methods.
#[derive(Clone, Copy)]
pub struct MethodPosition {
    pub class: usize,
    pub member: usize,
    pub index: usize,
}

/// The method of a number, counted through the classes of a whole source.
pub fn method_of_number(classes: &[Class], number: usize) -> Option<MethodPosition> {
    let mut index = number;
    for (class, declared) in classes.iter().enumerate() {
        if let Some((member, _)) = nth_method(declared, index) {
            return Some(MethodPosition {
                class,
                member,
                index,
            });
        }
        index = index.saturating_sub(count_methods(declared));
    }
    None
}
