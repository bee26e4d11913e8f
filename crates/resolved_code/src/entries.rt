//! The first method with an entry point (ECMA-335 II.15.4.1.2).

ghost use Rattle.std.specs.Prelude.{◌≡◌, map, option_map};
ghost use Rattle.std.specs.List.{position_from};
ghost use Rattle.cil_model.specs.Bodies.{is_entry_point};
ghost use Rattle.name_tables.specs.Entries.{entry_of};
ghost use Rattle.resolved_code.specs.Contents.{entry_from};

use cil_model::trees::Method;
use name_tables::bodies::code_of;
use name_tables::class_tables::ClassTable;
use name_tables::ids::{ClassId, MethodId};

/// Whether a method has an entry point (ECMA-335 II.15.4.1.2).
pub fn is_entry_point(method: &Method) -> bool
    ensures { result ≡ is_entry_point method.now }
{
    match code_of(&method.kind) {
        None => false,
        Some(code) => code.is_entry_point,
    }
}

/// The index of the first entry point among methods.
pub fn entry_index(methods: &[&Method]) -> Option<usize>
    ensures { result ≡ position_from is_entry_point 0 (map (λ m. m.now) methods.now) }
{
    for index in 0..methods.len() {
        if is_entry_point(methods[index]) {
            return Some(index);
        }
    }
    None
}

/// The id of the first method with an entry point.
pub(crate) fn entry_id(classes: &[ClassTable]) -> Option<MethodId>
    ensures { option_map (λ m. (m.class, m.index)) result ≡ entry_from 0 (map (λ t. entry_of t.class) classes.now) }
{
    for class in 0..classes.len() {
        if let Some(index) = entry_index(classes[class].class.methods.as_slice()) {
            let class = ClassId::new(class);
            return Some(MethodId { class, index });
        }
    }
    None
}
