//! The parts of a method's body.

ghost use Rattle.std.specs.Prelude.{◌≡◌, IfOk, map, option_map, flat_map};
ghost use Rattle.cil_model.specs.Bodies.{code_of, lines_of};
ghost use Rattle.cil_model.specs.Legality.{labels_before};
ghost use Rattle.cil_model.specs.Mentions.{codes_of};
ghost use Rattle.name_tables.specs.Keys.{text_of_key};

use crate::keys::TextKey;
use cil_model::memory::NoMemory;
use cil_model::trees::{Code, Line, Method, MethodKind};
use cil_model::types::DeclaredType;
use std::alloc::Global;

/// The code of a method, where it has some.
pub fn code_of(kind: &MethodKind) -> Option<&Code>
    ensures { option_map (λ c. c.now) result ≡ code_of kind.now }
{
    match kind {
        MethodKind::Static(code) => Some(code),
        MethodKind::Instance(code) => Some(code),
        MethodKind::Virtual { code, .. } => Some(code),
        MethodKind::Abstract { .. } => None,
    }
}

/// The lines of a method; none where it has no code.
pub fn lines_of(method: &Method) -> &[Line]
    ensures { result.now ≡ lines_of method.now }
{
    match code_of(&method.kind) {
        None => &[],
        Some(code) => code.lines.as_slice(),
    }
}

/// The types of a method's locals; none where it has no code (ECMA-335 II.15.4.1.3).
pub fn locals_of(method: &Method) -> &[DeclaredType]
    ensures { result.now ≡ flat_map (λ c. c.locals) (codes_of method.now) }
{
    match code_of(&method.kind) {
        None => &[],
        Some(code) => code.locals.as_slice(),
    }
}

/// All labels of a method, in their order (ECMA-335 II.5.4). The only error is out of memory.
pub fn label_keys(alloc: Global, method: &Method) -> Result<Vec<TextKey<'_>>, NoMemory>
    ensures { IfOk result (λ v. map text_of_key v.items ≡ labels_before method.now) }
{
    let mut keys = Vec::new(alloc);
    for line in lines_of(method) {
        for label in line.labels.as_slice() {
            keys.push(TextKey { text: label })?;
        }
    }
    Ok(keys)
}
