//! The labels of a method, with the indices of the instructions that they are before.

ghost use Rattle.std.specs.Prelude.{◌≡◌, ◌++◌, IfOk, map, flat_map, option_and_then, slice_get};
ghost use Rattle.cil_model.specs.Bodies.{lines_of, pc_of};
ghost use Rattle.name_tables.specs.Keys.{text_of_key};
ghost use Rattle.resolved_code.specs.LabelIndices.{label_indices};

use cil_model::memory::NoMemory;
use cil_model::texts::Text;
use cil_model::trees::{Line, Method};
use name_tables::bodies::{label_keys, lines_of};
use name_tables::key_indices::KeyIndices;
use name_tables::keys::TextKey;
use std::alloc::Global;

/// The labels of a method by hash, and beside each the index of its instruction (ECMA-335 II.5.4).
#[derive(Drop)]
pub struct Labels<'a> {
    pub lines: &'a [Line],
    names: KeyIndices<TextKey<'a>>,
    indices: Vec<usize>,
    ghost names_are: { map text_of_key names ≡ flat_map (λ line. line.labels) lines.now },
    ghost indices_are: { indices.items ≡ label_indices 0 lines.now },
}

/// Adds the index of a line once for each label that is before it. When memory runs out, some may have been added.
fn add_indices(indices: &mut Vec<usize>, index: usize, line: &Line) -> Result<(), NoMemory>
    ensures { IfOk result (λ _. indices.new.items ≡ indices.old.items ++ map (λ label. index) line.now.labels) }
{
    for _label in line.labels.as_slice() {
        indices.push(index)?;
    }
    Ok(())
}

/// For each label in its order the index of the line that it is before.
fn label_indices(alloc: Global, lines: &[Line]) -> Result<Vec<usize>, NoMemory>
    ensures { IfOk result (λ v. v.items ≡ label_indices 0 lines.now) }
{
    let mut indices = Vec::new(alloc);
    for index in 0..lines.len() {
        add_indices(&mut indices, index, &lines[index])?;
    }
    Ok(indices)
}

fn index_at(indices: &[usize], number: usize) -> Option<usize>
    ensures { result ≡ slice_get indices.now number }
{
    indices.get(number).copied()
}

impl<'a> Labels<'a> {
    /// Notes where each label of a method is. The only error is out of memory.
    pub fn new(alloc: Global, method: &'a Method) -> Result<Self, NoMemory>
        ensures { IfOk result (λ labels. labels.lines.now ≡ lines_of method.now) }
    {
        let lines = lines_of(method);
        let names = KeyIndices::new(alloc, label_keys(alloc, method)?)?;
        let indices = label_indices(alloc, lines)?;
        Ok(Labels {
            lines,
            names,
            indices,
        })
    }

    /// The index of the instruction that a label is before. None where no line has the label.
    pub fn index(&self, label: &Text) -> Option<usize>
        ensures { result ≡ pc_of label.now self.now.lines.now }
    {
        match self.names.first(TextKey { text: label }) {
            None => None,
            Some(number) => index_at(self.indices.as_slice(), number),
        }
    }
}
