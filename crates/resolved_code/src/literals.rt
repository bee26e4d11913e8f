//! The string literals of a tree by their numbers.

ghost use Rattle.std.specs.Prelude.{◌≡◌, IfOk, map, filter_map};
ghost use Rattle.std.specs.List.{position_from};
ghost use Rattle.cil_model.specs.Same.{same_text};
ghost use Rattle.cil_model.specs.Mentions.{literals_of, literal_of, each_once};
ghost use Rattle.name_tables.specs.Keys.{text_of_key};

use cil_model::instructions::Instruction;
use cil_model::memory::NoMemory;
use cil_model::sequences::Sequence;
use cil_model::texts::Text;
use cil_model::trees::Tree;
use indexmap::IndexSet;
use name_tables::keys::TextKey;
use name_tables::trees::instructions_of_tree;
use std::alloc::Global;

/// The distinct string literals of a tree, in the order of their first occurrences (ECMA-335 III.4.16).
#[derive(Drop)]
pub struct Literals<'a> {
    pub tree: &'a Tree,
    texts: IndexSet<TextKey<'a>>,
    ghost texts_are: { map text_of_key texts.keys ≡ literals_of tree.now },
}

/// Each literal once, in the order of the first occurrences.
fn distinct_literals<'a>(
    alloc: Global,
    instructions: &[&'a Instruction],
) -> Result<IndexSet<TextKey<'a>>, NoMemory>
    ensures { IfOk result (λ s. map text_of_key s.keys ≡ each_once same_text (filter_map literal_of (map (λ i. i.now) instructions.now))) }
{
    let mut texts = IndexSet::new(alloc);
    for instruction in instructions {
        let Instruction::LoadString(text) = instruction else {
            continue;
        };
        texts.insert(TextKey { text })?;
    }
    Ok(texts)
}

impl<'a> Literals<'a> {
    /// Numbers the literals of a tree. The only error is out of memory.
    pub fn new(alloc: Global, tree: &'a Tree) -> Result<Self, NoMemory>
        ensures { IfOk result (λ l. l.tree.now ≡ tree.now) }
    {
        let instructions = instructions_of_tree(alloc, tree)?;
        let texts = distinct_literals(alloc, instructions.as_slice())?;
        Ok(Literals { tree, texts })
    }

    /// The number of a literal. None where the tree has no such literal.
    pub fn number(&self, text: &Text) -> Option<usize>
        ensures { result ≡ position_from (same_text text.now) 0 (literals_of self.now.tree.now) }
    {
        self.texts.get_index_of(&TextKey { text })
    }

    /// The characters of each literal by its number, in texts of their own. The only error is out of memory.
    pub fn texts(&self, alloc: Global) -> Result<Sequence<Text>, NoMemory>
        ensures { IfOk result (λ texts. texts ≡ literals_of self.now.tree.now) }
    {
        let mut texts = Vec::new(alloc);
        for key in self.texts.as_slice() {
            texts.push(Text::new(String::from_str(alloc, key.text.as_str())?))?;
        }
        Ok(Sequence::new(texts))
    }
}
