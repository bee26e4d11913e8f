//! Legal programs.

ghost use Rattle.std.specs.Prelude.{◌≡◌, option_map};
ghost use Rattle.cil_model.specs.Legality.{IsLegal};
ghost use Rattle.cil_model.specs.Mentions.{literals_of};
ghost use Rattle.resolved_code.specs.ResolvedPrograms.{AreResolved};
ghost use Rattle.resolved_code.specs.Contents.{IsContents, IsFieldOf, IsMethodOf, IsEntryPoint};

use crate::classes::{ResolvedClass, ResolvedField, ResolvedMethod};
use crate::contents::{Contents, field_at, method_at};
use cil_model::texts::Text;
use cil_model::trees::Tree;
use name_tables::ids::{FieldId, MethodId};
use std::marker::Model;

/// A legal program: the tree, with its classes, literals and entry point by numbers. Classes 0 to 4 are the built-in ones, and
/// those of the source follow in order.
pub struct Program {
    tree: Tree,
    contents: Contents,
}

/// Each part is dropped.
impl Drop for Program {
    fn drop(self) {
        let Program {
            tree: _tree,
            contents: _contents,
        } = self;
    }
}

/// Contracts see the tree, which is legal.
impl Model for Program {
    ghost use Rattle.cil_model.specs.declared.trees.Tree.{Tree};
    ghost use Rattle.cil_model.specs.Legality.{IsLegal};
    ghost use Rattle.resolved_code.specs.Contents.{IsContents};

    ghost Value = { Tree };

    ghost view = { λ p. p.tree };

    ghost invariant = { λ p. IsLegal p.tree × IsContents p.tree p.contents };
}

impl Program {
    /// The program of a legal tree, and of what that is by numbers. Takes no memory.
    pub fn new(tree: Tree, contents: Contents) -> Program
        requires legal { IsLegal tree }
        requires contents { IsContents tree contents }
        ensures { result ≡ tree }
    {
        Program { tree, contents }
    }

    /// The tree that was resolved, as it was given. It is legal.
    pub fn tree(&self) -> &Tree
        ensures whole { result.now ≡ self.now }
        ensures legal { IsLegal self.now }
    {
        &self.tree
    }

    /// The classes by their numbers, with their members in source order (ECMA-335 II.10).
    pub fn classes(&self) -> &[ResolvedClass]
        ensures { AreResolved self.now result.now }
    {
        self.contents.classes.as_slice()
    }

    /// The field of an id (ECMA-335 II.16). None where there is no such class or index.
    pub fn field(&self, field: FieldId) -> Option<&ResolvedField>
        ensures { IsFieldOf self.now field (option_map (λ f. f.now) result) }
    {
        field_at(self.classes(), field)
    }

    /// The method of an id (ECMA-335 II.15). None where there is no such class or index.
    pub fn method(&self, method: MethodId) -> Option<&ResolvedMethod>
        ensures { IsMethodOf self.now method (option_map (λ m. m.now) result) }
    {
        method_at(self.classes(), method)
    }

    /// The one method with an entry point (ECMA-335 II.15.4.1.2).
    pub fn entry_point(&self) -> MethodId
        ensures { IsEntryPoint self.now result }
    {
        self.contents.entry_point
    }

    /// The characters of each string literal by its number: in source order, equal ones once (ECMA-335 III.4.16).
    pub fn literals(&self) -> &[Text]
        ensures { result.now ≡ literals_of self.now }
    {
        self.contents.literals.as_slice()
    }
}
