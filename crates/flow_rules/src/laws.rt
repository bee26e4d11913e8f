//! Laws of the tree of types. Each function has an empty body, and its contract is the law.

ghost use Rattle.std.specs.Prelude.{IsTrue};
ghost use Rattle.cil_model.specs.declared.trees.Tree.{Tree};
ghost use Rattle.cil_model.specs.declared.types.DeclaredType.{DeclaredType};
ghost use Rattle.cil_model.specs.declared.types.Element.TheVariants.{Object};
ghost use Rattle.cil_model.specs.Declarations.{plain};
ghost use Rattle.cil_model.specs.Assignable.{is_reference};
ghost use Rattle.cil_model.specs.Legality.{IsLegal};
ghost use Rattle.cil_model.specs.TypeTree.{StackType, Declared, IsBelow, IsMerge};

/// `object` is above every reference of a legal tree, so that two references always have a merge.
pub fn object_is_above()
    ensures above { (tree : Tree) → IsLegal tree → (a : DeclaredType) → IsTrue (is_reference a) → IsBelow tree (Declared a) (Declared (plain Object)) }
    ensures merged { (tree : Tree) → IsLegal tree → (a b : DeclaredType) → IsTrue (is_reference a) → IsTrue (is_reference b) → (merged : StackType) × IsMerge tree (Declared a) (Declared b) merged }
{}
