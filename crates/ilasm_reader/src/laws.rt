//! Laws of the results for a source. The functions have empty bodies; their contracts are the laws.

ghost use Rattle.std.specs.Prelude.{◌≡◌, ℕ, List};
ghost use Rattle.cil_model.specs.declared.tokens.Token.{Token};
ghost use Rattle.cil_model.specs.declared.trees.Tree as trees;
ghost use Rattle.cil_model.specs.Grammar.{IsUnit};
ghost use Rattle.cil_model.specs.Sources.{SourceAnswer, IsAnswer};

/// A list of tokens has at most one tree.
pub fn trees_are_unique()
    ensures { (tokens : List Token) (t u : trees.Tree) → IsUnit tokens t → IsUnit tokens u → t ≡ u }
{}

/// A source has at most one result. So each refusal is returned exactly when its definition holds, and a source has at most one tree.
pub fn answers_are_unique()
    ensures { (source : List ℕ) (a b : SourceAnswer) → IsAnswer source a → IsAnswer source b → a ≡ b }
{}
