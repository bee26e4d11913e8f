//! A law of the tokens of a source. The function has an empty body; its contract is the law.

ghost use Rattle.std.specs.Prelude.{◌≡◌, ℕ, List};
ghost use Rattle.cil_model.specs.declared.tokens.Token.{Token};
ghost use Rattle.cil_model.specs.Lexemes.{AreTokens};

/// A source has at most one list of tokens.
pub fn tokens_are_unique()
    ensures { (source : List ℕ) (ts us : List Token) → AreTokens source ts → AreTokens source us → ts ≡ us }
{}
