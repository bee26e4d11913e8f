//! A text of bytes below 128.

ghost use Rattle.std.specs.Prelude.{◌≡◌, string_bytes};

use std::hash::{Hash, Hasher};
use std::marker::Model;

/// A name, or the characters of a string literal. Contracts see it as the list of its bytes.
#[derive(Drop)]
pub struct Text {
    characters: String,
}

impl Model for Text {
    ghost use Rattle.std.specs.Prelude.{List, ℕ, string_bytes};

    ghost Value = { List ℕ };

    ghost view = { λ t. string_bytes t.characters };
}

impl Text {
    /// The text of these characters. Takes no memory.
    pub fn new(characters: String) -> Self
        ensures { result ≡ string_bytes characters }
    {
        Text { characters }
    }

    /// The characters.
    pub fn as_str(&self) -> &str
        ensures { result.now ≡ self.now }
    {
        self.characters.as_str()
    }

    ghost use Rattle.cil_model.specs.Same.{same_text};

    /// Whether both are the same characters: names are compared byte by byte, and capitals count (ECMA-335 II.5.3).
    pub fn is_same(&self, other: &Text) -> bool
        ensures { result ≡ same_text self.now other.now }
    {
        self.characters.as_str() == other.characters.as_str()
    }
}

/// As `is_same` says.
impl PartialEq for Text {
    ghost use Rattle.std.specs.Str.{bytes_eq};
    ghost use Rattle.std.specs.Cmp as Cmp;
    ghost use Rattle.std.specs.Cmp.Lexicographic.{nat_list_eq_equiv};

    ghost eq = { bytes_eq };

    ghost laws = { Cmp.partial_equiv_from_equiv nat_list_eq_equiv };

    fn eq(&self, other: &Text) -> bool {
        self.as_str() == other.as_str()
    }
}

impl Eq for Text {
    ghost use Rattle.std.specs.Cmp.Lexicographic.{nat_list_eq_equiv};

    ghost laws = { nat_list_eq_equiv };
}

/// The hash of its characters, so that equal texts have one.
impl Hash for Text {
    ghost use Rattle.std.specs.Hash as fed;
    ghost use Rattle.std.specs.Cmp.Rules.{hashing};
    ghost use Rattle.std.proofs.Common.{rules};

    ghost hash_input = { λ t. fed.str t };

    ghost respects_eq = { Prim.search (hashing, rules) };

    fn hash<H: Hasher>(&self, state: &mut H) {
        self.as_str().hash(state);
    }
}
