//! Names, string literals and printed bytes in printable characters.

use cil_model::texts::Text;
use std::fmt;
use std::fmt::Display;

/// Bytes in printable ASCII, as in a string literal.
#[derive(Clone, Copy)]
pub struct BytesText<'a>(pub &'a [u8]);

/// Each byte as `ByteText` writes it.
impl<'a> fmt::Display for BytesText<'a> {
    ghost use Rattle.std.specs.Prelude.{Some};
    ghost use Rattle.instruction_text.specs.Characters.{characters_text};

    ghost output = { λ text. Some (characters_text text.0.now) };

    fn fmt<W: fmt::Write>(&self, f: &mut fmt::Formatter<W>) -> fmt::Result {
        for byte in self.0 {
            ByteText(*byte).fmt(f)?;
        }
        Ok(())
    }
}

/// The characters of a name or of a string literal, in printable ASCII.
#[derive(Clone, Copy)]
pub struct CharactersText<'a>(pub &'a Text);

impl<'a> fmt::Display for CharactersText<'a> {
    ghost use Rattle.std.specs.Prelude.{Some};
    ghost use Rattle.instruction_text.specs.Characters.{characters_text};

    ghost output = { λ text. Some (characters_text text.0.now) };

    fn fmt<W: fmt::Write>(&self, f: &mut fmt::Formatter<W>) -> fmt::Result {
        BytesText(self.0.as_str().as_bytes()).fmt(f)
    }
}

/// One byte in printable ASCII.
#[derive(Clone, Copy)]
struct ByteText(u8);

/// A line feed, a tab, a quotation mark and a backslash have a backslash before them, as `\n`, `\t`, `\"` and `\\`. Another byte below 32 or above 126 is
/// a backslash with its three octal digits, and each other one is itself (ECMA-335 II.5.2).
impl fmt::Display for ByteText {
    ghost use Rattle.std.specs.Prelude.{Some};
    ghost use Rattle.instruction_text.specs.Characters.{character_text};

    ghost output = { λ byte. Some (character_text byte.0) };

    fn fmt<W: fmt::Write>(&self, f: &mut fmt::Formatter<W>) -> fmt::Result {
        match self.0 {
            b'\n' => f.write_str("\\n"),
            b'\t' => f.write_str("\\t"),
            b'"' => f.write_str("\\\""),
            b'\\' => f.write_str("\\\\"),
            byte @ b' '..=b'~' => write!(f, "{}", char::from(byte)),
            byte => write!(f, "\\{}{}{}", byte / 64, byte / 8 % 8, byte % 8),
        }
    }
}
