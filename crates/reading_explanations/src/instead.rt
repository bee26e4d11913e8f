//! What to write in place of what a source has.

use crate::left_out::{FOREIGN, INSTRUCTIONS, MARKS, NEEDLESS, WORDS};
use crate::locations::advice_at;
use crate::spots::{Spot, is_name};
use crate::tables::{Entry, advice_in, is_listed};
use source_positions::Position;
use source_positions::cil_model::tokens::Symbol;
use source_positions::ilasm_tokens::expected::Expected;
use source_positions::ilasm_tokens::words::{WordUse, use_of};
use std::fmt;

/// What to write in place of what a source has. It prints as one sentence without an end.
#[derive(Clone, Copy)]
pub(crate) enum Instead<'a> {
    /// This sentence.
    Advice(&'static str),
    /// What is to be done, and a name after it.
    Named { before: &'static str, name: &'a str },
    /// A member after the name of its class.
    Member { class: &'a str, member: &'a str },
    /// The constructor of this class.
    Constructor(&'a str),
    /// This name of an instruction, in lower case.
    LowerCase(&'a str),
    /// A member of the class whose `}` stands at this position.
    InClass(Position),
}

impl<'a> Instead<'a> {
    /// The rest without this word.
    fn without(word: &'a str) -> Self {
        Instead::Named {
            before: "leave out `",
            name: word,
        }
    }

    /// This name of an instruction.
    fn instruction(name: &'a str) -> Self {
        Instead::Named {
            before: "write `",
            name,
        }
    }

    /// A type by its class.
    fn class_type(name: &'a str) -> Self {
        Instead::Named {
            before: "write `class ",
            name,
        }
    }
}

impl fmt::Display for Instead<'_> {
    fn fmt<W: fmt::Write>(&self, f: &mut fmt::Formatter<W>) -> fmt::Result {
        match self {
            Instead::Advice(advice) => f.write_str(advice),
            Instead::Named { before, name } => write!(f, "{before}{name}`"),
            Instead::Member { class, member } => write!(f, "write `{class}::{member}`"),
            Instead::Constructor(class) => {
                write!(
                    f,
                    "write `instance void {class}::.ctor` and the types of its parameters"
                )
            }
            Instead::LowerCase(name) => write_lower_case(f, name),
            Instead::InClass(end) => write_class_end(f, *end),
        }
    }
}

/// The name of an instruction in lower case.
fn write_lower_case<W: fmt::Write>(f: &mut fmt::Formatter<W>, name: &str) -> fmt::Result {
    f.write_str("write `")?;
    for byte in name.as_bytes() {
        let letter = char::from(byte.to_ascii_lowercase());
        write!(f, "{letter}")?;
    }
    f.write_str("`, in lower case")
}

/// Where the class ends to which a member may belong.
fn write_class_end<W: fmt::Write>(f: &mut fmt::Formatter<W>, end: Position) -> fmt::Result {
    let Position { line, column } = end;
    write!(
        f,
        "write it in a class: the class before it ends with the `}}` at {line}:{column}"
    )
}

/// What a table says of a word.
fn advice_of<'a>(table: &[Entry], word: &str) -> Option<Instead<'a>> {
    Some(Instead::Advice(advice_in(table, word)?))
}

/// What to write in place of a word that is left out without a replacement.
fn instead_of_needless(word: &str) -> Option<Instead<'_>> {
    if is_listed(NEEDLESS, word) {
        return Some(Instead::without(word));
    }
    None
}

/// What to write in place of a word outside of code; None where this profile has the word, or no one has it.
fn instead_of_word(word: &str) -> Option<Instead<'_>> {
    instead_of_needless(word).or(advice_of(WORDS, word))
}

/// An instruction of this name.
fn instruction(name: &str) -> Option<Instead<'_>> {
    match use_of(name.as_bytes()) {
        Some(WordUse::Instruction(_)) => Some(Instead::instruction(name)),
        _ => None,
    }
}

/// The most bytes of the name of an instruction.
const MOST_NAME_BYTES: usize = 16;

/// The first bytes of a name in lower case, and zeros after them.
fn lower_case_bytes(name: &[u8]) -> [u8; MOST_NAME_BYTES] {
    let mut bytes = [0u8; MOST_NAME_BYTES];
    for (index, byte) in bytes.iter_mut().enumerate() {
        *byte = name.get(index).copied().unwrap_or(0).to_ascii_lowercase();
    }
    bytes
}

/// The name of an instruction that is written in upper case.
fn instead_of_upper_case(name: &str) -> Option<Instead<'_>> {
    let bytes = lower_case_bytes(name.as_bytes());
    match use_of(bytes.get(..name.len())?) {
        Some(WordUse::Instruction(_)) => Some(Instead::LowerCase(name)),
        _ => None,
    }
}

/// The signed form of an instruction.
fn signed_type(name: &str) -> Option<Instead<'_>> {
    instruction(name.strip_suffix(".un")?)
}

/// What to write in place of a name of an instruction: for a short form the long one, for an unsigned form the signed one. None where
/// no one has such an instruction.
fn instead_of_instruction(name: &str) -> Option<Instead<'_>> {
    let long = name.strip_suffix(".s").unwrap_or(name);
    instruction(long)
        .or(advice_of(INSTRUCTIONS, long))
        .or(signed_type(long))
        .or(advice_of(FOREIGN, long))
        .or(instead_of_upper_case(name))
}

/// What is said of the digits of what begins like a number.
fn advice_on_digits(digits: &str) -> Option<&'static str> {
    if digits.starts_with("0x") || digits.starts_with("0X") {
        Some("write the number in decimal digits")
    } else if digits.ends_with("...") {
        Some("write the brackets with nothing between")
    } else if digits.contains('.') {
        Some("write an integer: there are no floating-point numbers")
    } else if digits.ends_with('L') || digits.ends_with('l') {
        Some("write the digits alone: `ldc.i8` loads an integer of 64 bits")
    } else {
        None
    }
}

/// What to write in place of what begins like a number.
fn instead_of_number(number: &str) -> Option<Instead<'_>> {
    let digits = number.strip_prefix("-").unwrap_or(number);
    Some(Instead::Advice(advice_on_digits(digits)?))
}

/// What to write in place of bytes with which no token begins.
pub(crate) fn instead_of_bytes(bytes: &str) -> Option<Instead<'_>> {
    let instead = instead_of_word(bytes);
    match bytes.as_bytes() {
        [b'0'..=b'9', ..] | [b'-', b'0'..=b'9', ..] => instead.or(instead_of_number(bytes)),
        [b'A'..=b'Z', ..] => instead.or(instead_of_upper_case(bytes)),
        _ => instead.or(advice_of(MARKS, bytes)),
    }
}

/// What to write in place of a member without `::` before it.
fn instead_of_member(name: &str) -> Instead<'_> {
    match name.rsplit_once('.') {
        Some((class, member)) => Instead::Member { class, member },
        None => Instead::Advice("write the class and `::` before the name"),
    }
}

/// What a token says, or the token before it.
fn instead_by_token<'a>(expected: Expected, spot: Spot<'a>) -> Option<Instead<'a>> {
    match expected {
        Expected::Word(_) if spot.before == "newobj" && is_name(spot.found) => {
            Some(Instead::Constructor(spot.found))
        }
        Expected::Word(_) | Expected::ListEnd(_) => instead_of_needless(spot.before),
        Expected::Symbol(Symbol::DoubleColon) if !is_name(spot.found) => {
            Some(instead_of_member(spot.before))
        }
        Expected::Type | Expected::ReturnType | Expected::CalledMethod if is_name(spot.found) => {
            Some(Instead::class_type(spot.found))
        }
        _ => None,
    }
}

/// Advice by the position of a token, or by the token before it.
fn advice_by_position<'a>(expected: Expected, spot: Spot<'a>) -> Option<Instead<'a>> {
    match advice_at(expected, spot) {
        None => instead_by_token(expected, spot),
        Some(advice) => Some(Instead::Advice(advice)),
    }
}

/// What to write in place of a token that the grammar does not have there; None where there is nothing to say. Of a label without its
/// `:` the token is the label, since it is more likely meant as an instruction.
pub(crate) fn instead_at<'a>(expected: Expected, spot: Spot<'a>) -> Option<Instead<'a>> {
    match expected {
        Expected::LabelColon => instead_of_instruction(spot.found),
        _ if spot.found.is_empty() => None,
        _ => instead_of_word(spot.found).or(advice_by_position(expected, spot)),
    }
}
