//! Why a source has no tree (numbers 101 to 104).

use crate::file_kinds::explain_source_kind;
use crate::hints::ExpectedText;
use crate::instead::{Instead, instead_at, instead_of_bytes};
use crate::spots::{Spot, spot_at, word_at};
use ilasm_reader::ReadError;
use source_positions::cil_model::limits::MOST_SOURCE_BYTES;
use source_positions::cil_model::memory::NoMemory;
use source_positions::ilasm_tokens::expected::Expected;
use source_positions::ilasm_tokens::words::{WordUse, use_of};
use source_positions::{Named, position_of, token_at, token_before};
use std::alloc::Global;
use std::fmt;

/// A byte, as text shows it: itself where it can be seen, and else its number.
#[derive(Clone, Copy)]
struct ByteText(u8);

impl fmt::Display for ByteText {
    fn fmt<W: fmt::Write>(&self, f: &mut fmt::Formatter<W>) -> fmt::Result {
        let byte = self.0;
        match byte {
            b'!'..=b'~' => {
                let shown = char::from(byte);
                write!(f, "`{shown}`")
            }
            _ => write!(f, "the byte 0x{byte:02x}"),
        }
    }
}

/// A token as text; none of its bytes is above 127.
fn text_of(token: &[u8]) -> &str {
    str::from_utf8(token).unwrap_or("?")
}

/// What stands where it is not expected.
#[derive(Clone, Copy)]
struct Found<'a>(&'a [u8]);

impl fmt::Display for Found<'_> {
    fn fmt<W: fmt::Write>(&self, f: &mut fmt::Formatter<W>) -> fmt::Result {
        let quote = match self.0 {
            [] => return f.write_str("the end of the source"),
            [b'"' | b'-' | b'0'..=b'9', ..] => "",
            _ => "`",
        };
        let kind = kind_of(self.0);
        let token = text_of(self.0);
        write!(f, "{kind}{quote}{token}{quote}")
    }
}

/// What a token is called before it is shown; nothing of a mark.
fn kind_of(token: &[u8]) -> &'static str {
    match token {
        [b'"', ..] => "the literal ",
        [b'0'..=b'9' | b'-', ..] => "the integer ",
        [b'A'..=b'Z' | b'a'..=b'z' | b'_' | b'.', ..] => match use_of(token) {
            None => "the name ",
            Some(WordUse::Grammar) => "the reserved word ",
            Some(WordUse::Instruction(_)) => "the instruction ",
        },
        _ => "",
    }
}

/// What is wrong at a position of a source without a tree. It prints as one sentence without an end.
#[derive(Clone, Copy)]
enum Unread<'a> {
    /// The number of bytes, which is too large.
    TooLong(usize),
    Foreign(u8),
    /// No token begins with these bytes: all from there on, and what a token of them would be.
    NoToken { rest: &'a [u8], token: &'a [u8] },
    /// A name where an instruction is expected.
    NoInstruction(&'a [u8]),
    NoTree { token: &'a [u8], expected: Expected },
}

impl fmt::Display for Unread<'_> {
    fn fmt<W: fmt::Write>(&self, f: &mut fmt::Formatter<W>) -> fmt::Result {
        match self {
            Unread::TooLong(length) => {
                write!(
                    f,
                    "the source has {length} bytes, more than {MOST_SOURCE_BYTES}"
                )
            }
            Unread::Foreign(byte) => {
                let byte = ByteText(*byte);
                write!(f, "{byte} is above 127, and a source is ASCII text")
            }
            Unread::NoToken { rest, token } => write_no_token(f, rest, token),
            Unread::NoInstruction(name) => {
                let name = text_of(name);
                write!(
                    f,
                    "`{name}` is not an instruction; a label needs a `:` after it"
                )
            }
            Unread::NoTree { token, expected } => {
                let found = Found(token);
                let expected = ExpectedText(*expected);
                write!(f, "expected {expected}, found {found}")
            }
        }
    }
}

/// Why a string literal is no token.
fn fault_of_literal(literal: &[u8]) -> &'static str {
    match literal {
        [_, .., b'"'] => {
            "the literal has a byte that is no visible character, or an escape other than \\n, \\t, \\\\ and \\\""
        }
        _ => "the literal does not end on its line",
    }
}

/// What a token is not that begins with this byte; None where no token does.
fn form_of_first(first: u8) -> Option<&'static str> {
    match first {
        b'0'..=b'9' | b'-' => Some("decimal integer of 64 bits"),
        b'.' => Some("word of the grammar or a name"),
        b'A'..=b'Z' | b'a'..=b'z' | b'_' => Some(
            "name: one `.` stands between two parts, and each begins with a letter or `_`",
        ),
        _ => None,
    }
}

/// Why no token begins with these bytes, the first of which is no quote.
fn write_no_word<W: fmt::Write>(f: &mut fmt::Formatter<W>, first: u8, token: &[u8]) -> fmt::Result {
    match form_of_first(first) {
        None => {
            let byte = ByteText(first);
            write!(f, "no token begins with {byte}")
        }
        Some(form) => {
            let token = text_of(token);
            write!(f, "`{token}` is not a {form}")
        }
    }
}

/// Why no token begins with these bytes.
fn write_no_token<W: fmt::Write>(
    f: &mut fmt::Formatter<W>,
    rest: &[u8],
    token: &[u8],
) -> fmt::Result {
    match rest {
        [] => f.write_str("no token begins here"),
        [b'/', b'*', ..] => f.write_str("the comment that begins here has no end"),
        [b'"', ..] => f.write_str(fault_of_literal(token)),
        [first, ..] => write_no_word(f, *first, token),
    }
}

/// The end of the last token, for an offset after it.
fn end_of_tokens(text: &[u8]) -> usize {
    let blanks = text
        .iter()
        .rev()
        .take_while(|byte| byte.is_ascii_whitespace())
        .count();
    text.len().saturating_sub(blanks)
}

/// What to write in place of bytes above 127, with which a file begins that is saved with a byte-order mark.
fn instead_of_mark(text: &[u8]) -> Option<Instead<'_>> {
    match text {
        [0xef, 0xbb, 0xbf, ..] | [0xfe, 0xff, ..] | [0xff, 0xfe, ..] => Some(Instead::Advice(
            "save the file as ASCII, without a byte-order mark",
        )),
        _ => None,
    }
}

/// The message of what is wrong at an offset, or of the whole source, without what to write instead.
fn sentence_of(
    alloc: Global,
    named: Named,
    offset: Option<usize>,
    unread: Unread,
) -> Result<String, NoMemory> {
    let sentence = unread.to_string(alloc)?;
    named.message(alloc, offset, sentence.as_str())
}

/// The message of what is wrong at an offset, or of the whole source; what to write instead is the last line.
fn message_of(
    alloc: Global,
    named: Named,
    offset: Option<usize>,
    unread: Unread,
    instead: Option<Instead>,
) -> Result<String, NoMemory> {
    let mut message = sentence_of(alloc, named, offset, unread)?;
    if let Some(instead) = instead {
        writeln!(message, "help: {instead}")?;
    }
    Ok(message)
}

/// Without the `:` of a label, it is the name before it that is at fault.
fn no_instruction(alloc: Global, named: Named, offset: usize) -> Result<String, NoMemory> {
    let name = token_before(named.text, offset).unwrap_or(offset);
    let instead = instead_at(Expected::LabelColon, spot_at(named.text, name));
    let unread = Unread::NoInstruction(token_at(named.text, name));
    message_of(alloc, named, Some(name), unread, instead)
}

/// Whether a member stands after the end of a class.
fn is_outside_of_class(expected: Expected, spot: Spot) -> bool {
    let is_after_brace = matches!(expected, Expected::Class | Expected::Declaration)
        && spot.before == "}";
    is_after_brace && matches!(spot.found, ".field" | ".method")
}

/// What to write of a member that stands right after the end of a class.
fn before_class_end(text: &[u8], offset: usize) -> Instead<'_> {
    let end = token_before(text, offset).unwrap_or(offset);
    Instead::InClass(position_of(text, end))
}

fn no_tree(
    alloc: Global,
    named: Named,
    offset: usize,
    expected: Expected,
) -> Result<String, NoMemory> {
    if let Expected::LabelColon = expected {
        return no_instruction(alloc, named, offset);
    }
    let token = token_at(named.text, offset);
    let shown = offset.min(end_of_tokens(named.text));
    let spot = spot_at(named.text, offset);
    let instead = if is_outside_of_class(expected, spot) {
        Some(before_class_end(named.text, offset))
    } else {
        instead_at(expected, spot)
    };
    let unread = Unread::NoTree { token, expected };
    message_of(alloc, named, Some(shown), unread, instead)
}

/// A byte above 127 stands at an offset.
fn not_ascii(alloc: Global, named: Named, offset: usize) -> Result<String, NoMemory> {
    let byte = named.text.get(offset).copied().unwrap_or(0);
    let instead = instead_of_mark(named.text);
    message_of(alloc, named, Some(offset), Unread::Foreign(byte), instead)
}

fn no_token(alloc: Global, named: Named, offset: usize) -> Result<String, NoMemory> {
    let rest = named.text.get(offset..).unwrap_or(&[]);
    let token = token_at(named.text, offset);
    let instead = match rest {
        [b'/', b'*', ..] => None,
        _ => instead_of_bytes(word_at(named.text, offset)),
    };
    let unread = Unread::NoToken { rest, token };
    message_of(alloc, named, Some(offset), unread, instead)
}

/// Why a source has no tree: the file is of another kind, or the error at its position. The last line says what to write instead, where that
/// is known by the token at fault and its position. Fails when out of memory alone, also where the tree was.
pub fn explain_reading(alloc: Global, named: Named, error: ReadError) -> Result<String, NoMemory> {
    match explain_source_kind(alloc, named)? {
        None => explain_error(alloc, named, error),
        Some(message) => Ok(message),
    }
}

fn explain_error(alloc: Global, named: Named, error: ReadError) -> Result<String, NoMemory> {
    match error {
        ReadError::TooLong => {
            let unread = Unread::TooLong(named.text.len());
            message_of(alloc, named, None, unread, None)
        }
        ReadError::NotAscii { offset } => not_ascii(alloc, named, offset),
        ReadError::NoToken { offset } => no_token(alloc, named, offset),
        ReadError::NoTree { offset, expected } => no_tree(alloc, named, offset, expected),
        ReadError::OutOfMemory => Err(NoMemory),
    }
}
