//! Lines and columns of a text.

ghost use Rattle.std.specs.Prelude.{◌≡◌, ◌≤◌, ◌<◌, ◌+◌, ◌-◌, ◌^◌, length, take};
ghost use Rattle.std.specs.List.{suffix_len};
ghost use Rattle.source_lines.specs.Lines.{line_of_byte};
ghost use Rattle.source_positions.specs.Positions.{column_of_byte, is_in_line};

use source_lines::line_of_byte;

/// A position in a text as a person counts it, line and column from 1. Each byte is one column, a tab too.
#[derive(Clone, Copy)]
pub struct Position {
    pub line: usize,
    pub column: usize,
}

/// A line of a text.
#[derive(Clone, Copy)]
pub(crate) struct TextLine<'t> {
    /// Its number, from 1.
    pub number: usize,
    /// The offset of its first byte.
    pub start: usize,
    /// Its bytes, without the line feed.
    pub bytes: &'t [u8],
}

/// The bytes before the first line feed; all, where there is none.
fn first_line(text: &[u8]) -> &[u8] {
    for (length, byte) in text.iter().enumerate() {
        if *byte == b'\n' {
            return text.get(..length).unwrap_or(text);
        }
    }
    text
}

/// The offset of the first byte of the line in which an offset stands.
pub(crate) fn line_start(text: &[u8], offset: usize) -> usize
    ensures { let before = take offset text.now in result + suffix_len is_in_line before ≡ length before }
{
    let mut start = offset.min(text.len());
    while start > 0 && text[start - 1] != b'\n' {
        start -= 1;
    }
    start
}

/// The line in which the byte at an offset stands; for an offset after the end it is the last line.
pub(crate) fn line_at(text: &[u8], offset: usize) -> TextLine<'_>
    ensures number { result.number ≡ line_of_byte text.now offset }
    ensures start { let before = take offset text.now in result.start + suffix_len is_in_line before ≡ length before }
{
    let start = line_start(text, offset);
    TextLine {
        number: line_of_byte(text, offset),
        start,
        bytes: first_line(text.get(start..).unwrap_or(&[])),
    }
}

impl TextLine<'_> {
    /// The position of an offset in it.
    pub fn position_of(self, offset: usize) -> Position
        ensures line { result.line ≡ self.entry.number }
        ensures column { offset + 1 < 2 ^ 64 → result.column ≡ (offset - self.entry.start) + 1 }
    {
        Position {
            line: self.number,
            column: offset.saturating_sub(self.start).saturating_add(1),
        }
    }
}

/// The line and the column of the byte at an offset of a text, which is counted in bytes from 0. After the end of the text, the last line.
pub fn position_of(text: &[u8], offset: usize) -> Position
    ensures line { result.line ≡ line_of_byte text.now offset }
    ensures column { offset ≤ length text.now → result.column ≡ column_of_byte text.now offset }
{
    line_at(text, offset).position_of(offset)
}
