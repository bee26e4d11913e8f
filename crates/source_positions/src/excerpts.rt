//! A line of a text with carets below a part of it.

use crate::lines::TextLine;
use cil_model::memory::NoMemory;

/// The most columns of a line that are shown.
const MOST_COLUMNS: usize = 120;

/// How many of them stand before the part, where the line is longer.
const COLUMNS_BEFORE: usize = 60;

/// What stands where a line is cut.
const CUT: &str = "...";

/// The columns of a line that are shown, from 0: those from the first on, without the last.
#[derive(Clone, Copy)]
struct Window {
    from: usize,
    until: usize,
}

impl Window {
    /// The columns that are shown of a line of this length, round one of them.
    fn round(column: usize, length: usize) -> Window {
        let most_before = length.saturating_sub(MOST_COLUMNS);
        let from = column.saturating_sub(COLUMNS_BEFORE).min(most_before);
        let until = from.saturating_add(MOST_COLUMNS).min(length);
        Window { from, until }
    }
}

/// How a byte is shown: a tab as it is, and what has no shape as a question mark. A carriage return is a blank.
fn shown_byte(byte: u8) -> char {
    match byte {
        b'\t' => '\t',
        b'\r' => ' ',
        b' '..=b'~' => char::from(byte),
        _ => '?',
    }
}

/// What stands in the line of carets below a byte: a tab below a tab, so that both lines align.
fn below_byte(byte: u8) -> char {
    if byte == b'\t' { '\t' } else { ' ' }
}

fn push_times(text: &mut String, character: char, times: usize) -> Result<(), NoMemory> {
    for _ in 0..times {
        text.push(character)?;
    }
    Ok(())
}

/// Adds the margin of a line, and returns how wide it is.
fn push_number(text: &mut String, number: usize) -> Result<usize, NoMemory> {
    let before = text.len();
    write!(text, "  {number} | ")?;
    Ok(text.len().saturating_sub(before))
}

fn push_line(text: &mut String, line: &[u8], window: Window) -> Result<(), NoMemory> {
    if window.from > 0 {
        text.push_str(CUT)?;
    }
    for byte in line.get(window.from..window.until).unwrap_or(line) {
        text.push(shown_byte(*byte))?;
    }
    if window.until < line.len() {
        text.push_str(CUT)?;
    }
    Ok(())
}

/// Blanks up to a column, and the carets from there on.
fn push_carets(
    text: &mut String,
    line: &[u8],
    window: Window,
    column: usize,
    length: usize,
) -> Result<(), NoMemory> {
    if window.from > 0 {
        push_times(text, ' ', CUT.len())?;
    }
    for byte in line.get(window.from..column).unwrap_or(&[]) {
        text.push(below_byte(*byte))?;
    }
    let most = window.until.saturating_sub(column).max(1);
    push_times(text, '^', length.clamp(1, most))
}

/// Adds the line of a text in which an offset stands, with its number before it, and below it `length` carets from the offset
/// on, but one at least and none beyond the line. Each of the two lines ends with a line feed. A longer line is cut to 120 columns round
/// the offset, with dots where it is cut; tabs stay tabs in both lines, and bytes that are no visible characters are shown as `?`. Fails
/// only when out of memory.
pub(crate) fn push_excerpt(
    shown: &mut String,
    line: TextLine,
    offset: usize,
    length: usize,
) -> Result<(), NoMemory> {
    let column = offset.saturating_sub(line.start).min(line.bytes.len());
    let window = Window::round(column, line.bytes.len());
    let width = push_number(shown, line.number)?;
    push_line(shown, line.bytes, window)?;
    write!(shown, "\n{:>width$}", "| ")?;
    push_carets(shown, line.bytes, window, column, length)?;
    shown.push('\n')?;
    Ok(())
}
