//! What is reported of a file that is not read or not written.
ghost use Rattle.std.specs.Prelude.{◌≡◌, IfOk, codes, string_bytes};
ghost use Rattle.command_line.specs.UnreadFiles.{IsLineOf, IsReportedOf, malformed_line, shown_character, shown_name};

use std::alloc::{AllocError, Global};
use std::io;
use std::io::ErrorKind;

/// A file that a command names and that is not read.
#[derive(Clone, Copy)]
pub struct Unread<'a> {
    /// The file's name, as the command line has it.
    pub file: &'a str,
    /// Why it is not opened, or not read.
    pub error: io::Error,
}

/// A file that a command names for its record and that is not written.
#[derive(Clone, Copy)]
pub struct Unwritten<'a> {
    /// The file's name, as the command line has it.
    pub file: &'a str,
    /// Why it is not made, or not written.
    pub error: io::Error,
}

/// A file that is not a `.run` file of this version.
#[derive(Clone, Copy)]
pub struct Malformed<'a> {
    /// The file's name.
    pub file: &'a str,
}

impl Malformed<'_> {
    /// What follows the line `error 505` on the standard error: a line that names the file, with `?` in place of each control character of
    /// its name. Fails only if memory runs out.
    pub fn error_text(&self, alloc: Global) -> Result<String, AllocError>
        ensures { IfOk result (λ text. string_bytes text ≡ malformed_line self.now.file.now) }
    {
        let name = shown_name(alloc, self.file)?;
        format!(in alloc;
            "cilvm: {name} is not a .run file of this version; without it the record is replayed as any other schedule\n"
        )
    }
}

impl Unread<'_> {
    /// What follows the line `device` on the standard error: the line `cilvm: cannot read FILE: WHY`, with `?` in place of each
    /// control character of the file's name. It is empty where memory ran out, since that is printed as `memory` alone. The only error is
    /// out of memory.
    pub fn error_text(&self, alloc: Global) -> Result<String, AllocError>
        ensures { IfOk result (λ text. IsReportedOf (codes "read") self.now.file.now self.now.error (string_bytes text)) }
    {
        reported_of(alloc, "read", self.file, self.error)
    }
}

impl Unwritten<'_> {
    /// What follows the line `device` on the standard error: the line `cilvm: cannot write FILE: WHY`, as that of `Unread`. It is empty
    /// where memory ran out. The only error is out of memory.
    pub fn error_text(&self, alloc: Global) -> Result<String, AllocError>
        ensures { IfOk result (λ text. IsReportedOf (codes "write") self.now.file.now self.now.error (string_bytes text)) }
    {
        reported_of(alloc, "write", self.file, self.error)
    }
}

/// What is reported of a file for which this could not be done.
fn reported_of(
    alloc: Global,
    what: &str,
    file: &str,
    error: io::Error,
) -> Result<String, AllocError>
    ensures { IfOk result (λ text. IsReportedOf what.now file.now error (string_bytes text)) }
{
    if error.kind() == ErrorKind::OutOfMemory {
        return Ok(String::new(alloc));
    }
    line_of(alloc, what, file, error)
}

fn line_of(alloc: Global, what: &str, file: &str, error: io::Error) -> Result<String, AllocError>
    ensures { IfOk result (λ line. IsLineOf what.now file.now (string_bytes line)) }
{
    let name = shown_name(alloc, file)?;
    let why = error.to_string(alloc)?;
    format!(in alloc; "cilvm: cannot {what} {name}: {why}\n")
}

/// A name as it may be written in a line of text, whatever a terminal takes its characters for.
fn shown_name(alloc: Global, name: &str) -> Result<String, AllocError>
    ensures { IfOk result (λ shown. string_bytes shown ≡ shown_name name.now) }
{
    let mut shown = String::new(alloc);
    for character in name.chars() {
        shown.push(shown_character(character))?;
    }
    Ok(shown)
}

fn shown_character(character: char) -> char
    ensures { result ≡ shown_character character }
{
    if character.is_control() {
        '?'
    } else {
        character
    }
}
