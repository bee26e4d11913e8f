//! What a file is that is given in place of another one.

use schedule_text::{ScheduleError, read_schedule};
use source_positions::Named;
use source_positions::cil_model::memory::NoMemory;
use std::alloc::Global;

/// A file that is not of the kind expected, and what to do.
#[derive(Clone, Copy)]
struct FileKind {
    sentence: &'static str,
    help: &'static str,
}

const PROGRAM: FileKind = FileKind {
    sentence: "this is a compiled program, not ilasm text",
    help: "disassemble it by `monodis`, and convert the listing by `tools/import`",
};

const CSHARP: FileKind = FileKind {
    sentence: "this is a source in C#, not ilasm text",
    help: "compile it, disassemble it by `monodis`, and convert the listing by `tools/import`",
};

const SCHEDULE: FileKind = FileKind {
    sentence: "this is a schedule, not a source",
    help: "write the file of the source first, and that of the schedule after it",
};

const SOURCE: FileKind = FileKind {
    sentence: "this is a source, not a schedule",
    help: "write the file of the source first, and that of the schedule after it",
};

const FILE_NAME: FileKind = FileKind {
    sentence: "this is the name of a file, not a schedule",
    help: "`--schedule` takes the text of a schedule; `cilvm replay` takes its file",
};

/// Whether a text is a schedule of some events.
fn is_schedule(alloc: Global, text: &[u8]) -> Result<bool, NoMemory> {
    match read_schedule(alloc, text) {
        Ok(items) => Ok(!items.is_empty()),
        Err(ScheduleError::OutOfMemory) => Err(NoMemory),
        Err(_) => Ok(false),
    }
}

/// The kind of a file that is read as a source and has no tree; None where nothing is known of it.
fn kind_of_source(alloc: Global, named: Named) -> Result<Option<FileKind>, NoMemory> {
    if named.text.starts_with(b"MZ") {
        return Ok(Some(PROGRAM));
    }
    if named.file.ends_with(".cs") {
        return Ok(Some(CSHARP));
    }
    if is_schedule(alloc, named.text)? {
        return Ok(Some(SCHEDULE));
    }
    Ok(None)
}

/// The kind of a file, or of an argument, that is no schedule; None where nothing is known of it.
fn kind_of_schedule(named: Named) -> Option<FileKind> {
    if named.file.ends_with(".il") || named.text.starts_with(b".assembly") {
        return Some(SOURCE);
    }
    match str::from_utf8(named.text) {
        Ok(text) if named.file == "--schedule" && (text.contains('.') || text.contains('/')) => {
            Some(FILE_NAME)
        }
        _ => None,
    }
}

fn message_of(
    alloc: Global,
    named: Named,
    kind: Option<FileKind>,
) -> Result<Option<String>, NoMemory> {
    let Some(FileKind { sentence, help }) = kind else {
        return Ok(None);
    };
    let mut message = named.message(alloc, None, sentence)?;
    writeln!(message, "help: {help}")?;
    Ok(Some(message))
}

/// Why a file that has no tree is no source, by its name and its first bytes. None where nothing is known of it.
pub(crate) fn explain_source_kind(alloc: Global, named: Named) -> Result<Option<String>, NoMemory> {
    let kind = kind_of_source(alloc, named)?;
    message_of(alloc, named, kind)
}

/// Why a text is no schedule, by its name and its first bytes. None where nothing is known of it.
pub(crate) fn explain_schedule_kind(
    alloc: Global,
    named: Named,
) -> Result<Option<String>, NoMemory> {
    message_of(alloc, named, kind_of_schedule(named))
}
