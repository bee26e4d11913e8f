//! Sources that are cut, changed or too long: each is refused by the number that is meant for it.

use source_runs::{Failure, accept};
use std::alloc::{AllocError, Global};
use std::fs;

/// The most bytes that a source may have.
const MOST_BYTES: usize = 1_048_576;

/// A byte that no source may have.
const FOREIGN: u8 = 200;

/// How many sources were tried, and how many of them were not refused as expected.
#[derive(Clone, Copy)]
struct Count {
    sources: usize,
    differing: usize,
}

impl Count {
    /// Counts one more source.
    fn add(&mut self, is_as_expected: bool) {
        self.sources = self.sources.saturating_add(1);
        if !is_as_expected {
            self.differing = self.differing.saturating_add(1);
        }
    }
}

/// Tries the sum's source cut after each byte before its last brace, the same with each byte replaced by a foreign one, and two sources of
/// brackets alone. Prints how many sources these are, and returns how many are not refused as expected.
pub fn try_hostile_sources(rt: &HostRuntime) -> Result<usize, Failure> {
    let text = fs::read_to_string(rt, "machine/sum.il")?;
    let mut count = Count {
        sources: 0,
        differing: 0,
    };
    try_cuts(rt.alloc(), text.as_str(), &mut count)?;
    try_foreign_bytes(rt.alloc(), text.as_bytes(), &mut count)?;
    try_brackets(rt.alloc(), &mut count)?;
    let Count { sources, differing } = count;
    println!(rt; "hostile sources: {sources} sources, {differing} differ")?;
    Ok(differing)
}

/// The number by which a source is refused. None where it is accepted.
fn refusal(alloc: Global, source: &[u8]) -> Result<Option<u16>, Failure> {
    match accept(alloc, source) {
        Ok(_) => Ok(None),
        Err(Failure::Refused(number)) => Ok(Some(number)),
        Err(failure) => Err(failure),
    }
}

/// Cuts a source after each byte before its last brace: it has no entry point where just its first line is left, and otherwise no tree.
fn try_cuts(alloc: Global, text: &str, count: &mut Count) -> Result<(), Failure> {
    let Some((body, _)) = text.rsplit_once('}') else {
        count.add(false);
        return Ok(());
    };
    let line = text.split_once('\n').map_or(0, |(first, _)| first.len());
    let bytes = body.as_bytes();
    for length in 1..=bytes.len() {
        let number = refusal(alloc, &bytes[..length])?;
        let has_first_line_alone = length == line || length == line.saturating_add(1);
        count.add(if has_first_line_alone {
            number == Some(206)
        } else {
            number == Some(102) || number == Some(103)
        });
    }
    Ok(())
}

/// Replaces each byte of a source by one that no source may have.
fn try_foreign_bytes(alloc: Global, source: &[u8], count: &mut Count) -> Result<(), Failure> {
    for index in 0..source.len() {
        let changed = with_foreign_byte(alloc, source, index)?;
        count.add(refusal(alloc, changed.as_slice())? == Some(101));
    }
    Ok(())
}

/// A source with a foreign byte at an index.
fn with_foreign_byte(alloc: Global, source: &[u8], index: usize) -> Result<Vec<u8>, AllocError> {
    let mut changed = Vec::new(alloc);
    for (at, byte) in source.iter().enumerate() {
        changed.push(if at == index { FOREIGN } else { *byte })?;
    }
    Ok(changed)
}

/// Tries a source of brackets alone that has the most bytes that a source may have, and one with one byte more.
fn try_brackets(alloc: Global, count: &mut Count) -> Result<(), Failure> {
    let long = vec![in alloc; b'('; MOST_BYTES]?;
    let longer = vec![in alloc; b'('; MOST_BYTES + 1]?;
    count.add(refusal(alloc, long.as_slice())? == Some(103));
    count.add(refusal(alloc, longer.as_slice())? == Some(104));
    Ok(())
}
