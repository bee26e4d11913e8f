//! Why limits are refused (number 401).

ghost use Rattle.std.specs.Prelude.{◌≡◌, IfOk, is_none};
ghost use Rattle.reading_explanations.specs.cil_model.Ranges.{are_in_range};

use reading_explanations::cil_model::limits::{
    LEAST_WORDS, Limits, MOST_BUDGET, MOST_DEPTH, MOST_WORDS,
};
use reading_explanations::cil_model::memory::NoMemory;
use std::alloc::Global;

/// Whether all limits are in their ranges.
fn are_in_range(limits: Limits) -> bool
    ensures { result ≡ are_in_range limits }
{
    (LEAST_WORDS..=MOST_WORDS).contains(&limits.words)
        && (limits.words..=MOST_WORDS).contains(&limits.max_words)
        && (1..=MOST_BUDGET).contains(&limits.budget)
        && (1..=MOST_DEPTH).contains(&limits.depth)
}

/// Adds a line for a limit that is out of its range.
fn add_limit(
    text: &mut String,
    name: &str,
    value: u32,
    least: u32,
    most: u32,
) -> Result<(), NoMemory> {
    if (least..=most).contains(&value) {
        return Ok(());
    }
    writeln!(text, "{name} is {value}, expected {least} to {most}")?;
    Ok(())
}

/// One line for each limit that is out of its range (number 401, this profile); None exactly where all are in range. The most words of a
/// space have a range only where the first space is not too large. Each line ends with a line feed.
pub fn explain_limits(alloc: Global, limits: Limits) -> Result<Option<String>, NoMemory>
    ensures { IfOk result (λ text. is_none text ≡ are_in_range limits) }
{
    if are_in_range(limits) {
        return Ok(None);
    }
    let Limits {
        words,
        max_words,
        budget,
        depth,
    } = limits;
    let mut text = String::new(alloc);
    add_limit(
        &mut text,
        "the number of words of a space",
        words,
        LEAST_WORDS,
        MOST_WORDS,
    )?;
    if words <= MOST_WORDS {
        add_limit(
            &mut text,
            "the largest number of words of a space",
            max_words,
            words,
            MOST_WORDS,
        )?;
    }
    add_limit(
        &mut text,
        "the number of steps of a thread",
        budget,
        1,
        MOST_BUDGET,
    )?;
    add_limit(
        &mut text,
        "the number of frames of a thread",
        depth,
        1,
        MOST_DEPTH,
    )?;
    Ok(Some(text))
}
