//! The text of an exploration.

ghost use Rattle.std.specs.Prelude.{◌≡◌, List, ℕ, IfErr, IfOk, OnOk, length, string_bytes};
ghost use Rattle.driver.specs.Explorations.{IsExplorationText, IsNotPictured, IsOutcomeText, IsPictureText, IsShownBelow, cause_of, coverage_of, summary_of};

use crate::outcome_pictures::picture_of;
use cil_model::limits::Limits;
use commands::Extent;
use outcome_search::{Exploration, FoundOutcome, Goal, Stop};
use outcome_text::{Cause, Coverage, Summary, add_outcome, add_schedule};
use source_runs::Failure;
use std::alloc::Global;

/// The lines of all outcomes, each with a picture of its schedule if that is asked for, and the line that says how much was explored.
pub(crate) fn text_of(
    alloc: Global,
    source: &[u8],
    limits: Limits,
    extent: Extent,
    explain: bool,
    exploration: &Exploration,
) -> Result<String, Failure>
    ensures text { IfOk result (λ text. IsExplorationText extent explain exploration.now (string_bytes text)) }
    ensures failed { IfErr result (IsNotPictured source.now limits) }
{
    let mut text = outcomes_text(alloc, source, limits, explain, &exploration.found)?;
    let summary = summary_of(extent, exploration);
    write!(text, "{summary}")?;
    Ok(text)
}

/// The lines of all outcomes.
fn outcomes_text(
    alloc: Global,
    source: &[u8],
    limits: Limits,
    explain: bool,
    found: &[FoundOutcome],
) -> Result<String, Failure>
    ensures text { IfOk result (λ text. IsShownBelow explain found.now (length found.now) (string_bytes text)) }
    ensures failed { IfErr result (IsNotPictured source.now limits) }
{
    let mut text = String::new(alloc);
    for index in 0..found.len() {
        let number = index + 1;
        let part = outcome_text(alloc, source, limits, explain, number, &found[index])?;
        text.push_str(part.as_str())?;
    }
    Ok(text)
}

/// The lines of an outcome.
fn outcome_text(
    alloc: Global,
    source: &[u8],
    limits: Limits,
    explain: bool,
    number: usize,
    found: &FoundOutcome,
) -> Result<String, Failure>
    ensures text { IfOk result (λ text. IsOutcomeText explain number found.now (string_bytes text)) }
    ensures failed { IfErr result (IsNotPictured source.now limits) }
{
    let mut text = String::new(alloc);
    add_outcome(&mut text, number, &found.ends, &found.printed)?;
    add_schedule(alloc, &mut text, found.preemptions, &found.events)?;
    let picture = asked_picture(alloc, source, limits, explain, found)?;
    text.push_str(picture.as_str())?;
    Ok(text)
}

/// A picture of the schedule of an outcome; empty if that is not asked for.
fn asked_picture(
    alloc: Global,
    source: &[u8],
    limits: Limits,
    explain: bool,
    found: &FoundOutcome,
) -> Result<String, Failure>
    ensures text { IfOk result (λ text. IsPictureText explain (string_bytes text)) }
    ensures failed { IfErr result (IsNotPictured source.now limits) }
{
    if explain {
        picture_of(alloc, source, limits, &found.events)
    } else {
        Ok(String::new(alloc))
    }
}

/// How much was explored.
fn summary_of(extent: Extent, exploration: &Exploration) -> Summary
    ensures { result ≡ summary_of extent exploration.now }
{
    Summary {
        outcomes: exploration.found.len(),
        states: exploration.states,
        coverage: coverage_of(extent, exploration.is_complete, exploration.stop),
    }
}

/// Which schedules are covered: all of them only if the check has confirmed that no outcome is missing.
fn coverage_of(extent: Extent, is_complete: bool, stop: Option<Stop>) -> Coverage
    ensures { result ≡ coverage_of extent is_complete stop }
{
    match stop {
        None if is_complete => Coverage::AllSchedules,
        None => Coverage::Stopped(Cause::Unconfirmed),
        Some(Stop::Preemptions) => {
            Coverage::FewPreemptions(extent.preemptions.unwrap_or(0) as usize)
        }
        Some(Stop::States) => Coverage::Stopped(Cause::States),
        Some(Stop::Budget(thread)) => Coverage::Stopped(Cause::Budget(thread)),
        Some(Stop::Refusal(thread)) => Coverage::Stopped(Cause::Memory(thread)),
        Some(Stop::Goal(goal)) => Coverage::Stopped(cause_of(goal)),
    }
}

/// Why an exploration stopped that has reached its goal.
fn cause_of(goal: Goal) -> Cause
    ensures { result ≡ cause_of goal }
{
    match goal {
        Goal::Fault => Cause::Fault,
        Goal::Deadlock => Cause::Deadlock,
        Goal::Output => Cause::Output,
    }
}
