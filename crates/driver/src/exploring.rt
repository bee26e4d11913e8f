//! Explores all schedules of a source, and prints what it finds.

ghost use Rattle.std.specs.Prelude.{◌≡◌, IfErr, IfOk, option_map};
ghost use Rattle.std.specs.List.{list_all, list_any};
ghost use Rattle.std.specs.Str.{bytes_eq};
ghost use Rattle.source_runs.specs.acceptance.Sources.{IsNotRun};
ghost use Rattle.driver.specs.Explorations.{AreSaved, HasExplored, IsExploredInPart, first_other, is_other, status_of_exploration};
ghost use Rattle.outcome_search.specs.exploration.FoundOutcomes.{has_deadlock};
ghost use Rattle.driver.specs.Outcomes.{HasNotExplored};
ghost use Rattle.driver.specs.Outputs.{IsGivenUp, output_state};
ghost use Rattle.driver.specs.Records.{texts_of};

use crate::command_outputs::Outputs;
use crate::outcome_texts::text_of;
use crate::recording::{RecordFiles, replace_files};
use crate::showing::are_all_done;
use cil_model::limits::Limits;
use cil_model::memory::NoMemory;
use commands::{Extent, Goal};
use outcome_search::{Bounds, Exploration, FoundOutcome, explore};
use outcome_text::schedule_text;
use outputs::Out;
use run_files::RunFile;
use source_runs::Failure;
use std::alloc::Global;

/// Explores all schedules of a source, prints its outcomes, leaves the files of the first fault, deadlock or other output if that is asked for,
/// and returns the status. A failed write leaves what is kept as it was.
pub(crate) fn show_exploration<W: Out, E: Out>(
    alloc: Global,
    source: &[u8],
    limits: Limits,
    extent: Extent,
    is_saved: bool,
    explain: bool,
    outputs: &mut Outputs<W, E>,
) -> Result<u8, Failure>
    ensures done { IfOk result (HasExplored source.now limits extent is_saved explain
        (output_state W.taken E.taken outputs.old) (output_state W.taken E.taken outputs.new)) }
    ensures given_up { IfErr result (IsGivenUp (HasNotExplored source.now limits) (IsExploredInPart source.now limits extent explain)
        (output_state W.taken E.taken outputs.old) (output_state W.taken E.taken outputs.new)) }
{
    let exploration = explore(alloc, source, limits, bounds_of(extent))?;
    let text = text_of(alloc, source, limits, extent, explain, &exploration)?;
    let saved = saved_files(alloc, is_saved, source, limits, &exploration.found)?;
    outputs.out.write_whole(text.as_bytes())?;
    replace_files(saved, &mut outputs.files);
    Ok(status_of(exploration.is_complete, &exploration.found))
}

/// The files of the outcome that is to be saved: its schedule, and the `.run` file of its run, as of one worker. None if that is not asked
/// for, or all outcomes are alike.
fn saved_files(
    alloc: Global,
    is_saved: bool,
    source: &[u8],
    limits: Limits,
    found: &[FoundOutcome],
) -> Result<Option<RecordFiles>, NoMemory>
    ensures { IfOk result (λ files. AreSaved is_saved source.now limits found.now (texts_of files)) }
{
    if !is_saved {
        return Ok(None);
    }
    let Some(other) = first_other(found) else {
        return Ok(None);
    };
    let schedule = schedule_text(alloc, &other.events)?;
    let file = RunFile::of(source, limits, 1, &other.printed);
    let run = run_files::write(alloc, &file)?;
    Ok(Some(RecordFiles { schedule, run }))
}

/// The first outcome in which a thread is blocked or ended early, or whose printed bytes are not those of the first outcome. None if there is none.
fn first_other(found: &[FoundOutcome]) -> Option<&FoundOutcome>
    ensures { option_map (λ other. other.now) result ≡ first_other found.now }
{
    let first = found.first()?;
    for index in 0..found.len() {
        if is_other(&first.printed, &found[index]) {
            return Some(&found[index]);
        }
    }
    None
}

/// Whether a thread of an outcome is blocked or ended early, or its printed bytes are not these.
fn is_other(printed: &[u8], found: &FoundOutcome) -> bool
    ensures { result ≡ is_other printed.now found.now }
{
    !are_all_done(&found.ends) || *printed != *found.printed.as_slice()
}

/// The bounds of a search, by what the command says.
fn bounds_of(extent: Extent) -> Bounds {
    Bounds {
        states: extent.states as usize,
        preemptions: extent.preemptions.map(|most| most as usize),
        until: extent.until.map(goal_of),
    }
}

/// The outcome at which a search stops, by what the command says.
fn goal_of(goal: Goal) -> outcome_search::Goal {
    match goal {
        Goal::Fault => outcome_search::Goal::Fault,
        Goal::Deadlock => outcome_search::Goal::Deadlock,
        Goal::Output => outcome_search::Goal::Output,
    }
}

/// The status of an exploration.
fn status_of(is_complete: bool, found: &[FoundOutcome]) -> u8
    ensures { result ≡ status_of_exploration is_complete found.now }
{
    if has_deadlock(found) {
        4
    } else if first_other(found).is_some() {
        3
    } else if is_complete {
        0
    } else {
        6
    }
}

/// Whether a thread is blocked in some outcome.
fn has_deadlock(found: &[FoundOutcome]) -> bool
    ensures { result ≡ list_any has_deadlock found.now }
{
    found.iter().any(|found| found.has_deadlock())
}
