//! The check that lists of events lead to every reachable state, and that no outcome is missing.

ghost use Rattle.std.specs.Prelude.{Contains, ◌≡◌, ◌≢◌, ◌<◌, ◌+◌, ◌*◌, ℕ, Bool, IfOk, IfSome, IsSome, List, OnOk, Some, false, length, map, slice_get, slice_set, true};
ghost use Rattle.interleaving_core.specs.simulation.cil_model.Legality.{IsLegal};
ghost use Rattle.interleaving_core.specs.simulation.cil_model.declared.events.Event.{Event as AnyEvent};
ghost use Rattle.interleaving_core.specs.simulation.cil_model.declared.limits.TheConstants.{MOST_THREADS};
ghost use Rattle.interleaving_core.specs.simulation.cil_model.declared.reports.End.TheVariants.{Budget};
ghost use Rattle.interleaving_core.specs.simulation.cil_model.declared.reports.Report.TheVariants.{Blocked, Ended};
ghost use Rattle.interleaving_core.specs.simulation.reference_machine.Runs.{is_refusal};
ghost use Rattle.exploration.specs.Paths.{AreFirstChecked, IsNotTerminalAt, IsTerminalAt, CanStepAt, IsComplete, IsReal, CannotStepAt, AreStepsChecked, ShowsOneOf, events_of, outcome_found};
ghost use Rattle.exploration.specs.CheckedSteps.{AreAllChecked, AreEntries, IsLedToBy, IsStepInto};
ghost use Rattle.exploration.specs.Searches.{IsClosed, IsCovered, IsLedTo};
ghost use Rattle.exploration.specs.TerminalOutcomes.{ShowOnly, outcome_shown};
ghost use Rattle.exploration.specs.declared.found_outcomes.FoundOutcome.{FoundOutcome as AnyFoundOutcome};

use crate::found_outcomes::{FoundOutcome, Path, PathStep};
use crate::replayers::{First, Replayer};
use cil_model::events::Event;
use cil_model::limits::MOST_THREADS;
use cil_model::memory::NoMemory;
use cil_model::reports::{End, Fault, Report};
use std::alloc::Global;

/// The number of the first thread of a program.
pub const FIRST_THREAD: u8 = 0;

/// Whether a report says neither that a thread used up its budget nor that it was refused memory. True only if so.
pub fn is_ordinary(report: Report) -> bool
    ensures { result ≡ true → (report ≢ Ended Budget) × (is_refusal report ≡ false) }
{
    match report {
        Report::Ended(End::Budget) | Report::Ended(End::Fault(Fault::OutOfMemory)) => false,
        _ => true,
    }
}

/// Whether a report says that a step was made, and not blocked. True only if so.
fn is_made(report: Report) -> bool
    ensures { result ≡ true → report ≢ Blocked }
{
    match report {
        Report::Blocked => false,
        _ => true,
    }
}

/// Whether a thread can make a step after a list of events. None unless the thread is live and its step, followed by local instructions, leads to the state of the other machine.
fn check_step<M: First>(
    replayer: &mut Replayer<M>,
    other: &Replayer<M>,
    alloc: Global,
    events: &[Event],
    thread: u8,
) -> Result<Option<bool>, NoMemory>
    requires { IsLegal M.first.tree }
    ensures { IfOk result (λ step. (can : Bool) → step ≡ Some can → IsStepInto M.first events.now thread other.now can) }
{
    replayer.replay(alloc, events)?;
    let _started = replayer.started();
    if !replayer.is_live(thread) {
        return Ok(None);
    }
    let report = replayer.step(alloc, thread)?;
    if !is_ordinary(report) {
        return Ok(None);
    }
    replayer.run_local(alloc, thread)?;
    let count = replayer.started();
    replayer.run_local(alloc, count.saturating_sub(1) as u8)?;
    let is_known = replayer.is_like(other);
    if !is_known {
        return Ok(None);
    }
    Ok(Some(is_made(report)))
}

/// Notes that a step is checked, and whether its thread can make it. Nothing changes if there is no such entry.
fn note(entries: &mut Vec<Option<bool>>, step: PathStep, can_step: bool)
    ensures { entries.new.items ≡ slice_set entries.old.items (step.path * MOST_THREADS + step.thread) (Some can_step) }
{
    let index = step.path as usize * MOST_THREADS + usize::from(step.thread);
    if index < entries.len() {
        entries[index] = Some(can_step);
    }
}

/// Checks a step, and notes it if it leads to the state of the other machine. That is the state after the events of the path at `path_index`.
fn note_step<M: First>(
    replayer: &mut Replayer<M>,
    other: &Replayer<M>,
    alloc: Global,
    paths: &[Path],
    path_index: u32,
    step: PathStep,
    entries: &mut Vec<Option<bool>>,
) -> Result<(), NoMemory>
    requires legal { IsLegal M.first.tree }
    requires there { IsLedToBy M.first (map events_of paths.now) path_index other.now }
    requires entries { AreEntries M.first (map events_of paths.now) entries.old.items }
    ensures { OnOk result (AreEntries M.first (map events_of paths.now) entries.new.items) }
{
    let Some(path) = paths.get(step.path as usize) else {
        return Ok(());
    };
    if usize::from(step.thread) >= MOST_THREADS {
        return Ok(());
    }
    let checked = check_step(replayer, other, alloc, path.events.as_slice(), step.thread)?;
    let Some(can_step) = checked else {
        return Ok(());
    };
    note(entries, step, can_step);
    Ok(())
}

/// Notes that each thread that is not live can't make a step. The state of the machine is that after the events of the path at `path_index`.
fn note_ended<M: First>(
    other: &Replayer<M>,
    paths: &[Path],
    path_index: u32,
    entries: &mut Vec<Option<bool>>,
)
    requires there { IsLedToBy M.first (map events_of paths.now) path_index other.now }
    requires entries { AreEntries M.first (map events_of paths.now) entries.old.items }
    ensures { AreEntries M.first (map events_of paths.now) entries.new.items }
{
    let _started = other.started();
    for thread in 0..MOST_THREADS as u8 {
        if other.is_live(thread) {
            continue;
        }
        note(
            entries,
            PathStep {
                path: path_index,
                thread,
            },
            false,
        );
    }
}

/// Notes which steps lead to the state after the events of a path, and which threads have ended there.
fn note_path<M: First>(
    replayer: &mut Replayer<M>,
    other: &mut Replayer<M>,
    alloc: Global,
    paths: &[Path],
    path_index: u32,
    entries: &mut Vec<Option<bool>>,
) -> Result<(), NoMemory>
    requires legal { IsLegal M.first.tree }
    requires entries { AreEntries M.first (map events_of paths.now) entries.old.items }
    ensures { OnOk result (AreEntries M.first (map events_of paths.now) entries.new.items) }
{
    let Some(path) = paths.get(path_index as usize) else {
        return Ok(());
    };
    other.replay(alloc, path.events.as_slice())?;
    note_ended(other, paths, path_index, entries);
    for step in &path.incoming {
        note_step(replayer, other, alloc, paths, path_index, *step, entries)?;
    }
    Ok(())
}

/// Checks each step that leads to the state after the events of a path: for each path and each thread, by `path * MOST_THREADS + thread`, whether the thread can make a step. None if
/// the step was not checked.
fn check_steps<M: First>(
    replayer: &mut Replayer<M>,
    other: &mut Replayer<M>,
    alloc: Global,
    paths: &[Path],
    count: u32,
) -> Result<Vec<Option<bool>>, NoMemory>
    requires legal { IsLegal M.first.tree }
    ensures { IfOk result (λ entries. AreEntries M.first (map events_of paths.now) entries.items) }
{
    let mut entries = vec![in alloc; None; count as usize * MOST_THREADS]?;
    for path_index in 0..count {
        note_path(replayer, other, alloc, paths, path_index, &mut entries)?;
    }
    Ok(entries)
}

/// Whether some thread can make a step after the events of the path at `path_index`. None unless the step of each thread is checked.
fn can_any_step(entries: &[Option<bool>], path_index: u32) -> Option<bool>
    ensures all { IsSome result → AreAllChecked entries.now path_index }
    ensures some { result ≡ Some true → (t : ℕ) × (t < MOST_THREADS) × (slice_get entries.now (path_index * MOST_THREADS + t) ≡ Some (Some true)) }
{
    let first = path_index as usize * MOST_THREADS;
    let mut can_any = false;
    for thread in 0..MOST_THREADS {
        let Some(Some(can_step)) = entries.get(first + thread) else {
            return None;
        };
        can_any = can_any | *can_step;
    }
    Some(can_any)
}

/// Whether the machine shows one of the outcomes. True only if it does.
fn shows_one_of<M: First>(
    replayer: &Replayer<M>,
    alloc: Global,
    found: &[FoundOutcome],
) -> Result<bool, NoMemory>
    ensures { IfOk result (λ yes. yes ≡ true → Contains (map outcome_found found.now) (outcome_shown replayer.now)) }
{
    for index in 0..found.len() {
        let is_shown = replayer.shows(alloc, &found[index])?;
        if is_shown {
            return Ok(true);
        }
    }
    Ok(false)
}

/// Whether each step after the events of a path is checked, and the state after these events shows one of the outcomes if no thread can make a step. True only if so.
fn check_path<M: First>(
    replayer: &mut Replayer<M>,
    alloc: Global,
    paths: &[Path],
    found: &[FoundOutcome],
    path_index: u32,
    entries: &[Option<bool>],
) -> Result<bool, NoMemory>
    requires legal { IsLegal M.first.tree }
    requires entries { AreEntries M.first (map events_of paths.now) entries.now }
    ensures closed { IfOk result (λ known. known ≡ true → (events : List AnyEvent) → slice_get (map events_of paths.now) path_index ≡ Some events → AreStepsChecked M.first (map events_of paths.now) events) }
    ensures shown { IfOk result (λ known. known ≡ true → (events : List AnyEvent) → slice_get (map events_of paths.now) path_index ≡ Some events → ShowsOneOf M.first (map outcome_found found.now) events) }
{
    let Some(path) = paths.get(path_index as usize) else {
        return Ok(false);
    };
    let Some(can_step) = can_any_step(entries, path_index) else {
        return Ok(false);
    };
    if can_step {
        return Ok(true);
    }
    replayer.replay(alloc, path.events.as_slice())?;
    shows_one_of(replayer, alloc, found)
}

/// Whether each of the first `count` paths passes `check_path`. True only if so.
fn check_each<M: First>(
    replayer: &mut Replayer<M>,
    alloc: Global,
    paths: &[Path],
    found: &[FoundOutcome],
    count: u32,
    entries: &[Option<bool>],
) -> Result<bool, NoMemory>
    requires legal { IsLegal M.first.tree }
    requires entries { AreEntries M.first (map events_of paths.now) entries.now }
    ensures { IfOk result (λ known. known ≡ true → AreFirstChecked M.first (map events_of paths.now) (map outcome_found found.now) count) }
{
    for path_index in 0..count {
        let is_checked = check_path(replayer, alloc, paths, found, path_index, entries)?;
        if !is_checked {
            return Ok(false);
        }
    }
    Ok(true)
}

/// The number of paths. None if the index of a path may not fit in 32 bits.
fn count_of(paths: &[Path]) -> Option<u32>
    ensures { IfSome result (λ count. count ≡ length paths.now) }
{
    match u32::try_from(paths.len()) {
        Ok(count) => Some(count),
        Err(_) => None,
    }
}

/// Whether no step leads out of the set of states to which the paths lead, and each of these states in which no thread can make a step shows one of the outcomes. True only if so. It
/// fails only if memory runs out.
fn check_paths<M: First>(
    replayer: &mut Replayer<M>,
    other: &mut Replayer<M>,
    alloc: Global,
    paths: &[Path],
    found: &[FoundOutcome],
) -> Result<bool, NoMemory>
    requires { IsLegal M.first.tree }
    ensures closed { IfOk result (λ known. known ≡ true → IsClosed (IsLedTo M.first (map events_of paths.now))) }
    ensures only { IfOk result (λ known. known ≡ true → ShowOnly (IsLedTo M.first (map events_of paths.now)) (map outcome_found found.now)) }
{
    let Some(count) = count_of(paths) else {
        return Ok(false);
    };
    let entries = check_steps(replayer, other, alloc, paths, count)?;
    let are_checked = check_each(replayer, alloc, paths, found, count, &entries)?;
    Ok(are_checked)
}

/// Whether local instructions of the first thread lead from the initial state to the state of the first path. True only if so.
fn covers_start<M: First>(
    replayer: &mut Replayer<M>,
    other: &mut Replayer<M>,
    alloc: Global,
    paths: &[Path],
) -> Result<bool, NoMemory>
    requires { IsLegal M.first.tree }
    ensures { IfOk result (λ known. known ≡ true → IsCovered (IsLedTo M.first (map events_of paths.now)) M.first) }
{
    let Some(path) = paths.get(0) else {
        return Ok(false);
    };
    replayer.replay(alloc, &[])?;
    replayer.run_local(alloc, FIRST_THREAD)?;
    other.replay(alloc, path.events.as_slice())?;
    let is_covered = replayer.is_like(other);
    Ok(is_covered)
}

/// Whether a thread can make a step after a list of events: it is live, and its next step is not blocked.
fn can_step<M: First>(
    replayer: &mut Replayer<M>,
    alloc: Global,
    events: &[Event],
    thread: u8,
) -> Result<bool, NoMemory>
    requires { IsLegal M.first.tree }
    ensures yes { IfOk result (λ can. can ≡ true → CanStepAt M.first events.now thread) }
    ensures no { IfOk result (λ can. can ≡ false → CannotStepAt M.first events.now thread) }
{
    replayer.replay(alloc, events)?;
    if !replayer.is_live(thread) {
        return Ok(false);
    }
    let report = replayer.step(alloc, thread)?;
    match report {
        Report::Blocked => Ok(false),
        _ => Ok(true),
    }
}

/// Whether no thread can make a step after a list of events.
pub(crate) fn is_terminal<M: First>(
    replayer: &mut Replayer<M>,
    alloc: Global,
    events: &[Event],
) -> Result<bool, NoMemory>
    requires { IsLegal M.first.tree }
    ensures yes { IfOk result (λ over. over ≡ true → IsTerminalAt M.first events.now) }
    ensures no { IfOk result (λ over. over ≡ false → IsNotTerminalAt M.first events.now) }
{
    replayer.replay(alloc, events)?;
    let count = replayer.started();
    for thread in 0..count {
        let can_step = can_step(replayer, alloc, events, thread as u8)?;
        if can_step {
            return Ok(false);
        }
    }
    Ok(true)
}

/// Whether the paths lead to every reachable state, up to local instructions, and the outcomes are complete. True only if so. It fails only if memory runs out.
pub fn is_complete<M: First>(
    replayer: &mut Replayer<M>,
    other: &mut Replayer<M>,
    alloc: Global,
    paths: &[Path],
    found: &[FoundOutcome],
) -> Result<bool, NoMemory>
    requires { IsLegal M.first.tree }
    ensures { IfOk result (λ known. known ≡ true → IsComplete M.first (map events_of paths.now) (map outcome_found found.now)) }
{
    let is_covered = covers_start(replayer, other, alloc, paths)?;
    if !is_covered {
        return Ok(false);
    }
    check_paths(replayer, other, alloc, paths, found)
}

/// Whether the events of an outcome lead to a state that shows it and in which no thread can make a step. True only if so.
fn is_real<M: First>(
    replayer: &mut Replayer<M>,
    alloc: Global,
    found: &FoundOutcome,
) -> Result<bool, NoMemory>
    requires { IsLegal M.first.tree }
    ensures { IfOk result (λ known. known ≡ true → IsReal M.first found.now) }
{
    let events = found.events.as_slice();
    let is_over = is_terminal(replayer, alloc, events)?;
    if !is_over {
        return Ok(false);
    }
    replayer.replay(alloc, events)?;
    replayer.shows(alloc, found)
}

/// Whether the events of each outcome lead to a state that shows it and in which no thread can make a step. True only if so. It fails only if memory runs out.
pub fn are_real<M: First>(
    replayer: &mut Replayer<M>,
    alloc: Global,
    found: &[FoundOutcome],
) -> Result<bool, NoMemory>
    requires { IsLegal M.first.tree }
    ensures { IfOk result (λ known. known ≡ true → (n : ℕ) (f : AnyFoundOutcome) → slice_get found.now n ≡ Some f → IsReal M.first f) }
{
    for index in 0..found.len() {
        if !is_real(replayer, alloc, &found[index])? {
            return Ok(false);
        }
    }
    Ok(true)
}
