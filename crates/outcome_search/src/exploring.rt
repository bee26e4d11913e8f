//! Finds every outcome of a source over all schedules.

ghost use Rattle.std.specs.Prelude.{◌≡◌, IfErr, IfOk, Some, ℕ, map, slice_get, true};
ghost use Rattle.acceptance.specs.Sources.{HasAcceptedTree, IsNotRun};
ghost use Rattle.exploration.specs.simulation.cil_model.Legality.{IsLegal};
ghost use Rattle.exploration.specs.InitialStates.{HasInitialState};
ghost use Rattle.exploration.specs.Paths.{IsReal, outcome_found};
ghost use Rattle.exploration.specs.declared.found_outcomes.FoundOutcome.{FoundOutcome as AnyFoundOutcome};
ghost use Rattle.outcome_search.specs.Explorations.{HasAllOutcomes, IsFoundIn, IsOutcomeList};

use crate::bounds::{Bounds, Stop};
use crate::searching::search;
use acceptance::{Failure, machine_of};
use cil_model::limits::Limits;
use cil_model::memory::NoMemory;
use exploration::laws::no_outcome_is_missing;
use exploration::{First, FoundOutcome, Machine, Path, Replayer, are_real, is_complete};
use ilasm_reader::laws::answers_are_unique;
use std::alloc::Global;
use std::marker::Brand;

/// The outcomes of a program over all schedules, in the order of the search: fewest preemptions first, then fewest steps.
#[derive(Drop)]
pub struct Exploration {
    /// The outcomes, each with a schedule that leads to it.
    pub found: Vec<FoundOutcome>,
    /// The number of states that the search found.
    pub states: usize,
    /// Whether the check has confirmed that there are no other outcomes.
    pub is_complete: bool,
    /// Why the search stopped early; None if it visited all states.
    pub stop: Option<Stop>,
}

/// Finds every outcome of a source over all schedules. Each outcome is that of a run by the events of its schedule, after which no thread can make a
/// step: each has ended or is blocked.
///
/// If `is_complete` is true, there are no others: every run in which no thread uses up its budget, with any events of the collector, has one of these
/// outcomes once no thread can make a step.
///
/// Faults are looked for in this order: the source (as `accept` does), the limits (`OutOfRange(401)`); `Memory` if memory runs out.
pub fn explore(
    alloc: Global,
    source: &[u8],
    limits: Limits,
    bounds: Bounds,
) -> Result<Exploration, Failure>
    ensures accepted { IfOk result (λ _. HasAcceptedTree source.now) }
    ensures complete { IfOk result (λ e. e.is_complete ≡ true → HasAllOutcomes source.now limits (map outcome_found e.found.items)) }
    ensures real { IfOk result (λ e. (n : ℕ) (f : AnyFoundOutcome) → slice_get e.found.items n ≡ Some f → IsFoundIn source.now limits f) }
    ensures refused { IfErr result (IsNotRun source.now limits) }
{
    answers_are_unique();
    no_outcome_is_missing();
    let machine = machine_of(alloc, source, limits)?;
    let other = machine_of(alloc, source, limits)?;
    Ok(explore_machines::<Brand>(alloc, machine, other, bounds)?)
}

/// The size of the block of `keep_freed_memory`: more than the frames of all threads of two machines.
const KEPT_WORDS: usize = 524_288;

/// Allocates a block of 4 MiB and gives it back. This is for the allocator of the GNU C library alone: once a block of that size is given back, it no
/// longer maps blocks up to that size one by one, and it no longer returns less than twice as much to the system. So each replay finds the memory
/// that the one before has freed. With another allocator it does nothing, and a search may be slower; no result depends on it.
fn keep_freed_memory(alloc: Global) -> Result<(), NoMemory> {
    let _block: Vec<u64> = Vec::with_capacity(alloc, KEPT_WORDS)?;
    Ok(())
}

/// Finds every outcome of a program, by two machines of it within the same limits. It fails only if memory runs out.
fn explore_machines<M: First>(
    alloc: Global,
    machine: Machine,
    other: Machine,
    bounds: Bounds,
) -> Result<Exploration, NoMemory>
    requires initial { HasInitialState machine M.first }
    requires other_initial { HasInitialState other M.first }
    requires legal { IsLegal M.first.tree }
    ensures complete { IfOk result (λ e. e.is_complete ≡ true → IsOutcomeList M.first (map outcome_found e.found.items)) }
    ensures real { IfOk result (λ e. (n : ℕ) (f : AnyFoundOutcome) → slice_get e.found.items n ≡ Some f → IsReal M.first f) }
{
    let mut replayer: Replayer<M> = Replayer::new(alloc, machine);
    let mut other: Replayer<M> = Replayer::new(alloc, other);
    search_and_check(&mut replayer, &mut other, alloc, bounds)
}

/// Finds every outcome of a program, and checks that it has found all. It fails only if memory runs out.
fn search_and_check<M: First>(
    replayer: &mut Replayer<M>,
    other: &mut Replayer<M>,
    alloc: Global,
    bounds: Bounds,
) -> Result<Exploration, NoMemory>
    requires { IsLegal M.first.tree }
    ensures complete { IfOk result (λ e. e.is_complete ≡ true → IsOutcomeList M.first (map outcome_found e.found.items)) }
    ensures real { IfOk result (λ e. (n : ℕ) (f : AnyFoundOutcome) → slice_get e.found.items n ≡ Some f → IsReal M.first f) }
{
    keep_freed_memory(alloc)?;
    let search = search(replayer, alloc, bounds)?;
    let found = confirm(replayer, alloc, search.found)?;
    let is_complete = has_found_all(replayer, other, alloc, &search.paths, search.stop, &found)?;
    Ok(Exploration {
        found,
        states: search.states,
        is_complete,
        stop: search.stop,
    })
}

/// Whether the search did not stop early, and the check confirms that there are no other outcomes. True only if there are none. It fails only if
/// memory runs out.
fn has_found_all<M: First>(
    replayer: &mut Replayer<M>,
    other: &mut Replayer<M>,
    alloc: Global,
    paths: &[Path],
    stop: Option<Stop>,
    found: &[FoundOutcome],
) -> Result<bool, NoMemory>
    requires { IsLegal M.first.tree }
    ensures { IfOk result (λ known. known ≡ true → IsOutcomeList M.first (map outcome_found found.now)) }
{
    if stop.is_some() {
        return Ok(false);
    }
    let is_complete = is_complete(replayer, other, alloc, paths, found)?;
    Ok(is_complete)
}

/// The outcomes if all of them are confirmed; otherwise none. It fails only if memory runs out.
fn confirm<M: First>(
    replayer: &mut Replayer<M>,
    alloc: Global,
    found: Vec<FoundOutcome>,
) -> Result<Vec<FoundOutcome>, NoMemory>
    requires { IsLegal M.first.tree }
    ensures { IfOk result (λ confirmed. (n : ℕ) (f : AnyFoundOutcome) → slice_get confirmed.items n ≡ Some f → IsReal M.first f) }
{
    if are_real(replayer, alloc, &found)? {
        return Ok(found);
    }
    Ok(Vec::new(alloc))
}
