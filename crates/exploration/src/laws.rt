//! Laws of searches. Each function has an empty body, and its contract is the law.

ghost use Rattle.std.specs.Prelude.{Contains, ◌≡◌, ◌⊎◌, ◌≢◌, ℕ, List, Some, true};
ghost use Rattle.interleaving_core.specs.simulation.cil_model.Legality.{IsLegal};
ghost use Rattle.interleaving_core.specs.simulation.cil_model.declared.events.Event.{Event};
ghost use Rattle.interleaving_core.specs.simulation.cil_model.declared.events.Event.TheVariants.{Step};
ghost use Rattle.interleaving_core.specs.simulation.cil_model.declared.limits.Limits.{Limits};
ghost use Rattle.interleaving_core.specs.simulation.cil_model.declared.reports.End.TheVariants.{Budget};
ghost use Rattle.interleaving_core.specs.simulation.cil_model.declared.reports.Report.{Report};
ghost use Rattle.interleaving_core.specs.simulation.cil_model.declared.reports.Report.TheVariants.{Ran, Ended};
ghost use Rattle.interleaving_core.specs.simulation.cil_model.declared.trees.Tree.{Tree};
ghost use Rattle.interleaving_core.specs.simulation.reference_machine.Runs.{initial_state};
ghost use Rattle.interleaving_core.specs.simulation.reference_machine.States.{State};
ghost use Rattle.interleaving_core.specs.simulation.threads_monitors.Threads.{is_live_at};
ghost use Rattle.interleaving_core.specs.simulation.MachineStates.{MachineState};
ghost use Rattle.interleaving_core.specs.simulation.Runs.{AreSteps, AreTransitions, IsRunOf};
ghost use Rattle.interleaving_core.specs.simulation.Refines.{Represents};
ghost use Rattle.interleaving_core.specs.simulation.Transitions.{IsTransition, initial_machine_state};
ghost use Rattle.interleaving_core.specs.simulation.interpreter.Local.{IsLocalStep, frames_over};
ghost use Rattle.interleaving_core.specs.simulation.threads_monitors.Frames.{Frame};
ghost use Rattle.exploration.specs.LaggingMachines.{IsLagging, IsLocalMove};
ghost use Rattle.exploration.specs.TerminalOutcomes.{IsTerminal, IsOver, ShownOutcome, ShowOnly, outcome_of, outcome_shown};
ghost use Rattle.exploration.specs.Searches.{AreOrdinary, IsClosed, IsCovered, IsLedTo, IsCoveredState, KeepBudgets};

/// One machine lags behind another, and a thread makes a step in both. Then the step of the first is a local instruction, and it still lags behind the other
/// machine as that was; or both steps have the same report, and the first lags behind the second again; or it uses up its budget.
pub fn a_lagging_machine_stays_lagging()
    ensures { (c d : MachineState) → IsLagging c d → (t : ℕ) → is_live_at c.threads t ≡ true → (next : MachineState) (r : Report) → IsTransition d (Step t) (next, r) → r ≢ Ended Budget →
        (after : MachineState) × (q : Report) × IsTransition c (Step t) (after, q) × ((q ≡ Ended Budget) ⊎ (((q ≡ Ran) × IsLagging after d) ⊎ ((q ≡ r) × IsLagging after next))) }
{}

/// If a closed set covers the initial machine state, it covers the final state of each run, with any events of a collector: a machine that lags behind a
/// machine state of the set represents that state, and no step was refused memory. This holds up to the first step that uses up a budget.
pub fn a_closed_set_covers_all_runs()
    ensures { (tree : Tree) (limits : Limits) (first : MachineState) (paths : List (List Event)) → IsClosed (IsLedTo first paths) → (s : State) → initial_machine_state tree limits ≡ Some first → initial_state tree limits ≡ Some s → Represents first s → IsCovered (IsLedTo first paths) first →
        (events : List Event) (reports : List Report) (last : State) → IsRunOf tree limits events reports last → KeepBudgets reports → IsCoveredState tree limits (IsLedTo first paths) last × AreOrdinary reports }
{}

/// A state that a closed set covers has the outcome of a machine state of the set: the same printed bytes, and the same end of each thread. If no thread can
/// make a step in that state, none can in the machine state.
pub fn a_covered_state_is_shown()
    ensures { (tree : Tree) (limits : Limits) (first : MachineState) (paths : List (List Event)) → IsClosed (IsLedTo first paths) → (s : State) → IsCoveredState tree limits (IsLedTo first paths) s →
        (c : MachineState) × IsLedTo first paths c × (outcome_shown c ≡ outcome_of s) × (IsOver tree limits s → IsTerminal c) }
{}

/// A local instruction of the running frame, after which its thread continues, does the same for everything but the thread's frames.
pub fn a_local_instruction_moves_alone()
    ensures { (tree : Tree) (room : ℕ) (f g : Frame) → IsLocalStep tree room f g → (below : List Frame) (depth : ℕ) →
        IsLocalMove tree (frames_over f below depth room) (frames_over g below depth room) }
{}

/// In runs of steps alone, without events of a collector, a closed set that covers the initial machine state covers each later one, and no memory is refused:
/// up to the first step that uses up a budget.
pub fn steps_alone_stay_covered()
    ensures { (first : MachineState) (paths : List (List Event)) → IsLegal first.tree → IsClosed (IsLedTo first paths) → IsCovered (IsLedTo first paths) first →
        (events : List Event) → AreSteps events → (after : MachineState) (reports : List Report) → AreTransitions first events after reports → KeepBudgets reports → IsCovered (IsLedTo first paths) after × AreOrdinary reports }
{}

/// If each machine state of a closed set in which no thread can make a step shows one of these outcomes, each run that is over has one of them, with any
/// events of a collector, if no thread used up its budget.
pub fn no_outcome_is_missing()
    ensures { (tree : Tree) (limits : Limits) (first : MachineState) (paths : List (List Event)) → IsClosed (IsLedTo first paths) → (s : State) → initial_machine_state tree limits ≡ Some first → initial_state tree limits ≡ Some s → Represents first s → IsCovered (IsLedTo first paths) first →
        (outcomes : List ShownOutcome) → ShowOnly (IsLedTo first paths) outcomes →
        (events : List Event) (reports : List Report) (last : State) → IsRunOf tree limits events reports last → KeepBudgets reports → IsOver tree limits last → Contains outcomes (outcome_of last) }
{}
