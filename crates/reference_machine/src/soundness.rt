//! Laws of typed states. Each function has an empty body, and its contract is the law.

ghost use Rattle.std.specs.Prelude.{◌≡◌, ◌≤◌, ◌⊎◌, ℕ, ◌+◌, Bool, List, length, Some};
ghost use Rattle.cil_model.specs.declared.trees.Tree.{Tree};
ghost use Rattle.cil_model.specs.declared.limits.Limits.{Limits};
ghost use Rattle.cil_model.specs.declared.reports.Report.{Report};
ghost use Rattle.cil_model.specs.Typings.{IsAccepted};
ghost use Rattle.reference_machine.specs.Values.{Born};
ghost use Rattle.reference_machine.specs.States.{State};
ghost use Rattle.reference_machine.specs.Steps.{step, Answers};
ghost use Rattle.reference_machine.specs.Runs.{StepRequest, RunsTo, initial_state, run};
ghost use Rattle.reference_machine.specs.Reachable.{IsReachable};
ghost use Rattle.reference_machine.specs.RetainedWords.{IsRetained};
ghost use Rattle.reference_machine.specs.TypedStates.{IsTyped};

/// An accepted program has an initial state, and it is typed.
pub fn initial_states_are_typed()
    ensures { (tree : Tree) (limits : Limits) → IsAccepted tree → (s : State) × (initial_state tree limits ≡ Some s) × IsTyped tree s }
{}

/// From a typed state of an accepted program no step is stuck, whichever thread makes it and whether or not a birth is refused
/// in it, and it leaves a typed state.
pub fn steps_keep_states_typed()
    ensures { (tree : Tree) (limits : Limits) → IsAccepted tree → (t : ℕ) (refused : Bool) (s : State) → IsTyped tree s →
        (r : Report) × (s' : State) × (step tree limits s t refused ≡ Answers r s') × IsTyped tree s' }
{}

/// No run of an accepted program is stuck: from its initial state each list of steps has its reports and reaches a typed state.
pub fn accepted_programs_are_never_stuck()
    ensures { (tree : Tree) (limits : Limits) → IsAccepted tree → (requests : List StepRequest) →
        (first : State) × (reports : List Report) × (s : State) × (initial_state tree limits ≡ Some first) × (run tree limits first requests ≡ RunsTo reports s) × IsTyped tree s }
{}

/// No step and no run makes an object reachable that was not, but those that are born in it: what is reachable afterwards was
/// reachable before, or has a name that no object had before. In a typed state each object that is reachable is there. So what
/// a collection must keep has each object that is reachable in the typed state that it ends in.
pub fn what_is_reached_was_reached_or_is_new()
    ensures step { (tree : Tree) (limits : Limits) (s s' : State) (t : ℕ) (refused : Bool) (r : Report) →
        step tree limits s t refused ≡ Answers r s' → (n : ℕ) → IsReachable s' (Born n) → IsReachable s (Born n) ⊎ (length s.objects ≤ n) }
    ensures run { (tree : Tree) (limits : Limits) (requests : List StepRequest) (s s' : State) (reports : List Report) →
        run tree limits s requests ≡ RunsTo reports s' → (n : ℕ) → IsReachable s' (Born n) → IsReachable s (Born n) ⊎ (length s.objects ≤ n) }
    ensures there { (tree : Tree) (s : State) → IsTyped tree s → (n : ℕ) → IsReachable s (Born n) → n + 1 ≤ length s.objects }
    ensures retained { (tree : Tree) (limits : Limits) (requests : List StepRequest) (s s' : State) (reports : List Report) →
        run tree limits s requests ≡ RunsTo reports s' → IsTyped tree s' → (n : ℕ) → IsReachable s' (Born n) → IsRetained s s' n }
{}
