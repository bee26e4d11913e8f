//! Laws of threads that wait. Each function has an empty body, and its contract is the law.

ghost use Rattle.std.specs.Prelude.{◌≡◌, ◌≢◌, ◌⊎◌, ℕ, Bool, List, None, Some};
ghost use Rattle.cil_model.specs.declared.limits.Limits.{Limits};
ghost use Rattle.cil_model.specs.declared.reports.End.TheVariants.{Budget};
ghost use Rattle.cil_model.specs.declared.reports.Report.{Report};
ghost use Rattle.cil_model.specs.declared.reports.Report.TheVariants.{Blocked, Ended};
ghost use Rattle.cil_model.specs.declared.trees.Tree.{Tree};
ghost use Rattle.cil_model.specs.Typings.{IsAccepted};
ghost use Rattle.reference_machine.specs.Runs.{StepRequest, RunsTo, run};
ghost use Rattle.reference_machine.specs.States.{State};
ghost use Rattle.reference_machine.specs.Steps.{Answers, step};
ghost use Rattle.reference_machine.specs.TypedStates.{IsTyped};
ghost use Rattle.reference_machine.specs.Waits.{Wait, wait_of};
ghost use Rattle.reference_machine.specs.Blocking.{AreDeadlocked, ContinuesUnlessAll, HoldersWereStarted, IsBlockedSet, IsIn, StaysBlocked};

/// In an accepted program the step of a thread that waits is blocked, or uses up the thread's budget; that of a thread that waits for
/// nothing is never blocked.
pub fn a_blocked_thread_waits()
    ensures waiting { (tree : Tree) (limits : Limits) → IsAccepted tree → (s : State) → IsTyped tree s → (t : ℕ) (refused : Bool) (r : Report) (next : State) → step tree limits s t refused ≡ Answers r next →
        (w : Wait) → wait_of tree s t ≡ Some w → (r ≡ Blocked) ⊎ (r ≡ Ended Budget) }
    ensures others { (tree : Tree) (limits : Limits) → IsAccepted tree → (s : State) → IsTyped tree s → (t : ℕ) (refused : Bool) (r : Report) (next : State) → step tree limits s t refused ≡ Answers r next →
        wait_of tree s t ≡ None → r ≢ Blocked }
{}

/// A blocked set is blocked still after a step of any thread, and a step of a thread in it is blocked; or that step uses up the budget of
/// a thread in it. So it is with the steps of a list, one after another.
pub fn a_deadlock_lasts()
    ensures step { (tree : Tree) (limits : Limits) → IsAccepted tree → (set : List Bool) (s : State) → IsTyped tree s → IsBlockedSet tree s set → (t : ℕ) (refused : Bool) (r : Report) (next : State) → step tree limits s t refused ≡ Answers r next →
        (IsBlockedSet tree next set × (IsIn set t → r ≡ Blocked)) ⊎ (IsIn set t × (r ≡ Ended Budget)) }
    ensures run { (tree : Tree) (limits : Limits) → IsAccepted tree → (set : List Bool) (requests : List StepRequest) (s : State) → IsTyped tree s → IsBlockedSet tree s set → (reports : List Report) (last : State) →
        run tree limits s requests ≡ RunsTo reports last → StaysBlocked set requests reports }
{}

/// Where not all live threads are deadlocked, one of them waits for nothing.
pub fn some_thread_continues_unless_all_are_deadlocked()
    ensures { (tree : Tree) (s : State) → HoldersWereStarted s → (set : List Bool) → AreDeadlocked tree s set → ContinuesUnlessAll tree s set }
{}
