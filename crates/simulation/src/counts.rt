//! Laws of monitors and budgets. Each function has an empty body, and its contract is the law.

ghost use Rattle.std.specs.Prelude.{◌≡◌, ◌≤◌, ℕ, Bool, Some};
ghost use Rattle.interpreter.specs.cil_model.declared.trees.Tree.{Tree};
ghost use Rattle.interpreter.specs.cil_model.declared.limits.Limits.{Limits};
ghost use Rattle.interpreter.specs.cil_model.declared.reports.Report.{Report};
ghost use Rattle.interpreter.specs.reference_machine.States.{State};
ghost use Rattle.interpreter.specs.reference_machine.Steps.{step, Answers};
ghost use Rattle.interpreter.specs.reference_machine.Runs.{initial_state};
ghost use Rattle.simulation.specs.Counts.{IsCounted};

/// In the initial state no monitor is held, and the first thread has its whole budget.
pub fn initial_states_are_counted()
    ensures { (tree : Tree) (limits : Limits) → 1 ≤ limits.budget → (s : State) → initial_state tree limits ≡ Some s → IsCounted limits s }
{}

/// No step leaves a monitor that was entered oftener than its owner made steps.
pub fn steps_keep_counts()
    ensures { (tree : Tree) (limits : Limits) → 1 ≤ limits.budget → (t : ℕ) (refused : Bool) (s : State) → IsCounted limits s →
        (r : Report) (s' : State) → step tree limits s t refused ≡ Answers r s' → IsCounted limits s' }
{}
