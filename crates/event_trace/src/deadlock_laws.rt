//! Laws of deadlocked threads. Each function has an empty body, and its contract is the law.

ghost use Rattle.std.specs.Prelude.{Bool, List};
ghost use Rattle.std.specs.List.{zip};
ghost use Rattle.cil_model.specs.declared.events.Event.{Event};
ghost use Rattle.cil_model.specs.declared.reports.Report.{Report};
ghost use Rattle.interleaving_core.specs.simulation.reference_machine.Runs.{step_reports, thread_part};
ghost use Rattle.interleaving_core.specs.simulation.reference_machine.States.{State};
ghost use Rattle.interleaving_core.specs.simulation.MachineStates.{MachineState};
ghost use Rattle.interleaving_core.specs.simulation.Runs.{AreTransitions};
ghost use Rattle.interleaving_core.specs.simulation.Refines.{Represents};
ghost use Rattle.interleaving_core.specs.simulation.reference_machine.Blocking.{ContinuesUnlessAll, StaysBlocked};
ghost use Rattle.event_trace.specs.Deadlocks.{IsDeadlockOf};

/// Whatever events follow, each step of a deadlocked thread is blocked, up to the first that uses up the budget of one.
pub fn deadlocked_threads_stay_blocked()
    ensures { (c after : MachineState) (s : State) → Represents c s → (deadlocked : List Bool) → IsDeadlockOf c deadlocked → (events : List Event) (reports : List Report) → AreTransitions c events after reports →
        StaysBlocked deadlocked (thread_part (zip events reports)) (step_reports (zip events reports)) }
{}

/// Where not all live threads are deadlocked, one of them waits for nothing: its next step is not blocked.
pub fn some_thread_continues_unless_all_are_deadlocked()
    ensures { (c : MachineState) (s : State) → Represents c s → (deadlocked : List Bool) → IsDeadlockOf c deadlocked → ContinuesUnlessAll c.tree s deadlocked }
{}
