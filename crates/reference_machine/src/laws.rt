//! Laws of the reference machine. Each function has an empty body, and its contract is the law.

ghost use Rattle.std.specs.Prelude.{◌≡◌, ℕ, List, Some, None, slice_get, Bool, replicate, false, true, length, ◌∷◌, ◌++◌, [], codes};
ghost use Rattle.std.specs.List.{zip};
ghost use Rattle.cil_model.specs.declared.events.Event.{Event};
ghost use Rattle.cil_model.specs.declared.trees.Tree.{Tree};
ghost use Rattle.cil_model.specs.declared.instructions.Instruction.{Instruction};
ghost use Rattle.cil_model.specs.declared.instructions.MethodReference.{MethodReference};
ghost use Rattle.cil_model.specs.declared.trees.Method.{Method};
ghost use Rattle.cil_model.specs.declared.types.ClassName.{ClassName};
ghost use Rattle.cil_model.specs.declared.types.DeclaredType.{DeclaredType};
ghost use Rattle.cil_model.specs.declared.limits.Limits.{Limits};
ghost use Rattle.cil_model.specs.declared.reports.Fault.{Fault};
ghost use Rattle.cil_model.specs.declared.reports.Fault.TheVariants.{OutOfMemory};
ghost use Rattle.cil_model.specs.declared.reports.Report.{Report};
ghost use Rattle.cil_model.specs.declared.reports.Report.TheVariants.{Ran, Ended};
ghost use Rattle.cil_model.specs.declared.reports.End.TheVariants.{Done};
ghost use Rattle.cil_model.specs.Chains.{find_method, methods_declared};
ghost use Rattle.cil_model.specs.Slots.{target};
ghost use Rattle.reference_machine.specs.BuiltIn.{action_of};
ghost use Rattle.reference_machine.specs.Values.{ObjectName};
ghost use Rattle.reference_machine.specs.States.{Frame, State, type_of, class_of};
ghost use Rattle.reference_machine.specs.Effects.{StepContext, Raises};
ghost use Rattle.reference_machine.specs.Steps.{execute, step, Answers};
ghost use Rattle.reference_machine.specs.Faults.{MayRaise};
ghost use Rattle.reference_machine.specs.Growth.{Follows};
ghost use Rattle.reference_machine.specs.Runs.{IsStateAfter, StepRequest, run, step_reports, RunsTo, SticksAfter};
ghost use Rattle.reference_machine.specs.Outcomes.{outputs_of, Shows};
ghost use Rattle.cil_model.specs.Typings.{Typing, IsTyping, IsAccepted};
ghost use Rattle.cil_model.specs.Examples.{sum_program, usual_limits};

/// What a look-up of a method finds is declared by the class that it names, and so is the target of a declared method.
pub fn found_methods_are_declared()
    ensures found { (tree : Tree) (is_instance : Bool) (r : MethodReference) (c : ClassName) (m : Method) → find_method tree is_instance r ≡ Some (c, m) → (n : ℕ) × (slice_get (methods_declared tree c) n ≡ Some m) }
    ensures targets { (tree : Tree) (d c : ClassName) (m : Method) (k : ClassName) (m' : Method) → target tree d c m ≡ Some (k, m') → (n : ℕ) × (slice_get (methods_declared tree c) n ≡ Some m) → (n : ℕ) × (slice_get (methods_declared tree k) n ≡ Some m') }
{}

/// In an accepted program each method that may get a frame has a typing: one that a class declares, built-in ones among
/// them, and that is no member which acts at once.
pub fn framed_methods_have_typings()
    ensures { (tree : Tree) → IsAccepted tree → (c : ClassName) (n : ℕ) (m : Method) → slice_get (methods_declared tree c) n ≡ Some m → action_of c m ≡ None → (typing : Typing) × IsTyping tree c m typing }
{}

/// No step and no run takes anything back: objects keep their names, classes, fields, element types and lengths; static
/// fields and literals stay those of the program; what was printed stays.
pub fn nothing_is_taken_back()
    ensures step { (tree : Tree) (limits : Limits) (s : State) (t : ℕ) (refused : Bool) (r : Report) (s' : State) → step tree limits s t refused ≡ Answers r s' → Follows s s' }
    ensures run { (tree : Tree) (limits : Limits) (requests : List StepRequest) (s s' : State) (reports : List Report) → run tree limits s requests ≡ RunsTo reports s' → Follows s s' }
{}

/// Where a state follows another, an object has the type and the class that it had.
pub fn types_stay()
    ensures types { (s s' : State) → Follows s s' → (n : ObjectName) (type : DeclaredType) → type_of s n ≡ Some type → type_of s' n ≡ Some type }
    ensures classes { (s s' : State) → Follows s s' → (n : ObjectName) (c : ClassName) → class_of s n ≡ Some c → class_of s' n ≡ Some c }
{}

/// An instruction raises faults alone that are listed for it, or for the built-in member that it runs.
pub fn raised_faults_are_listed()
    ensures { (here : StepContext) (s : State) (f : Frame) (below : List Frame) (i : Instruction) (x : Fault) → execute here s f below i ≡ Raises x → MayRaise here.tree i x }
{}

/// The steps of two lists, one after the other, are the run of the first and then that of the second from there; none
/// follows a step that is stuck.
pub fn runs_join()
    ensures both { (tree : Tree) (limits : Limits) (first more : List StepRequest) (s t u : State) (reports later : List Report) →
        run tree limits s first ≡ RunsTo reports t → run tree limits t more ≡ RunsTo later u → run tree limits s (first ++ more) ≡ RunsTo (reports ++ later) u }
    ensures second_sticks { (tree : Tree) (limits : Limits) (first more : List StepRequest) (s t : State) (reports later : List Report) →
        run tree limits s first ≡ RunsTo reports t → run tree limits t more ≡ SticksAfter later → run tree limits s (first ++ more) ≡ SticksAfter (reports ++ later) }
    ensures first_sticks { (tree : Tree) (limits : Limits) (first more : List StepRequest) (s : State) (reports : List Report) →
        run tree limits s first ≡ SticksAfter reports → run tree limits s (first ++ more) ≡ SticksAfter reports }
{}

/// An instruction raises `OutOfMemory` only where its birth is refused.
pub fn memory_runs_out_only_where_a_birth_is_refused()
    ensures { (here : StepContext) (s : State) (f : Frame) (below : List Frame) (i : Instruction) → execute here s f below i ≡ Raises OutOfMemory → here.is_refused ≡ true }
{}

/// A program has one run by the same steps within the same limits, where nothing is collected: since each birth is refused exactly beyond
/// the room of one space, the reports of its steps and the state that it reaches are the same.
pub fn the_run_is_one()
    ensures { (tree : Tree) (limits : Limits) (events : List Event) (reports reports' : List Report) → length reports ≡ length events → length reports' ≡ length events → (s s' : State) →
        IsStateAfter tree limits (zip events reports) s → IsStateAfter tree limits (zip events reports') s' → (step_reports (zip events reports) ≡ step_reports (zip events reports')) × (s ≡ s') }
{}

/// The example prints the sum in five steps.
pub fn example_runs()
    ensures { outputs_of sum_program usual_limits (replicate 5 (0, false)) ≡ Shows (Ran ∷ Ran ∷ Ran ∷ Ran ∷ Ended Done ∷ []) (codes "5\n") }
{}
