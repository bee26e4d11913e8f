//! Laws of runs. Each function does nothing, and its contract is the law.

ghost use Rattle.std.specs.Prelude.{◌≡◌, ℕ, List};
ghost use Rattle.cil_model.specs.declared.events.Event.{Event};
ghost use Rattle.cil_model.specs.declared.limits.Limits.{Limits};
ghost use Rattle.cil_model.specs.declared.reports.Report.{Report};
ghost use Rattle.reference_machine.specs.States.{State};
ghost use Rattle.schedule_text.specs.Writings.{IsWritten};
ghost use Rattle.source_runs.specs.Runs.{ResultsIn, ResultsInBy};

use ilasm_reader::laws::answers_are_unique;
use schedule_text::laws::{one_answer, written_text_is_read};

/// A source, a schedule's text and limits have one run: the events are the same, and so are all reports and the state
/// after it, with all that was printed and the status of each thread.
pub fn a_run_is_one()
    ensures { (source : List ℕ) (limits : Limits) (text : List ℕ) (events events' : List Event) (reports reports' : List Report) (s s' : State) →
        ResultsIn source limits text events reports s → ResultsIn source limits text events' reports' s' →
        (events ≡ events') × (reports ≡ reports') × (s ≡ s') }
{
    answers_are_unique();
    one_answer();
}

/// Whoever replays the record of a run has the same run: the text of its events leads to the same state, by the same
/// reports.
pub fn a_record_repeats_its_run()
    ensures { (source : List ℕ) (limits : Limits) (text : List ℕ) (events : List Event) (reports : List Report) (s : State) →
        ResultsInBy source limits events reports s → IsWritten events text → ResultsIn source limits text events reports s }
{
    written_text_is_read();
}
