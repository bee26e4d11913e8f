//! In what a replay differs from the recorded run.

ghost use Rattle.std.specs.Prelude.{◌≡◌, OnErr, OnOk};
ghost use Rattle.outputs.specs.Streams.{Fails, Takes};
ghost use Rattle.driver.specs.Replays.{differences_from, differences_text, line_if, status_if_same};

use cil_model::limits::Limits;
use outputs::{Device, Out};
use run_files::{Differences, RunFile, compare};
use source_runs::Outcome;

/// In what a run of a source within these limits differs from what is expected. In nothing if nothing is expected.
pub(crate) fn differences_from(
    expected: Option<RunFile>,
    source: &[u8],
    limits: Limits,
    outcome: &Outcome,
) -> Differences
    ensures { result ≡ differences_from expected source.now limits outcome.now.machine.printed }
{
    match expected {
        Some(file) => {
            let found = RunFile::of(source, limits, file.workers, outcome.console());
            compare(&file, &found)
        }
        None => Differences {
            source: false,
            limits: false,
            output: false,
        },
    }
}

/// Reports in what a run differs, a line for each. It takes no memory.
pub(crate) fn show_differences<E: Out>(differences: Differences, err: &mut E) -> Result<(), Device>
    ensures whole { OnOk result (Takes (E.taken err.old) (E.taken err.new) (differences_text differences)) }
    ensures cut { OnErr result (Fails (E.taken err.old) (E.taken err.new) (differences_text differences)) }
{
    err.write_texts(&[
        line_if(
            differences.source,
            "cilvm: the recorded run had another source\n",
        ),
        line_if(
            differences.limits,
            "cilvm: the recorded run had other limits\n",
        ),
        line_if(
            differences.output,
            "cilvm: the recorded run had another output\n",
        ),
    ])
}

/// A line, if something differs; else nothing.
fn line_if(differs: bool, line: &'static str) -> &'static str
    ensures { result.now ≡ line_if differs line.entry.now }
{
    if differs { line } else { "" }
}

/// The status of a run that has this one if it does not differ.
pub(crate) fn status_if_same(differences: Differences, status: u8) -> u8
    ensures { result ≡ status_if_same differences status }
{
    if differences.source || differences.limits || differences.output {
        6
    } else {
        status
    }
}
