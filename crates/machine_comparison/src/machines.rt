//! One run on both machines, compared after each event.

ghost use Rattle.std.specs.Prelude.{◌≡◌, map};
ghost use Rattle.cil_model.specs.Declarations.{built_ins};
ghost use Rattle.name_tables.specs.BuiltInTable.{built_in_entry};

use cil_model::events::Event;
use cil_model::limits::{Limits, MOST_THREADS};
use cil_model::memory::NoMemory;
use cil_model::reports::{End, Fault, Report};
use cil_model::trees::Tree;
use cil_oracle::{OracleMachine, OracleNames};
use ilasm_reader::read;
use name_tables::built_in::BuiltInClass;
use name_tables::lookups::NameTables;
use schedule_text::{Item, read_schedule};
use source_runs::{Failure, Machine, accept};
use std::alloc::{AllocError, Global};
use std::iter::repeat_n;

/// What the machine reported and printed in a run, up to the first event after which the test interpreter differs.
pub struct Comparison {
    pub reports: Vec<Report>,
    pub printed: Vec<u8>,
    /// The outcome of the last event on both machines, where they differ.
    pub difference: Option<String>,
}

/// Each part is dropped.
impl Drop for Comparison {
    fn drop(self) {
        let Comparison {
            reports: _reports,
            printed: _printed,
            difference: _difference,
        } = self;
    }
}

impl Comparison {
    /// The outcome of the last event on both machines, where they differ.
    fn into_difference(self) -> Option<String> {
        let Comparison {
            reports: _reports,
            printed: _printed,
            difference,
        } = self;
        difference
    }
}

/// Runs the program of a source by the events of a schedule's text on both machines, and returns the outcome of the first event after
/// which they differ in a report, in what was printed, or in the states of the threads; none where they agree. A source, limits or a
/// schedule that is refused leaves nothing to compare: none.
pub fn difference(
    alloc: Global,
    source: &[u8],
    limits: Limits,
    text: &[u8],
) -> Result<Option<String>, Failure> {
    difference_in(compare_by(alloc, source, limits, text))
}

/// The difference that a comparison found. Where the source, the limits or the schedule are refused there was none to find.
pub(crate) fn difference_in(
    comparison: Result<Comparison, Failure>,
) -> Result<Option<String>, Failure> {
    match comparison {
        Ok(comparison) => Ok(comparison.into_difference()),
        Err(Failure::Refused(_)) | Err(Failure::OutOfRange(_)) => Ok(None),
        Err(failure) => Err(failure),
    }
}

fn compare_by(
    alloc: Global,
    source: &[u8],
    limits: Limits,
    text: &[u8],
) -> Result<Comparison, Failure> {
    let items = read_schedule(alloc, text)?;
    compare(alloc, source, limits, items.as_slice())
}

/// The same of the events that items represent, with all that the machine reported and printed; a source or limits that are refused are a
/// failure.
///
/// The test interpreter is given which births the machine refused.
pub fn compare(
    alloc: Global,
    source: &[u8],
    limits: Limits,
    items: &[Item],
) -> Result<Comparison, Failure> {
    let mut machine = Machine::new(alloc, accept(alloc, source)?, limits)?;
    compare_source(alloc, &mut machine, source, limits, items)
}

/// The same of a machine, and the source that it runs.
fn compare_source(
    alloc: Global,
    machine: &mut Machine,
    source: &[u8],
    limits: Limits,
    items: &[Item],
) -> Result<Comparison, Failure> {
    // The source is accepted, so reading it fails only if memory runs out.
    let tree = read(alloc, source).map_err(|_| Failure::Memory)?;
    compare_tree(alloc, machine, &tree, limits, items)
}

/// The same of a machine, and the tree that it runs.
fn compare_tree(
    alloc: Global,
    machine: &mut Machine,
    tree: &Tree,
    limits: Limits,
    items: &[Item],
) -> Result<Comparison, Failure> {
    let built_ins = BuiltInClass::all(alloc)?;
    compare_classes(alloc, machine, tree, built_ins.as_slice(), limits, items)
}

/// The same of a machine, and the tree that it runs with the built-in classes.
fn compare_classes(
    alloc: Global,
    machine: &mut Machine,
    tree: &Tree,
    classes: &[BuiltInClass],
    limits: Limits,
    items: &[Item],
) -> Result<Comparison, Failure>
    requires { map built_in_entry classes.now ≡ built_ins }
{
    let names = NameTables::new(alloc, tree, classes)?;
    compare_with(alloc, machine, &names, limits, items)
}

/// The same of a machine, and of the names of the tree that it runs.
fn compare_with(
    alloc: Global,
    machine: &mut Machine,
    names: &NameTables,
    limits: Limits,
    items: &[Item],
) -> Result<Comparison, Failure> {
    let names = OracleNames::new(alloc, &*names)?;
    compare_oracle(alloc, machine, &names, limits, items)
}

/// The same of a machine, and of the names that the test interpreter has.
fn compare_oracle(
    alloc: Global,
    machine: &mut Machine,
    names: &OracleNames,
    limits: Limits,
    items: &[Item],
) -> Result<Comparison, Failure> {
    match OracleMachine::new(alloc, &*names, limits)? {
        None => no_entry_point(alloc),
        Some(mut oracle) => Ok(run(alloc, machine, &mut oracle, items)?),
    }
}

/// What is reported where the test interpreter finds no entry point in a source that the machine accepts.
fn no_entry_point(alloc: Global) -> Result<Comparison, Failure> {
    Ok(Comparison {
        reports: Vec::new(alloc),
        printed: Vec::new(alloc),
        difference: Some(String::from_str(
            alloc,
            "no event: the test interpreter finds no entry point",
        )?),
    })
}

/// Does the events on both machines, up to the first difference.
fn run(
    alloc: Global,
    machine: &mut Machine,
    oracle: &mut OracleMachine,
    items: &[Item],
) -> Result<Comparison, NoMemory> {
    let mut reports = Vec::new(alloc);
    let difference = first_difference(alloc, machine, oracle, items, &mut reports)?;
    Ok(Comparison {
        reports,
        printed: Vec::from_slice(alloc, machine.console())?,
        difference,
    })
}

/// Does the events on both machines, up to the first difference, which is returned, and adds what the machine reports.
fn first_difference(
    alloc: Global,
    machine: &mut Machine,
    oracle: &mut OracleMachine,
    items: &[Item],
    reports: &mut Vec<Report>,
) -> Result<Option<String>, NoMemory> {
    for event in items
        .iter()
        .flat_map(|item| repeat_n(item.event, item.count))
    {
        let found = step_both(alloc, machine, oracle, event, reports)?;
        if found.is_some() {
            return Ok(found);
        }
    }
    Ok(None)
}

/// Does an event on both machines, and adds what the machine reports. Returns the outcome where they differ.
fn step_both(
    alloc: Global,
    machine: &mut Machine,
    oracle: &mut OracleMachine,
    event: Event,
    reports: &mut Vec<Report>,
) -> Result<Option<String>, NoMemory> {
    let actual = machine.step(alloc, event)?;
    reports.push(actual)?;
    let expected = expected_report(oracle, event, actual)?;
    if expected == Some(actual) && are_alike(machine, oracle) {
        return Ok(None);
    }
    let number = reports.len();
    Ok(Some(report_of(alloc, number, actual, expected, oracle)?))
}

/// The outcome of an event. Where both reports are the same, the machines differ in what was printed or in the states of the threads.
fn report_of(
    alloc: Global,
    number: usize,
    actual: Report,
    expected: Option<Report>,
    oracle: &OracleMachine,
) -> Result<String, AllocError> {
    match expected {
        None => stuck_report(alloc, number, actual, oracle),
        Some(expected) => other_report(alloc, number, actual, expected, oracle),
    }
}

/// The outcome of an event at which the test interpreter is stuck.
fn stuck_report(
    alloc: Global,
    number: usize,
    actual: Report,
    oracle: &OracleMachine,
) -> Result<String, AllocError> {
    format!(in alloc; "event {number}: {actual:?}, and the test interpreter is stuck\n{oracle}")
}

/// The outcome of an event by the reports of both machines.
fn other_report(
    alloc: Global,
    number: usize,
    actual: Report,
    expected: Report,
    oracle: &OracleMachine,
) -> Result<String, AllocError> {
    format!(in alloc;
        "event {number}: {actual:?}, and {expected:?} of the test interpreter\n{oracle}"
    )
}

/// The report of a step in which a birth is refused.
const REFUSED_BIRTH: Report = Report::Ended(End::Fault(Fault::OutOfMemory));

/// What the test interpreter expects of an event: a step's report. It has no collector, so of any other event it expects the machine's
/// report, if it is one that the event can have.
fn expected_report(
    oracle: &mut OracleMachine,
    event: Event,
    actual: Report,
) -> Result<Option<Report>, NoMemory> {
    match event {
        Event::Step(thread) => oracle.step(thread, actual == REFUSED_BIRTH),
        Event::Ack(thread) if oracle.is_live(thread) => {
            Ok(Some(one_of(actual, Report::Acked, Report::NothingPosted)))
        }
        Event::Ack(_) => Ok(Some(Report::Absent)),
        Event::Gc if actual == Report::CycleDone => Ok(Some(actual)),
        Event::Gc => Ok(Some(one_of(actual, Report::Worked, Report::Waiting))),
    }
}

/// The machine's report, where it is one of these two; otherwise the first of them.
fn one_of(actual: Report, first: Report, second: Report) -> Report {
    if actual == second { actual } else { first }
}

/// Whether both agree on what was printed and on the threads.
fn are_alike(machine: &Machine, oracle: &OracleMachine) -> bool {
    machine.console() == oracle.console()
        && machine.live() == oracle.live()
        && machine.started() == oracle.started()
        && have_same_threads(machine, oracle)
}

/// Whether both agree on which threads are live, and how the others ended.
fn have_same_threads(machine: &Machine, oracle: &OracleMachine) -> bool {
    for thread in 0..MOST_THREADS as u8 {
        if machine.end_of(thread) != oracle.end_of(thread)
            || machine.is_live(thread) != oracle.is_live(thread)
        {
            return false;
        }
    }
    true
}
