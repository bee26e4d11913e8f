//! The calls, each with what is expected of it.

ghost use Rattle.std.specs.Prelude.{◌≡◌, IfOk, OnErr, false, map};
ghost use Rattle.cil_model.specs.Declarations.{built_ins};
ghost use Rattle.name_tables.specs.BuiltInTable.{built_in_entry};

use crate::barrier_calls::barriers_match_expected;
use crate::epochs::{counts_in_transition, threads_see_every_epoch};
use cil_model::events::Event;
use cil_model::limits::Limits;
use cil_model::memory::NoMemory;
use cil_model::reports::{End, Report};
use cil_model::texts::Text;
use cil_model::trees::Tree;
use cil_model::types::ClassName;
use cil_oracle::{OracleMachine, OracleNames};
use commands::read_source;
use ilasm_reader::{ReadError, read};
use instruction_text::CharactersText;
use name_tables::built_in::BuiltInClass;
use name_tables::lookups::NameTables;
use schedule_text::{Item, insert_at, read_schedule, write_schedule};
use std::alloc::Global;
use std::collections::HashMap;
use std::io;
use std::thread::Threads;
use word_flip::{Advance, Copy, Flip, Retire};

/// Adds 2 and 3, and prints the sum.
pub static SUM: &str =
    ".assembly extern mscorlib {} .class public auto ansi P extends [mscorlib]System.Object {
    .method public static void Main() cil managed { .entrypoint .maxstack 2
    ldc.i4 2 ldc.i4.3 add call void [mscorlib]System.Console::WriteLine(int32) ret } }";

/// Limits in which the sum runs to its end.
pub const LIMITS: Limits = Limits {
    words: 64,
    max_words: 64,
    budget: 10,
    depth: 1,
};

/// A call that is tested, and whether its outcome is as expected.
#[derive(Clone, Copy)]
pub struct Call {
    pub name: &'static str,
    pub is_as_expected: bool,
}

/// A call by its name, and whether its outcome is as expected.
pub fn call_result(name: &'static str, is_as_expected: bool) -> Call
    ensures { (result.name.now ≡ name.now) × (result.is_as_expected ≡ is_as_expected) }
{
    Call {
        name,
        is_as_expected,
    }
}

/// A call by its name, and its outcome. One that fails counts as one with another outcome than expected.
pub fn fallible_call<E: Drop>(name: &'static str, outcome: Result<bool, E>) -> Call
    ensures name { result.name.now ≡ name.now }
    ensures returned { IfOk outcome (λ is_as_expected. result.is_as_expected ≡ is_as_expected) }
    ensures failed { OnErr outcome (result.is_as_expected ≡ false) }
{
    match outcome {
        Ok(is_as_expected) => call_result(name, is_as_expected),
        Err(_) => call_result(name, false),
    }
}

/// Makes the calls. One that runs out of memory counts as one with another outcome.
pub fn calls(threads: &(impl Threads + Sync), alloc: Global) -> [Call; 11] {
    [
        fallible_call("a source that is too long", reads_no_more(alloc)),
        fallible_call("a schedule as text", writes_schedules(alloc)),
        call_result("events among others", inserts_events(alloc)),
        fallible_call("characters as text", writes_characters(alloc)),
        fallible_call("names as keys", are_keys(alloc)),
        fallible_call(
            "a slot that another seat loads",
            is_loaded_by_another(alloc),
        ),
        fallible_call(
            "a word through all stages",
            takes_a_word_through_all_stages(alloc),
        ),
        fallible_call("epochs", threads_see_every_epoch(threads, alloc)),
        fallible_call("epochs in consecutive calls", counts_in_transition(alloc)),
        call_result(
            "the sequential machine",
            runs_by_names(alloc).unwrap_or(false),
        ),
        fallible_call("barriers in each phase", barriers_match_expected(alloc)),
    ]
}

/// Whether no more of a source is read than shows that it is too long, and all of a shorter one.
fn reads_no_more(alloc: Global) -> io::Result<bool> {
    let short = read_source(alloc, b"s0*5\n".as_slice())?;
    let long = vec![in alloc; b' '; 1_050_000]?;
    let read = read_source(alloc, long.as_slice())?.len();
    Ok(short.as_slice() == b"s0*5\n".as_slice() && read == 1_048_577)
}

/// One event.
fn once(event: Event) -> Item {
    Item { event, count: 1 }
}

/// Whether events are written, each longest run of equal ones as one item, and not those of a thread that there can't be.
fn writes_schedules(alloc: Global) -> Result<bool, NoMemory> {
    let (step, ack) = (Event::Step(15), Event::Ack(0));
    let events = [
        once(step),
        once(step),
        once(Event::Gc),
        once(ack),
        once(step),
    ];
    let text = write_schedule(alloc, &events).ok();
    let refused = write_schedule(alloc, &[once(Event::Gc), once(Event::Step(16))]).err();
    Ok(
        text.is_some_and(|text| text.as_str() == "s15*2 g a0 s15")
            && refused.map(|error| error.number()) == Some(502)
            && is_read_back(alloc),
    )
}

/// Whether four events are written as three items, and read again as these.
fn is_read_back(alloc: Global) -> bool {
    let (step, ack) = (Event::Step(0), Event::Ack(0));
    let events = [once(step), once(step), once(Event::Gc), once(ack)];
    let Ok(text) = write_schedule(alloc, &events) else {
        return false;
    };
    let Ok(items) = read_schedule(alloc, text.as_str().as_bytes()) else {
        return false;
    };
    match items.as_slice() {
        [first, second, third] => {
            text.as_str() == "s0*2 g a0"
                && (first.event, first.count) == (step, 2)
                && (second.event, second.count) == (Event::Gc, 1)
                && (third.event, third.count) == (ack, 1)
        }
        _ => false,
    }
}

/// Whether events are put among others, and not where there would be too many.
fn inserts_events(alloc: Global) -> bool {
    let cycle = [once(Event::Gc), once(Event::Ack(0))];
    let steps = [Item {
        event: Event::Step(0),
        count: 5,
    }];
    let many = [Item {
        event: Event::Gc,
        count: 999_999,
    }];
    let Ok(all) = insert_at(alloc, &steps, 3, &cycle) else {
        return false;
    };
    let text = write_schedule(alloc, all.as_slice()).ok();
    let refused = insert_at(alloc, &many, 0, &cycle).err();
    text.is_some_and(|text| text.as_str() == "s0*3 g a0 s0*2")
        && refused.map(|error| error.number()) == Some(503)
}

/// Whether characters that no source can hold are written by their octal numbers, and out of memory in words.
fn writes_characters(alloc: Global) -> Result<bool, NoMemory> {
    let text = Text::new(String::from_str(alloc, "a\t\"b\"\n\\ \u{7f}\u{0}é")?);
    let shown = format!(in alloc;
        "{} {NoMemory}, {}",
        CharactersText(&text),
        ReadError::OutOfMemory
    )?;
    Ok(shown.as_str() == "a\\t\\\"b\\\"\\n\\\\ \\177\\000\\303\\251 out of memory, out of memory")
}

/// The name of a class of a source.
fn name(alloc: Global, characters: &str) -> Result<ClassName, NoMemory> {
    Ok(ClassName {
        assembly: None,
        name: Text::new(String::from_str(alloc, characters)?),
    })
}

/// Whether the name of a class is found among the keys of a map, and another is not.
fn are_keys(alloc: Global) -> Result<bool, NoMemory> {
    let mut numbers = HashMap::new(alloc);
    let is_added = numbers.insert(name(alloc, "Dog")?, 7).is_ok();
    let dog = numbers.get(&name(alloc, "Dog")?).copied();
    let cat = numbers.get(&name(alloc, "Cat")?).copied();
    Ok(is_added && dog == Some(7) && cat.is_none())
}

/// Whether a seat loads what another one stored, and nothing from a slot that nobody stored to.
fn is_loaded_by_another(alloc: Global) -> Result<bool, NoMemory> {
    let (flip, _copier, mut writers) = Flip::new(alloc, 2, 1, &[0, 0], 2)?;
    let Some(second) = writers.pop() else {
        return Ok(false);
    };
    let Some(first) = writers.pop() else {
        return Ok(false);
    };
    let _first = flip.store(first, 1, 0, Some(1));
    let (loaded, second) = flip.load(second, 1, 0);
    let (nothing, _second) = flip.load(second, 0, 0);
    Ok(loaded == Some(1) && nothing.is_none())
}

/// Whether each call on a flip of one word and one seat returns what the stage requires: the word is copied before the first stage is posted and
/// not after it, no stage is posted before the seat has taken up the one before, and the first copy is retired in the last stage alone.
fn takes_a_word_through_all_stages(alloc: Global) -> Result<bool, NoMemory> {
    let (flip, copier, mut writers) = Flip::new(alloc, 1, 1, &[0], 1)?;
    let Some(writer) = writers.pop() else {
        return Ok(false);
    };
    let (unfinished, copier) = flip.advance(copier);
    let (copied, copier) = flip.copy_word(copier, 0, 0);
    let (first, copier) = flip.advance(copier);
    let (past, copier) = flip.copy_word(copier, 0, 0);
    let (late, copier) = flip.advance(copier);
    let (unretired, copier) = flip.retire(copier, 0, 0);
    let (one, writer) = flip.flip_ack(writer);
    let (second, copier) = flip.advance(copier);
    let (late_again, copier) = flip.retire(copier, 0, 0);
    let (two, _writer) = flip.flip_ack(writer);
    let (retired, copier) = flip.retire(copier, 0, 0);
    let (last, _copier) = flip.advance(copier);
    Ok(
        are_copied((copied, past))
            && are_posted((unfinished, first, late), (second, last))
            && are_retired((unretired, late_again, retired))
            && (one, two) == (1, 2),
    )
}

/// Whether a word is copied, and then past that.
fn are_copied(results: (Copy, Copy)) -> bool {
    matches!(results, (Copy::Copied, Copy::Past))
}

/// Whether the first stage is posted between a try that comes too early and one that comes before the seat has taken it up, and the second one
/// before a try at which there is none left.
fn are_posted(first: (Advance, Advance, Advance), second: (Advance, Advance)) -> bool {
    matches!(first, (Advance::Unfinished, Advance::Posted, Advance::Late))
        && matches!(second, (Advance::Posted, Advance::Last))
}

/// Whether the first copy is retired at the third try.
fn are_retired(results: (Retire, Retire, Retire)) -> bool {
    matches!(results, (Retire::Late, Retire::Late, Retire::Retired))
}

/// Whether the test interpreter runs the sum, and prints its state. None where the sum has no tree or memory runs out.
fn runs_by_names(alloc: Global) -> Option<bool> {
    let tree = read(alloc, SUM.as_bytes()).ok()?;
    is_tree_run(alloc, &tree).ok()
}

fn is_tree_run(alloc: Global, tree: &Tree) -> Result<bool, NoMemory> {
    let built_ins = BuiltInClass::all(alloc)?;
    is_run_with(alloc, tree, built_ins.as_slice())
}

fn is_run_with(alloc: Global, tree: &Tree, classes: &[BuiltInClass]) -> Result<bool, NoMemory>
    requires { map built_in_entry classes.now ≡ built_ins }
{
    let names = NameTables::new(alloc, tree, classes)?;
    is_run_by_names(alloc, &names)
}

fn is_run_by_names(alloc: Global, names: &NameTables) -> Result<bool, NoMemory> {
    let names = OracleNames::new(alloc, &*names)?;
    is_oracle_run(alloc, &names)
}

fn is_oracle_run(alloc: Global, names: &OracleNames) -> Result<bool, NoMemory> {
    match OracleMachine::new(alloc, &*names, LIMITS)? {
        None => Ok(false),
        Some(mut machine) => {
            Ok(is_begin_shown(alloc, &machine)? && prints_the_sum(&mut machine)?)
        }
    }
}

/// Whether the state before the first step is written as it is.
fn is_begin_shown(alloc: Global, machine: &OracleMachine<'_>) -> Result<bool, NoMemory> {
    let shown = format!(in alloc; "{machine}")?;
    Ok(shown.as_str() == "thread 0: 10 steps left, 0: ldc.i4 2 []\n")
}

/// Whether the last of five steps ends the thread, and the sum is printed.
fn prints_the_sum(machine: &mut OracleMachine<'_>) -> Result<bool, NoMemory> {
    let mut last = None;
    for _ in 0..5 {
        last = machine.step(0, false)?;
    }
    Ok(last == Some(Report::Ended(End::Done)) && machine.console() == b"5\n".as_slice())
}
