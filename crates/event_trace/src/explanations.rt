//! The report of a machine whose threads have not all ended.

ghost use Rattle.std.specs.Prelude.{◌≡◌, ◌++◌, Bool, IfOk, List, OnOk, decimal, length, map, option_and_then, option_map, string_bytes};
ghost use Rattle.interleaving_core.specs.simulation.resolved_code.ById.{class_name};
ghost use Rattle.name_tables.specs.BuiltInTable.{built_in_entry};
ghost use Rattle.cil_model.specs.Declarations.{built_ins};
ghost use Rattle.event_trace.specs.MethodPositions.{ArePositionsOf, owner_name};
ghost use Rattle.interleaving_core.specs.Waits.{wait_at};
ghost use Rattle.event_trace.specs.Deadlocks.{IsDeadlockOf};
ghost use Rattle.event_trace.specs.Texts.{awaited_text, count_below, deadlock_line, lines_below, numbers_below, separator, thread_lines, threads_text, wait_text};

use crate::method_positions::MethodPositions;
use crate::owned_methods::Owner;
use crate::texts::{AwaitedText, ObjectText, OwnerText, ThreadLine};
use crate::tracing::instruction_at;
use crate::waiting::deadlocked_threads;
use cil_model::memory::NoMemory;
use cil_model::trees::Tree;
use interleaving_core::{Machine, Wait};
use name_tables::built_in::BuiltInClass;
use std::alloc::Global;

/// The class of a number among all classes, the built-in ones first. None where there is none.
fn class_of<'a>(classes: &'a [BuiltInClass], tree: &'a Tree, number: usize) -> Option<Owner<'a>>
    requires { map built_in_entry classes.now ≡ built_ins }
    ensures { option_map owner_name result ≡ class_name tree.now number }
{
    if number < classes.len() {
        return Some(Owner::BuiltIn(&classes[number].name));
    }
    let class = tree.classes.as_slice().get(number - classes.len())?;
    Some(Owner::Source(class))
}

/// An object of the class of a number, or an array.
fn object_of<'a>(
    classes: &'a [BuiltInClass],
    tree: &'a Tree,
    class: Option<usize>,
) -> ObjectText<'a>
    requires { map built_in_entry classes.now ≡ built_ins }
    ensures { option_map owner_name result.0 ≡ option_and_then (class_name tree.now) class }
{
    match class {
        None => ObjectText(None),
        Some(number) => ObjectText(class_of(classes, tree, number)),
    }
}

/// What a thread of a machine waits for, in words.
fn wait_text_of<'a>(
    machine: &'a Machine,
    classes: &'a [BuiltInClass],
    wait: Wait,
) -> AwaitedText<'a>
    requires { map built_in_entry classes.now ≡ built_ins }
    ensures { awaited_text result ≡ wait_text machine.now wait }
{
    match wait {
        Wait::Monitor { class, owner } => AwaitedText::Monitor {
            object: object_of(classes, machine.tree(), class),
            owner: OwnerText {
                thread: owner,
                is_live: machine.is_live(owner),
            },
        },
        Wait::Join { thread } => AwaitedText::End { thread },
    }
}

/// What the thread of a number waits for, as a text. None where its next step is not blocked, and where it is not live.
pub fn awaited_by<'a>(
    machine: &'a Machine,
    methods: &'a MethodPositions,
    thread: u8,
) -> Option<AwaitedText<'a>>
    requires { ArePositionsOf machine.now.tree methods.now }
    ensures { option_map awaited_text result ≡ option_map (wait_text machine.now) (wait_at machine.now thread) }
{
    match machine.wait_of(thread) {
        None => None,
        Some(wait) => Some(wait_text_of(machine, methods.built_ins(), wait)),
    }
}

/// Adds the line of a thread: none where it is not live.
fn add_thread(
    text: &mut String,
    machine: &Machine,
    methods: &MethodPositions,
    thread: u8,
) -> Result<(), NoMemory>
    requires { ArePositionsOf machine.now.tree methods.now }
    ensures { OnOk result (string_bytes text.new ≡ string_bytes text.old ++ thread_lines machine.now thread) }
{
    let Some(position) = machine.position_of(thread) else {
        return Ok(());
    };
    let line = ThreadLine {
        thread,
        at: instruction_at(machine, methods, Some(position)),
        awaited: awaited_by(machine, methods, thread),
    };
    write!(text, "{line}")?;
    Ok(())
}

/// Adds the lines of all threads.
fn add_threads(alloc: Global, text: &mut String, machine: &Machine) -> Result<(), NoMemory>
    ensures { OnOk result (string_bytes text.new ≡ string_bytes text.old ++ lines_below machine.now (length machine.now.threads)) }
{
    let methods = MethodPositions::new(alloc, machine.tree())?;
    for thread in 0..machine.started() {
        add_thread(text, machine, &methods, thread as u8)?;
    }
    Ok(())
}

/// Appends the number of a thread, given how many numbers precede it.
fn add_number(text: &mut String, before: usize, thread: usize) -> Result<(), NoMemory>
    ensures { OnOk result (string_bytes text.new ≡ string_bytes text.old ++ (separator before ++ decimal thread)) }
{
    if before > 0 {
        text.push_str(", ")?;
    }
    write!(text, "{thread}")?;
    Ok(())
}

/// Appends the numbers of the threads of a set in ascending order, as `0, 2`, and returns how many there are. The only error is out of memory;
/// the text may then have a part of the numbers.
pub fn add_thread_numbers(text: &mut String, set: &[bool]) -> Result<usize, NoMemory>
    ensures added { OnOk result (string_bytes text.new ≡ string_bytes text.old ++ numbers_below set.now (length set.now)) }
    ensures count { IfOk result (λ count. count ≡ count_below set.now (length set.now)) }
{
    let mut count = 0;
    for thread in 0..set.len() {
        if set[thread] {
            add_number(text, count, thread)?;
            count += 1;
        }
    }
    Ok(count)
}

/// Adds the line of the deadlocked threads, where there are any. The only error is out of memory.
pub fn add_deadlock(
    alloc: Global,
    text: &mut String,
    machine: &Machine,
    deadlocked: &[bool],
) -> Result<(), NoMemory>
    ensures { OnOk result (string_bytes text.new ≡ string_bytes text.old ++ deadlock_line machine.now deadlocked.now) }
{
    let mut numbers = String::new(alloc);
    let count = add_thread_numbers(&mut numbers, deadlocked)?;
    if count == 0 {
        return Ok(());
    }
    if count == machine.live() {
        text.push_str("deadlock: threads ")?;
    } else {
        text.push_str("partial deadlock: threads ")?;
    }
    text.push_str(numbers.as_str())?;
    text.push_str("\n")?;
    Ok(())
}

/// Reports each live thread's position, by its method and its instruction as a trace has them, and what it waits for where its next step is
/// blocked; and then the threads that are deadlocked, if any are. The machine does nothing. The text has whole lines of printable ASCII,
/// and is empty where no thread is live:
///
/// ```text
/// thread 0 is at P::Main+8  call void [mscorlib]System.Threading.Monitor::Enter(object), and waits for the monitor of an object of Account, held by thread 1
/// thread 1 is at Other::Run+4  callvirt instance void [cilvm]Cilvm.Thread::Join(), and waits for the end of thread 0
/// deadlock: threads 0, 1
/// ```
///
/// A thread is deadlocked that waits for the end of a deadlocked thread, or for a monitor that a deadlocked thread holds, or one that has
/// ended: none of them advances, whatever events follow, up to the step that uses up the budget of one. The line begins `deadlock` if all live
/// threads are deadlocked, so that none can advance, and `partial deadlock` if another live thread can. Without either line some live thread
/// can advance, if there is one.
///
/// The only error is out of memory.
pub fn explain_threads(alloc: Global, machine: &Machine) -> Result<String, NoMemory>
    ensures { IfOk result (λ text. (deadlocked : List Bool) × IsDeadlockOf machine.now deadlocked × (string_bytes text ≡ threads_text machine.now deadlocked)) }
{
    let deadlocked = deadlocked_threads(alloc, machine)?;
    let mut text = String::new(alloc);
    add_threads(alloc, &mut text, machine)?;
    add_deadlock(alloc, &mut text, machine, deadlocked.as_slice())?;
    Ok(text)
}
