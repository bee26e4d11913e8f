//! The lines that the numbers of a run are written as.

ghost use Rattle.std.specs.Prelude.{◌≡◌, ◌++◌, ◌≤◌, OnErr, OnOk};
ghost use Rattle.cil_model.specs.declared.limits.TheConstants.{MOST_THREADS};
ghost use Rattle.outputs.specs.Streams.{Fails, Takes};
ghost use Rattle.run_statistics.specs.Lines.{heap_words, most_text, statistics_text, steps_text, thread_text, total_text, words_in_use};
ghost use Rattle.shared_machine.specs.Histories.{events_of, reports_of};

use crate::counting::count;
use crate::quantity::Quantity;
use itoa::Buffer;
use outputs::{Device, Out};
use shared_machine::{History, Machine, Outcome};

/// Writes the numbers of a run, each in a line `NAME: NUMBER`: for each thread that was started its steps and those of them that were
/// blocked, then the events, the cycles of the collector that ended, the words in use at the end, those of the heap then, the most words that were
/// in use, where that number is given, and the refused allocations. A number above 2^64 - 1 is written as that. It takes no memory. After a failed
/// write a prefix of these lines is written.
pub fn write_statistics<E: Out>(
    outcome: &Outcome,
    most: Option<u64>,
    err: &mut E,
) -> Result<(), Device>
    ensures whole { OnOk result (Takes (E.taken err.old) (E.taken err.new)
        (statistics_text (events_of outcome.now.history.entries) (reports_of outcome.now.history.entries) outcome.now.machine most)) }
    ensures cut { OnErr result (Fails (E.taken err.old) (E.taken err.new)
        (statistics_text (events_of outcome.now.history.entries) (reports_of outcome.now.history.entries) outcome.now.machine most)) }
{
    write_steps(&outcome.history, outcome.machine.started(), err)?;
    write_totals(
        &outcome.history,
        words_in_use(&outcome.machine),
        heap_words(&outcome.machine),
        most,
        err,
    )
}

/// The words that objects take in all spaces of a machine.
pub(crate) fn words_in_use(machine: &Machine) -> u64
    ensures { result ≡ words_in_use machine.now }
{
    let (old, new) = machine.used();
    u64::from(old) + u64::from(new)
}

/// The words of all spaces of a machine.
fn heap_words(machine: &Machine) -> u64
    ensures { result ≡ heap_words machine.now }
{
    let (old, new) = machine.sizes();
    u64::from(old) + u64::from(new)
}

/// Writes the lines of that many threads, in the order of their numbers.
fn write_steps<E: Out>(history: &History, threads: usize, err: &mut E) -> Result<(), Device>
    requires { threads ≤ MOST_THREADS }
    ensures whole { OnOk result (Takes (E.taken err.old) (E.taken err.new)
        (steps_text (events_of history.now.entries) (reports_of history.now.entries) threads)) }
    ensures cut { OnErr result (Fails (E.taken err.old) (E.taken err.new)
        (steps_text (events_of history.now.entries) (reports_of history.now.entries) threads)) }
{
    for thread in 0..threads {
        write_thread(history, thread as u8, err)?;
    }
    Ok(())
}

/// Writes the two lines of a thread.
fn write_thread<E: Out>(history: &History, thread: u8, err: &mut E) -> Result<(), Device>
    ensures whole { OnOk result (Takes (E.taken err.old) (E.taken err.new)
        (thread_text (events_of history.now.entries) (reports_of history.now.entries) thread)) }
    ensures cut { OnErr result (Fails (E.taken err.old) (E.taken err.new)
        (thread_text (events_of history.now.entries) (reports_of history.now.entries) thread)) }
{
    let made = count(history, Quantity::Steps(thread));
    let blocked = count(history, Quantity::BlockedSteps(thread));
    let mut thread_digits = Buffer::new();
    let mut made_digits = Buffer::new();
    let mut blocked_digits = Buffer::new();
    let number = thread_digits.format(thread);
    let made_text = made_digits.format(made);
    let blocked_text = blocked_digits.format(blocked);
    err.write_texts(&[
        "steps of thread ",
        number,
        ": ",
        made_text,
        "\nblocked steps of thread ",
        number,
        ": ",
        blocked_text,
        "\n",
    ])
}

/// Writes the lines of the numbers that are not of one thread.
fn write_totals<E: Out>(
    history: &History,
    words: u64,
    heap: u64,
    most: Option<u64>,
    err: &mut E,
) -> Result<(), Device>
    ensures whole { OnOk result (Takes (E.taken err.old) (E.taken err.new)
        (total_text (events_of history.now.entries) (reports_of history.now.entries) words heap most)) }
    ensures cut { OnErr result (Fails (E.taken err.old) (E.taken err.new)
        (total_text (events_of history.now.entries) (reports_of history.now.entries) words heap most)) }
{
    let mut event_digits = Buffer::new();
    let mut cycle_digits = Buffer::new();
    let mut word_digits = Buffer::new();
    let mut heap_digits = Buffer::new();
    let mut most_digits = Buffer::new();
    let mut refused_digits = Buffer::new();
    let event_text = event_digits.format(count(history, Quantity::Events));
    let cycle_text = cycle_digits.format(count(history, Quantity::Cycles));
    let word_text = word_digits.format(words);
    let heap_text = heap_digits.format(heap);
    let (most_name, most_text, most_end) = most_line(most, &mut most_digits);
    let refused_text = refused_digits.format(count(history, Quantity::RefusedAllocations));
    err.write_texts(&[
        "events: ",
        event_text,
        "\ncollector cycles: ",
        cycle_text,
        "\nwords in use: ",
        word_text,
        "\nheap words: ",
        heap_text,
        "\n",
        most_name,
        most_text,
        most_end,
        "refused allocations: ",
        refused_text,
        "\n",
    ])
}

/// The three parts of the line of the most words in use; empty where that number is not known.
fn most_line(most: Option<u64>, digits: &mut Buffer) -> (&'static str, &str, &'static str)
    ensures { result.0.now ++ (result.1.now ++ result.2.now) ≡ most_text most }
{
    match most {
        Some(most) => ("most words in use: ", digits.format(most), "\n"),
        None => ("", "", ""),
    }
}
