//! Runs a machine by the events that items represent, and writes a line of each.

ghost use Rattle.std.specs.Prelude.{◌≡◌, ◌⊎◌, ◌+◌, ◌++◌, IfErr, IfOk, OnErr, OnOk, List, option_and_then, option_map};
ghost use Rattle.cil_model.specs.declared.reports.Report.{Report as AnyReport};
ghost use Rattle.interleaving_core.specs.Views.{phase_at};
ghost use Rattle.interleaving_core.specs.simulation.Transitions.{IsTransition};
ghost use Rattle.outputs.specs.Streams.{HasGrown};
ghost use Rattle.schedule_text.specs.Items.{events_of};
ghost use Rattle.event_trace.specs.Columns.{found_at, heap_for, line_of, position_for, thread_of};
ghost use Rattle.event_trace.specs.Lines.{method_and_pc};
ghost use Rattle.event_trace.specs.Pieces.{TakesAllBut};
ghost use Rattle.event_trace.specs.MethodPositions.{ArePositionsOf};
ghost use Rattle.event_trace.specs.Traces.{IsEventCut, IsTraced, IsTracedInPart};
ghost use Rattle.event_trace.specs.declared.errors.TraceError.TheVariants.{Device as CantWrite, Memory as MemoryRanOut};

use crate::columns::{EventColumns, HeapColumns};
use crate::errors::TraceError;
use crate::lines::TraceLine;
use crate::method_positions::MethodPositions;
use crate::owned_methods::InstructionPosition;
use crate::pieces::{write_end, write_piece};
use cil_model::events::Event;
use cil_model::memory::NoMemory;
use cil_model::phases::Phase;
use interleaving_core::{Machine, Position};
use outputs::Out;
use schedule_text::Item;
use std::alloc::Global;

/// Does the events that these items represent in order, as `Machine::run` does, and writes a line of each, and an empty line after the
/// last.
///
/// A line has ten columns, with a tab between two: the number of the event, from 1; the event as a schedule writes it; its report; the
/// instruction that its thread was at before it; how many frames the thread has after it; how many values are on the stack of the one
/// that runs then; the words that objects take then in the old space, or the only one, and in the new one; the phase that the collector
/// has posted; and the one that the thread has acknowledged. Where there is no such thread, a column is a hyphen. Each byte of a column
/// is printable ASCII.
///
/// Lines are put together and written in pieces of 32 KiB or more, what is left of them at the end. It takes memory for a list of where
/// each method is declared, for a piece and one line, and no more than the machine itself for events. It stops when memory runs out, and then
/// writes what it has put together; at the first write that fails; and, with `Memory`, before an event whose number no `usize` holds. Some of
/// the first events are done then, and a beginning of their lines is written, and no empty line unless all of them are done.
pub fn trace<W: Out>(
    alloc: Global,
    machine: &mut Machine,
    items: &[Item],
    out: &mut W,
) -> Result<(), TraceError>
    ensures traced { OnOk result ((reports : List AnyReport) × IsTraced machine.old (events_of items.now) machine.new reports (W.taken out.old).contents (W.taken out.new).contents) }
    ensures same { (machine.new.tree ≡ machine.old.tree) × (machine.new.limits ≡ machine.old.limits) }
    ensures stopped { OnErr result (IsTracedInPart machine.old (events_of items.now) machine.new (W.taken out.old).contents (W.taken out.new).contents) }
    ensures kept { OnOk result ((W.taken out.new).failures ≡ (W.taken out.old).failures) }
    ensures device { IfErr result (λ error. error ≡ CantWrite → HasGrown (W.taken out.old).failures (W.taken out.new).failures) }
{
    let methods = MethodPositions::new(alloc, machine.tree())?;
    let mut pending = Vec::new(alloc);
    let mut number = 0;
    for item in items {
        for _time in 0..item.count {
            number = next_number(number)?;
            let event = item.event;
            trace_event(alloc, machine, &methods, number, event, &mut pending, out)?;
        }
    }
    write_end(pending.as_slice(), out)?;
    Ok(())
}

/// The number of the next event. `Memory` where no `usize` holds it.
fn next_number(number: usize) -> Result<usize, TraceError>
    ensures next { IfOk result (λ next. next ≡ number + 1) }
    ensures memory { IfErr result (λ error. error ≡ MemoryRanOut) }
{
    match number.checked_add(1) {
        Some(next) => Ok(next),
        None => Err(TraceError::Memory),
    }
}

/// Does one event, and appends the line of its number to those that are pending, which are written once they fill a piece. If memory runs
/// out they are written too.
fn trace_event<W: Out>(
    alloc: Global,
    machine: &mut Machine,
    methods: &MethodPositions,
    number: usize,
    event: Event,
    pending: &mut Vec<u8>,
    out: &mut W,
) -> Result<(), TraceError>
    requires { ArePositionsOf machine.old.tree methods.now }
    ensures traced { OnOk result ((report : AnyReport) × IsTransition machine.old event (machine.new, report)
        × TakesAllBut pending.new.items (W.taken out.old).contents (W.taken out.new).contents (pending.old.items ++ line_of number event report machine.old machine.new)) }
    ensures same { (machine.new.tree ≡ machine.old.tree) × (machine.new.limits ≡ machine.old.limits) }
    ensures stopped { OnErr result (IsEventCut number event machine.old machine.new pending.old.items (W.taken out.old).contents (W.taken out.new).contents) }
    ensures kept { OnOk result ((W.taken out.new).failures ≡ (W.taken out.old).failures) }
    ensures device { IfErr result (λ error. error ≡ CantWrite → HasGrown (W.taken out.old).failures (W.taken out.new).failures) }
{
    match add_event(alloc, machine, methods, number, event, pending) {
        Ok(()) => {
            write_piece(pending, out)?;
            Ok(())
        }
        Err(error) => {
            out.write_whole(pending.as_slice())?;
            Err(TraceError::from(error))
        }
    }
}

/// Does one event, and appends the line of its number to those that are pending.
fn add_event(
    alloc: Global,
    machine: &mut Machine,
    methods: &MethodPositions,
    number: usize,
    event: Event,
    pending: &mut Vec<u8>,
) -> Result<(), NoMemory>
    requires { ArePositionsOf machine.old.tree methods.now }
    ensures traced { OnOk result ((report : AnyReport) × IsTransition machine.old event (machine.new, report)
        × (pending.new.items ≡ pending.old.items ++ line_of number event report machine.old machine.new)) }
    ensures same { (machine.new.tree ≡ machine.old.tree) × (machine.new.limits ≡ machine.old.limits) }
    ensures stopped { OnErr result ((machine.new ≡ machine.old) ⊎ ((report : AnyReport) × IsTransition machine.old event (machine.new, report))) }
    ensures kept { OnErr result (pending.new.items ≡ pending.old.items) }
{
    let before = position_for(machine, event);
    let report = machine.step(alloc, event)?;
    let line = TraceLine {
        event: EventColumns {
            number,
            event,
            report,
        },
        before: instruction_at(machine, methods, before),
        after: position_for(machine, event),
        heap: heap_for(machine, event),
    };
    let text = format!(in alloc; "{line}")?;
    pending.extend_from_slice(text.as_bytes())?;
    Ok(())
}

/// The instruction at a position of the program that a machine runs. None of no position.
pub fn instruction_at<'a>(
    machine: &'a Machine,
    methods: &'a MethodPositions,
    position: Option<Position>,
) -> Option<InstructionPosition<'a>>
    requires { ArePositionsOf machine.now.tree methods.now }
    ensures { option_map method_and_pc result ≡ option_and_then (found_at machine.now.tree) position }
{
    let position = position?;
    let found = methods.method(machine.tree(), position.method)?;
    Some(InstructionPosition {
        found,
        pc: position.pc,
    })
}

/// Where the thread of an event is. None where it isn't live, and of an event of the collector.
pub fn position_for(machine: &Machine, event: Event) -> Option<Position>
    ensures { result ≡ position_for machine.now event }
{
    match event {
        Event::Step(thread) | Event::Ack(thread) => machine.position_of(thread),
        Event::Gc => None,
    }
}

/// The heap and the phases, for the thread of an event.
fn heap_for(machine: &Machine, event: Event) -> HeapColumns
    ensures { result ≡ heap_for machine.now event }
{
    let (old_words, new_words) = machine.used();
    HeapColumns {
        old_words,
        new_words,
        posted_phase: machine.posted_phase(),
        own: own_phase(machine, event),
    }
}

/// The phase that the thread of an event has acknowledged. None where it isn't live, and of an event of the collector.
fn own_phase(machine: &Machine, event: Event) -> Option<Phase>
    ensures { result ≡ option_and_then (phase_at machine.now.posts) (thread_of event) }
{
    match event {
        Event::Step(thread) | Event::Ack(thread) => machine.phase_of(thread),
        Event::Gc => None,
    }
}
