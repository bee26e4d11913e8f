//! Pictures of the schedules of outcomes: a column for each thread.

ghost use Rattle.std.specs.Prelude.{◌≡◌, IfErr};
ghost use Rattle.driver.specs.Explorations.{IsNotPictured};
ghost use Rattle.event_trace.specs.MethodPositions.{ArePositionsOf};

use cil_model::events::Event;
use cil_model::instructions::Instruction;
use cil_model::limits::{Limits, MOST_THREADS};
use cil_model::memory::NoMemory;
use cil_model::types::ClassName;
use event_trace::{Machine, MethodPositions, explain_threads, instruction_at};
use instruction_text::{CharactersText, InstructionText, MethodNameText};
use name_tables::bodies::lines_of;
use source_runs::{Failure, machine_of};
use std::alloc::Global;

/// The width of the column of an event's number.
const NUMBER_WIDTH: usize = 7;

/// The width of the column of a thread.
const THREAD_WIDTH: usize = 34;

/// A picture in progress, and the number of local instructions that each thread has run since its last row.
#[derive(Drop)]
struct Picture {
    text: String,
    local: [usize; MOST_THREADS],
}

/// A picture of the run of a source by these events: a line for each instruction that is not local, with the number of its event, in the column of its
/// thread; `+2` means two local instructions before it. The lines that explain what live threads wait for follow, and an empty line.
pub(crate) fn picture_of(
    alloc: Global,
    source: &[u8],
    limits: Limits,
    events: &[Event],
) -> Result<String, Failure>
    ensures { IfErr result (IsNotPictured source.now limits) }
{
    let mut machine = machine_of(alloc, source, limits)?;
    let methods = MethodPositions::new(alloc, machine.tree())?;
    let mut picture = Picture {
        text: String::new(alloc),
        local: [0; MOST_THREADS],
    };
    for (index, event) in events.iter().enumerate() {
        let number = index.saturating_add(1);
        picture.add_event(alloc, &mut machine, &methods, number, *event)?;
    }
    Ok(picture.finish(alloc, &machine)?)
}

impl Picture {
    /// Does an event, and appends its line unless it is a local instruction.
    fn add_event(
        &mut self,
        alloc: Global,
        machine: &mut Machine,
        methods: &MethodPositions,
        number: usize,
        event: Event,
    ) -> Result<(), NoMemory>
        requires { ArePositionsOf machine.old.tree methods.now }
        ensures { machine.new.tree ≡ machine.old.tree }
    {
        if let Event::Step(thread) = event {
            if machine.is_next_local(thread) {
                self.count_local(thread);
            } else {
                self.add_row(alloc, machine, methods, number, thread)?;
            }
        }
        let _report = machine.step(alloc, event)?;
        Ok(())
    }

    /// Counts a local instruction of a thread.
    fn count_local(&mut self, thread: u8) {
        if let Some(count) = self.local.get_mut(usize::from(thread)) {
            *count = count.saturating_add(1);
        }
    }

    /// Appends the line of the next instruction of a thread.
    fn add_row(
        &mut self,
        alloc: Global,
        machine: &Machine,
        methods: &MethodPositions,
        number: usize,
        thread: u8,
    ) -> Result<(), NoMemory>
        requires { ArePositionsOf machine.now.tree methods.now }
    {
        let cell = cell_of(alloc, machine, methods, thread)?;
        let digits = format!(in alloc; "{number}")?;
        push_spaces(&mut self.text, NUMBER_WIDTH.saturating_sub(digits.len()))?;
        write!(self.text, "{digits}  ")?;
        push_spaces(
            &mut self.text,
            usize::from(thread).saturating_mul(THREAD_WIDTH),
        )?;
        if let Some(count) = self.local.get_mut(usize::from(thread)) {
            if *count > 0 {
                write!(self.text, "+{} ", *count)?;
            }
            *count = 0;
        }
        write!(self.text, "{cell}\n")?;
        Ok(())
    }

    /// The whole picture, with the names of the columns above.
    fn finish(self, alloc: Global, machine: &Machine) -> Result<String, NoMemory> {
        let mut text = String::new(alloc);
        push_spaces(&mut text, NUMBER_WIDTH.saturating_add(2))?;
        for thread in 0..machine.started() {
            let name = format!(in alloc; "thread {thread}")?;
            text.push_str(name.as_str())?;
            let is_last = thread.saturating_add(1) == machine.started();
            if !is_last {
                push_spaces(&mut text, THREAD_WIDTH.saturating_sub(name.len()))?;
            }
        }
        let rows = self.text;
        let explained = explain_threads(alloc, machine)?;
        write!(text, "\n{rows}{explained}\n")?;
        Ok(text)
    }
}

/// The next instruction of a thread. Of a call, the name of the class without its namespace, and of the method.
fn cell_of(
    alloc: Global,
    machine: &Machine,
    methods: &MethodPositions,
    thread: u8,
) -> Result<String, NoMemory>
    requires { ArePositionsOf machine.now.tree methods.now }
{
    let position = machine.position_of(thread);
    let Some(at) = instruction_at(machine, methods, position) else {
        return Ok(format!(in alloc; "-")?);
    };
    let Some(line) = lines_of(at.found.method).get(at.pc as usize) else {
        return Ok(format!(in alloc; "-")?);
    };
    match &line.instruction {
        Instruction::Call { method, .. } => {
            let class = short_name(&method.owner);
            let name = MethodNameText(&method.name);
            Ok(format!(in alloc; "call {class}::{name}")?)
        }
        Instruction::CallVirtual { owner, name, .. } => {
            let class = short_name(owner);
            let name = CharactersText(name);
            Ok(format!(in alloc; "callvirt {class}::{name}")?)
        }
        instruction => {
            let text = InstructionText(instruction);
            Ok(format!(in alloc; "{text}")?)
        }
    }
}

/// The name of a class without its namespace.
fn short_name(class: &ClassName) -> &str {
    let name = class.name.as_str();
    match name.rsplit_once('.') {
        Some((_, last)) => last,
        None => name,
    }
}

/// Appends spaces.
fn push_spaces(text: &mut String, count: usize) -> Result<(), NoMemory> {
    for _space in 0..count {
        text.push(' ')?;
    }
    Ok(())
}
