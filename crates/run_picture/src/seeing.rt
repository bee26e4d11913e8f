//! What is gathered of an event.

ghost use Rattle.event_trace.specs.MethodPositions.{ArePositionsOf};

use crate::deadlocks::add_waits;
use crate::event_instructions::{ShortInstruction, instruction_of, is_entry};
use crate::fields::see_access;
use crate::monitors::Monitors;
use crate::parts::{write_member, write_part};
use crate::windows::Window;
use cil_model::events::Event;
use cil_model::memory::NoMemory;
use cil_model::phases::Phase;
use cil_model::reports::{End, Report};
use event_trace::{
    EventText, InstructionColumn, InstructionPosition, Machine, MethodPositions, Position,
    ReportText, Wait, deadlocked_threads, instruction_at,
};
use instruction_text::MethodNameText;
use object_memory::Addr;
use picture_scene::{COLLECTOR, Deadlock, Kind, Lane, MOST_TIPS, Mark, Part, Scene};
use std::alloc::{AllocError, Global};
use std::fmt::{Display, Write};

/// What a machine was like before an event.
#[derive(Clone, Copy)]
pub(crate) struct Before {
    /// Where the event's thread was.
    position: Option<Position>,
    /// The object whose monitor the event's step enters or exits.
    monitor: Option<Addr>,
    /// Whether the step is to enter a monitor that another thread holds.
    is_blocked: bool,
    /// The phase that the collector had posted.
    posted_phase: Phase,
    /// The number of bytes that were printed.
    printed: usize,
}

impl Before {
    pub(crate) fn new(machine: &Machine, event: Event) -> Before {
        let mut before = Before {
            position: None,
            monitor: None,
            is_blocked: false,
            posted_phase: machine.posted_phase(),
            printed: machine.console().len(),
        };
        match event {
            Event::Step(thread) => {
                before.position = machine.position_of(thread);
                before.monitor = machine.monitor_of(thread);
                before.is_blocked = before.monitor.is_some() && machine.wait_of(thread).is_some();
            }
            Event::Ack(thread) => before.position = machine.position_of(thread),
            Event::Gc => {}
        }
        before
    }
}

/// An event that is done.
#[derive(Clone, Copy)]
pub(crate) struct Done {
    /// Its number from 0, or that of the first one that is drawn, if it is before that.
    pub(crate) at: usize,
    /// The number of the event from which on its effects are seen.
    pub(crate) after: usize,
    /// Whether it is drawn.
    pub(crate) is_drawn: bool,
    /// Whether it has a tooltip.
    pub(crate) has_tip: bool,
    pub(crate) event: Event,
    pub(crate) report: Report,
    pub(crate) before: Before,
}

impl Done {
    /// The event of this number, from 0, given the events that are drawn.
    pub(crate) fn new(
        window: Window,
        number: usize,
        event: Event,
        report: Report,
        before: Before,
    ) -> Done {
        let first = window.first.saturating_sub(1);
        let at = number.max(first);
        let is_drawn = window.has(number);
        Done {
            at,
            after: if is_drawn { at.saturating_add(1) } else { at },
            is_drawn,
            has_tip: is_drawn && at < first.saturating_add(MOST_TIPS),
            event,
            report,
            before,
        }
    }

    /// The thread that has started others by it, if it has and is drawn.
    fn starter(&self) -> Option<u8> {
        match self.event {
            Event::Step(thread) if self.is_drawn => Some(thread),
            _ => None,
        }
    }

    /// Whether it is a step that has executed its instruction. The step that uses up the budget of its thread may be a blocked one.
    fn has_executed(&self) -> bool {
        match self.report {
            Report::Ran => true,
            Report::Ended(End::Budget) => !self.before.is_blocked,
            _ => false,
        }
    }
}

/// What is gathered of a run.
pub(crate) struct Gathering {
    pub(crate) scene: Scene,
    monitors: Monitors,
}

/// Each part is dropped.
impl Drop for Gathering {
    fn drop(self) {
        let Gathering {
            scene: _scene,
            monitors: _monitors,
        } = self;
    }
}

impl Gathering {
    /// What is to be seen of a machine before the first event that is drawn, which has this number.
    pub(crate) fn new(alloc: Global, machine: &Machine, at: usize) -> Gathering {
        let mut scene = Scene::new(alloc);
        see_machine(&mut scene, machine, at, None);
        Gathering {
            scene,
            monitors: Monitors::new(alloc),
        }
    }

    /// Gathers what is to be seen of an event that is done.
    pub(crate) fn see(
        &mut self,
        alloc: Global,
        machine: &Machine,
        methods: &MethodPositions,
        done: &Done,
    ) -> Result<(), NoMemory>
        requires { ArePositionsOf machine.now.tree methods.now }
    {
        let found = instruction_at(machine, methods, done.before.position);
        let position = found.as_ref();
        see_machine(&mut self.scene, machine, done.after, done.starter());
        self.see_event(alloc, machine, position, done)?;
        if done.has_tip {
            add_tip(&mut self.scene, position, done)?;
        }
        if self.scene.is_whole() {
            Ok(())
        } else {
            Err(NoMemory)
        }
    }

    /// What the event itself shows.
    fn see_event(
        &mut self,
        alloc: Global,
        machine: &Machine,
        position: Option<&InstructionPosition>,
        done: &Done,
    ) -> Result<(), NoMemory> {
        match done.event {
            Event::Step(thread) => self.see_step(alloc, machine, thread, position, done)?,
            Event::Ack(thread) => see_acknowledgement(&mut self.scene, machine, thread, done),
            Event::Gc => self.see_collector(alloc, machine, done)?,
        }
        Ok(())
    }

    /// A step of a thread.
    fn see_step(
        &mut self,
        alloc: Global,
        machine: &Machine,
        thread: u8,
        position: Option<&InstructionPosition>,
        done: &Done,
    ) -> Result<(), NoMemory> {
        let lane = usize::from(thread);
        if done.has_executed() {
            self.see_instruction(machine, lane, position, done)?;
        }
        name_lane(&mut self.scene, lane, position)?;
        if matches!(done.report, Report::Blocked) {
            self.see_wait(alloc, machine, thread, done.at)?;
        } else {
            see_progress(&mut self.scene, lane, done);
        }
        see_output(&mut self.scene, machine.console(), lane, done);
        Ok(())
    }

    /// The instruction that a step of a thread has executed.
    fn see_instruction(
        &mut self,
        machine: &Machine,
        lane: usize,
        position: Option<&InstructionPosition>,
        done: &Done,
    ) -> Result<(), AllocError> {
        let Some(instruction) = instruction_of(position) else {
            return Ok(());
        };
        if let Some(address) = done.before.monitor {
            if is_entry(instruction) {
                self.enter(machine, address, lane, done.at)?;
            } else if let Some(monitor) = self.monitors.number(machine, address) {
                self.scene.end(Kind::Held, lane, Some(monitor), done.after);
            }
        }
        if done.is_drawn {
            see_access(&mut self.scene, machine.tree(), instruction, lane, done.at)?;
        }
        Ok(())
    }

    /// A thread has entered the monitor of an object.
    fn enter(
        &mut self,
        machine: &Machine,
        address: Addr,
        lane: usize,
        at: usize,
    ) -> Result<(), AllocError> {
        if let Some(monitor) = self.monitors.enter(machine, address)? {
            self.scene.enter(lane, monitor, at);
            self.scene.monitors = self.monitors.count;
        }
        Ok(())
    }

    /// A step of a thread was blocked. The first one of a time of waiting may close a deadlock, of which the first one is kept.
    fn see_wait(
        &mut self,
        alloc: Global,
        machine: &Machine,
        thread: u8,
        at: usize,
    ) -> Result<(), NoMemory> {
        let (kind, value) = match machine.wait_of(thread) {
            Some(Wait::Monitor { owner, .. }) => (Kind::Wait, usize::from(owner)),
            Some(Wait::Join { thread: joined }) => (Kind::Join, usize::from(joined)),
            None => (Kind::Join, COLLECTOR),
        };
        let is_new = self.scene.block(usize::from(thread), at, kind, value);
        if is_new && self.scene.deadlock.is_none() {
            self.see_deadlock(alloc, machine, at)?;
        }
        Ok(())
    }

    /// Threads are perhaps deadlocked by an event.
    fn see_deadlock(
        &mut self,
        alloc: Global,
        machine: &Machine,
        at: usize,
    ) -> Result<(), NoMemory> {
        let deadlocked = deadlocked_threads(alloc, machine)?;
        let from = self.scene.text.len();
        let text = &mut self.scene.text;
        add_waits(text, machine, &self.monitors, deadlocked.as_slice())?;
        let to = self.scene.text.len();
        if from < to {
            let sentence = Part { from, to };
            self.scene.deadlock = Some(Deadlock { at, sentence });
        }
        Ok(())
    }

    /// An event of the collector. When it posts `ThreadFlip`, each object that a thread can reach has its final address of the cycle.
    fn see_collector(
        &mut self,
        alloc: Global,
        machine: &Machine,
        done: &Done,
    ) -> Result<(), AllocError> {
        let posted_phase = machine.posted_phase();
        if matches!(posted_phase, Phase::ThreadFlip)
            && !matches!(done.before.posted_phase, Phase::ThreadFlip)
        {
            self.monitors.forward(alloc, machine)?;
        }
        if done.is_drawn {
            self.scene.has_collector = true;
            if matches!(done.report, Report::CycleDone) {
                self.scene.cycles = self.scene.cycles.saturating_add(1);
            }
        }
        Ok(())
    }
}

/// The threads that were started by now, the last ones by this thread, the phase that is posted, and the words in use.
fn see_machine(scene: &mut Scene, machine: &Machine, at: usize, starter: Option<u8>) {
    for lane in scene.lanes.len()..machine.started() {
        scene.start(Lane::new(at, starter));
        see_phase(scene, lane, at, machine.phase_of(lane as u8));
    }
    see_phase(scene, COLLECTOR, at, Some(machine.posted_phase()));
    let (old, new) = machine.used();
    scene.change(Kind::Words, COLLECTOR, at, old as usize, new as usize);
}

/// From this event on a lane has this phase.
fn see_phase(scene: &mut Scene, lane: usize, at: usize, phase: Option<Phase>) {
    let position = match phase {
        None => return,
        Some(Phase::Idle) => 0,
        Some(Phase::Mark) => 1,
        Some(Phase::Allocate) => 2,
        Some(Phase::Copy) => 3,
        Some(Phase::PreFlip) => 4,
        Some(Phase::HeapFlip) => 5,
        Some(Phase::ThreadFlip) => 6,
        Some(Phase::Reclaim) => 7,
    };
    scene.change(Kind::Phase, lane, at, position, 0);
}

/// A step of a thread was not blocked: the thread ends by it, or waits no longer.
fn see_progress(scene: &mut Scene, lane: usize, done: &Done) {
    match done.report {
        Report::Ended(End::Budget) => scene.stop(lane, End::Budget, done.at, done.after),
        Report::Ended(end) => scene.stop(lane, end, done.at, done.at),
        _ => scene.advance(lane, done.at),
    }
}

/// What a step of a thread has printed, given all that is printed.
fn see_output(scene: &mut Scene, console: &[u8], lane: usize, done: &Done) {
    let from = done.before.printed;
    let to = console.len();
    if done.is_drawn && to > from {
        scene.add(Mark::at(Kind::Print, lane, done.at, from, to - 1));
    }
}

/// An acknowledgement of a thread.
fn see_acknowledgement(scene: &mut Scene, machine: &Machine, thread: u8, done: &Done) {
    let lane = usize::from(thread);
    see_phase(scene, lane, done.after, machine.phase_of(thread));
    if done.is_drawn && matches!(done.report, Report::Acked) {
        scene.add(Mark::at(Kind::Ack, lane, done.at, 0, 0));
    }
}

/// Names a lane by the method of the thread's first step.
fn name_lane(
    scene: &mut Scene,
    lane: usize,
    position: Option<&InstructionPosition>,
) -> Result<(), AllocError> {
    let Some(lane) = scene.lanes.as_mut_slice().get_mut(lane) else {
        return Ok(());
    };
    if let Some(at) = position {
        if lane.method.from == lane.method.to {
            let name = MethodNameText(&at.found.method.name);
            lane.method = write_member(&mut scene.text, &at.found.owner, &name)?;
        }
    }
    Ok(())
}

/// Adds the tooltip of an event, as in its line of a trace: its number from 1, the event, its report, and the instruction. A step has the short name of
/// its instruction too.
fn add_tip(
    scene: &mut Scene,
    position: Option<&InstructionPosition>,
    done: &Done,
) -> Result<(), AllocError> {
    let Part { from, to } = write_tip(&mut scene.text, position, done)?;
    scene.add(Mark::at(Kind::Tip, lane_of(done.event), done.at, from, to));
    if matches!(done.event, Event::Step(_)) {
        return add_short_name(scene, position, done);
    }
    Ok(())
}

/// Appends a tooltip.
fn write_tip(
    text: &mut String,
    position: Option<&InstructionPosition>,
    done: &Done,
) -> Result<Part, AllocError> {
    let from = text.len();
    let number = done.at.saturating_add(1);
    let event = EventText(done.event);
    let report = ReportText(done.report);
    let instruction = InstructionColumn(position.copied());
    write!(text, "{number} {event} {report}: {instruction}")?;
    let to = text.len();
    Ok(Part { from, to })
}

/// Adds the short name of the instruction of a step. Nothing where the thread was after its last one.
fn add_short_name(
    scene: &mut Scene,
    position: Option<&InstructionPosition>,
    done: &Done,
) -> Result<(), AllocError> {
    if let Some(instruction) = instruction_of(position) {
        let name = ShortInstruction(instruction);
        let Part { from, to } = write_part(&mut scene.text, &name)?;
        scene.add(Mark::at(Kind::Name, lane_of(done.event), done.at, from, to));
    }
    Ok(())
}

/// The lane of an event.
fn lane_of(event: Event) -> usize {
    match event {
        Event::Step(thread) | Event::Ack(thread) => usize::from(thread),
        Event::Gc => COLLECTOR,
    }
}
