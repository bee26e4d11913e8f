//! Runs a machine by the events that items represent, and draws those of a window.

ghost use Rattle.std.specs.Prelude.{◌≡◌, ◌⊎◌, ◌+◌, Bool, IfErr, IfOk, OnErr, OnOk, ℕ, List, [], Option, length, replicate, string_bytes};
ghost use Rattle.cil_model.specs.declared.reports.Report.{Report as AnyReport};
ghost use Rattle.event_trace.specs.interleaving_core.simulation.Transitions.{IsTransition};
ghost use Rattle.outputs.specs.Streams.{HasGrown};
ghost use Rattle.schedule_text.specs.Items.{events_of};
ghost use Rattle.event_trace.specs.Deadlocks.{IsDeadlockOf};
ghost use Rattle.event_trace.specs.MethodPositions.{ArePositionsOf};
ghost use Rattle.run_picture.specs.Pictures.{AreSketched, IsDrawn, IsPicture, IsPictureInPart};
ghost use Rattle.run_picture.specs.Rows.{drawn_rows};
ghost use Rattle.run_picture.specs.declared.errors.PictureError.TheVariants.{Device as CantWrite, Memory as MemoryRanOut};
ghost use Rattle.run_picture.specs.Sentences.{deadlock_sentence};
ghost use Rattle.run_picture.specs.declared.rows.TheConstants.{ROWS};
ghost use Rattle.run_picture.specs.declared.windows.Window.{Window as AnyWindow};

use crate::deadlocks::deadlock_sentence;
use crate::document::document;
use crate::errors::PictureError;
use crate::rows::{Rows, row_of};
use crate::seeing::{Before, Done, Gathering};
use crate::windows::Window;
use cil_model::events::Event;
use cil_model::memory::NoMemory;
use cil_model::reports::Report;
use event_trace::{Machine, MethodPositions};
use outputs::Out;
use picture_scene::Layout;
use schedule_text::Item;
use std::alloc::{AllocError, Global};

/// Does the events that these items represent, in order, as `Machine::run` does, and writes a picture of those of the window: one document
/// of SVG, which is put together in memory and written once, at the end. If threads are deadlocked after the last event, a sentence names exactly those
/// (`event_trace::deadlocked_threads`).
///
/// Of a window with more events than `MOST_EVENTS` the first ones are drawn, and where it has none, the picture is of none. It takes memory for
/// the document and what is gathered for it, and no more than the machine itself for events. It stops as soon as memory runs out, before
/// anything is written, with `Memory`; with `Device` where the write fails, of which a beginning of the document is left.
pub fn picture<W: Out>(
    alloc: Global,
    machine: &mut Machine,
    items: &[Item],
    window: Window,
    out: &mut W,
) -> Result<(), PictureError>
    ensures drawn { OnOk result ((reports : List AnyReport) × IsPicture machine.old (events_of items.now) machine.new reports window (W.taken out.old).contents (W.taken out.new).contents) }
    ensures same { (machine.new.tree ≡ machine.old.tree) × (machine.new.limits ≡ machine.old.limits) }
    ensures stopped { OnErr result (IsPictureInPart machine.old (events_of items.now) machine.new window (W.taken out.old).contents (W.taken out.new).contents) }
    ensures kept { OnOk result ((W.taken out.new).failures ≡ (W.taken out.old).failures) }
    ensures device { IfErr result (λ error. error ≡ CantWrite → HasGrown (W.taken out.old).failures (W.taken out.new).failures) }
{
    let methods = MethodPositions::new(alloc, machine.tree())?;
    let mut sketch = Sketch::new(alloc, machine, window.clamp())?;
    let number = sketch.perform_all(alloc, machine, &methods, items)?;
    let document = sketch.document(alloc, machine, number)?;
    out.write_whole(document.as_str().as_bytes())?;
    Ok(())
}

/// The number of the next event. `Memory` where no `usize` holds it.
fn next_number(number: usize) -> Result<usize, PictureError>
    ensures next { IfOk result (λ next. next ≡ number + 1) }
    ensures memory { IfErr result (λ error. error ≡ MemoryRanOut) }
{
    match number.checked_add(1) {
        Some(next) => Ok(next),
        None => Err(PictureError::Memory),
    }
}

/// What is gathered for a picture.
struct Sketch {
    window: Window,
    rows: Rows,
    seen: Gathering,
}

/// Each part is dropped.
impl Drop for Sketch {
    fn drop(self) {
        let Sketch {
            window: _window,
            rows: _rows,
            seen: _seen,
        } = self;
    }
}

impl Sketch {
    /// A sketch of a machine before its events: nothing is drawn.
    fn new(alloc: Global, machine: &Machine, window: Window) -> Result<Sketch, NoMemory>
        ensures { IfOk result (λ sketch. (sketch.window ≡ window) × (sketch.rows.rows.items ≡ replicate ROWS [])) }
    {
        let rows = Rows::new(alloc)?;
        let seen = Gathering::new(alloc, machine, window.first.saturating_sub(1));
        Ok(Sketch { window, rows, seen })
    }

    /// Does the events that items represent, in order, and draws those of the window. Returns how many events there are.
    fn perform_all(
        &mut self,
        alloc: Global,
        machine: &mut Machine,
        methods: &MethodPositions,
        items: &[Item],
    ) -> Result<usize, PictureError>
        requires positions { ArePositionsOf machine.old.tree methods.now }
        requires empty { self.old.rows.rows.items ≡ replicate ROWS [] }
        ensures sketched { OnOk result (AreSketched machine.old (events_of items.now) machine.new self.old.window self.new.rows.rows.items) }
        ensures number { IfOk result (λ number. number ≡ length (events_of items.now)) }
        ensures same { (machine.new.tree ≡ machine.old.tree) × (machine.new.limits ≡ machine.old.limits) }
        ensures stopped { OnErr result ((window : AnyWindow) (out : Option (List ℕ)) → IsPictureInPart machine.old (events_of items.now) machine.new window out out) }
        ensures memory { IfErr result (λ error. error ≡ MemoryRanOut) }
    {
        let mut number = 0;
        for item in items {
            for _time in 0..item.count {
                self.perform(alloc, machine, methods, number, item.event)?;
                number = next_number(number)?;
            }
        }
        Ok(number)
    }

    /// Does the event of this number, from 0, and draws it.
    fn perform(
        &mut self,
        alloc: Global,
        machine: &mut Machine,
        methods: &MethodPositions,
        number: usize,
        event: Event,
    ) -> Result<(), NoMemory>
        requires { ArePositionsOf machine.old.tree methods.now }
        ensures done { OnOk result ((report : AnyReport) × IsTransition machine.old event (machine.new, report) × (self.new.rows.rows.items ≡ drawn_rows self.old.window number event report self.old.rows.rows.items)) }
        ensures window { self.new.window ≡ self.old.window }
        ensures same { (machine.new.tree ≡ machine.old.tree) × (machine.new.limits ≡ machine.old.limits) }
        ensures stopped { OnErr result ((machine.new ≡ machine.old) ⊎ ((report : AnyReport) × IsTransition machine.old event (machine.new, report))) }
    {
        let before = Before::new(machine, event);
        let report = machine.step(alloc, event)?;
        self.draw(number, event, report)?;
        if number < self.window.last {
            let done = Done::new(self.window, number, event, report, before);
            self.seen.see(alloc, machine, methods, &done)?;
        }
        Ok(())
    }

    /// Draws an event in its row, where it is in the window.
    fn draw(&mut self, number: usize, event: Event, report: Report) -> Result<(), AllocError>
        ensures drawn { OnOk result (self.new.rows.rows.items ≡ drawn_rows self.old.window number event report self.old.rows.rows.items) }
        ensures window { self.new.window ≡ self.old.window }
    {
        if self.window.has(number) {
            self.rows.draw(row_of(event, report), number)?;
        }
        Ok(())
    }

    /// The document of a machine after all events, given their number.
    fn document(
        &mut self,
        alloc: Global,
        machine: &Machine,
        events: usize,
    ) -> Result<String, NoMemory>
        ensures { IfOk result (λ text. (deadlocked : List Bool) × IsDeadlockOf machine.now deadlocked × IsDrawn (string_bytes text) self.old.rows.rows.items (deadlock_sentence deadlocked)) }
    {
        let sentence = deadlock_sentence(alloc, machine)?;
        self.seen.scene.finish();
        if !self.seen.scene.is_whole() {
            return Err(NoMemory);
        }
        let Window { first, last } = self.window;
        let layout = Layout::new(
            first,
            last,
            events,
            &self.seen.scene,
            !sentence.as_str().is_empty(),
        );
        let text = document(
            alloc,
            machine.console(),
            &layout,
            &self.seen.scene,
            &self.rows,
            sentence.as_str(),
        )?;
        Ok(text)
    }
}
