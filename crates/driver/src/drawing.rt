//! Draws the run of a source.

ghost use Rattle.std.specs.Prelude.{◌≡◌, ◌⊎◌, ◌<◌, ◌≤◌, IfErr, IfOk, List, OnErr, OnOk, length, string_bytes, true};
ghost use Rattle.cil_model.specs.declared.reports.Report.{Report};
ghost use Rattle.outputs.specs.Streams.{Fails, HasGrown, Takes};
ghost use Rattle.run_picture.specs.Pictures.{IsPicture, IsPictureInPart};
ghost use Rattle.schedule_text.specs.Items.{events_of};
ghost use Rattle.schedule_text.specs.declared.errors.TheConstants.{MOST_EVENTS as MOST_SCHEDULED};
ghost use Rattle.source_runs.specs.acceptance.Failures.{IsOfWriting};
ghost use Rattle.source_runs.specs.acceptance.declared.failure.Failure.TheVariants.{Device as DeviceFailure};
ghost use Rattle.driver.specs.Outcomes.{HasNotTraced, IsDrawn, IsDrawnInPart};
ghost use Rattle.driver.specs.Outputs.{IsGivenUp, output_state};
ghost use Rattle.driver.specs.Pictures.{too_many_text, window_of};

use crate::command_outputs::Outputs;
use crate::showing::show_threads_of;
use cil_model::limits::Limits;
use commands::Part;
use outputs::Out;
use run_picture::{MOST_EVENTS, PictureError, Window, picture};
use schedule_text::Item;
use source_runs::{Failure, Machine, open};
use std::alloc::{AllocError, Global};
use std::fmt;
use std::fmt::Display;

/// Runs a source by the events of a text, prints a picture of a part of them and then the ends of the threads, and returns the status of the
/// run. Where the picture would have too many events, it runs nothing, reports their number, and returns 2.
pub(crate) fn show_picture<W: Out, E: Out>(
    alloc: Global,
    source: &[u8],
    limits: Limits,
    text: &[u8],
    part: Part,
    explain: bool,
    outputs: &mut Outputs<W, E>,
) -> Result<u8, Failure>
    ensures done { IfOk result (IsDrawn source.now limits text.now part explain
        (output_state W.taken E.taken outputs.old) (output_state W.taken E.taken outputs.new)) }
    ensures given_up { IfErr result (IsGivenUp (HasNotTraced source.now limits text.now) (IsDrawnInPart source.now limits text.now part explain)
        (output_state W.taken E.taken outputs.old) (output_state W.taken E.taken outputs.new)) }
{
    let (mut machine, items) = open(alloc, source, limits, text)?;
    let events = event_count(items.as_slice());
    let count = part.event_count(events);
    if count > MOST_EVENTS {
        return report_too_many(alloc, count, &mut outputs.err);
    }
    let window = window_of(part, events);
    draw(
        alloc,
        &mut machine,
        items.as_slice(),
        window,
        &mut outputs.out,
    )?;
    Ok(show_threads_of(alloc, explain, &machine, &mut outputs.err)?)
}

/// The number of events that the items of a schedule's text have.
fn event_count(items: &[Item]) -> usize
    requires few { length (events_of items.now) ≤ MOST_SCHEDULED }
    ensures { result ≡ length (events_of items.now) }
{
    let mut events = 0;
    for item in items {
        events += item.count;
    }
    events
}

/// The events that are drawn of a run with this number of events.
fn window_of(part: Part, events: usize) -> Window
    ensures { result ≡ window_of part events }
{
    Window {
        first: part.first as usize,
        last: part.last_of(events),
    }
}

/// Gives a machine the events of these items, and writes a picture of those in the window.
fn draw<W: Out>(
    alloc: Global,
    machine: &mut Machine,
    items: &[Item],
    window: Window,
    out: &mut W,
) -> Result<(), Failure>
    ensures pictured { OnOk result ((reports : List Report) × IsPicture machine.old (events_of items.now) machine.new reports window (W.taken out.old).contents (W.taken out.new).contents) }
    ensures stopped { OnErr result (IsPictureInPart machine.old (events_of items.now) machine.new window (W.taken out.old).contents (W.taken out.new).contents) }
    ensures kept { OnOk result ((W.taken out.new).failures ≡ (W.taken out.old).failures) }
    ensures device { IfErr result (λ failure. failure ≡ DeviceFailure → HasGrown (W.taken out.old).failures (W.taken out.new).failures) }
    ensures failed { IfErr result IsOfWriting }
{
    match picture(alloc, machine, items, window, out) {
        Ok(()) => Ok(()),
        Err(PictureError::Memory) => Err(Failure::Memory),
        Err(PictureError::Device) => Err(Failure::Device),
    }
}

/// Reports that a picture would have this number of events, and returns the status.
fn report_too_many<E: Out>(alloc: Global, count: usize, err: &mut E) -> Result<u8, Failure>
    ensures whole { IfOk result (λ status. (status ≡ 2) × Takes (E.taken err.old) (E.taken err.new) (too_many_text count)) }
    ensures cut { OnErr result ((E.taken err.new ≡ E.taken err.old) ⊎ Fails (E.taken err.old) (E.taken err.new) (too_many_text count)) }
    ensures device { IfErr result (λ failure. failure ≡ DeviceFailure → HasGrown (E.taken err.old).failures (E.taken err.new).failures) }
    ensures failed { IfErr result IsOfWriting }
{
    let line = too_many_line(alloc, count)?;
    err.write_whole(line.as_bytes())?;
    Ok(2)
}

/// The line that reports it.
fn too_many_line(alloc: Global, count: usize) -> Result<String, AllocError>
    ensures { IfOk result (λ line. string_bytes line ≡ too_many_text count) }
{
    let count = Grouped(count);
    format!(in alloc;
        "cilvm: {count} events: a picture has 20,000 at most; choose them by --from and --to\n"
    )
}

/// A number of four to nine digits, with a comma before each three that others precede.
#[derive(Clone, Copy)]
struct Grouped(usize);

impl fmt::Display for Grouped {
    ghost use Rattle.std.specs.Prelude.{Some};
    ghost use Rattle.driver.specs.Pictures.{group_digits};

    ghost output = { λ number. Some (group_digits number.0) };

    fn fmt<W: fmt::Write>(&self, f: &mut fmt::Formatter<W>) -> fmt::Result {
        let number = self.0;
        let last = LastThree(number);
        if number < 1_000_000 {
            write!(f, "{},{last}", number / 1_000)
        } else {
            let middle = LastThree(number / 1_000);
            write!(f, "{},{middle},{last}", number / 1_000_000)
        }
    }
}

/// The last three digits of a number.
#[derive(Clone, Copy)]
struct LastThree(usize);

impl fmt::Display for LastThree {
    ghost use Rattle.std.specs.Prelude.{Some};
    ghost use Rattle.driver.specs.Pictures.{last_three};

    ghost output = { λ number. Some (last_three number.0) };

    fn fmt<W: fmt::Write>(&self, f: &mut fmt::Formatter<W>) -> fmt::Result {
        let number = self.0;
        write!(
            f,
            "{}{}{}",
            number / 100 % 10,
            number / 10 % 10,
            number % 10
        )
    }
}
