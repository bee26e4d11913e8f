//! What stands beside and over the steps: names, ends, acknowledgements and lines of output.

use crate::layout::{LEFT, Layout, RIGHT};
use crate::marks::{Kind, Mark, part_of};
use crate::scene::{Lane, Scene};
use cil_model::reports::End;
use svg_text::{Class, Color, Content};

/// The most acknowledgements that are drawn one by one.
const MOST_DIAMONDS: usize = 80;

/// The most lines of output that are drawn, and the most bytes of each.
const MOST_PRINTS: usize = 14;

/// Appends what stands beside and over the steps, given what was printed.
pub(crate) fn add_above(page: &mut Content, layout: &Layout, scene: &Scene, console: &[u8]) {
    for (thread, lane) in scene.lanes.as_slice().iter().enumerate() {
        let y = layout.middle_y(thread);
        add_name(page, layout, thread, scene.part(lane.method), y);
        add_end(page, layout, thread, lane, y);
    }
    if scene.count(Kind::Ack) <= MOST_DIAMONDS {
        add_diamonds(page, layout, scene);
    }
    if scene.count(Kind::Print) <= MOST_PRINTS {
        add_prints(page, layout, scene, console);
    }
}

/// The name of a lane, whose middle is at this height: the thread, and its first method.
fn add_name(page: &mut Content, layout: &Layout, thread: usize, method: &[u8], y: usize) {
    let color = Color::Thread(thread);
    page.put("thread ");
    page.put_number(thread);
    if layout.is_compact {
        page.text(Class::NameLeft, color, LEFT - 10, y.saturating_add(4));
    } else {
        page.text(Class::NameLeft, color, LEFT - 10, y);
        let x = LEFT - 10;
        let below = y.saturating_add(13);
        page.label(Class::QuietLeft, Color::Inherit, x, below, shown(method));
    }
}

/// The last bytes of the name of a thread's first method, or that it has none.
fn shown(method: &[u8]) -> &[u8] {
    if method.is_empty() {
        b"never stepped"
    } else {
        last_bytes(method, 22)
    }
}

/// The last bytes of a text, at most `most`.
pub(crate) fn last_bytes(text: &[u8], most: usize) -> &[u8] {
    part_of(text, text.len().saturating_sub(most), text.len())
}

/// How a thread is at the end: a ring where it is done, a cross where it ended otherwise, and in words.
fn add_end(page: &mut Content, layout: &Layout, thread: usize, lane: &Lane, y: usize) {
    let x = layout.x(lane.to);
    let (class, words) = end_words(lane);
    match lane.end {
        None => {}
        Some(End::Done) => page.circle(Class::Ring, Color::Thread(thread), x, y, 5),
        Some(_) => {
            let y = y.saturating_sub(4);
            page.shape(Class::Cross, Color::Inherit, x - 4, y, "l8 8m0 -8l-8 8");
        }
    }
    page.label(
        class,
        Color::Inherit,
        RIGHT + 10,
        y.saturating_add(4),
        words,
    );
}

/// How a thread is at the end, in words, and their class.
fn end_words(lane: &Lane) -> (Class, &'static [u8]) {
    match lane.end {
        None if lane.is_waiting => (Class::Bad, b"live, waits"),
        None => (Class::Plain, b"live"),
        Some(End::Done) => (Class::Plain, b"done"),
        Some(end) => (Class::Bad, short_end(end)),
    }
}

/// How a thread ended early: by its budget, or by an exception, without its namespace and without `Exception` at its end.
fn short_end(end: End) -> &'static [u8] {
    let End::Fault(fault) = end else {
        return b"budget";
    };
    let name = fault.name().as_bytes();
    let mut from = 0;
    for (index, byte) in name.iter().enumerate() {
        if *byte == b'.' {
            from = index + 1;
        }
    }
    part_of(name, from, name.len().saturating_sub(9))
}

/// Each acknowledgement as a diamond.
fn add_diamonds(page: &mut Content, layout: &Layout, scene: &Scene) {
    for mark in scene.marks.as_slice() {
        if matches!(mark.kind, Kind::Ack) {
            let x = layout.middle_x(mark.from);
            let y = layout.middle_y(mark.lane) - 4;
            page.shape(Class::Diamond, Color::Inherit, x, y, "l4 4l-4 4l-4 -4z");
        }
    }
}

/// Each line of output over the step that printed it. It is left out where it would be written over the one before of the same thread.
fn add_prints(page: &mut Content, layout: &Layout, scene: &Scene, console: &[u8]) {
    let mut last_lane = 0;
    let mut last_x = 0;
    for mark in scene.marks.as_slice() {
        if matches!(mark.kind, Kind::Print) {
            let x = layout.middle_x(mark.from);
            let y = layout.lane_y(mark.lane);
            let line = printed(mark, console);
            let half = 4 + 3 * line.len().min(MOST_PRINTS);
            page.shape(Class::Mark, Color::Inherit, x, y + 2, "l-3 -5h6z");
            if mark.lane != last_lane || x >= half.saturating_add(last_x) {
                page.label(Class::Output, Color::Inherit, x, y - 5, line);
                last_lane = mark.lane;
                last_x = x + half;
            }
        }
    }
}

/// The first bytes of a line of output.
fn printed<'a>(print: &Mark, console: &'a [u8]) -> &'a [u8] {
    let to = print.other.min(print.value.saturating_add(MOST_PRINTS));
    part_of(console, print.value, to)
}
