//! What lies below the rows: titles, the grounds of the lanes, tints of phases, the grid, and times of life and of waiting.

use crate::layout::{LEFT, Layout, RIGHT, TOP, WHOLE_WIDTH, WIDTH};
use crate::marks::{COLLECTOR, Kind, Mark};
use crate::phases::class_of_phase;
use crate::scene::Scene;
use std::alloc::Global;
use svg_text::{Area, Class, Color, Content, STYLE, Tag};

/// Appends the style, the titles and the grounds of the lanes.
pub fn add_ground(page: &mut Content, layout: &Layout, scene: &Scene) {
    let whole = Area {
        x: 0,
        y: 0,
        width: WHOLE_WIDTH,
        height: layout.height,
    };
    page.words(Tag::Style, &[], STYLE.as_bytes());
    page.rect(Class::Back, whole);
    add_titles(page, layout, scene);
    for thread in 0..layout.lanes {
        add_lane(page, layout, thread);
    }
    if layout.has_collector {
        add_lane(page, layout, COLLECTOR);
    }
}

/// The titles: which events are drawn, and how many threads and cycles of the collector there are.
fn add_titles(page: &mut Content, layout: &Layout, scene: &Scene) {
    put_events(page, layout);
    page.text(Class::Head, Color::Inherit, 24, 28);
    put_count(page, layout.lanes, " thread");
    if layout.has_collector {
        page.put(", ");
        put_count(page, scene.cycles, " cycle");
        page.put(" of the collector");
    }
    page.text(Class::Quiet, Color::Inherit, 24, 48);
}

/// Puts which events are drawn.
fn put_events(page: &mut Content, layout: &Layout) {
    if layout.is_empty {
        page.put("no event");
    } else {
        put_event(page, "events ", layout.start);
        page.put(" to ");
        put_grouped(page, layout.end());
    }
}

/// Puts how many there are, and what they are.
fn put_count(page: &mut Content, count: usize, what: &str) {
    page.put_number(count);
    page.put(what);
    if count != 1 {
        page.put("s");
    }
}

/// Puts words, and the number from 1 of an event, given that from 0.
pub(crate) fn put_event(page: &mut Content, words: &str, event: usize) {
    page.put(words);
    put_grouped(page, event.saturating_add(1));
}

/// Puts a number with a comma between each three digits.
pub(crate) fn put_grouped(page: &mut Content, number: usize) {
    let thousands = number / 1_000;
    if thousands == 0 {
        page.put_number(number);
    } else if thousands < 1_000 {
        page.put_number(thousands);
        put_three(page, number);
    } else {
        page.put_number(thousands / 1_000);
        put_three(page, thousands);
        put_three(page, number);
    }
}

/// Puts a comma and the last three digits of a number.
fn put_three(page: &mut Content, number: usize) {
    page.put_command(',', number / 100 % 10);
    page.put_number(number / 10 % 10);
    page.put_number(number % 10);
}

/// The ground of a lane.
fn add_lane(page: &mut Content, layout: &Layout, lane: usize) {
    let area = Area {
        x: LEFT,
        y: layout.lane_y(lane),
        width: WIDTH,
        height: layout.lane_height(lane),
    };
    page.rect(Class::Lane, area);
}

/// The tints of all lanes, where x counts events: of a thread's by the phases that it has acknowledged, of the collector's by those that it has posted.
pub fn tints(alloc: Global, layout: &Layout, scene: &Scene) -> Content {
    let mut content = Content::new(alloc);
    for (thread, lane) in scene.lanes.as_slice().iter().enumerate() {
        add_tints(&mut content, layout, scene, thread, lane.to);
    }
    if layout.has_collector {
        add_tints(&mut content, layout, scene, COLLECTOR, usize::MAX);
    }
    content
}

/// The tints of one lane, up to an event.
fn add_tints(content: &mut Content, layout: &Layout, scene: &Scene, lane: usize, end: usize) {
    let end = end.min(layout.end());
    for mark in scene.marks.as_slice() {
        if mark.is(Kind::Phase, lane) && mark.value > 0 {
            add_tint(content, layout, mark, mark.to.min(end));
        }
    }
}

/// The tint of a phase, up to an event.
fn add_tint(content: &mut Content, layout: &Layout, phase: &Mark, to: usize) {
    if phase.from < to {
        let area = Area {
            x: phase.from,
            y: layout.lane_y(phase.lane),
            width: to - phase.from,
            height: layout.lane_height(phase.lane),
        };
        content.rect(class_of_phase(phase.value), area);
    }
}

/// How many events are between two lines of the grid.
const GRID_STEPS: [usize; 10] = [1, 2, 5, 10, 20, 50, 100, 200, 500, 1_000];

/// The first of these steps by which at most thirteen lines are drawn. The largest pictures have a larger one.
fn grid_step(count: usize) -> usize {
    for step in &GRID_STEPS {
        if count <= step.saturating_mul(12) {
            return *step;
        }
    }
    2_000
}

/// The lines of the grid and their numbers.
fn add_grid(page: &mut Content, layout: &Layout) {
    let step = grid_step(layout.count).max(1);
    let y = layout.axis_y;
    let from = layout.start.div_ceil(step);
    for tick in 0..14 {
        let at = from.saturating_add(tick).saturating_mul(step);
        if at <= layout.end() {
            let x = layout.x(at);
            page.line(Class::Grid, Color::Inherit, x, TOP - 4, 'V', y);
            put_grouped(page, at);
            page.text(Class::QuietMiddle, Color::Inherit, x, y + 14);
        }
    }
    page.label(Class::Quiet, Color::Inherit, RIGHT + 30, y + 14, b"events");
}

/// Appends the grid, the line of the life of each thread, and its times of waiting.
pub fn add_below(page: &mut Content, layout: &Layout, scene: &Scene) {
    add_grid(page, layout);
    for (thread, lane) in scene.lanes.as_slice().iter().enumerate() {
        let y = layout.middle_y(thread);
        let from = layout.x(lane.from);
        let to = layout.x(lane.to);
        page.line(Class::Life, Color::Thread(thread), from, y, 'H', to);
        add_waits(page, layout, scene, thread, y);
    }
}

/// The times of waiting of a thread.
fn add_waits(page: &mut Content, layout: &Layout, scene: &Scene, thread: usize, y: usize) {
    let class = if layout.is_compact {
        Class::HatchSlim
    } else {
        Class::Hatch
    };
    for mark in scene.marks.as_slice() {
        let from = layout.x(mark.from);
        let to = layout.x(mark.to);
        if mark.is_wait(thread) && from < to {
            page.line(class, Color::Inherit, from, y, 'H', to);
        }
    }
}
