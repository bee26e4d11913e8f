//! Arrows between lanes: starts, waits and joins, and a deadlock.

use crate::ground::put_event;
use crate::layout::{Layout, TOP};
use crate::marks::{Kind, Mark, OPEN};
use crate::scene::Scene;
use svg_text::{Class, Color, Content};

/// The most waits of which each one has an arrow.
const MOST_ARROWS: usize = 60;

/// Appends the arrows between the lanes.
pub(crate) fn add_arrows(page: &mut Content, layout: &Layout, scene: &Scene) {
    let mut left = MOST_ARROWS;
    for (thread, lane) in scene.lanes.as_slice().iter().enumerate() {
        if let Some(starter) = lane.starter {
            let x = layout.x(lane.from);
            let from = layout.middle_y(usize::from(starter));
            let to = layout.middle_y(thread);
            add_arrow(page, Class::Start, Class::StartTip, x, from, to);
        }
        if lane.waits <= left {
            left -= lane.waits;
            add_waits(page, layout, scene, thread);
        }
    }
    add_deadlock(page, layout, scene);
}

/// An arrow for each wait of a thread: to the owner of the monitor as it begins, or from the end of the thread that it waits for.
fn add_waits(page: &mut Content, layout: &Layout, scene: &Scene, thread: usize) {
    for mark in scene.marks.as_slice() {
        if mark.is(Kind::Wait, thread) {
            let x = layout.x(mark.from) + 2;
            let from = layout.middle_y(thread);
            let to = layout.middle_y(mark.value);
            add_arrow(page, Class::Wait, Class::WaitTip, x, from, to);
        } else if mark.is(Kind::Join, thread) {
            add_join(page, layout, scene, mark);
        }
    }
}

/// A dashed line from the end of a thread to the step of the one that waited for it. None where that one ended before.
fn add_join(page: &mut Content, layout: &Layout, scene: &Scene, wait: &Mark) {
    if let Some(joined) = scene.lanes.as_slice().get(wait.value) {
        if joined.to <= wait.to && wait.to < OPEN {
            page.put_point('M', layout.x(joined.to), layout.middle_y(wait.value));
            page.put_point('L', layout.x(wait.to), layout.middle_y(wait.lane));
            page.path(Class::Join, Color::Inherit);
        }
    }
}

/// A vertical line, and the tip of an arrow at its end.
fn add_arrow(page: &mut Content, class: Class, tip: Class, x: usize, from: usize, to: usize) {
    let commands = if from < to { "l-3 -6h6z" } else { "l-3 6h6z" };
    page.line(class, Color::Inherit, x, from, 'V', to);
    page.shape(tip, Color::Inherit, x, to, commands);
}

/// The event by which threads became deadlocked, and who waits for whom.
fn add_deadlock(page: &mut Content, layout: &Layout, scene: &Scene) {
    if let Some(deadlock) = scene.deadlock {
        let x = layout.x(deadlock.at);
        let to = layout.collector_y;
        page.line(Class::Dotted, Color::Inherit, x, TOP - 12, 'V', to);
        page.label(Class::Bad, Color::Inherit, x + 4, TOP - 6, b"deadlock");
        put_event(page, "deadlock at event ", deadlock.at);
        page.put(": ");
        page.put(scene.words(deadlock.sentence));
        page.text(Class::Bad, Color::Inherit, 24, layout.deadlock_y);
    }
}
