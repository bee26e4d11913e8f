//! The lane of the collector, and the curve of the words in use.

use crate::ground::put_grouped;
use crate::layout::{HEAP_HEIGHT, LEFT, Layout, RIGHT, WIDTH};
use crate::marks::{COLLECTOR, Kind, Mark};
use crate::phases::name_of_phase;
use crate::scene::Scene;
use svg_text::{Area, Class, Color, Content};

/// Appends the names of the collector's lane, and those of its phases that have room.
pub(crate) fn add_collector(page: &mut Content, layout: &Layout, scene: &Scene) {
    let y = layout.collector_y;
    let x = LEFT - 10;
    page.label(Class::NameLeft, Color::Inherit, x, y + 12, b"collector");
    page.label(Class::QuietLeft, Color::Inherit, x, y + 25, b"phase posted");
    for mark in scene.marks.as_slice() {
        if mark.is(Kind::Phase, COLLECTOR) {
            add_phase(page, layout, mark);
        }
    }
}

/// The name of a phase that the collector has posted, if it has room.
fn add_phase(page: &mut Content, layout: &Layout, phase: &Mark) {
    let name = name_of_phase(phase.value);
    let from = layout.x(phase.from);
    if phase.value > 0 && layout.x(phase.to) > from + name.len().min(100) * 7 {
        let y = layout.collector_y + 25;
        page.label(Class::Small, Color::Inherit, from + 3, y, name.as_bytes());
    }
}

/// Appends the words in use, as steps.
pub(crate) fn add_heap(page: &mut Content, layout: &Layout, scene: &Scene) {
    let (old, new) = most_words(scene);
    let most = old.max(new).max(1);
    let area = Area {
        x: LEFT,
        y: layout.heap_y,
        width: WIDTH,
        height: HEAP_HEIGHT,
    };
    page.rect(Class::Lane, area);
    add_scale(page, layout, most, new > 0);
    add_curve(page, layout, scene, most, false);
    if new > 0 {
        add_curve(page, layout, scene, most, true);
    }
}

/// The names beside the curves, of which there are two if there is a new space, and the numbers of words at their upper and lower ends.
fn add_scale(page: &mut Content, layout: &Layout, most: usize, has_new: bool) {
    let y = layout.heap_y;
    let x = LEFT - 10;
    let right = RIGHT + 10;
    let spaces: &[u8] = if has_new {
        b"old, new space"
    } else {
        b"one space"
    };
    page.label(Class::NameLeft, Color::Inherit, x, y + 12, b"words in use");
    page.label(Class::QuietLeft, Color::Inherit, x, y + 26, spaces);
    put_grouped(page, most);
    page.text(Class::Quiet, Color::Inherit, right, y + 14);
    page.label(Class::Quiet, Color::Inherit, right, y + HEAP_HEIGHT, b"0");
}

/// The most words that were in use in the old or only space, and in the new one.
fn most_words(scene: &Scene) -> (usize, usize) {
    let mut old = 0;
    let mut new = 0;
    for mark in scene.marks.as_slice() {
        if matches!(mark.kind, Kind::Words) {
            old = old.max(mark.value);
            new = new.max(mark.other);
        }
    }
    (old, new)
}

/// The curve of a space over the area below it.
fn add_curve(page: &mut Content, layout: &Layout, scene: &Scene, most: usize, is_new: bool) {
    let (line, area) = if is_new {
        (Class::New, Class::NewArea)
    } else {
        (Class::Old, Class::OldArea)
    };
    put_curve(page, layout, scene, most, is_new);
    page.put_command('V', layout.heap_y + HEAP_HEIGHT);
    page.put_command('H', LEFT);
    page.put("z");
    page.path(area, Color::Inherit);
    put_curve(page, layout, scene, most, is_new);
    page.path(line, Color::Inherit);
}

/// Puts a step wherever the words of a space change, up to the end.
fn put_curve(page: &mut Content, layout: &Layout, scene: &Scene, most: usize, is_new: bool) {
    let mut last = 0;
    for mark in scene.marks.as_slice() {
        if matches!(mark.kind, Kind::Words) {
            let words = if is_new { mark.other } else { mark.value };
            let x = layout.x(mark.from);
            let y = layout.level(words, most);
            if last == 0 {
                page.put_point('M', x, y);
            } else if y != last {
                page.put_command('H', x);
                page.put_command('V', y);
            }
            last = y;
        }
    }
    page.put_command('H', RIGHT);
}
