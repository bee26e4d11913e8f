//! Lines of static fields: loads, stores and lost updates.

use crate::above::last_bytes;
use crate::ground::put_event;
use crate::layout::{LEFT, Layout, MOST_FIELDS, RIGHT};
use crate::marks::{Kind, Mark};
use crate::scene::{Field, Scene};
use svg_text::{Class, Color, Content};

/// Appends a line for each of the first fields that at least two threads load or store, and the sentence of the first lost update.
pub(crate) fn add_fields(page: &mut Content, layout: &Layout, scene: &Scene) {
    let mut lines = 0;
    for (index, field) in scene.fields.as_slice().iter().enumerate() {
        if field.is_shared && lines < MOST_FIELDS {
            let y = layout.fields_y + 24 * lines;
            add_line(page, last_bytes(scene.part(field.name), 22), y);
            add_updates(page, layout, scene, index, y);
            add_accesses(page, layout, scene, index, y);
            lines += 1;
        }
    }
    if let Some(field) = scene.fields.as_slice().get(scene.lost) {
        add_lost(page, layout, scene, field);
    }
}

/// The line of a field at this height, and its name.
fn add_line(page: &mut Content, name: &[u8], y: usize) {
    let below = y.saturating_add(4);
    page.label(Class::QuietLeft, Color::Inherit, LEFT - 10, below, name);
    page.line(Class::Grid, Color::Inherit, LEFT, y, 'H', RIGHT);
}

/// The updates of a field as arcs from load to store, in its line at this height. One that overwrites a store of another thread is red.
fn add_updates(page: &mut Content, layout: &Layout, scene: &Scene, field: usize, y: usize) {
    for mark in scene.marks.as_slice() {
        if mark.is_update(field) {
            put_arc(page, layout, mark, y);
            if matches!(mark.kind, Kind::LostUpdate) {
                page.path(Class::Lost, Color::Inherit);
            } else {
                page.path(Class::Update, Color::Thread(mark.lane));
            }
        }
    }
}

/// Puts an arc from a load to a store, over the line at this height.
fn put_arc(page: &mut Content, layout: &Layout, update: &Mark, y: usize) {
    let from = layout.middle_x(update.from);
    let to = layout.middle_x(update.to);
    page.put_point('M', from, y);
    page.put_point('Q', (from + to) / 2, y.saturating_sub(18));
    page.put_point(' ', to, y);
}

/// The loads of a field as rings and its stores as dots, in its line at this height.
fn add_accesses(page: &mut Content, layout: &Layout, scene: &Scene, field: usize, y: usize) {
    for mark in scene.marks.as_slice() {
        if mark.value == field {
            let x = layout.middle_x(mark.from);
            let color = Color::Thread(mark.lane);
            match mark.kind {
                Kind::Store => page.circle(Class::Store, color, x, y, 2),
                Kind::Load => page.circle(Class::Load, color, x, y, 3),
                _ => {}
            }
        }
    }
}

/// The largest number of bytes of a name in the sentence, so that it fits the picture.
const MOST_NAME_BYTES: usize = 60;

/// The sentence of the first lost update of a field: what it overwrites, and how many more the field has.
fn add_lost(page: &mut Content, layout: &Layout, scene: &Scene, field: &Field) {
    let mut count = 0usize;
    for mark in scene.marks.as_slice() {
        if matches!(mark.kind, Kind::LostUpdate) && mark.value == scene.lost {
            if count == 0 {
                put_update(page, mark, scene.words(field.name));
                put_overwritten(page, scene, mark.other);
            }
            count = count.saturating_add(1);
        }
    }
    if count > 1 {
        page.put(", and ");
        page.put_number(count - 1);
        page.put(" more");
    }
    page.text(Class::Bad, Color::Inherit, 24, layout.lost_y);
}

/// Puts which load and store of a field an update is.
fn put_update(page: &mut Content, update: &Mark, name: &str) {
    page.put("lost update: thread ");
    page.put_number(update.lane);
    page.put(" loads ");
    page.put(short_name(name));
    put_event(page, " at event ", update.from);
    put_event(page, " and stores it at ", update.to);
    page.put("; ");
}

/// The name of a field, if it fits the picture.
fn short_name(name: &str) -> &str {
    if name.len() <= MOST_NAME_BYTES {
        name
    } else {
        "a field of a long name"
    }
}

/// Puts which store an update overwrites, by the index of its mark.
fn put_overwritten(page: &mut Content, scene: &Scene, store: usize) {
    if let Some(store) = scene.marks.as_slice().get(store) {
        page.put("the store of thread ");
        page.put_number(store.lane);
        put_event(page, " at ", store.from);
        page.put(" between is lost");
    }
}
