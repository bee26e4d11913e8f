//! Stripes below the lanes: the monitors that threads hold.

use crate::layout::{LEFT, Layout};
use crate::marks::{Kind, Mark};
use crate::scene::Scene;
use svg_text::{Class, Color, Content};

/// How wide the letters of a monitor are, which stand to the left of its stripe.
const LETTER_ROOM: usize = 16;

/// Appends the stripes of all lanes. A high lane has room for those of three depths, a low one for two.
pub(crate) fn add_stripes(page: &mut Content, layout: &Layout, scene: &Scene) {
    for thread in 0..layout.lanes {
        add_row(page, layout, scene, thread, 0);
        add_row(page, layout, scene, thread, 1);
        if !layout.is_compact {
            add_row(page, layout, scene, thread, 2);
        }
    }
}

/// The stripes of a lane at one depth. The letters of each are written if they have room between the stripe before it and this one.
fn add_row(page: &mut Content, layout: &Layout, scene: &Scene, lane: usize, depth: usize) {
    let has_letters = depth == 0 || !layout.is_compact;
    let y = layout.stripe_y(lane, depth);
    let mut end = LEFT - LETTER_ROOM;
    for mark in scene.marks.as_slice() {
        if mark.is(Kind::Held, lane) && mark.other == depth {
            let from = layout.x(mark.from);
            add_stripe(page, layout, mark, y);
            if has_letters && from >= end.saturating_add(LETTER_ROOM) {
                put_letters(page, mark.value);
                page.text(Class::Letter, Color::Inherit, from - 3, y + 3);
            }
            end = layout.x(mark.to);
        }
    }
}

/// A stripe in the color of its monitor, at this height.
fn add_stripe(page: &mut Content, layout: &Layout, held: &Mark, y: usize) {
    let class = if layout.is_compact {
        Class::HeldSlim
    } else {
        Class::Held
    };
    let from = layout.x(held.from);
    let to = layout.x(held.to).max(from + 2);
    page.line(class, Color::Monitor(held.value), from, y, 'H', to);
}

/// Puts the letters of a monitor, by its number from 0 in the order of first entries: A to Z, then AA to AZ.
fn put_letters(page: &mut Content, monitor: usize) {
    if monitor >= 26 {
        page.put("A");
    }
    page.put(letter_of(monitor));
}

/// The last letter of a monitor.
pub fn letter_of(monitor: usize) -> &'static str {
    const LETTERS: [&str; 26] = [
        "A", "B", "C", "D", "E", "F", "G", "H", "I", "J", "K", "L", "M", "N", "O", "P", "Q", "R",
        "S", "T", "U", "V", "W", "X", "Y", "Z",
    ];
    LETTERS[monitor % 26]
}
