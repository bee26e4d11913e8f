//! Tooltips of events, and the short names of their instructions.

use crate::layout::Layout;
use crate::marks::{Kind, Mark, part_of};
use crate::scene::Scene;
use std::alloc::Global;
use svg_text::{Attribute, Class, Content, Name, Tag};

/// The largest number of events that have tooltips.
pub const MOST_TIPS: usize = 1_000;

/// The largest number of bytes of a name that has room.
const MOST_BYTES: usize = 13;

/// Appends the name of the instruction of each step, turned by 90 degrees, below the middle of its event.
pub(crate) fn add_names(page: &mut Content, layout: &Layout, scene: &Scene) {
    for mark in scene.marks.as_slice() {
        if matches!(mark.kind, Kind::Name) && mark.value < mark.other {
            let to = mark.other.min(mark.value.saturating_add(MOST_BYTES));
            let name = part_of(scene.text.as_str().as_bytes(), mark.value, to);
            let x = layout.middle_x(mark.from) + 3;
            let y = layout.lane_y(mark.lane) + 48;
            page.label_up(Class::Code, x, y, name);
        }
    }
}

/// The tooltips of the events, where x counts events.
pub fn tips(alloc: Global, layout: &Layout, scene: &Scene) -> Content {
    let mut content = Content::new(alloc);
    for mark in scene.marks.as_slice() {
        if matches!(mark.kind, Kind::Tip) {
            let words = part_of(scene.text.as_str().as_bytes(), mark.value, mark.other);
            add_tip(alloc, &mut content, layout, mark, words);
        }
    }
    content
}

/// The tooltip of an event.
fn add_tip(alloc: Global, content: &mut Content, layout: &Layout, mark: &Mark, words: &[u8]) {
    let mut title = Content::new(alloc);
    title.words(Tag::Title, &[], words);
    content.around(
        Tag::Rect,
        &[
            Attribute::words(Name::Class, Class::Tip.name()),
            Attribute::number(Name::X, mark.from),
            Attribute::number(Name::Y, layout.lane_y(mark.lane)),
            Attribute::number(Name::Width, 1),
            Attribute::number(Name::Height, layout.lane_height(mark.lane)),
        ],
        &title,
    );
}
